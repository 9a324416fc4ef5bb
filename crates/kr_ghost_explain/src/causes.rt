//! Failed cases, put together by what is to blame.
ghost use Rattle.std.specs.Prelude.{◌≡◌, ◌<◌, ◌++◌, IfOk, All, length};
ghost use Rattle.std.specs.List.Sorted.{IsPermutation};
ghost use Rattle.kr_ghost.specs.Protocol.{GhostProtocol};
ghost use Rattle.kr_ghost_explain.specs.Blames.{AreGhostCauses, IsAbout};
ghost use Rattle.kr_ghost_explain.specs.Blamed.{IsBlamed, cases_of};

use crate::blame::{GhostBlame, blame, is_alone, is_same};
use kr_ghost::FailedCase;
use kr_ghost_protocol::GhostProtocol;
use kr_model::Memory;
use std::alloc::Global;

/// Failed cases with what is to blame for them.
#[derive(Drop)]
pub struct GhostCause {
    /// What has to do with each of the cases.
    pub blame: GhostBlame,
    /// The cases, in the order in which they fail.
    pub cases: Vec<FailedCase>,
}

/// A failed case with what is to blame for it.
#[derive(Clone, Copy)]
struct Blamed {
    case: FailedCase,
    blame: GhostBlame,
}

/// The failed cases by what is to blame, causes in the order of their first cases. Each case is in exactly one cause. The only
/// fault is that a growth was refused.
pub fn ghost_causes<P: GhostProtocol>(
    alloc: Global,
    protocol: &P,
    failed: &[FailedCase],
) -> Result<Vec<GhostCause>, Memory>
    ensures { IfOk result (λ causes. AreGhostCauses (P.ghosts protocol.now) failed.now causes.items) }
{
    let mut left = with_blame(alloc, protocol, failed)?;
    let mut causes = Vec::new(alloc);
    while !left.is_empty() {
        let Parted { cause, rest } = part(alloc, &left)?;
        causes.push(cause)?;
        left = rest;
    }
    Ok(causes)
}

/// The failed cases with what is to blame for them.
fn with_blame<P: GhostProtocol>(
    alloc: Global,
    protocol: &P,
    failed: &[FailedCase],
) -> Result<Vec<Blamed>, Memory>
    ensures cases { IfOk result (λ list. cases_of list.items ≡ failed.now) }
    ensures about { IfOk result (λ list. All (IsBlamed (P.ghosts protocol.now)) list.items) }
{
    let alone = alone(alloc, failed)?;
    let mut list = Vec::new(alloc);
    for case in failed {
        list.push(Blamed {
            case: *case,
            blame: blame(protocol, failed, &alone, case),
        })?;
    }
    Ok(list)
}

/// The cases that fail for one who has no lock there yet.
fn alone(alloc: Global, failed: &[FailedCase]) -> Result<Vec<FailedCase>, Memory> {
    let mut alone = Vec::new(alloc);
    for case in failed {
        if is_alone(case) {
            alone.push(*case)?;
        }
    }
    Ok(alone)
}

/// The first cause, and what is left.
#[derive(Drop)]
struct Parted {
    cause: GhostCause,
    rest: Vec<Blamed>,
}

/// Parts the cases by what is to blame for the first: its cause, and the others.
fn part(alloc: Global, left: &[Blamed]) -> Result<Parted, Memory>
    requires { 0 < length left.now }
    ensures same { IfOk result (λ r. IsPermutation (cases_of left.now) (r.cause.cases.items ++ cases_of r.rest.items)) }
    ensures some { IfOk result (λ r. 0 < length r.cause.cases.items) }
    ensures about { (p : GhostProtocol) → All (IsBlamed p) left.now
        → IfOk result (λ r. All (IsAbout p r.cause.blame) r.cause.cases.items × All (IsBlamed p) r.rest.items) }
{
    let first = left[0];
    let mut cases = vec![in alloc; first.case]?;
    let mut rest = Vec::new(alloc);
    for number in 1..left.len() {
        let item = left[number];
        if is_same(item.blame, first.blame) {
            cases.push(item.case)?;
        } else {
            rest.push(item)?;
        }
    }
    Ok(Parted {
        cause: GhostCause {
            blame: first.blame,
            cases,
        },
        rest,
    })
}
