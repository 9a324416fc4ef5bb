//! The decision.
ghost use Rattle.std.specs.Prelude.{IfOk, IfSome, IfNone};
ghost use Rattle.kr_model.specs.Safe.{IsSafe};
ghost use Rattle.kr_decide.specs.Survey.{IsHole, Decides};

use crate::finding::Found;
use crate::pair::Hole;
use crate::survey::{first_hole, hole_of};
use kr_model::Memory;
use kr_protocol::Protocol;
use std::alloc::Global;

/// Whether a protocol is safe.
#[derive(Debug, Drop)]
pub enum Decision {
    /// It is, and so every run under it is serializable in commit order.
    Safe,
    /// It isn't: some lock lets in what it has to keep out.
    Unsafe(Hole),
}

/// Decides whether a protocol is safe; where it isn't, gives a hole with pairs that lead there, found breadth first. It
/// stops at the first hole. The only fault is that a growth was refused.
pub fn decide<P: Protocol>(alloc: Global, protocol: &P) -> Result<Decision, Memory>
    ensures { IfOk result (Decides (P.table protocol.now)) }
{
    match find_hole(alloc, protocol)? {
        None => Ok(Decision::Safe),
        Some(hole) => Ok(Decision::Unsafe(hole)),
    }
}

/// A hole, or `None` where there is none.
fn find_hole<P: Protocol>(alloc: Global, protocol: &P) -> Result<Option<Hole>, Memory>
    ensures some { IfOk result (λ found. IfSome found (IsHole (P.table protocol.now))) }
    ensures none { IfOk result (λ found. IfNone found (IsSafe (P.table protocol.now))) }
{
    let mut found = Found::new(alloc, protocol)?;
    let mut at = 0;
    while at < found.pairs.len() {
        found.follow(protocol, at)?;
        if let Some(opening) = found.opening_at(protocol, at) {
            return Ok(Some(hole_of(protocol, found, at, opening)));
        }
        at += 1;
    }
    let hole = first_hole(protocol, found);
    Ok(hole)
}
