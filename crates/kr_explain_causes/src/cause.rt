//! Failed cases, put together by what is to blame.
ghost use Rattle.std.specs.Prelude.{◌≡◌, ◌<◌, ◌++◌, List, Some, IfOk, All, length};
ghost use Rattle.std.specs.List.{Any};
ghost use Rattle.std.specs.List.Sorted.{IsPermutation};
ghost use Rattle.kr_explain_causes.specs.Causes.{IsSublist, ShareOut, cases_of};
ghost use Rattle.kr_explain_causes.specs.Shares.{IsCause, IsNamedBy, IsNamedFor, IsSuspect};
ghost use Rattle.kr_explain_causes.specs.declared.blame.Blame.{Blame};
ghost use Rattle.kr_explain_causes.specs.declared.cause.Suspect.{Suspect};

use crate::blame::Blame;
use crate::reasons::{Reasons, reasons_for};
use kr_cases::Memory;
use kr_model::FailedCase;
use kr_protocol::Protocol;
use std::alloc::Global;

/// Failed cases with what is to blame for them.
#[derive(Drop)]
pub struct Cause {
    /// A reason of each of the cases.
    pub blame: Blame,
    /// The cases, in the order in which they were given.
    pub cases: Vec<FailedCase>,
}

/// A failed case that has no cause yet.
#[derive(Clone, Copy)]
struct Suspect {
    case: FailedCase,
    reasons: Reasons,
}

/// How many reasons name something, and the first case that has one of them.
#[derive(Clone, Copy)]
struct Tally {
    blame: Blame,
    count: usize,
    /// The number of that case among the suspects, from 0.
    first: usize,
}

impl Tally {
    /// Whether this is blamed rather than another that was met before it: a void place before all else, then what more
    /// reasons name, then the lower rank.
    fn beats(&self, other: &Tally) -> bool {
        match (self.blame, other.blame) {
            (_, Blame::Place { .. }) => false,
            (Blame::Place { .. }, _) => true,
            _ => {
                self.count > other.count
                    || self.count == other.count && self.blame.rank() < other.blame.rank()
            }
        }
    }
}

/// The failed cases with their reasons.
fn suspects<P: Protocol>(
    alloc: Global,
    protocol: &P,
    failed: &[FailedCase],
) -> Result<Vec<Suspect>, Memory>
    ensures cases { IfOk result (λ suspects. cases_of suspects.items ≡ failed.now) }
    ensures reasons { IfOk result (λ suspects. All (IsSuspect (P.table protocol.now)) suspects.items) }
{
    let mut suspects = Vec::new(alloc);
    for case in failed {
        suspects.push(Suspect {
            case: *case,
            reasons: reasons_for(protocol, case),
        })?;
    }
    Ok(suspects)
}

/// Counts a reason of the suspect with a number.
fn count(tallies: &mut Vec<Tally>, blame: Blame, number: usize) -> Result<(), Memory>
    ensures { (suspects : List Suspect) → IsNamedBy suspects blame number → All (λ t. IsNamedBy suspects t.blame t.first) tallies.old.items → All (λ t. IsNamedBy suspects t.blame t.first) tallies.new.items }
{
    for i in 0..tallies.len() {
        if tallies[i].blame == blame {
            tallies[i].count = tallies[i].count.saturating_add(1);
            return Ok(());
        }
    }
    tallies.push(Tally {
        blame,
        count: 1,
        first: number,
    })?;
    Ok(())
}

/// Counts the reasons that are there, of the suspect with a number.
fn count_each(
    tallies: &mut Vec<Tally>,
    reasons: &[Option<Blame>],
    number: usize,
) -> Result<(), Memory>
    ensures { (suspects : List Suspect) → ((b : Blame) → Any (λ reason. reason ≡ Some b) reasons.now → IsNamedBy suspects b number) → All (λ t. IsNamedBy suspects t.blame t.first) tallies.old.items → All (λ t. IsNamedBy suspects t.blame t.first) tallies.new.items }
{
    for reason in reasons {
        if let Some(blame) = *reason {
            count(tallies, blame, number)?;
        }
    }
    Ok(())
}

/// Counts the reasons of all suspects.
fn tallies(alloc: Global, suspects: &[Suspect]) -> Result<Vec<Tally>, Memory>
    ensures { IfOk result (λ tallies. All (λ t. IsNamedBy suspects.now t.blame t.first) tallies.items) }
{
    let mut tallies = Vec::new(alloc);
    for number in 0..suspects.len() {
        let reasons = suspects[number].reasons;
        count(&mut tallies, reasons.first, number)?;
        count_each(&mut tallies, &reasons.others, number)?;
    }
    Ok(tallies)
}

/// What is blamed next.
fn leader(alloc: Global, suspects: &[Suspect]) -> Result<Tally, Memory>
    requires { 0 < length suspects.now }
    ensures { IfOk result (λ leader. IsNamedBy suspects.now leader.blame leader.first) }
{
    let mut best = Tally {
        blame: suspects[0].reasons.first,
        count: 0,
        first: 0,
    };
    for tally in &tallies(alloc, suspects)? {
        if tally.beats(&best) {
            best = *tally;
        }
    }
    Ok(best)
}

/// The cases that something explains, and the suspects that are left.
#[derive(Drop)]
struct Parted {
    explained: Vec<FailedCase>,
    left: Vec<Suspect>,
}

/// Parts the suspects by what is blamed: those that name it, and the others.
fn part(alloc: Global, suspects: &[Suspect], leader: Tally) -> Result<Parted, Memory>
    requires { IsNamedBy suspects.now leader.blame leader.first }
    ensures same { IfOk result (λ p. IsPermutation (cases_of suspects.now) (p.explained.items ++ cases_of p.left.items)) }
    ensures some { IfOk result (λ p. 0 < length p.explained.items) }
    ensures named { IfOk result (λ p. All (IsNamedFor suspects.now leader.blame) p.explained.items) }
    ensures explained_in_order { IfOk result (λ p. IsSublist p.explained.items (cases_of suspects.now)) }
    ensures left_in_order { IfOk result (λ p. IsSublist p.left.items suspects.now) }
{
    let mut explained = Vec::new(alloc);
    let mut left = Vec::new(alloc);
    for number in 0..suspects.len() {
        let suspect = suspects[number];
        if suspect.reasons.name(leader.blame) {
            explained.push(suspect.case)?;
        } else {
            left.push(suspect)?;
        }
    }
    Ok(Parted { explained, left })
}

/// The failed cases by what is to blame: time after time that which explains the most of the cases left. Each case is
/// in exactly one cause.
pub fn causes<P: Protocol>(
    alloc: Global,
    protocol: &P,
    failed: &[FailedCase],
) -> Result<Vec<Cause>, Memory>
    ensures shared { IfOk result (λ causes. ShareOut causes.items failed.now) }
    ensures each { IfOk result (λ causes. All (IsCause (P.table protocol.now) failed.now) causes.items) }
{
    let mut left = suspects(alloc, protocol, failed)?;
    let mut causes = Vec::new(alloc);
    while !left.is_empty() {
        let leader = leader(alloc, &left)?;
        let parted = part(alloc, &left, leader)?;
        causes.push(Cause {
            blame: leader.blame,
            cases: parted.explained,
        })?;
        left = parted.left;
    }
    Ok(causes)
}
