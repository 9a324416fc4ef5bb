//! Whom a step may let go on, by its reply, and who of those that wait is deadlocked.
ghost use Rattle.std.specs.Prelude.{◌≡◌, ◌≢◌, ◌==◌, ◌<◌, ℕ, List, Contains, true, false, length};
ghost use Rattle.std.specs.List.{list_any};
ghost use Rattle.kr_deadlock.specs.declared.Waiting.{Waiting as Entry};
ghost use Rattle.kr_records.specs.declared.wakes.Change.TheVariants as change;
ghost use Rattle.kr_records.specs.Waits.{AreDeadlocked, HaveEntries, AreHeld};
ghost use Rattle.kr_records.specs.Wakes.{FreesNobody, LeavesKeys, BlocksNobody, change_by, first_change};

use kr_deadlock::Waiting;
use kr_model::{Reply, Txn};

/// What a step changed that those who wait may wait for.
#[derive(Clone, Copy, Debug, PartialEq, Eq)]
pub enum Change {
    /// Locks were added at most, or a key got another value, by which nobody requests another lock.
    Nothing,
    /// Locks were let go.
    Locks,
    /// The index may have other keys, by which those who wait may request other locks.
    Index,
}

impl Change {
    /// This one, or the other where this is nothing.
    pub fn or(self, other: Change) -> Change
        ensures { result ≡ first_change self other }
    {
        match self {
            Change::Nothing => other,
            Change::Locks | Change::Index => self,
        }
    }
}

/// What a granted step with this reply changed.
pub fn change_of(reply: &Reply) -> Change
    ensures is { result ≡ change_by reply.now }
    ensures nothing { result ≡ change.Nothing → FreesNobody reply.now }
    ensures locks { result ≡ change.Locks → BlocksNobody reply.now }
    ensures keys { result ≢ change.Index → LeavesKeys reply.now }
{
    match reply {
        Reply::Committed => Change::Locks,
        Reply::Aborted | Reply::Done | Reply::Deleted(_) | Reply::Undone(_) => Change::Index,
        Reply::Found(_)
        | Reply::None
        | Reply::Going(_)
        | Reply::Rows(_)
        | Reply::Duplicate
        | Reply::Absent
        | Reply::Updated(_)
        | Reply::Blocked(_)
        | Reply::Refused(_) => Change::Nothing,
    }
}

/// Takes out those whom none of the rest blocks, again and again. Those of which each is blocked by another stay, each that
/// stays is blocked by one that stays, and nobody comes.
pub fn shed_all(mut waits: Vec<Waiting>) -> Vec<Waiting>
    ensures stay { (blockers : ℕ → List ℕ) (txns : List ℕ) → AreDeadlocked blockers txns → HaveEntries blockers txns waits.items → HaveEntries blockers txns result.items }
    ensures held { AreHeld result.items }
    ensures given { (w : Entry) → Contains result.items w → Contains waits.items w }
{
    while shed(&mut waits) {}
    waits
}

/// Takes out those whom none of the rest blocks. Whether there were any. Those of which each is blocked by another stay, and
/// nobody comes.
fn shed(waits: &mut Vec<Waiting>) -> bool
    ensures stay { (blockers : ℕ → List ℕ) (txns : List ℕ) → AreDeadlocked blockers txns → HaveEntries blockers txns waits.old.items → HaveEntries blockers txns waits.new.items }
    ensures fewer { result ≡ true → length waits.new.items < length waits.old.items }
    ensures held { result ≡ false → AreHeld waits.new.items }
    ensures given { (w : Entry) → Contains waits.new.items w → Contains waits.old.items w }
{
    let count = waits.len();
    for place in (0..count).rev() {
        if !is_held(waits, &waits[place].blockers) {
            waits.swap_remove(place);
        }
    }
    waits.len() < count
}

/// Whether one of these waits.
fn is_held(waits: &[Waiting], blockers: &[Txn]) -> bool
    ensures { result ≡ list_any (λ u. list_any (λ w. w.txn == u) waits.now) blockers.now }
{
    for &blocker in blockers {
        if has_entry(waits, blocker) {
            return true;
        }
    }
    false
}

/// Whether one of these entries is of the transaction.
fn has_entry(waits: &[Waiting], txn: Txn) -> bool
    ensures { result ≡ list_any (λ w. w.txn == txn) waits.now }
{
    for wait in waits {
        if wait.txn == txn {
            return true;
        }
    }
    false
}
