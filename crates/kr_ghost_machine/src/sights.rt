//! What an operation comes to: what it requests, and what it does where that is granted.
ghost use Rattle.std.specs.Prelude.{◌≡◌, ℕ, List, Some, IfSome, IfNone, unwrap_or};
ghost use Rattle.std.specs.Ordering.{nat_cmp};
ghost use Rattle.std.specs.FinMap.{find};
ghost use Rattle.kr_model.specs.Locks.{AreWithin};
ghost use Rattle.kr_model.specs.State.{Active, idle};
ghost use Rattle.kr_model.specs.declared.Op.TheVariants as op_is;
ghost use Rattle.kr_ghost.specs.Step.{attempted_scan, performed};
ghost use Rattle.kr_txn.specs.Standings.{entries};
ghost use Rattle.kr_ghost_machine.specs.Deeds.{looking};
ghost use Rattle.kr_ghost_machine.specs.Machine.{shown};
ghost use Rattle.kr_ghost_machine.specs.Sights.{HasRange, IsPart, IsSight, attempt_of};

use crate::deeds::{Change, Deed, Glance};
use crate::requests;
use kr_ghost_index::GhostIndex;
use kr_ghost_protocol::GhostProtocol;
use kr_locks::Holdings;
use kr_model::{Name, Op, Plan, Reply, Row, Txn};
use kr_txn::{Standing, position};

/// What an attempt requests, and what it does where that is granted.
#[derive(Drop)]
pub(crate) struct Sight {
    /// Its requests, which are the sides.
    pub(crate) plan: Plan,
    pub(crate) deed: Deed,
}

/// What an operation comes to.
#[derive(Drop)]
pub(crate) enum Part {
    /// It requests locks.
    Attempt(Sight),
    /// Its transaction ends, and its changes stand.
    Commit,
    /// Its transaction ends, and its changes are undone.
    Abort,
    /// The newest change is undone.
    Back,
    /// It goes on with a scan, and none is in progress.
    NoScan,
}

/// What a fetch comes to.
fn fetch<P: GhostProtocol, L: Holdings>(
    protocol: &P,
    index: &GhostIndex,
    locks: &L,
    txn: Txn,
    key: u64,
) -> Sight
    requires { AreWithin (P.table protocol.now).count (L.locks locks.now) }
    ensures performs { (ended : List ℕ) (active : List (ℕ × Active)) → performed (P.ghosts protocol.now) (shown index.now (L.locks locks.now) ended active) txn (op_is.Fetch key) ≡ attempt_of (P.ghosts protocol.now) (shown index.now (L.locks locks.now) ended active) txn result }
    ensures sight { IsSight (P.table protocol.now).count index.now.map result }
{
    let look = index.look(key);
    let plan = requests::keyed(protocol, locks, txn, Row::FetchHit, key, look);
    let reply = match look.value {
        Some(value) => Reply::Found(value),
        None => Reply::None,
    };
    Sight {
        plan,
        deed: Deed::Answer(reply),
    }
}

/// What an insert comes to.
fn insert<P: GhostProtocol, L: Holdings>(
    protocol: &P,
    index: &GhostIndex,
    locks: &L,
    txn: Txn,
    key: u64,
    value: u64,
) -> Sight
    requires { AreWithin (P.table protocol.now).count (L.locks locks.now) }
    ensures performs { (ended : List ℕ) (active : List (ℕ × Active)) → performed (P.ghosts protocol.now) (shown index.now (L.locks locks.now) ended active) txn (op_is.Insert key value) ≡ attempt_of (P.ghosts protocol.now) (shown index.now (L.locks locks.now) ended active) txn result }
    ensures sight { IsSight (P.table protocol.now).count index.now.map result }
{
    let look = index.look(key);
    let plan = requests::insert(protocol, index, locks, txn, key, look);
    let deed = match look.value {
        Some(_) => Deed::Answer(Reply::Duplicate),
        None => Deed::Change(Change {
            key,
            value: Some(value),
            before: None,
        }),
    };
    Sight { plan, deed }
}

/// What a delete comes to.
fn delete<P: GhostProtocol, L: Holdings>(
    protocol: &P,
    index: &GhostIndex,
    locks: &L,
    txn: Txn,
    key: u64,
) -> Sight
    requires { AreWithin (P.table protocol.now).count (L.locks locks.now) }
    ensures performs { (ended : List ℕ) (active : List (ℕ × Active)) → performed (P.ghosts protocol.now) (shown index.now (L.locks locks.now) ended active) txn (op_is.Delete key) ≡ attempt_of (P.ghosts protocol.now) (shown index.now (L.locks locks.now) ended active) txn result }
    ensures sight { IsSight (P.table protocol.now).count index.now.map result }
{
    let look = index.look(key);
    let plan = requests::keyed(protocol, locks, txn, Row::Delete, key, look);
    let deed = match look.value {
        Some(before) => Deed::Change(Change {
            key,
            value: None,
            before: Some(before),
        }),
        None => Deed::Answer(Reply::Absent),
    };
    Sight { plan, deed }
}

/// What an update comes to.
fn update<P: GhostProtocol, L: Holdings>(
    protocol: &P,
    index: &GhostIndex,
    locks: &L,
    txn: Txn,
    key: u64,
    value: u64,
) -> Sight
    requires { AreWithin (P.table protocol.now).count (L.locks locks.now) }
    ensures performs { (ended : List ℕ) (active : List (ℕ × Active)) → performed (P.ghosts protocol.now) (shown index.now (L.locks locks.now) ended active) txn (op_is.Update key value) ≡ attempt_of (P.ghosts protocol.now) (shown index.now (L.locks locks.now) ended active) txn result }
    ensures sight { IsSight (P.table protocol.now).count index.now.map result }
{
    let look = index.look(key);
    let plan = requests::keyed(protocol, locks, txn, Row::Update, key, look);
    let deed = match look.value {
        Some(before) => Deed::Change(Change {
            key,
            value: Some(value),
            before: Some(before),
        }),
        None => Deed::Answer(Reply::Absent),
    };
    Sight { plan, deed }
}

/// What a scan's step comes to, where the scan has the range from `lo` to `hi` left; `begins` has the range of a scan that
/// begins.
fn look<P: GhostProtocol, L: Holdings>(
    protocol: &P,
    index: &GhostIndex,
    locks: &L,
    txn: Txn,
    lo: u64,
    hi: u64,
    begins: Option<(u64, u64)>,
) -> Sight
    requires { AreWithin (P.table protocol.now).count (L.locks locks.now) }
    ensures performs { (ended : List ℕ) (active : List (ℕ × Active)) (rows : List (ℕ × ℕ)) → looking begins (unwrap_or (find nat_cmp txn active) idle).scan ≡ Some (record { lo = lo; hi = hi; rows = rows }) → attempted_scan (P.ghosts protocol.now) (shown index.now (L.locks locks.now) ended active) txn (Some (record { lo = lo; hi = hi; rows = rows })) ≡ attempt_of (P.ghosts protocol.now) (shown index.now (L.locks locks.now) ended active) txn result }
    ensures sight { IsSight (P.table protocol.now).count index.now.map result }
{
    let (name, value) = index.name_from(lo);
    let plan = requests::look(protocol, locks, txn, name, hi);
    let value = match name {
        Name::Key(_) => value,
        Name::End => None,
    };
    Sight {
        plan,
        deed: Deed::Look(Glance {
            begins,
            name,
            value,
        }),
    }
}

/// The range that is left to the scan in progress of a transaction, if there is one.
pub(crate) fn range_left(active: &[Standing], txn: Txn) -> Option<(u64, u64)>
    ensures some { IfSome result (λ r. HasRange r (unwrap_or (find nat_cmp txn (entries active.now)) idle).scan) }
    ensures none { IfNone result ((unwrap_or (find nat_cmp txn (entries active.now)) idle).scan ≡ None) }
{
    match position(active, txn) {
        Some(place) => match &active[place].scan {
            Some(scan) => Some((scan.lo, scan.hi)),
            None => None,
        },
        None => None,
    }
}

/// What an operation comes to that isn't refused.
pub(crate) fn part_of<P: GhostProtocol, L: Holdings>(
    protocol: &P,
    index: &GhostIndex,
    locks: &L,
    active: &[Standing],
    txn: Txn,
    op: Op,
) -> Part
    requires { AreWithin (P.table protocol.now).count (L.locks locks.now) }
    ensures { (ended : List ℕ) → IsPart (P.ghosts protocol.now) (shown index.now (L.locks locks.now) ended (entries active.now)) txn op result }
{
    match op {
        Op::Fetch(key) => Part::Attempt(fetch(protocol, index, locks, txn, key)),
        Op::Insert(key, value) => { Part::Attempt(insert(protocol, index, locks, txn, key, value)) }
        Op::Delete(key) => Part::Attempt(delete(protocol, index, locks, txn, key)),
        Op::Update(key, value) => { Part::Attempt(update(protocol, index, locks, txn, key, value)) }
        Op::Scan(lo, hi) => {
            let begins = Some((lo, hi));
            Part::Attempt(look(protocol, index, locks, txn, lo, hi, begins))
        }
        Op::Go => match range_left(active, txn) {
            Some((lo, hi)) => { Part::Attempt(look(protocol, index, locks, txn, lo, hi, None)) }
            None => Part::NoScan,
        },
        Op::Commit => Part::Commit,
        Op::Abort => Part::Abort,
        Op::Back => Part::Back,
    }
}
