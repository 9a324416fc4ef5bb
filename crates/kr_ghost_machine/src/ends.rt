//! The end of a transaction, and a change undone.
ghost use Rattle.std.specs.Prelude.{◌≡◌, ℕ, ◌+◌, ◌≤◌, IfOk, IsErr, None, OnErr, OnOk, if◌then◌else◌, unwrap_or, vec_len};
ghost use Rattle.std.specs.Ordering.{nat_cmp};
ghost use Rattle.std.specs.FinMap.{find};
ghost use Rattle.kr_model.specs.Map.{restore_all};
ghost use Rattle.kr_model.specs.Protocol.{Protocol};
ghost use Rattle.kr_model.specs.State.{idle};
ghost use Rattle.kr_model.specs.declared.Op.TheVariants as op_is;
ghost use Rattle.kr_ghost.specs.Protocol.{GhostProtocol};
ghost use Rattle.kr_ghost.specs.State.{ghosts_restored};
ghost use Rattle.kr_ghost.specs.Step.{performed};
ghost use Rattle.kr_model.proofs.Requests.{AreLocks};
ghost use Rattle.kr_txn.specs.Numbered.{without_txn};
ghost use Rattle.kr_txn.specs.Standings.{IsInOrder, active_of, entries};
ghost use Rattle.kr_touch.specs.Pins.{all_changes_of, changes_of};
ghost use Rattle.kr_ghost_index.specs.Index.{changes};
ghost use Rattle.kr_ghost_machine.specs.Machine.{IsAtRest, shown};

use crate::endings::{Endings, leave, make_room};
use kr_ghost_index::GhostIndex;
use kr_locks::{Holdings, Memory};
use kr_model::{Refusal, Reply, Txn};
use kr_txn::{Standing, put_in, take_out};

/// Lets the changes of a transaction stand. Takes no memory.
fn settle(index: &mut GhostIndex, standing: Standing)
    requires { (q : ℕ) → changes_of (active_of standing).changes q ≤ changes index.old q }
    ensures map { index.new.map ≡ index.old.map }
    ensures ghosts { index.new.ghosts ≡ index.old.ghosts }
    ensures changes { (q : ℕ) → changes index.new q + changes_of (active_of standing).changes q ≡ changes index.old q }
{
    let mut changes = standing.changes;
    while let Some((key, _)) = changes.pop() {
        index.settle(key);
    }
}

/// Undoes the changes of a transaction, newest first. Takes no memory.
fn undo(index: &mut GhostIndex, standing: Standing)
    requires { (q : ℕ) → changes_of (active_of standing).changes q ≤ changes index.old q }
    ensures map { index.new.map ≡ restore_all index.old.map (active_of standing).changes }
    ensures ghosts { index.new.ghosts ≡ ghosts_restored index.old.ghosts (active_of standing).changes }
    ensures changes { (q : ℕ) → changes index.new q + changes_of (active_of standing).changes q ≡ changes index.old q }
{
    let mut changes = standing.changes;
    while let Some((key, before)) = changes.pop() {
        index.undo(key, before);
    }
}

/// Takes an active transaction out of the list, or makes a new one, which is to end and has room for that.
fn take_leave(ended: &mut Endings, active: &mut Vec<Standing>, txn: Txn) -> Result<Standing, Memory>
    requires order { IsInOrder active.old.items }
    requires room { vec_len active.old ≤ ended.old.room }
    ensures ended { ended.new.numbers ≡ ended.old.numbers }
    ensures rest { OnOk result (entries active.new.items ≡ without_txn txn (entries active.old.items)) }
    ensures found { IfOk result (λ s. active_of s ≡ unwrap_or (find nat_cmp txn (entries active.old.items)) idle) }
    ensures noted { IfOk result (λ s. (q : ℕ) → all_changes_of (entries active.old.items) q ≡ all_changes_of (entries active.new.items) q + changes_of (active_of s).changes q) }
    ensures room { OnOk result (vec_len active.new + 1 ≤ ended.new.room) }
    ensures err { OnErr result (entries active.new.items ≡ entries active.old.items) }
    ensures memory { IsErr result → find nat_cmp txn (entries active.old.items) ≡ None }
    ensures err_room { OnErr result (vec_len active.new ≤ ended.new.room) }
{
    match take_out(active, txn) {
        Some(standing) => Ok(standing),
        None => {
            make_room(ended, active)?;
            Ok(Standing::new(*active.allocator(), txn))
        }
    }
}

/// Ends a transaction, whose changes stand, or are undone where it aborts. Only one that isn't active takes memory; where
/// that is refused, nothing changes.
pub(crate) fn end<L: Holdings>(
    index: &mut GhostIndex,
    locks: &mut L,
    ended: &mut Endings,
    active: &mut Vec<Standing>,
    txn: Txn,
    aborts: bool,
) -> Result<Reply, Memory>
    requires at_rest { IsAtRest index.old (L.locks locks.old) ended.old active.old }
    ensures step { IfOk result (λ r. (p : GhostProtocol) → performed p (shown index.old (L.locks locks.old) ended.old.numbers (entries active.old.items)) txn (if aborts then op_is.Abort else op_is.Commit) ≡ (r, shown index.new (L.locks locks.new) ended.new.numbers (entries active.new.items))) }
    ensures err { OnErr result (shown index.new (L.locks locks.new) ended.new.numbers (entries active.new.items) ≡ shown index.old (L.locks locks.old) ended.old.numbers (entries active.old.items)) }
    ensures memory { IsErr result → find nat_cmp txn (entries active.old.items) ≡ None }
    ensures at_rest { IsAtRest index.new (L.locks locks.new) ended.new active.new }
    ensures locks { (p : Protocol) → AreLocks p (L.locks locks.old) → AreLocks p (L.locks locks.new) }
{
    let standing = take_leave(ended, active, txn)?;
    leave(locks, ended, txn);
    if aborts {
        undo(index, standing);
        Ok(Reply::Aborted)
    } else {
        settle(index, standing);
        Ok(Reply::Committed)
    }
}

/// Undoes the newest change of a transaction, if there is one: it rolls back from then on, and its scan in progress is
/// dropped. Takes no memory.
pub(crate) fn back<L: Holdings>(
    index: &mut GhostIndex,
    locks: &L,
    ended: &Endings,
    active: &mut Vec<Standing>,
    txn: Txn,
) -> Reply
    requires at_rest { IsAtRest index.old (L.locks locks.now) ended.now active.old }
    ensures step { (p : GhostProtocol) → performed p (shown index.old (L.locks locks.now) ended.now.numbers (entries active.old.items)) txn op_is.Back ≡ (result, shown index.new (L.locks locks.now) ended.now.numbers (entries active.new.items)) }
    ensures at_rest { IsAtRest index.new (L.locks locks.now) ended.now active.new }
{
    let Some(standing) = take_out(active, txn) else {
        return Reply::Refused(Refusal::NothingLeft);
    };
    let mut standing = standing;
    match standing.changes.pop() {
        Some((key, before)) => {
            index.undo(key, before);
            let left = standing.changes.len();
            standing.scan = None;
            standing.rolling = true;
            put_in(active, standing);
            Reply::Undone(left as u64)
        }
        None => {
            put_in(active, standing);
            Reply::Refused(Refusal::NothingLeft)
        }
    }
}
