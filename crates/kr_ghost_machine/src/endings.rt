//! The transactions that have ended, in a form that can be copied.
ghost use Rattle.std.specs.Prelude.{◌≡◌, ◌+◌, ◌<◌, ◌≤◌, [], IfOk, OnOk, vec_len, vec_capacity};
ghost use Rattle.kr_model.specs.Locks.{add_once, release};

use kr_locks::{Holdings, Memory};
use kr_model::Txn;
use kr_txn::{Ended, Standing};
use std::alloc::Global;
use std::marker::Model;

/// The transactions that have ended, with room for more, and in what order they ended.
#[derive(Drop)]
pub(crate) struct Endings {
    /// Their numbers, to be asked for.
    ended: Ended,
    /// The same numbers, the last that ended last, to be copied.
    order: Vec<Txn>,
    /// How many more have their memory in both.
    room: usize,
}

impl Model for Endings {
    ghost use Rattle.kr_txn.specs.EndedNumbers.{EndedNumbers};
    ghost use Rattle.kr_ghost_machine.specs.Endings.{AreEndings};

    ghost Value = { EndedNumbers };

    ghost view = { λ e. record { numbers = e.ended.numbers; room = e.room } };

    ghost invariant = { λ e. AreEndings e.ended e.order e.room };
}

impl Endings {
    /// No transaction has ended. Takes no memory.
    pub(crate) fn new(alloc: Global) -> Endings
        ensures { result.numbers ≡ [] }
    {
        Endings {
            ended: Ended::new(alloc),
            order: Vec::new(alloc),
            room: 0,
        }
    }

    /// The same transactions.
    pub(crate) fn ended(&self) -> &Ended
        ensures { result.now.numbers ≡ self.now.numbers }
    {
        &self.ended
    }

    /// Takes the memory that so many more need. Where a growth is refused, they stay, and so does the room.
    pub(crate) fn make_room(&mut self, count: usize) -> Result<(), Memory>
        ensures numbers { self.new.numbers ≡ self.old.numbers }
        ensures ok { OnOk result (count ≤ self.new.room) }
        ensures room { self.old.room ≤ self.new.room }
    {
        self.ended.make_room(count)?;
        self.order.reserve(count)?;
        if self.room < count {
            self.room = count;
        }
        Ok(())
    }

    /// Notes that a transaction has ended. Takes no memory.
    pub(crate) fn add(&mut self, txn: Txn)
        requires { 0 < self.old.room }
        ensures numbers { self.new.numbers ≡ add_once txn self.old.numbers }
        ensures room { self.old.room ≤ self.new.room + 1 }
    {
        self.room -= 1;
        self.ended.add(txn);
        self.order.push_reserved(txn);
    }

    /// A copy, with room for as many more; or `Memory` where a growth is refused.
    pub(crate) fn try_copy(&self) -> Result<Endings, Memory>
        ensures { IfOk result (λ copy. copy ≡ self.now) }
    {
        let mut copy = Endings::new(*self.order.allocator());
        let count = self.order.len() + self.room;
        copy.make_room(count)?;
        for &txn in &self.order {
            copy.add(txn);
        }
        copy.room = self.room;
        Ok(copy)
    }
}

/// Takes room for a transaction among the active ones, now, and among the ended ones, later.
pub(crate) fn make_room(ended: &mut Endings, active: &mut Vec<Standing>) -> Result<(), Memory>
    requires { vec_len active.old ≤ ended.old.room }
    ensures ended { ended.new.numbers ≡ ended.old.numbers }
    ensures active { active.new.items ≡ active.old.items }
    ensures room { vec_len active.new ≤ ended.new.room }
    ensures ok { OnOk result (vec_len active.new + 1 ≤ ended.new.room) }
    ensures one_more { OnOk result (vec_len active.new < vec_capacity active.new) }
{
    let more = active.len() + 1;
    ended.make_room(more)?;
    active.reserve(1)?;
    Ok(())
}

/// Lets a transaction go: it holds no lock any more, and has ended. Takes no memory.
pub(crate) fn leave<L: Holdings>(locks: &mut L, ended: &mut Endings, txn: Txn)
    requires { 0 < ended.old.room }
    ensures locks { L.locks locks.new ≡ release (L.locks locks.old) txn }
    ensures ended { ended.new.numbers ≡ add_once txn ended.old.numbers }
    ensures room { ended.old.room ≤ ended.new.room + 1 }
{
    locks.release(txn);
    ended.add(txn);
}
