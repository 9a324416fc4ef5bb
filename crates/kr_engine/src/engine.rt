//! One lock over the core.
ghost use Rattle.std.specs.Prelude.{◌≡◌, ◌≢◌, All, IfOk, None, Err, []};
ghost use Rattle.kr_model.specs.Map.{IsMap};
ghost use Rattle.kr_records.specs.Notes.{KnowsNoneFrom};
ghost use Rattle.std.specs.List.Sorted.{IsStrictlyIncreasing};
ghost use Rattle.kr_records.specs.declared.closing.CloseFault.TheVariants as close_fault;
ghost use Rattle.kr_records.specs.Closed.{IsClosed};
ghost use Rattle.kr_records.specs.declared.wakes.Change.TheVariants as change_is;
ghost use Rattle.kr_records.specs.Waits.{in_the_way};

use crate::kernel::Core;
use crate::seat::Seat;
use kr_model::Txns;
use kr_protocol::Covered;
use kr_records::{
    Change, CloseFault, EngineName, History, PlaceRow, Queues, SeatState, Share, Watch, Woken,
};
use std::alloc::{AllocError, Global};
use std::sync::{Mutex, Wait};

/// A machine under one lock, with a row of places for its history. Threads do the steps of transactions by its seats, and
/// read the row by watches.
pub struct Engine<P: Covered, K: EngineName> {
    pub(crate) alloc: Global,
    pub(crate) row: PlaceRow,
    pub(crate) core: Mutex<Core<P, K>>,
    /// Where calls sleep whose steps are blocked.
    pub(crate) queues: Queues,
    ghost row_is: { row ≡ K.places },
}

impl<P: Covered, K: EngineName> Engine<P, K> {
    /// An engine without seats and history, with this protocol, this row and an opening whose keys rise; or an error where
    /// a growth is refused.
    pub fn new(
        alloc: Global,
        protocol: P,
        opening: &[(u64, u64)],
        row: PlaceRow,
    ) -> Result<Engine<P, K>, AllocError>
        requires row { row ≡ K.places }
        requires opening { opening.now ≡ K.opening }
        requires table { P.table protocol ≡ K.table }
        requires is_map { IsMap opening.now }
    {
        let queues = Queues::new(alloc)?;
        let core = Core::new(alloc, protocol, opening, &row)?;
        Ok(Engine {
            alloc,
            row,
            core: Mutex::new(core),
            queues,
        })
    }

    /// Gives a seat, which has done and seen nothing. Seats are numbered from 0, in the order in which they are given. An
    /// error where a growth is refused; then none was given.
    pub fn seat<R: Wait>(&self, rt: &R) -> Result<Seat<'_, P, K>, AllocError>
        ensures { IfOk result (λ s. s ≡ record { seat = s.seat; speaks = None; count = 0; last = None; view = [] }) }
    {
        let mut core = self.core.lock(rt);
        let number = core.new_seat()?;
        Ok(Seat {
            engine: self,
            state: SeatState::new(number, &self.row),
        })
    }

    /// A watch that knows nothing yet. It takes no lock, so it reads while others call; an error where a growth is refused.
    pub fn watch(&self) -> Result<Watch<'_, K>, AllocError>
        ensures { IfOk result (λ w. KnowsNoneFrom w 0) }
    {
        Watch::new(self.alloc, &self.row)
    }

    /// The history of the engine, compared with what these seats saw which left: the entries in order of place, the index,
    /// the unfinished transactions and the locks after them, and what is noted of each seat.
    /// Nothing changes.
    ///
    /// - `Place`, before anything else: a share doesn't fit the engine. Never where there are no shares.
    /// - `Memory`: a growth was refused.
    pub fn close(&mut self, shares: &[Share<K>]) -> Result<History, CloseFault>
        ensures closed { IfOk result (λ h. IsClosed K.table K.opening h shares.now) }
        ensures place { result ≡ Err close_fault.Place → shares.now ≢ [] }
    {
        let core = self.core.get_mut();
        core.close(&self.row, shares)
    }

    /// The same of an engine that is used no more.
    ///
    /// - `Place`, before anything else: a share doesn't fit the engine. Never where there are no shares.
    /// - `Memory`: a growth was refused.
    pub fn into_history(self, shares: &[Share<K>]) -> Result<History, CloseFault>
        ensures closed { IfOk result (λ h. IsClosed K.table K.opening h shares.now) }
        ensures place { result ≡ Err close_fault.Place → shares.now ≢ [] }
    {
        let mut engine = self;
        engine.close(shares)
    }

    /// The transactions whose calls are noted as waiting now, rising; or an error where a growth is refused. It waits for
    /// the lock alone.
    pub fn waiting<R: Wait>(&self, rt: &R) -> Result<Txns, AllocError>
        ensures { IfOk result (λ txns. IsStrictlyIncreasing txns) }
    {
        self.core.lock(rt).waiting()
    }

    /// Wakes the first call that a change may have let go on, which wakes the next; and where the index is another, each
    /// that may be in a deadlock now. The answer is that first call, and none where each is blocked.
    pub(crate) fn pass_on(&self, core: &Core<P, K>, change: Change) -> Option<Woken>
        ensures { result ≡ None → change ≢ change_is.Nothing → All (λ e. in_the_way (P.table core.now.protocol) core.now.state e ≢ []) core.now.waiting }
    {
        if change == Change::Nothing || core.has_no_waiter() {
            return None;
        }
        let woken = self.wake_first(core);
        if change == Change::Index {
            self.wake_deadlocked(core);
        }
        woken
    }

    /// Wakes the first call that isn't blocked now. The answer is that call, and none where each is blocked.
    fn wake_first(&self, core: &Core<P, K>) -> Option<Woken>
        ensures { result ≡ None → All (λ e. in_the_way (P.table core.now.protocol) core.now.state e ≢ []) core.now.waiting }
    {
        match core.first_free() {
            Some(txn) => Some(self.queues.wake(txn)),
            None => None,
        }
    }

    /// Wakes each call that may be in a deadlock now.
    fn wake_deadlocked(&self, core: &Core<P, K>) {
        match core.deadlocked() {
            Ok(waits) => {
                for wait in &waits {
                    self.queues.wake(wait.txn);
                }
            }
            Err(_) => self.queues.wake_all(),
        }
    }
}

/// By hand, so that crates above call it by its contract and don't prove a destructor of their own.
impl<P: Covered, K: EngineName> Drop for Engine<P, K> {
    fn drop(self) {
        let Engine {
            alloc: _,
            row: _,
            core: _,
            queues: _,
        } = self;
    }
}
