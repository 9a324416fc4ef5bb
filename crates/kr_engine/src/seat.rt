//! A seat, which one thread holds.
ghost use Rattle.std.specs.Prelude.{◌≡◌, ◌≢◌, true, false, length, IfOk, IfErr, OnOk, OnErr, Some, None, Err};
ghost use mathlib.Core.List.{IsPrefix};
ghost use Rattle.kr_model.specs.Step.{is_end as ends};
ghost use Rattle.kr_records.specs.Notes.{KnowsAll, KnowsNoneFrom};
ghost use Rattle.kr_records.specs.declared.faults.EngineFault.TheVariants as fault;
ghost use Rattle.kr_records.specs.Faults.{is_unbegun, is_blocked, is_of_begin, is_of_try, is_of_call};
ghost use Rattle.kr_records.specs.Closed.{lent};
ghost use Rattle.kr_records.specs.Seats.{Shows, SeesFault, ToldFault, IsOpen, IsIdle};

use crate::engine::Engine;
use kr_model::{Op, Txn};
use kr_protocol::Covered;
use kr_records::{Change, EngineFault, EngineName, Receipt, SeatState, Share, Watch, change_of};
use std::alloc::AllocError;
use std::marker::Model;
use std::sync::Wait;

/// A seat of an engine, by which one thread does the steps of transactions, one transaction after another. Contracts see
/// what it keeps of its own.
#[derive(Drop)]
pub struct Seat<'a, P: Covered, K: EngineName> {
    pub(crate) engine: &'a Engine<P, K>,
    pub(crate) state: SeatState<K>,
}

impl<'a, P: Covered, K: EngineName> Model for Seat<'a, P, K> {
    ghost use Rattle.kr_records.specs.Seats.{Held};

    ghost Value = { Held };

    ghost view = { λ s. s.state };
}

impl<'a, P: Covered, K: EngineName> Seat<'a, P, K> {
    /// Begins a transaction's number, for which the seat speaks from then on. It waits for the lock alone.
    ///
    /// The first of these that applies is answered, and nothing has changed:
    ///
    /// - `Open`: the transaction that the seat speaks for is active.
    /// - `Taken`: the number was begun before, by whichever seat.
    /// - `RowFull`: the used and the kept places are all places of the row.
    /// - `Memory`: a growth was refused.
    ///
    /// `PlaceTaken`, where the core's record of the seat isn't the seat's, comes before these, and only by a fault of the
    /// engine.
    pub fn begin<R: Wait>(&mut self, rt: &R, txn: Txn) -> Result<(), EngineFault>
        ensures ok { OnOk result (self.new ≡ record self.old { speaks = Some txn }) }
        ensures err { OnErr result (self.new ≡ self.old) }
        ensures faults { IfErr result (λ f. f ≢ fault.PlaceTaken → is_of_begin f ≡ true) }
        ensures only_open { result ≡ Err fault.Open → IsOpen K.table K.opening self.old }
    {
        let engine = self.engine;
        let seat = &mut self.state;
        let mut core = engine.core.lock(rt);
        if !core.fits(seat) {
            return Err(EngineFault::PlaceTaken);
        }
        core.lemma_history_begins_with_view(&seat.view);
        core.lemma_invariant();
        match core.begin(&engine.row, seat.seat, txn) {
            Ok(()) => {
                seat.speaks = Some(txn);
                Ok(())
            }
            Err(fault) => Err(fault),
        }
    }

    /// One attempt at an operation of the transaction that the seat speaks for. It waits for the lock alone: where the step
    /// is blocked it answers `Refused`.
    ///
    /// At Ok the step is done and its entry written, and at a refusal nothing was done; in both the seat has then seen the
    /// whole history. At any other fault the seat is as it was:
    ///
    /// - `NotBegun`: the seat has begun no number.
    /// - `RowFull`: the used and the kept places are all places, and the operation is neither commit nor abort.
    /// - `Memory`: a growth was refused. The end of an active transaction never answers so.
    /// - `PlaceTaken`: the next place refused the write, or the core's record of the seat isn't the seat's.
    pub fn try_call<R: Wait>(&mut self, rt: &R, op: Op) -> Result<Receipt, EngineFault>
        ensures seat { (self.new.seat ≡ self.old.seat) × (self.new.speaks ≡ self.old.speaks) }
        ensures begins { IsPrefix self.old.view self.new.view }
        ensures done { IfOk result (λ r. Shows K.table K.opening self.old self.new op r) }
        ensures fault { IfErr result (λ f. SeesFault K.table K.opening self.old self.new op f) }
        ensures faults { IfErr result (λ f. is_of_try f ≡ true) }
        ensures unbegun { self.old.speaks ≡ None → result ≡ Err fault.NotBegun }
        ensures only_unbegun { IfErr result (λ f. is_unbegun f ≡ true → self.old.speaks ≡ None) }
        ensures only_full { result ≡ Err fault.RowFull → ends op ≡ false }
        ensures memory { result ≡ Err fault.Memory → ends op ≡ true → IsIdle K.table K.opening self.old }
    {
        let engine = self.engine;
        let mut core = engine.core.lock(rt);
        let result = core.attempt_under_lock(&engine.row, &mut self.state, op);
        if let Ok(receipt) = &result {
            engine.pass_on(&core, change_of(&receipt.reply));
        }
        result
    }

    /// The same, but while the step is blocked it waits, and attempts it again when a step of another seat may have let it
    /// go on, or closed a cycle. Where the wait would close a cycle of waiting transactions it answers `Deadlock` at once.
    /// At a fault that isn't a refusal the seat may have seen more. It never answers that the step is blocked.
    pub fn call<R: Wait>(&mut self, rt: &R, op: Op) -> Result<Receipt, EngineFault>
        ensures seat { (self.new.seat ≡ self.old.seat) × (self.new.speaks ≡ self.old.speaks) }
        ensures begins { IsPrefix self.old.view self.new.view }
        ensures done { IfOk result (λ r. Shows K.table K.opening self.old self.new op r) }
        ensures fault { IfErr result (λ f. ToldFault K.table K.opening self.old self.new op f) }
        ensures faults { IfErr result (λ f. is_of_call f ≡ true) }
        ensures unbegun { self.old.speaks ≡ None → result ≡ Err fault.NotBegun }
        ensures only_unbegun { IfErr result (λ f. is_unbegun f ≡ true → self.old.speaks ≡ None) }
        ensures only_full { result ≡ Err fault.RowFull → ends op ≡ false }
        ensures memory { result ≡ Err fault.Memory → ends op ≡ true → IsIdle K.table K.opening self.old }
        ensures free { IfErr result (λ f. is_blocked f ≡ false) }
    {
        let engine = self.engine;
        let seat = &mut self.state;
        let txn = seat.speaks.unwrap_or(0);
        let mut least = Change::Nothing;
        let mut core = engine.core.lock(rt);
        for _ in rt.forever() {
            match core.attempt_or_wait(&engine.row, seat, op) {
                Ok(receipt) => {
                    engine.pass_on(&core, change_of(&receipt.reply).or(least));
                    return Ok(receipt);
                }
                Err(fault) => {
                    engine.pass_on(&core, least);
                    if !fault.is_blocked() {
                        return Err(fault);
                    }
                }
            }
            core = engine.queues.sleep(rt, txn, core);
            // The wake was for one call, and others may be free.
            least = Change::Locks;
        }
        unreachable!()
    }

    /// A watch that knows what the seat has seen, and nothing else yet. It takes no lock; an error where a growth is
    /// refused.
    pub fn watch(&self) -> Result<Watch<'a, K>, AllocError>
        ensures all { IfOk result (λ w. KnowsAll w self.now.view) }
        ensures others { IfOk result (λ w. KnowsNoneFrom w (length self.now.view)) }
    {
        let engine = self.engine;
        Watch::of(engine.alloc, &engine.row, &self.state.view)
    }

    /// Leaves the engine, which notes it, and gives out the seat's share of the history: its number, how many receipts it
    /// has, the place of the last, and what it has seen. A transaction that it leaves active stays so, and its locks are
    /// held for good. It waits for the lock alone.
    pub fn leave<R: Wait>(self, rt: &R) -> Share<K>
        ensures { result ≡ lent self.entry }
    {
        let Seat { engine, state } = self;
        let mut core = engine.core.lock(rt);
        if core.fits(&state) {
            core.leave(state.seat);
        }
        Share::of(state)
    }
}
