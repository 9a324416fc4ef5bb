//! The attempts of a seat under the lock.
ghost use Rattle.std.specs.Prelude.{◌≡◌, ◌<◌, ◌≤◌, [], true, false, length, None, Err, IfOk, IfErr, Decides};
ghost use mathlib.Core.List.{IsPrefix};
ghost use Rattle.kr_records.specs.declared.faults.EngineFault.TheVariants as fault;
ghost use Rattle.kr_records.specs.Faults.{is_refusal, is_blocked, is_unbegun, is_of_try, is_of_call};
ghost use Rattle.kr_model.specs.Step.{is_end as ends};
ghost use Rattle.kr_records.specs.Histories.{IsHistory, entries_of};
ghost use Rattle.kr_records.specs.Cores.{seat_at};
ghost use Rattle.kr_records.specs.Waits.{IsNoted};
ghost use Rattle.kr_records.specs.Seats.{Shows, SeesFault, ToldFault, IsIdle};

use crate::kernel::Core;
use kr_model::{Op, Txn};
use kr_protocol::Covered;
use kr_records::{Attempted, EngineFault, EngineName, PlaceRow, SeatState, Seen};

impl<P: Covered, K: EngineName> Core<P, K> {
    /// One attempt of a seat, in one hold. What the seat keeps is held against what is noted of it, the step is attempted,
    /// and where it was done or refused the seat has then seen the whole history.
    pub(crate) fn attempt_under_lock(
        &mut self,
        row: &PlaceRow,
        seat: &mut SeatState<K>,
        op: Op,
    ) -> Attempted
        requires row { row.now ≡ K.places }
        ensures seat { (seat.new.seat ≡ seat.old.seat) × (seat.new.speaks ≡ seat.old.speaks) }
        ensures begins { IsPrefix seat.old.view seat.new.view }
        ensures done { IfOk result (λ r. Shows K.table K.opening seat.old seat.new op r) }
        ensures fault { IfErr result (λ f. SeesFault K.table K.opening seat.old seat.new op f) }
        ensures faults { IfErr result (λ f. is_of_try f ≡ true) }
        ensures unbegun { seat.old.speaks ≡ None → result ≡ Err fault.NotBegun }
        ensures only_unbegun { IfErr result (λ f. is_unbegun f ≡ true → seat.old.speaks ≡ None) }
        ensures only_full { result ≡ Err fault.RowFull → ends op ≡ false }
        ensures memory { result ≡ Err fault.Memory → ends op ≡ true → IsIdle K.table K.opening seat.old }
        ensures seen { IfErr result (λ f. is_refusal f ≡ true → seat.new.view ≡ self.new.entries) }
    {
        let Some(txn) = seat.speaks else {
            return Err(EngineFault::NotBegun);
        };
        if !self.fits(seat) {
            return Err(EngineFault::PlaceTaken);
        }
        self.lemma_history_begins_with_view(&seat.view);
        self.lemma_invariant();
        let result = self.perform(row, seat.seat, txn, op);
        match result {
            Ok(receipt) => {
                self.show_history(&mut seat.view);
                seat.count += 1;
                seat.last = Some(receipt.place);
                Ok(receipt)
            }
            Err(fault) => {
                if fault.is_refusal() {
                    self.show_history(&mut seat.view);
                    return Err(fault);
                }
                Err(fault)
            }
        }
    }

    /// The same. Where the step is blocked its operation is noted as waiting in the same hold, and the answer is that it
    /// is blocked; or a deadlock is told.
    pub(crate) fn attempt_or_wait(
        &mut self,
        row: &PlaceRow,
        seat: &mut SeatState<K>,
        op: Op,
    ) -> Attempted
        requires row { row.now ≡ K.places }
        ensures seat { (seat.new.seat ≡ seat.old.seat) × (seat.new.speaks ≡ seat.old.speaks) }
        ensures begins { IsPrefix seat.old.view seat.new.view }
        ensures done { IfOk result (λ r. Shows K.table K.opening seat.old seat.new op r) }
        ensures fault { IfErr result (λ f. ToldFault K.table K.opening seat.old seat.new op f) }
        ensures faults { IfErr result (λ f. is_of_call f ≡ true) }
        ensures unbegun { seat.old.speaks ≡ None → result ≡ Err fault.NotBegun }
        ensures only_unbegun { IfErr result (λ f. is_unbegun f ≡ true → seat.old.speaks ≡ None) }
        ensures only_full { result ≡ Err fault.RowFull → ends op ≡ false }
        ensures memory { result ≡ Err fault.Memory → ends op ≡ true → IsIdle K.table K.opening seat.old }
        ensures noted { IfErr result (λ f. is_blocked f ≡ true → IsNoted self.new.waiting seat.old.speaks op) }
    {
        let Some(txn) = seat.speaks else {
            return Err(EngineFault::NotBegun);
        };
        match self.attempt_under_lock(row, seat, op) {
            Ok(receipt) => Ok(receipt),
            Err(fault) => {
                if fault.is_blocked() {
                    self.lemma_invariant();
                    if let Err(stuck) = self.wait(txn, op) {
                        return Err(stuck);
                    }
                    return Err(fault);
                }
                Err(fault)
            }
        }
    }

    /// Whether what a seat keeps fits what is noted of it: it was given, its count is that of its entries, it speaks for the
    /// number that it began last, and its view is no longer than the history.
    pub(crate) fn fits(&self, seat: &SeatState<K>) -> bool
        ensures { Decides result ((length seat.now.view ≤ length self.now.entries) × (seat.now.seat < length self.now.seats) × (entries_of seat.now.seat self.now.entries ≡ seat.now.count) × ((seat_at self.now.seats seat.now.seat).last ≡ seat.now.speaks)) }
    {
        self.lemma_invariant();
        seat.fits(&self.seats, &self.history)
    }

    /// What a seat has seen is where the history begins.
    pub(crate) fn lemma_history_begins_with_view(&self, view: &Seen<K>)
        requires { length view.now ≤ length self.now.entries }
        ensures { IsPrefix view.now self.now.entries }
    {
        view.lemma_is_prefix_of(&self.history);
    }

    /// Shows a seat the whole history.
    pub(crate) fn show_history(&self, view: &mut Seen<K>)
        requires { length view.old ≤ length self.now.entries }
        ensures begins { IsPrefix view.old view.new }
        ensures all { view.new ≡ self.now.entries }
        ensures run { IsHistory K.table K.opening self.now.entries self.now.state }
    {
        view.learn(&self.history);
    }
}
