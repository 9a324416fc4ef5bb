//! The closing of an engine.
ghost use Rattle.std.specs.Prelude.{◌≡◌, false, map, Err, IfOk};
ghost use Rattle.std.specs.List.{list_all};
ghost use Rattle.kr_records.specs.declared.closing.CloseFault.TheVariants as fault;
ghost use Rattle.kr_records.specs.Closed.{fits, IsClosed};

use crate::kernel::Core;
use kr_model::{Mode, Name, Pairs, Txn, Txns};
use kr_protocol::Covered;
use kr_records::{CloseFault, EngineName, History, PlaceRow, Share, copies_of, fit_all};
use std::alloc::AllocError;

impl<P: Covered, K: EngineName> Core<P, K> {
    /// The whole history with what is noted of each seat, compared with what seats that left have seen. Nothing changes.
    ///
    /// - `Place`, before anything else, exactly where a share doesn't fit.
    /// - `Memory`: a growth was refused.
    pub(crate) fn close(&self, row: &PlaceRow, shares: &[Share<K>]) -> Result<History, CloseFault>
        requires { row.now ≡ K.places }
        ensures entries { IfOk result (λ h. h.entries.items ≡ self.now.entries) }
        ensures index { IfOk result (λ h. h.index ≡ self.now.state.map) }
        ensures unfinished { IfOk result (λ h. h.unfinished ≡ map (λ a. a.0) self.now.state.active) }
        ensures locks { IfOk result (λ h. h.locks.items ≡ self.now.state.locks) }
        ensures seats { IfOk result (λ h. h.seats.items ≡ self.now.seats) }
        ensures closed { IfOk result (λ h. IsClosed K.table K.opening h shares.now) }
        ensures place { list_all (fits self.now.seats self.now.entries) shares.now ≡ false → result ≡ Err fault.Place }
        ensures only_place { result ≡ Err fault.Place → list_all (fits self.now.seats self.now.entries) shares.now ≡ false }
    {
        self.lemma_invariant();
        if !fit_all(&self.seats, &self.history, shares) {
            return Err(CloseFault::Place);
        }
        match self.history(row) {
            Ok(history) => Ok(history),
            Err(_) => Err(CloseFault::Memory),
        }
    }

    /// A copy of all that is known of the history.
    fn history(&self, row: &PlaceRow) -> Result<History, AllocError>
        requires { row.now ≡ K.places }
        ensures entries { IfOk result (λ h. h.entries.items ≡ self.now.entries) }
        ensures index { IfOk result (λ h. h.index ≡ self.now.state.map) }
        ensures unfinished { IfOk result (λ h. h.unfinished ≡ map (λ a. a.0) self.now.state.active) }
        ensures locks { IfOk result (λ h. h.locks.items ≡ self.now.state.locks) }
        ensures seats { IfOk result (λ h. h.seats.items ≡ self.now.seats) }
    {
        let (index, unfinished, locks) = self.at_end()?;
        let (entries, seats) = copies_of(self.alloc, row, &self.history, &self.seats)?;
        Ok(History {
            entries,
            index,
            unfinished,
            locks,
            seats,
        })
    }

    /// The index, the unfinished transactions and the locks after the entries.
    fn at_end(&self) -> Result<(Pairs, Txns, Vec<((Name, Txn), Mode)>), AllocError>
        ensures index { IfOk result (λ r. r.0 ≡ self.now.state.map) }
        ensures unfinished { IfOk result (λ r. r.1 ≡ map (λ a. a.0) self.now.state.active) }
        ensures locks { IfOk result (λ r. r.2.items ≡ self.now.state.locks) }
    {
        let index = self.machine.index()?;
        let unfinished = self.machine.unfinished()?;
        let locks = self.machine.locks()?;
        Ok((index, unfinished, locks))
    }
}
