//! The locks on one name.
ghost use Rattle.std.specs.Prelude.{◌≡◌, ◌≢◌, ◌<◌, ◌≤◌, ◌↔◌, ◌==◌, ℕ, [], ◌∷◌, None, IsTrue, IsOk, OnOk, OnErr, IfOk, length, slice_index_or, filter, map, unwrap_or};
ghost use Rattle.std.specs.Ordering.{nat_cmp};
ghost use Rattle.std.specs.FinMap.{find, put};
ghost use Rattle.kr_locks.specs.Buckets.{IsHolders, without, holder_conflicts};

use crate::holders::{leave, mask_of, mode_of, store};
use crate::{Memory, Mode, Txn};
use kr_protocol::Protocol;
use smallvec::SmallVec;
use std::alloc::Global;
use std::marker::Model;

/// The transactions that hold a lock on one name, rising, each with its mode, and the mask of all their modes.
#[derive(Drop)]
pub(crate) struct Bucket {
    holders: SmallVec<(Txn, Mode), 4>,
    mask: u16,
}

impl Model for Bucket {
    ghost use Rattle.std.specs.Prelude.{ℕ, List};
    ghost use Rattle.kr_locks.specs.Buckets.{IsHolders, HasModes};

    ghost Value = { List (ℕ × ℕ) };

    ghost view = { λ b. b.holders.items };

    ghost invariant = { λ b. IsHolders b.holders.items × HasModes b.mask b.holders.items };
}

/// Whether a holder is another transaction, and a mode conflicts with its mode.
fn conflicts<P: Protocol>(protocol: &P, txn: Txn, mode: Mode, holder: (Txn, Mode)) -> bool
    requires asked { mode ≤ (P.table protocol.now).count }
    requires held { holder.1 ≤ (P.table protocol.now).count }
    ensures { result ≡ holder_conflicts (P.table protocol.now) txn mode holder }
{
    holder.0 != txn && !protocol.ok(mode, holder.1)
}

impl Bucket {
    /// One transaction with its mode. Takes no memory.
    pub(crate) fn of_one(alloc: Global, txn: Txn, mode: Mode) -> Bucket
        ensures { result ≡ (txn, mode) ∷ [] }
    {
        let mut holders = SmallVec::new(alloc);
        holders.push_reserved((txn, mode));
        let mask = mask_of(holders.as_slice());
        Bucket { holders, mask }
    }

    /// The mode of a transaction, or 0.
    pub(crate) fn own(&self, txn: Txn) -> Mode
        ensures mode { result ≡ unwrap_or (find nat_cmp txn self.now) 0 }
        ensures in_order { IsHolders self.now }
    {
        mode_of(self.holders.as_slice(), txn)
    }

    /// Whether no transaction holds a lock.
    pub(crate) fn is_empty(&self) -> bool
        ensures { result ≡ (length self.now == 0) }
    {
        self.holders.is_empty()
    }

    /// The holders, by transaction.
    pub(crate) fn holders(&self) -> &[(Txn, Mode)]
        ensures holders { result.now ≡ self.now }
        ensures in_order { IsHolders self.now }
    {
        self.holders.as_slice()
    }

    /// Writes the mode of a transaction. One that is there takes no memory.
    pub(crate) fn keep(&mut self, txn: Txn, mode: Mode) -> Result<(), Memory>
        ensures ok { OnOk result (self.new ≡ put nat_cmp txn mode self.old) }
        ensures err { OnErr result (self.new ≡ self.old) }
        ensures there { find nat_cmp txn self.old ≢ None → IsOk result }
    {
        store(&mut self.holders, txn, mode)?;
        self.mask = mask_of(self.holders.as_slice());
        Ok(())
    }

    /// Takes a transaction away.
    pub(crate) fn forget(&mut self, txn: Txn)
        ensures { self.new ≡ without txn self.old }
    {
        leave(&mut self.holders, txn);
        self.mask = mask_of(self.holders.as_slice());
    }

    /// Whether no other transaction holds a mode beside which this one may not stand. Where the mask shares no bit with
    /// the modes that it conflicts with, no holder is looked at.
    pub(crate) fn is_free<P: Protocol>(&self, protocol: &P, txn: Txn, mode: Mode) -> bool
        requires asked { mode ≤ (P.table protocol.now).count }
        requires held { (i : ℕ) (d : ℕ × ℕ) → i < length self.now → (slice_index_or self.now i d).1 ≤ (P.table protocol.now).count }
        ensures { IsTrue result ↔ (filter (holder_conflicts (P.table protocol.now) txn mode) self.now ≡ []) }
    {
        if protocol.row(mode) & self.mask == 0 {
            return true;
        }
        for &holder in self.holders.as_slice() {
            if conflicts(protocol, txn, mode, holder) {
                return false;
            }
        }
        true
    }

    /// The other transactions that hold a mode beside which this one may not stand, rising.
    pub(crate) fn conflicting<P: Protocol>(
        &self,
        alloc: Global,
        protocol: &P,
        txn: Txn,
        mode: Mode,
    ) -> Result<Vec<Txn>, Memory>
        requires asked { mode ≤ (P.table protocol.now).count }
        requires held { (i : ℕ) (d : ℕ × ℕ) → i < length self.now → (slice_index_or self.now i d).1 ≤ (P.table protocol.now).count }
        ensures { IfOk result (λ list. list.items ≡ map (λ h. h.0) (filter (holder_conflicts (P.table protocol.now) txn mode) self.now)) }
    {
        let mut list = Vec::with_capacity(alloc, self.holders.len())?;
        for &holder in self.holders.as_slice() {
            if conflicts(protocol, txn, mode, holder) {
                list.push(holder.0)?;
            }
        }
        Ok(list)
    }
}
