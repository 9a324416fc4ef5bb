//! The few holders of locks on one name: each a transaction with its mode, by transaction.
ghost use Rattle.std.specs.Prelude.{◌≡◌, ◌≢◌, ◌<◌, ℕ, None, IsOk, OnOk, OnErr, MatchResult, length, slice_index_or};
ghost use Rattle.std.specs.Ordering.{nat_cmp};
ghost use Rattle.std.specs.FinMap.{find, put};
ghost use Rattle.std.specs.Prelude.{unwrap_or};
ghost use Rattle.kr_locks.specs.Buckets.{IsHolders, IsHolderAt, IsHolderGap, without, HasModes};

use crate::{Memory, Mode, Txn};
use smallvec::SmallVec;

/// The place of a transaction, or the place where it would go.
pub(crate) fn search(holders: &[(Txn, Mode)], txn: Txn) -> Result<usize, usize>
    requires { IsHolders holders.now }
    ensures { MatchResult result (IsHolderAt holders.now txn) (IsHolderGap holders.now txn) }
{
    holders.binary_search_by_key(&txn, |&(other, _)| other)
}

/// The mode of a transaction, or 0.
pub(crate) fn mode_of(holders: &[(Txn, Mode)], txn: Txn) -> Mode
    requires { IsHolders holders.now }
    ensures { result ≡ unwrap_or (find nat_cmp txn holders.now) 0 }
{
    match search(holders, txn) {
        Ok(place) => holders[place].1,
        Err(_) => 0,
    }
}

/// Writes the mode of a transaction. One that is there takes no memory.
pub(crate) fn store(
    holders: &mut SmallVec<(Txn, Mode), 4>,
    txn: Txn,
    mode: Mode,
) -> Result<(), Memory>
    requires { IsHolders holders.old.items }
    ensures ok { OnOk result (holders.new.items ≡ put nat_cmp txn mode holders.old.items) }
    ensures err { OnErr result (holders.new ≡ holders.old) }
    ensures there { find nat_cmp txn holders.old.items ≢ None → IsOk result }
{
    match search(holders.as_slice(), txn) {
        Ok(place) => holders.as_mut_slice()[place] = (txn, mode),
        Err(place) => holders.insert(place, (txn, mode))?,
    }
    Ok(())
}

/// Takes a transaction away.
pub(crate) fn leave(holders: &mut SmallVec<(Txn, Mode), 4>, txn: Txn)
    requires { IsHolders holders.old.items }
    ensures { holders.new.items ≡ without txn holders.old.items }
{
    if let Ok(place) = search(holders.as_slice(), txn) {
        holders.remove(place);
    }
}

/// The mask of the holders' modes: bit `m` is set where one holds mode `m`.
pub(crate) fn mask_of(holders: &[(Txn, Mode)]) -> u16
    ensures { HasModes result holders.now }
{
    let mut mask: u16 = 0;
    for &(_, mode) in holders {
        if mode < 16 {
            mask |= 1 << mode;
        }
    }
    mask
}
