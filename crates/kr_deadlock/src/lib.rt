//! Who waits for whom: the search for a cycle of waiting transactions, which is a deadlock.
#![tactic(auto)]

ghost use Rattle.std.specs.Prelude.{◌≡◌, ℕ, ◌+◌, ◌<◌, ◌≤◌, List, IfOk, IfSome, IfNone, OnOk, None, length, IsTrue, false};
ghost use Rattle.std.specs.List.{Contains};
ghost use Rattle.kr_deadlock.specs.Waits.{blockers_of, IsCycle};
ghost use Rattle.kr_deadlock.specs.Search.{ArePlaces, IsSearch, IsTree, IsPath, GoesOn, AreFollowed, found_at, blockers_at};

use std::alloc::{AllocError, Global};
use std::collections::BTreeMap;

/// A transaction that waits.
#[derive(Debug, Drop)]
pub struct Waiting {
    /// Its number.
    pub txn: u32,
    /// The transactions that block it, in any order.
    pub blockers: Vec<u32>,
}

/// The requester, or a waiting transaction that blocks it, at once or through others.
#[derive(Clone, Copy)]
struct Found {
    /// Its number.
    txn: u32,
    /// Where its entry stands.
    place: usize,
    /// Which of the found ones waits for it.
    from: usize,
}

/// A cycle of waiting transactions in which the requester is first: distinct transactions, each blocked by the next, the last
/// by the requester; any one where there are several. `None` exactly where there is no such cycle.
///
/// Of several entries of one transaction the first counts. Each entry is read at most once. The only error is that memory
/// was refused.
pub fn find_cycle(
    alloc: Global,
    waits: &[Waiting],
    asker: u32,
) -> Result<Option<Vec<u32>>, AllocError>
    ensures cycle { IfOk result (λ found. IfSome found (λ cycle. IsCycle (blockers_of waits.now) asker cycle.items)) }
    ensures none { IfOk result (λ found. IfNone found ((cycle : List ℕ) → IsCycle (blockers_of waits.now) asker cycle → ⊥)) }
{
    let mut unfound = places_of(alloc, waits)?;
    let Some(place) = unfound.remove(&asker) else {
        return Ok(None);
    };
    let mut found = Vec::new(alloc);
    found.push(Found {
        txn: asker,
        place,
        from: 0,
    })?;
    let mut next = 0;
    while next < found.len() {
        if follow(waits, asker, &mut found, &mut unfound, next)? {
            let cycle = path_to(alloc, &found, next)?;
            return Ok(Some(cycle));
        }
        next += 1;
    }
    Ok(None)
}

/// Where the first entry of each transaction stands.
fn places_of(alloc: Global, waits: &[Waiting]) -> Result<BTreeMap<u32, usize>, AllocError>
    ensures { IfOk result (ArePlaces waits.now) }
{
    let mut places = BTreeMap::new(alloc);
    for place in (0..waits.len()).rev() {
        places.insert(waits[place].txn, place)?;
    }
    Ok(places)
}

/// Tells whether the requester blocks a found transaction; if not, finds all that do and wait.
fn follow(
    waits: &[Waiting],
    asker: u32,
    found: &mut Vec<Found>,
    unfound: &mut BTreeMap<u32, usize>,
    from: usize,
) -> Result<bool, AllocError>
    requires search { IsSearch waits.now asker found.old.items unfound.old }
    requires within { from < length found.old.items }
    ensures search { OnOk result (IsSearch waits.now asker found.new.items unfound.new) }
    ensures goes_on { OnOk result (GoesOn found.old.items unfound.old found.new.items unfound.new) }
    ensures asker { IfOk result (λ met. IsTrue met → Contains (blockers_at waits.now found.old.items from) asker) }
    ensures others { IfOk result (λ met. met ≡ false → AreFollowed asker unfound.new (blockers_at waits.now found.old.items from)) }
{
    let place = found[from].place;
    for &blocker in &waits[place].blockers {
        if blocker == asker {
            return Ok(true);
        }
        if let Some(place) = unfound.remove(&blocker) {
            found.push(Found {
                txn: blocker,
                place,
                from,
            })?;
        }
    }
    Ok(false)
}

/// The way from the requester to a found transaction.
fn path_to(alloc: Global, found: &[Found], last: usize) -> Result<Vec<u32>, AllocError>
    requires within { last < length found.now }
    requires before { (k : ℕ) → 0 < k → k < length found.now → (found_at found.now k).from < k }
    ensures { IfOk result (λ path. (waits : List Waiting) (asker : ℕ) → IsTree waits asker found.now → IsPath waits asker found.now last path.items) }
{
    let mut path = Vec::new(alloc);
    let mut at = last;
    path.push(found[at].txn)?;
    while at > 0 {
        at = found[at].from;
        path.push(found[at].txn)?;
    }
    path.reverse();
    Ok(path)
}
