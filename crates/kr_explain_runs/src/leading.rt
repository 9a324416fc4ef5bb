//! Whether a script leads to a state.
ghost use Rattle.std.specs.Prelude.{◌≡◌, All, IfOk, IsTrue};
ghost use Rattle.std.specs.Ordering.{eq_by_cmp};
ghost use Rattle.kr_model.specs.Locks.{holder_cmp, own};
ghost use Rattle.kr_model.specs.Run.{is_granted};
ghost use Rattle.kr_model.specs.declared.Name.TheVariants.{Key};
ghost use Rattle.kr_explain_runs.specs.declared.keys.TheConstants.{A, Y};
ghost use Rattle.kr_explain_runs.specs.Reached.{AreAlikeAt, IsReached, Leads, index_of, points, standing};

use crate::access::{at, has};
use crate::judging::is_granted;
use crate::keys::{A, B, C, K, P, Y};
use crate::numbers::events_of;
use crate::reached::Reached;
use crate::scripts::{opening_of, script_to};
use crate::state::State;
use kr_cases::Memory;
use kr_model::{Event, Mode, Name, Txn};
use kr_protocol::Protocol;
use kr_serial::{Ran, is_map, run_any};
use std::alloc::{AllocError, Global};

/// The points at and below A that the steps of a script name, and those above the ones that they delete.
const POINTS: [u64; 7] = [K, K + 1, B, P, P + 1, C, A];

/// The holder, which takes the first step of each script.
const HOLDER: Txn = 1;

/// Whether the script of a state that may be put behind those of the list leads to it. The only fault is that a growth was
/// refused.
pub(crate) fn is_reached<T: Protocol>(
    alloc: Global,
    protocol: &T,
    list: &[Reached],
    reached: Reached,
) -> Result<bool, Memory>
    ensures { IfOk result (λ is. IsTrue is → IsReached (T.table protocol.now) reached.state) }
{
    let opening = opening_of(alloc, list, reached.world)?;
    let events = events_of(alloc, &script_to(alloc, list, reached)?)?;
    leads(alloc, protocol, &opening, &events, reached.state)
}

/// Whether the script leads from the opening map to the state. The only fault is that a growth was refused.
fn leads<T: Protocol>(
    alloc: Global,
    protocol: &T,
    opening: &[(u64, u64)],
    events: &[Event],
    state: State,
) -> Result<bool, Memory>
    ensures { IfOk result (λ does. IsTrue does → Leads (T.table protocol.now) opening.now events.now state) }
{
    if !is_map(opening) {
        return Ok(false);
    }
    let ran = run_any(alloc, protocol, opening, events)?;
    ends_in(alloc, &ran, state)
}

/// Whether a run ends in the state. The only fault is that a growth was refused.
fn ends_in(alloc: Global, ran: &Ran, state: State) -> Result<bool, Memory>
    ensures granted { IfOk result (λ does. IsTrue does → All (λ r. IsTrue (is_granted r)) ran.now.replies) }
    ensures alike { IfOk result (λ does. IsTrue does → All (AreAlikeAt ran.now.index (index_of state)) points) }
    ensures on_a { IfOk result (λ does. IsTrue does → own ran.now.locks 1 (Key A) ≡ state.on_a) }
    ensures on_y { IfOk result (λ does. IsTrue does → own ran.now.locks 1 (Key Y) ≡ state.on_y) }
{
    if !ran.replies.as_slice().iter().all(is_granted) {
        return Ok(false);
    }
    let index = index_of(alloc, state)?;
    if !are_alike(ran.index.as_slice(), &index) {
        return Ok(false);
    }
    Ok(has_modes(ran, state))
}

/// The index of a state.
fn index_of(alloc: Global, state: State) -> Result<Vec<(u64, u64)>, AllocError>
    ensures { IfOk result (λ index. index.items ≡ index_of state) }
{
    standing(
        alloc,
        &[
            (K, state.k),
            (B, state.b),
            (P, state.p),
            (A, state.a),
            (Y, true),
        ],
    )
}

/// The index of the keys that are present.
fn standing(alloc: Global, keys: &[(u64, bool)]) -> Result<Vec<(u64, u64)>, AllocError>
    ensures { IfOk result (λ index. index.items ≡ standing keys.now) }
{
    let mut index = Vec::new(alloc);
    for (key, is_present) in keys {
        if *is_present {
            index.push((*key, 0))?;
        }
    }
    Ok(index)
}

/// Whether two indexes are alike at the points that steps name.
fn are_alike(pairs: &[(u64, u64)], other: &[(u64, u64)]) -> bool
    ensures { IsTrue result → All (AreAlikeAt pairs.now other.now) points }
{
    for point in &POINTS {
        if !are_alike_at(pairs, other, *point) {
            return false;
        }
    }
    true
}

/// Whether two indexes are alike at a point.
fn are_alike_at(pairs: &[(u64, u64)], other: &[(u64, u64)], point: u64) -> bool
    ensures { IsTrue result → AreAlikeAt pairs.now other.now point }
{
    has(pairs, point) == has(other, point) && at(pairs, point) == at(other, point)
}

/// Whether the holder has the modes of the state.
fn has_modes(ran: &Ran, state: State) -> bool
    ensures on_a { IsTrue result → own ran.now.locks 1 (Key A) ≡ state.on_a }
    ensures on_y { IsTrue result → own ran.now.locks 1 (Key Y) ≡ state.on_y }
{
    let locks = ran.locks.as_slice();
    own(locks, HOLDER, Name::Key(A)) == state.on_a && own(locks, HOLDER, Name::Key(Y)) == state.on_y
}

/// The mode of a transaction on a name, or 0.
pub(crate) fn own(locks: &[((Name, Txn), Mode)], txn: Txn, name: Name) -> Mode
    ensures { result ≡ own locks.now txn name }
{
    for lock in locks {
        if is_holder(*lock, txn, name) {
            return lock.1;
        }
    }
    0
}

/// Whether a lock is that of a transaction on a name.
fn is_holder(lock: ((Name, Txn), Mode), txn: Txn, name: Name) -> bool
    ensures { result ≡ eq_by_cmp holder_cmp (name, txn) lock.0 }
{
    (name, txn).cmp(&lock.0).is_eq()
}
