//! Whether steps were left out where their transactions came to them.
ghost use Rattle.std.specs.Prelude.{◌≡◌, ◌<◌, ◌-◌, ◌↔◌, ℕ, Some, IsTrue, All, IfOk, map, length};
ghost use Rattle.kr_workers.specs.Follows.{AreRising};
ghost use Rattle.kr_workers.specs.Counts.{missed_before, count_in};
ghost use Rattle.kr_workers.specs.Placed.{AreNumbers, AreCounts, IsNumber, IsBetween, AreDoneUpTo, AreDoneBefore, IsStart};

use crate::left_out::LeftOut;
use kr_model::{Event, Txn};
use std::alloc::{AllocError, Global};
use std::collections::HashMap;

/// Whether each step was left out where its transaction had done all earlier steps but those that were left out too: just so
/// many events up to its places are of the transaction. The steps come by transaction, and then by number.
///
/// It takes a look by hash or two for each event and for each step; an error where a growth is refused.
pub fn are_placed(alloc: Global, left_out: &[LeftOut], events: &[Event]) -> Result<bool, AllocError>
    ensures { IfOk result (λ yes. AreRising (map (λ l. l.fault) left_out.now) → (IsTrue yes ↔ (All (λ l. IsBetween events.now (missed_before (map (λ l. l.fault) left_out.now) l.fault.txn l.fault.step) l) left_out.now))) }
{
    if left_out.is_empty() {
        return Ok(true);
    }
    let (numbers, counts) = numbered(alloc, events)?;
    let mut first = 0;
    for i in 0..left_out.len() {
        first = start_of(left_out, i, first);
        if !is_between(&left_out[i], i - first, events, &numbers, &counts) {
            return Ok(false);
        }
    }
    Ok(true)
}

/// Where the steps of this one's transaction begin, where those of the transaction of the one before it begin at `first`.
fn start_of(left_out: &[LeftOut], i: usize, first: usize) -> usize
    requires within { i < length left_out.now }
    requires before { 0 < i → IsStart (map (λ l. l.fault.txn) left_out.now) (i - 1) first }
    ensures { IsStart (map (λ l. l.fault.txn) left_out.now) i result }
{
    if i == 0 || left_out[i - 1].fault.txn != left_out[i].fault.txn {
        return i;
    }
    first
}

/// The number of each event among those of its transaction, from 1; and how many each transaction has.
fn numbered(alloc: Global, events: &[Event]) -> Result<(Vec<u64>, HashMap<Txn, u64>), AllocError>
    ensures length { IfOk result (λ r. length r.0.items ≡ length events.now) }
    ensures numbers { IfOk result (λ r. AreNumbers r.0.items events.now) }
    ensures counts { IfOk result (λ r. AreCounts r.1 events.now) }
{
    let mut numbers = Vec::with_capacity(alloc, events.len())?;
    let mut counts = HashMap::new(alloc);
    for event in events {
        let number = count_of(&counts, event.txn) + 1;
        counts.insert(event.txn, number)?;
        numbers.push(number)?;
    }
    Ok((numbers, counts))
}

/// How many events a map has of a transaction.
fn count_of(counts: &HashMap<Txn, u64>, txn: Txn) -> u64
    ensures { result ≡ count_in counts.now txn }
{
    match counts.get(&txn) {
        Some(count) => *count,
        None => 0,
    }
}

/// The number of the event at a place among those of its transaction, from 1, where it is of this one.
fn number_at(events: &[Event], numbers: &[u64], place: usize, txn: Txn) -> Option<u64>
    requires long { length numbers.now ≡ length events.now }
    requires numbers { AreNumbers numbers.now events.now }
    ensures { (n : ℕ) → ((result ≡ Some n) ↔ (IsNumber events.now place txn n)) }
{
    if place >= events.len() || events[place].txn != txn {
        return None;
    }
    Some(numbers[place])
}

/// Whether just so many events up to a place are of the transaction, whose the event there is; or none, where there is no
/// place.
fn are_done_up_to(
    events: &[Event],
    numbers: &[u64],
    last: Option<usize>,
    txn: Txn,
    number: u64,
) -> bool
    requires long { length numbers.now ≡ length events.now }
    requires numbers { AreNumbers numbers.now events.now }
    ensures { IsTrue result ↔ (AreDoneUpTo events.now last txn number) }
{
    let Some(place) = last else {
        return number == 0;
    };
    match number_at(events, numbers, place, txn) {
        Some(it) => it == number,
        None => false,
    }
}

/// Whether just so many events before a place are of the transaction, whose the event there is; or of all events, where there
/// is no place.
fn are_done_before(
    events: &[Event],
    numbers: &[u64],
    counts: &HashMap<Txn, u64>,
    next: Option<usize>,
    txn: Txn,
    number: u64,
) -> bool
    requires long { length numbers.now ≡ length events.now }
    requires numbers { AreNumbers numbers.now events.now }
    requires counts { AreCounts counts.now events.now }
    ensures { IsTrue result ↔ (AreDoneBefore events.now next txn number) }
{
    let Some(place) = next else {
        return count_of(counts, txn) == number;
    };
    match number_at(events, numbers, place, txn) {
        Some(it) => it > number && it - 1 == number,
        None => false,
    }
}

/// Whether a step was left out where its transaction had done all earlier steps but so many.
fn is_between(
    left: &LeftOut,
    earlier: usize,
    events: &[Event],
    numbers: &[u64],
    counts: &HashMap<Txn, u64>,
) -> bool
    requires long { length numbers.now ≡ length events.now }
    requires numbers { AreNumbers numbers.now events.now }
    requires counts { AreCounts counts.now events.now }
    ensures { IsTrue result ↔ (IsBetween events.now earlier left.now) }
{
    let txn = left.fault.txn;
    let step = left.fault.step;
    let earlier = earlier as u64;
    if step <= earlier {
        return false;
    }
    let number = step - 1 - earlier;
    are_done_up_to(events, numbers, left.last, txn, number)
        && are_done_before(events, numbers, counts, left.next, txn, number)
}
