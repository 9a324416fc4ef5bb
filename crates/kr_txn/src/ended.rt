//! The transactions that have ended.
ghost use Rattle.std.specs.Prelude.{◌≡◌, ℕ, ◌+◌, ◌<◌, ◌≤◌, ◌==◌, [], false, IsTrue, OnOk, length, take, slice_index, vec_len, vec_capacity};
ghost use Rattle.std.specs.List.{list_any};
ghost use Rattle.std.specs.List.Sorted.{IsStrictlyIncreasing};
ghost use Rattle.kr_model.specs.Locks.{add_once};
ghost use Rattle.kr_txn.specs.EndedNumbers.{union, AreApart, AreEnded};

use crate::rising::put_once;
use kr_model::Txn;
use std::alloc::{AllocError, Global};
use std::marker::Model;

/// Numbers of transactions, with room for more. Most stand in a rising list, to whose end a number goes that is greater
/// than all others. Any other goes to a second, short rising list, which is merged into the first where it is full. So a
/// look is by two bisections, and in no order does each number shift all others.
#[derive(Drop)]
pub struct Ended {
    settled: Vec<Txn>,
    recent: Vec<Txn>,
}

impl Model for Ended {
    ghost use Rattle.std.specs.Prelude.{ℕ, ◌+◌, ◌-◌, ◌<◌, vec_len, vec_capacity};
    ghost use Rattle.kr_txn.specs.EndedNumbers.{EndedNumbers, union, AreEnded};

    ghost Value = { EndedNumbers };

    ghost view = { λ e. record { numbers = union e.recent.items e.settled.items; room = vec_capacity e.settled - (vec_len e.settled + vec_len e.recent) } };

    ghost invariant = { λ e. AreEnded e.settled.items e.recent.items × (vec_len e.settled + vec_len e.recent < vec_capacity e.settled → 0 < vec_capacity e.recent) };
}

impl Ended {
    /// No transaction has ended. Takes no memory.
    pub fn new(alloc: Global) -> Ended
        ensures { result.numbers ≡ [] }
    {
        Ended {
            settled: Vec::new(alloc),
            recent: Vec::new(alloc),
        }
    }

    /// Whether a transaction has ended.
    pub fn has(&self, txn: Txn) -> bool
        ensures { result ≡ list_any (λ u. u == txn) self.now.numbers }
    {
        is_in(&self.recent, txn) || is_in(&self.settled, txn)
    }

    /// Takes the memory that so many more numbers need, or answers an error where a growth is refused. The numbers stay,
    /// and the room never gets less.
    pub fn make_room(&mut self, count: usize) -> Result<(), AllocError>
        ensures numbers { self.new.numbers ≡ self.old.numbers }
        ensures ok { OnOk result (count ≤ self.new.room) }
        ensures room { self.old.room ≤ self.new.room }
    {
        let recent = self.recent.len();
        if recent == self.recent.capacity() && is_short(recent, self.settled.len()) {
            self.recent.reserve(SHORTEST)?;
        }
        let more = count.checked_add(recent).ok_or(AllocError)?;
        self.settled.reserve(more)?;
        Ok(())
    }

    /// Notes that a transaction has ended; one that has ended already changes nothing. Takes no memory.
    pub fn add(&mut self, txn: Txn)
        requires { 0 < self.old.room }
        ensures numbers { self.new.numbers ≡ add_once txn self.old.numbers }
        ensures room { self.old.room ≤ self.new.room + 1 }
    {
        if self.recent.is_empty() && is_past(&self.settled, txn) {
            self.settled.push_reserved(txn);
        } else if !self.has(txn) {
            settle(&mut self.settled, &mut self.recent);
            let _ = put_once(&mut self.recent, txn);
        }
    }
}

/// The recent numbers have memory for so many at least, once they have any.
const SHORTEST: usize = 64;

/// Whether a full list of so many recent numbers is short beside the settled ones: to merge it into them would take more
/// than a few moves for each number.
fn is_short(recent: usize, settled: usize) -> bool
    ensures { recent ≡ 0 → IsTrue result }
{
    recent < SHORTEST || recent / 16 < settled / recent
}

/// Whether a number is in a rising list.
fn is_in(numbers: &[Txn], txn: Txn) -> bool
    requires { IsStrictlyIncreasing numbers.now }
    ensures { result ≡ list_any (λ u. u == txn) numbers.now }
{
    if is_past(numbers, txn) {
        return false;
    }
    numbers.binary_search(&txn).is_ok()
}

/// Whether a number is greater than all of a rising list.
fn is_past(numbers: &[Txn], txn: Txn) -> bool
    requires { IsStrictlyIncreasing numbers.now }
    ensures { IsTrue result → (k : ℕ) → k < length numbers.now → slice_index numbers.now k < txn }
{
    numbers.is_empty() || numbers[numbers.len() - 1] < txn
}

/// Makes a place among the recent numbers: where they are full, they are merged into the settled ones, which have room
/// for them. Takes no memory.
fn settle(settled: &mut Vec<Txn>, recent: &mut Vec<Txn>)
    requires ended { AreEnded settled.old.items recent.old.items }
    requires room { vec_len settled.old + vec_len recent.old ≤ vec_capacity settled.old }
    requires memory { 0 < vec_capacity recent.old }
    ensures ended { AreEnded settled.new.items recent.new.items }
    ensures numbers { union recent.new.items settled.new.items ≡ union recent.old.items settled.old.items }
    ensures len { vec_len settled.new + vec_len recent.new ≡ vec_len settled.old + vec_len recent.old }
    ensures place { vec_len recent.new < vec_capacity recent.new }
    ensures capacity { vec_capacity settled.old ≤ vec_capacity settled.new }
{
    if recent.len() < recent.capacity() {
        return;
    }
    let first = settled.len();
    let _ = settled.extend_from_slice(recent.as_slice());
    merge(settled.as_mut_slice(), first, recent.as_slice());
    recent.clear();
}

/// Merges rising numbers into the first of the places, from the back. Those rise too and have none of them, and there are
/// as many places past them.
fn merge(places: &mut [Txn], first: usize, recent: &[Txn])
    requires places { first + length recent.now ≡ length places.old }
    requires ended { AreEnded (take first places.old) recent.now }
    ensures { places.new ≡ union recent.now (take first places.old) }
{
    let mut left = first;
    let mut more = recent.len();
    while more > 0 {
        let place = left + more - 1;
        if left > 0 && recent[more - 1] < places[left - 1] {
            left -= 1;
            places[place] = places[left];
        } else {
            more -= 1;
            places[place] = recent[more];
        }
    }
}
