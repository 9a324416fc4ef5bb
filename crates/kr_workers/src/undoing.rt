//! Events taken off what their transactions are to do, from the last to the first.
ghost use Rattle.std.specs.Prelude.{◌≡◌, ◌<◌, ◌≤◌, ℕ, List, true, false, length, map, take, All, Decides, IfSome, IfNone, ◌++◌, ◌∷◌, []};
ghost use Rattle.kr_model.specs.declared.Op.{Op as Operation};
ghost use Rattle.kr_workers.specs.Follows.{ops_of};
ghost use Rattle.kr_workers.specs.Dealt.{hand_in, between, txn_before, IsRun};

use kr_model::{Event, Op, Txn};
use std::collections::BTreeMap;

/// Takes the events off the operations of their transactions, from the last event to the first, as long as each is the last
/// operation that its transaction has left. Answers whether all were taken.
pub(crate) fn undo(hands: &mut BTreeMap<Txn, Vec<Op>>, events: &[Event]) -> bool
    ensures all { result ≡ true → (t : ℕ) → hand_in hands.old t ≡ hand_in hands.new t ++ ops_of t events.now }
    ensures not_all { result ≡ false → ((t : ℕ) → hand_in hands.old t ≡ ops_of t events.now) → ⊥ }
{
    let mut end = events.len();
    while end > 0 {
        match undo_run(hands, events, end) {
            Some(start) => end = start,
            None => return false,
        }
    }
    true
}

/// Takes the run of events of one transaction that ends before `end` off the transaction's operations, and answers where it
/// begins; or nothing where they don't end with it.
fn undo_run(hands: &mut BTreeMap<Txn, Vec<Op>>, events: &[Event], end: usize) -> Option<usize>
    requires { (0 < end) × (end ≤ length events.now) }
    ensures begins { IfSome result (λ start. start < end) }
    ensures taken { IfSome result (λ start. (t : ℕ) → hand_in hands.old t ≡ hand_in hands.new t ++ ops_of t (between start end events.now)) }
    ensures others { IfNone result (hand_in hands.old (txn_before events.now end) ≡ ops_of (txn_before events.now end) (take end events.now) → ⊥) }
{
    let txn = events[end - 1].txn;
    if let Some(ops) = hands.get_mut(&txn) {
        let start = take_run(ops, events, end, txn)?;
        return Some(start);
    }
    None
}

/// Takes the operations of a run of events off the end of these, and answers where the run begins; or nothing where they
/// don't end with it.
fn take_run(ops: &mut Vec<Op>, events: &[Event], end: usize, txn: Txn) -> Option<usize>
    requires within { (0 < end) × (end ≤ length events.now) }
    requires txn { txn ≡ txn_before events.now end }
    ensures run { IfSome result (λ start. IsRun txn start end events.now) }
    ensures taken { IfSome result (λ start. ops.old.items ≡ ops.new.items ++ map (λ e. e.op) (between start end events.now)) }
    ensures others { IfNone result (ops.old.items ≡ ops_of txn (take end events.now) → ⊥) }
{
    let mut start = end;
    while start > 0 {
        let event = &events[start - 1];
        if event.txn != txn {
            return Some(start);
        }
        if !take_last(ops, event.op) {
            return None;
        }
        start -= 1;
    }
    Some(0)
}

/// Takes the last operation away, and answers whether it is this one.
fn take_last(ops: &mut Vec<Op>, op: Op) -> bool
    ensures same { result ≡ true → ops.old.items ≡ ops.new.items ++ op ∷ [] }
    ensures other { result ≡ false → (before : List Operation) → ops.old.items ≡ before ++ op ∷ [] → ⊥ }
{
    match ops.pop() {
        Some(last) => last == op,
        None => false,
    }
}

/// Whether none of these transactions has an operation left.
pub(crate) fn are_empty(hands: &BTreeMap<Txn, Vec<Op>>, txns: &[Txn]) -> bool
    ensures { Decides result (All (λ t. hand_in hands.now t ≡ []) txns.now) }
{
    for txn in txns {
        if !is_empty(hands, *txn) {
            return false;
        }
    }
    true
}

/// Whether a transaction has no operation left.
fn is_empty(hands: &BTreeMap<Txn, Vec<Op>>, txn: Txn) -> bool
    ensures { Decides result (hand_in hands.now txn ≡ []) }
{
    match hands.get(&txn) {
        Some(ops) => ops.as_slice().is_empty(),
        None => true,
    }
}
