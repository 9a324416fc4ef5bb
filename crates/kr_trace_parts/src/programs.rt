//! Committed programs, run one after another in an order of their transactions.
ghost use Rattle.std.specs.Prelude.{◌≡◌, ◌↔◌, ℕ, List, IfOk, IfNone, IfSome, OnOk, None, Some, map};
ghost use Rattle.kr_model.specs.Map.{Map, IsMap};
ghost use Rattle.kr_trace_parts.specs.Committed.{AreSerial, IsFirstFound, map_left};
ghost use Rattle.kr_trace_parts.specs.Kept.{shown};
ghost use Rattle.kr_trace_parts.specs.Orders.{ArePlaces, IsWrongIn, IsWrongOf};
ghost use Rattle.kr_trace_parts.specs.Printed.{in_order, of_txn};

use crate::serial::wrong_answer;
use crate::tales::Answered;
use kr_model::{Memory, Txn};
use kr_trace_follow::{Difference, Judge, differences_are_first};
use kr_trace_lines::TraceVerdict;
use std::alloc::Global;
use std::collections::BTreeMap;

/// A committed transaction with its program.
#[derive(Drop)]
pub struct Committed {
    pub txn: Txn,
    pub program: Vec<Answered>,
}

/// A committed program that has an answer that isn't the serial one: its place in commit order, and its first such answer.
#[derive(Drop)]
pub struct Wrong {
    pub place: usize,
    pub difference: Difference,
}

/// The place in commit order of each transaction that has committed.
pub fn places_of(alloc: Global, committed: &[Committed]) -> Result<BTreeMap<Txn, usize>, Memory>
    ensures { IfOk result (ArePlaces committed.now) }
{
    let mut places = BTreeMap::new(alloc);
    for place in (0..committed.len()).rev() {
        places.insert(committed[place].txn, place)?;
    }
    Ok(places)
}

/// The transactions that have committed, in commit order.
pub fn txns_of(alloc: Global, committed: &[Committed]) -> Result<Vec<Txn>, Memory>
    ensures { IfOk result (λ txns. txns.items ≡ map (λ c. c.txn) (map shown committed.now)) }
{
    let mut txns = Vec::new(alloc);
    for i in 0..committed.len() {
        txns.push(committed[i].txn)?;
    }
    Ok(txns)
}

/// Judges the program of a transaction, if it has committed, and answers with its first answer that isn't the serial one.
fn judge_next(
    alloc: Global,
    committed: &[Committed],
    places: &BTreeMap<Txn, usize>,
    judge: &mut Judge,
    txn: Txn,
) -> Result<Option<Wrong>, Memory>
    requires { ArePlaces committed.now places.now }
    ensures none { IfOk result (λ w. IfNone w (AreSerial judge.old.map (of_txn (map shown committed.now) txn))) }
    ensures wrong { IfOk result (λ w. IfSome w (IsWrongOf judge.old.map committed.now txn)) }
    ensures left { OnOk result (judge.new.map ≡ map_left judge.old.map (of_txn (map shown committed.now) txn)) }
{
    let Some(&place) = places.get(&txn) else {
        return Ok(None);
    };
    let difference = judge.commit(alloc, committed[place].program.as_slice())?;
    differences_are_first();
    match difference {
        Some(difference) => Ok(Some(Wrong { place, difference })),
        None => Ok(None),
    }
}

/// The first wrong answer where the programs of these transactions run one after another, if there is one.
pub fn wrong_in(
    alloc: Global,
    opening: &[(u64, u64)],
    committed: &[Committed],
    places: &BTreeMap<Txn, usize>,
    txns: &[Txn],
) -> Result<Option<Wrong>, Memory>
    requires opening { IsMap opening.now }
    requires places { ArePlaces committed.now places.now }
    ensures none { IfOk result (λ w. (w ≡ None) ↔ AreSerial opening.now (in_order (map shown committed.now) txns.now)) }
    ensures wrong { IfOk result (λ w. IfSome w (IsWrongIn opening.now committed.now txns.now)) }
{
    differences_are_first();
    let mut judge = Judge::new(alloc, opening)?;
    for i in 0..txns.len() {
        let wrong = judge_next(alloc, committed, places, &mut judge, txns[i])?;
        if wrong.is_some() {
            return Ok(wrong);
        }
    }
    Ok(None)
}

/// The verdict that says this of a wrong answer.
pub fn not_serial(committed: Vec<Committed>, wrong: Wrong) -> TraceVerdict
    requires { (m : Map) × (txns : List ℕ) × IsWrongIn m committed.items txns wrong }
    ensures { (m : Map) (txns : List ℕ) → IsWrongIn m committed.items txns wrong
        → IsFirstFound m (in_order (map shown committed.items) txns) (Some result) }
{
    let mut committed = committed;
    let one = committed.swap_remove(wrong.place);
    wrong_answer(one.txn, one.program, wrong.difference)
}
