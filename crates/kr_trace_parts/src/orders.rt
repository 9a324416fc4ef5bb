//! Whether what committed is serializable in some order.
ghost use Rattle.std.specs.Prelude.{◌≡◌, ◌++◌, ℕ, List, IfOk, IsTrue, Ok, true, false, map};
ghost use Rattle.kr_model.specs.Map.{IsMap};
ghost use Rattle.kr_trace_lines.specs.Parts.{are_distinct};
ghost use Rattle.kr_trace_parts.specs.Committed.{AreSerial};
ghost use Rattle.kr_trace_parts.specs.Kept.{IsKept, shown};
ghost use Rattle.kr_trace_parts.specs.Orders.{AreArranged, ArePlaces, IsVerdictInAny, IsVerdictInTold};
ghost use Rattle.kr_trace_parts.specs.Parts.{Part};
ghost use Rattle.kr_trace_parts.specs.Printed.{CommitsOnce, IsPrintedInSomeOrder, IsVerdictInSomeOrder, in_order};

use crate::asking::{Asks, Part};
use crate::programs::{Committed, not_serial, places_of, txns_of, wrong_in};
use crate::serial::is_serial;
use crate::tales::{Tale, note};
use kr_model::{Event, Items, Memory, Pairs, Txn, Txns};
use kr_trace_lines::{Observed, TraceVerdict, write_judged};
use std::alloc::Global;
use std::collections::BTreeMap;

/// How many committed transactions may be tried in all their orders.
const MOST_TRIED: usize = 7;

/// A part whose committed programs are kept.
#[derive(Drop)]
pub struct Kept {
    pub opening: Pairs,
    pub tales: BTreeMap<Txn, Tale>,
    /// In commit order.
    pub committed: Vec<Committed>,
    /// The order that ends the part, if one does.
    pub order: Option<Txns>,
    ghost rising: { IsMap opening },
}

/// Asks whether what committed is serializable in some order.
#[derive(Drop)]
pub struct InSomeOrder;

impl Asks for InSomeOrder {
    type Part = Kept;

    ghost is_printed = { λ _. IsPrintedInSomeOrder };

    fn begin(
        &self,
        alloc: Global,
        number: u64,
        opening: Pairs,
        tests: Vec<String>,
    ) -> Result<Kept, Memory> {
        let _ = number;
        let _ = tests;
        Ok(Kept {
            opening,
            tales: BTreeMap::new(alloc),
            committed: Vec::new(alloc),
            order: None,
        })
    }
}

impl Part for Kept {
    ghost asked = { λ _. IsPrintedInSomeOrder };

    ghost stands_for = { λ k _ s. IsKept s k.opening k.tales k.committed.items k.order };

    fn step(
        &mut self,
        alloc: Global,
        number: u64,
        event: Event,
        observed: Observed,
    ) -> Result<(), Memory> {
        let _ = number;
        if let Some(program) = note(alloc, &mut self.tales, event, observed)? {
            self.committed.push(Committed {
                txn: event.txn,
                program,
            })?;
        }
        Ok(())
    }

    fn order(&mut self, txns: Txns) {
        self.order = Some(txns);
    }

    fn end(self, alloc: Global, part: u64) -> Result<(Option<String>, bool), Memory> {
        let verdict = verdict_of(alloc, self)?;
        let line = write_judged(alloc, part, &verdict)?;
        Ok((Some(line), is_serial(&verdict)))
    }
}

/// Adds the others of these transactions to the order so far, in the first order of a dictionary in which they are serializable,
/// and answers whether there is one. Where there is none, the order is the one before.
fn add_serial_rest(
    alloc: Global,
    opening: &[(u64, u64)],
    committed: &[Committed],
    places: &BTreeMap<Txn, usize>,
    order: &mut Vec<Txn>,
    rest: &[Txn],
) -> Result<bool, Memory>
    requires opening { IsMap opening.now }
    requires places { ArePlaces committed.now places.now }
    requires serial { AreSerial opening.now (in_order (map shown committed.now) order.old.items) }
    ensures found { result ≡ Ok true → (more : List ℕ) × (AreArranged rest.now more × ((order.new.items ≡ order.old.items ++ more)
        × AreSerial opening.now (in_order (map shown committed.now) (order.old.items ++ more)))) }
    ensures same { result ≡ Ok false → order.new.items ≡ order.old.items }
    ensures none { result ≡ Ok false → (more : List ℕ) → AreArranged rest.now more
        → AreSerial opening.now (in_order (map shown committed.now) (order.old.items ++ more)) → ⊥ }
{
    if rest.is_empty() {
        return Ok(true);
    }
    for i in 0..rest.len() {
        order.push(rest[i])?;
        if wrong_in(alloc, opening, committed, places, order.as_slice())?.is_none() {
            let mut others = rest.to_vec(alloc)?;
            others.remove(i);
            if add_serial_rest(alloc, opening, committed, places, order, others.as_slice())? {
                return Ok(true);
            }
        }
        order.pop();
    }
    Ok(false)
}

/// The verdict in the order that ends a part.
fn verdict_in_told(
    alloc: Global,
    opening: &[(u64, u64)],
    committed: Vec<Committed>,
    places: &BTreeMap<Txn, usize>,
    txns: Txns,
) -> Result<TraceVerdict, Memory>
    requires opening { IsMap opening.now }
    requires places { ArePlaces committed.items places.now }
    ensures { IfOk result (IsVerdictInTold opening.now (map shown committed.items) txns) }
{
    match wrong_in(
        alloc,
        opening,
        committed.as_slice(),
        places,
        txns.as_slice(),
    )? {
        Some(wrong) => Ok(not_serial(committed, wrong)),
        None => Ok(TraceVerdict::SerialInOrder(txns)),
    }
}

/// The verdict in commit order; or where what committed isn't serializable in it, in any order of at most seven transactions.
fn verdict_in_any(
    alloc: Global,
    opening: &[(u64, u64)],
    committed: Vec<Committed>,
    places: &BTreeMap<Txn, usize>,
) -> Result<TraceVerdict, Memory>
    requires opening { IsMap opening.now }
    requires places { ArePlaces committed.items places.now }
    ensures { IsTrue (are_distinct (map (λ c. c.txn) (map shown committed.items)))
        → IfOk result (IsVerdictInAny opening.now (map shown committed.items)) }
{
    let txns = txns_of(alloc, committed.as_slice())?;
    let Some(wrong) = wrong_in(
        alloc,
        opening,
        committed.as_slice(),
        places,
        txns.as_slice(),
    )?
    else {
        return Ok(TraceVerdict::SerialInOrder(Items::from_vec(txns)));
    };
    if txns.len() > MOST_TRIED {
        return Ok(TraceVerdict::Unknown);
    }
    let mut order = Vec::new(alloc);
    if add_serial_rest(
        alloc,
        opening,
        committed.as_slice(),
        places,
        &mut order,
        txns.as_slice(),
    )? {
        return Ok(TraceVerdict::SerialInOrder(Items::from_vec(order)));
    }
    Ok(not_serial(committed, wrong))
}

/// The verdict on a part: in the order that ends it, or else in any.
fn verdict_of(alloc: Global, part: Kept) -> Result<TraceVerdict, Memory>
    ensures { (s : Part) → IsKept s part.opening part.tales part.committed.items part.order → CommitsOnce s → IfOk result (IsVerdictInSomeOrder s) }
{
    let Kept {
        opening,
        tales: _,
        committed,
        order,
    } = part;
    let places = places_of(alloc, committed.as_slice())?;
    match order {
        Some(txns) => verdict_in_told(alloc, opening.as_slice(), committed, &places, txns),
        None => verdict_in_any(alloc, opening.as_slice(), committed, &places),
    }
}
