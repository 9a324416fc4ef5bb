//! Operations by their transactions.
ghost use Rattle.std.specs.Prelude.{◌≡◌, ◌<◌, ℕ, List, ◌++◌, ◌∷◌, [], length, map, take, IfOk, IfSome, IfNone};
ghost use Rattle.kr_workers.specs.Follows.{ops_of};
ghost use Rattle.kr_workers.specs.Dealt.{ops_in, hand_in, between, txn_at, AreDealt, AreHands, IsRun};

use kr_model::{Event, Op, Txn};
use std::alloc::{AllocError, Global};
use std::collections::BTreeMap;
use std::marker::Model;

/// The operations of each transaction of a list of events, in their order.
///
/// Contracts see the transactions, and the operations of each.
#[derive(Drop)]
pub struct Dealt {
    /// The transactions in order of first appearance.
    txns: Vec<Txn>,
    /// The operations of each of them.
    hands: BTreeMap<Txn, Vec<Op>>,
}

impl Model for Dealt {
    ghost use Rattle.kr_workers.specs.Dealt.{Dealing, hands_of};

    ghost Value = { Dealing };

    ghost view = { λ d. record { txns = d.txns.items; hands = hands_of d.hands } };
}

impl Dealt {
    /// Deals the events to their transactions, or answers an error where a growth is refused. It takes O(n + m log n) for n
    /// events in m runs, in each of which all events are of one transaction.
    pub fn new(alloc: Global, events: &[Event]) -> Result<Dealt, AllocError>
        ensures { IfOk result (λ dealt. AreDealt events.now dealt) }
    {
        let mut txns = Vec::new(alloc);
        let mut hands = BTreeMap::new(alloc);
        let mut dealt = 0;
        while dealt < events.len() {
            dealt = add(alloc, &mut txns, &mut hands, events, dealt)?;
        }
        Ok(Dealt { txns, hands })
    }

    /// The transactions, each once, in order of first appearance.
    pub fn txns(&self) -> &[Txn]
        ensures { result.now ≡ self.now.txns }
    {
        self.txns.as_slice()
    }

    /// The operations of a transaction, in their order; of one that doesn't occur there are none. Takes a logarithmic
    /// number of comparisons.
    pub fn ops(&self, txn: Txn) -> &[Op]
        ensures { result.now ≡ ops_in self.now txn }
    {
        match self.hands.get(&txn) {
            Some(ops) => ops.as_slice(),
            None => &[],
        }
    }

    /// The transactions, and a map that has the operations of each.
    pub(crate) fn into_parts(self) -> (Vec<Txn>, BTreeMap<Txn, Vec<Op>>)
        ensures txns { result.0.items ≡ self.txns }
        ensures hands { (t : ℕ) → hand_in result.1 t ≡ ops_in self t }
    {
        (self.txns, self.hands)
    }
}

/// Adds the operations of the run of events of one transaction that begins at `start` behind those of the transaction, which
/// comes last where it is new, and answers where the run ends. It takes one look at the map, and a second one where the
/// transaction is new.
fn add(
    alloc: Global,
    txns: &mut Vec<Txn>,
    hands: &mut BTreeMap<Txn, Vec<Op>>,
    events: &[Event],
    start: usize,
) -> Result<usize, AllocError>
    requires { start < length events.now }
    ensures run { IfOk result (λ end. IsRun (txn_at events.now start) start end events.now) }
    ensures hands { IfOk result (λ end. AreHands (take start events.now) txns.old.items hands.old → AreHands (take end events.now) txns.new.items hands.new) }
{
    let txn = events[start].txn;
    if let Some(end) = add_again(hands, events, start, txn)? {
        return Ok(end);
    }
    txns.push(txn)?;
    add_first(alloc, hands, events, start, txn)
}

/// Adds a run of a transaction that has operations, and answers where it ends; or nothing where the transaction has none.
fn add_again(
    hands: &mut BTreeMap<Txn, Vec<Op>>,
    events: &[Event],
    start: usize,
    txn: Txn,
) -> Result<Option<usize>, AllocError>
    requires within { start < length events.now }
    requires txn { txn ≡ txn_at events.now start }
    ensures run { IfOk result (λ there. IfSome there (λ end. IsRun txn start end events.now)) }
    ensures again { IfOk result (λ there. IfSome there (λ end. (txns : List ℕ) → AreHands (take start events.now) txns hands.old → AreHands (take end events.now) txns hands.new)) }
    ensures absent { IfOk result (λ there. IfNone there ((txns : List ℕ) → AreHands (take start events.now) txns hands.old → (ops_of txn (take start events.now) ≡ []) × AreHands (take start events.now) txns hands.new)) }
{
    if let Some(ops) = hands.get_mut(&txn) {
        let end = add_run(ops, events, start, txn)?;
        return Ok(Some(end));
    }
    Ok(None)
}

/// Adds the first run of a transaction, and answers where it ends.
fn add_first(
    alloc: Global,
    hands: &mut BTreeMap<Txn, Vec<Op>>,
    events: &[Event],
    start: usize,
    txn: Txn,
) -> Result<usize, AllocError>
    requires within { start < length events.now }
    requires txn { txn ≡ txn_at events.now start }
    ensures run { IfOk result (λ end. IsRun txn start end events.now) }
    ensures first { IfOk result (λ end. (txns : List ℕ) → ops_of txn (take start events.now) ≡ [] → AreHands (take start events.now) txns hands.old → AreHands (take end events.now) (txns ++ txn ∷ []) hands.new) }
{
    let mut ops = Vec::new(alloc);
    let end = add_run(&mut ops, events, start, txn)?;
    hands.insert(txn, ops)?;
    Ok(end)
}

/// Adds the operations of the run of a transaction's events that begins at `start`, and answers where it ends.
fn add_run(ops: &mut Vec<Op>, events: &[Event], start: usize, txn: Txn) -> Result<usize, AllocError>
    requires within { start < length events.now }
    requires txn { txn ≡ txn_at events.now start }
    ensures run { IfOk result (λ end. IsRun txn start end events.now) }
    ensures ops { IfOk result (λ end. ops.new.items ≡ ops.old.items ++ map (λ e. e.op) (between start end events.now)) }
{
    ops.push(events[start].op)?;
    for end in start + 1..events.len() {
        if events[end].txn != txn {
            return Ok(end);
        }
        ops.push(events[end].op)?;
    }
    Ok(events.len())
}
