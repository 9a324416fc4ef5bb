//! What an attempt requests, whose locks conflict with it, and what is kept of it; which refusal applies, and room for a
//! transaction.
#![tactic(auto)]

ghost use Rattle.std.specs.Prelude.{◌≡◌, ℕ, ◌<◌, ◌≤◌, IsTrue, List, [], ◌∷◌, OnOk, IfOk, ◌↔◌};
ghost use Rattle.std.specs.Option.{option_to_list};
ghost use Rattle.std.specs.List.Sorted.{IsStrictlyIncreasing};
ghost use Rattle.kr_model.specs.Locks.{Locks, AreWithin, own, blockers};
ghost use Rattle.kr_model.specs.Plan.{plan_of, plan_by, access, access_of, side_request, requests};
ghost use Rattle.kr_model.proofs.Numbers.{merged};
ghost use Rattle.kr_plan.specs.Modes.{SideIsMode, ArePlanModes};

pub mod holds;
pub mod refusals;
pub mod room;

pub use kr_model::{Mode, Name, Txn};
use kr_model::{Plan, Row, Side, Span, Step};
use kr_parts::{Holdings, Memory, Ordered};
use kr_protocol::Protocol;
use kr_txn::put_once;
use std::alloc::Global;

/// What an attempt requests: its row by what the index has now, and the request of each side, `None` where nothing is
/// requested there.
///
/// An insert of a present key goes by the row fetch hit, and a delete or an update of an absent one by fetch miss. An
/// insert or a delete tells the protocol the transaction's own mode on the next name. The held modes are at most the
/// protocol's count, and the modes requested are its modes. Takes no memory.
pub fn plan<P: Protocol, I: Ordered, L: Holdings>(
    protocol: &P,
    index: &I,
    locks: &L,
    txn: Txn,
    step: Step,
) -> Plan
    requires { AreWithin (P.table protocol.now).count (L.locks locks.now) }
    ensures plan { result ≡ plan_of (P.table protocol.now) (I.map index.now) (L.locks locks.now) txn step }
    ensures modes { ArePlanModes (P.table protocol.now).count result }
{
    let (row, current, next) = names(index, step);
    plan_at(protocol, locks, txn, row, current, next)
}

/// The row of an attempt, and the names at its two sides.
fn names<I: Ordered>(index: &I, step: Step) -> (Row, Option<Name>, Option<Name>)
    ensures { access result.0 result.1 result.2 ≡ access_of (I.map index.now) step }
{
    match step {
        Step::Fetch(key) => match index.look(key) {
            (true, _) => (Row::FetchHit, Some(Name::Key(key)), None),
            (false, next) => (Row::FetchMiss, None, Some(next)),
        },
        Step::Insert(key) => match index.look(key) {
            (true, _) => (Row::FetchHit, Some(Name::Key(key)), None),
            (false, next) => (Row::Insert, Some(Name::Key(key)), Some(next)),
        },
        Step::Delete(key) => match index.look(key) {
            (true, _) => (Row::Delete, Some(Name::Key(key)), Some(index.after(key))),
            (false, next) => (Row::FetchMiss, None, Some(next)),
        },
        Step::Update(key) => match index.look(key) {
            (true, _) => (Row::Update, Some(Name::Key(key)), None),
            (false, next) => (Row::FetchMiss, None, Some(next)),
        },
        Step::Look(Name::Key(key), hi) => {
            if key <= hi {
                (Row::ScanKey, Some(Name::Key(key)), None)
            } else {
                (Row::ScanStop, None, Some(Name::Key(key)))
            }
        }
        Step::Look(Name::End, _) => (Row::ScanStop, None, Some(Name::End)),
    }
}

/// The request of a side, where there is a name and something is requested.
fn side(name: Option<Name>, asked: Option<(Mode, Span)>) -> Option<(Name, Mode, Span)>
    ensures { result ≡ side_request name asked }
{
    match (name, asked) {
        (Some(name), Some((mode, span))) => Some((name, mode, span)),
        (_, _) => None,
    }
}

/// What a row requests at these names.
fn requested<P: Protocol, L: Holdings>(
    protocol: &P,
    locks: &L,
    txn: Txn,
    row: Row,
    current: Option<Name>,
    next: Option<Name>,
) -> Plan
    requires { AreWithin (P.table protocol.now).count (L.locks locks.now) }
    ensures { result ≡ plan_by (P.table protocol.now) (L.locks locks.now) txn (access row current next) }
{
    let own = match (row, next) {
        (Row::Insert, Some(name)) => locks.own(txn, name),
        (Row::Delete, Some(name)) => locks.own(txn, name),
        (_, _) => 0,
    };
    Plan {
        row,
        current: side(current, protocol.ask(row, Side::Current, own)),
        next: side(next, protocol.ask(row, Side::Next, own)),
    }
}

/// What an attempt requests that finds this row, and these names at its two sides. Takes no memory.
///
/// The own mode on the next name and the conditions on modes are those of `plan`.
pub fn plan_at<P: Protocol, L: Holdings>(
    protocol: &P,
    locks: &L,
    txn: Txn,
    row: Row,
    current: Option<Name>,
    next: Option<Name>,
) -> Plan
    requires { AreWithin (P.table protocol.now).count (L.locks locks.now) }
    ensures plan { result ≡ plan_by (P.table protocol.now) (L.locks locks.now) txn (access row current next) }
    ensures modes { ArePlanModes (P.table protocol.now).count result }
{
    requested(protocol, locks, txn, row, current, next)
}

/// Whether nobody's lock conflicts with the request of a side.
fn side_granted<P: Protocol, L: Holdings>(
    protocol: &P,
    locks: &L,
    txn: Txn,
    side: Option<(Name, Mode, Span)>,
) -> bool
    requires held { AreWithin (P.table protocol.now).count (L.locks locks.now) }
    requires asked { SideIsMode (P.table protocol.now).count side }
    ensures { IsTrue result ↔ (blockers (P.table protocol.now) (L.locks locks.now) txn (option_to_list side) ≡ []) }
{
    match side {
        Some((name, mode, _)) => locks.test(protocol, txn, name, mode),
        None => true,
    }
}

/// Whether no other transaction's lock conflicts with a request of a plan.
///
/// Another transaction's lock conflicts where the mode to which the own one would be converted conflicts with it.
/// Requests for an instant count as those to commit. The modes requested are the protocol's, and the held ones at most
/// its count. Takes no memory.
pub fn granted<P: Protocol, L: Holdings>(protocol: &P, locks: &L, txn: Txn, plan: &Plan) -> bool
    requires held { AreWithin (P.table protocol.now).count (L.locks locks.now) }
    requires asked { ArePlanModes (P.table protocol.now).count plan.now }
    ensures { IsTrue result ↔ (blockers (P.table protocol.now) (L.locks locks.now) txn (requests plan.now) ≡ []) }
{
    side_granted(protocol, locks, txn, plan.current)
        && side_granted(protocol, locks, txn, plan.next)
}

/// The transactions whose locks conflict with the request of a side.
fn side_blockers<P: Protocol, L: Holdings>(
    alloc: Global,
    protocol: &P,
    locks: &L,
    txn: Txn,
    side: Option<(Name, Mode, Span)>,
) -> Result<Vec<Txn>, Memory>
    requires held { AreWithin (P.table protocol.now).count (L.locks locks.now) }
    requires asked { SideIsMode (P.table protocol.now).count side }
    ensures { IfOk result (λ list. list.items ≡ blockers (P.table protocol.now) (L.locks locks.now) txn (option_to_list side)) }
{
    match side {
        Some((name, mode, _)) => locks.blockers(alloc, protocol, txn, name, mode),
        None => Ok(Vec::new(alloc)),
    }
}

/// Puts the transactions of one list into a rising one, each once.
fn add_all(list: &mut Vec<Txn>, more: &[Txn]) -> Result<(), Memory>
    requires { IsStrictlyIncreasing list.old.items }
    ensures { OnOk result (list.new.items ≡ merged more.now list.old.items) }
{
    for i in (0..more.len()).rev() {
        put_once(list, more[i])?;
    }
    Ok(())
}

/// The transactions whose locks conflict with a request of a plan, as `granted` says it, rising, each once; or `Memory` where
/// a growth is refused. There are none exactly where the plan is granted.
///
/// The conditions on modes are those of `granted`.
pub fn blockers<P: Protocol, L: Holdings>(
    alloc: Global,
    protocol: &P,
    locks: &L,
    txn: Txn,
    plan: &Plan,
) -> Result<Vec<Txn>, Memory>
    requires held { AreWithin (P.table protocol.now).count (L.locks locks.now) }
    requires asked { ArePlanModes (P.table protocol.now).count plan.now }
    ensures { IfOk result (λ list. list.items ≡ blockers (P.table protocol.now) (L.locks locks.now) txn (requests plan.now)) }
{
    let current = side_blockers(alloc, protocol, locks, txn, plan.current)?;
    let mut list = side_blockers(alloc, protocol, locks, txn, plan.next)?;
    // Where the next side has no blockers, the current side's list is the answer, with no copy made.
    if list.is_empty() {
        return Ok(current);
    }
    add_all(&mut list, current.as_slice())?;
    Ok(list)
}
