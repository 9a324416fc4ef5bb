//! The steps of the holder that a case is about.
ghost use Rattle.std.specs.Prelude.{◌≡◌, ◌≤◌, ◌&&◌, is_some};
ghost use Rattle.std.specs.List.{list_any};
ghost use Rattle.kr_explain_runs.specs.About.{asks, can_put, can_step, can_take, has_cover, is_about, is_asked_for, is_below, is_converted, may_insert};

use crate::deed::Deed;
use crate::keys::{A, B, C, K, P};
use crate::state::State;
use crate::table::Table;
use kr_model::{Cover, FailedCase, Mode, Op, Origin, Row, Rule, Side, Span};
use kr_protocol::Protocol;

/// Steps that are tried in this order, where there are any.
pub(crate) type OwnSteps = [Option<Op>; 7];

/// The steps by which the holder, in this state, makes the request that the case is about.
pub(crate) fn own_steps<T: Protocol>(
    table: &Table<'_, T>,
    state: State,
    case: &FailedCase,
) -> OwnSteps
    ensures { list_any is_some result ≡ is_about (T.table table.now.protocol.now) case.now state }
{
    match case.from {
        Origin::Own(own) => only(
            state.a && state.on_a == own && can_step(case.case, state),
            step_of(case.case),
        ),
        Origin::Conversion { held, asked } => converting(table, state, case.cover, held, asked),
        Origin::Insert { own_next, own } => only(
            is_below(state, own_next, own) && may_insert(case.case, case.cover, state),
            Op::Insert(A, 0),
        ),
    }
}

/// Whether A is gone, and the holder has these modes on Y and on A.
fn is_below(state: State, on_y: Mode, on_a: Mode) -> bool
    ensures { result ≡ is_below on_y on_a state }
{
    !state.a && state.on_y == on_y && state.on_a == on_a
}

/// Whether an insert of A is one that the case is about: a split only where the holder has the cover of the gap.
fn may_insert(rule: Rule, cover: Cover, state: State) -> bool
    ensures { result ≡ may_insert rule cover state }
{
    match rule {
        Rule::Insert => true,
        Rule::Split => has_cover(cover, state),
        _ => false,
    }
}

/// Whether the state has a step that the case is about.
pub(crate) fn is_about<T: Protocol>(table: &Table<'_, T>, state: State, case: &FailedCase) -> bool
    ensures { result ≡ is_about (T.table table.now.protocol.now) case.now state }
{
    has_any(&own_steps(table, state, case))
}

/// Whether there is a step among them.
fn has_any(steps: &[Option<Op>]) -> bool
    ensures { result ≡ list_any is_some steps.now }
{
    steps.iter().any(|step| step.is_some())
}

/// The step alone, if it can be taken.
fn only(can: bool, op: Op) -> OwnSteps
    ensures { list_any is_some result ≡ can }
{
    [step_if(can, true, op), None, None, None, None, None, None]
}

/// Whether the holder did that which its lock has to protect.
fn has_cover(cover: Cover, state: State) -> bool
    ensures { result ≡ has_cover cover state }
{
    match cover {
        Cover::ReadKey => state.did_a != Deed::Nothing,
        Cover::ReadGap => !state.p && state.did_p != Deed::Nothing,
        Cover::InsertedKey => state.did_a == Deed::Inserted,
        Cover::DeletedGap => !state.p && state.did_p == Deed::Deleted,
        Cover::UpdatedKey => state.did_a == Deed::Updated,
    }
}

/// The steps that convert a mode on A which has the cover.
fn converting<T: Protocol>(
    table: &Table<'_, T>,
    state: State,
    cover: Cover,
    held: Mode,
    asked: Mode,
) -> OwnSteps
    ensures { list_any is_some result ≡ is_converted (T.table table.now.protocol.now) cover held asked state }
{
    if state.a && state.on_a == held && held <= table.protocol.count() && has_cover(cover, state) {
        asking(table, state, asked)
    } else {
        [None; 7]
    }
}

/// The steps that can be taken and request the mode on A until commit.
fn asking<T: Protocol>(table: &Table<'_, T>, state: State, asked: Mode) -> OwnSteps
    requires { state.on_a ≤ (T.table table.now.protocol.now).count }
    ensures { list_any is_some result ≡ is_asked_for (T.table table.now.protocol.now) asked state }
{
    let own = state.on_a;
    let hits = asks(table, asked, 0, Row::FetchHit, Side::Current);
    let misses = asks(table, asked, 0, Row::FetchMiss, Side::Next);
    let scans = asks(table, asked, 0, Row::ScanKey, Side::Current);
    let stops = asks(table, asked, 0, Row::ScanStop, Side::Next);
    let puts = asks(table, asked, own, Row::Insert, Side::Next);
    let takes = asks(table, asked, own, Row::Delete, Side::Next);
    let updates = asks(table, asked, 0, Row::Update, Side::Current);
    let (point, taken) = points_below(state);
    [
        step_if(hits, true, Op::Fetch(A)),
        step_if(misses, true, Op::Fetch(point)),
        step_if(scans, true, Op::Scan(A, A)),
        step_if(stops, true, Op::Scan(point, point)),
        step_if(puts, can_put(state), Op::Insert(B, 0)),
        step_if(takes, can_take(state), Op::Delete(taken)),
        step_if(updates, true, Op::Update(A, 0)),
    ]
}

/// A point below A that doesn't stand, and the key that can be deleted there.
fn points_below(state: State) -> (u64, u64) {
    if state.p { (C, P) } else { (P, K) }
}

/// Whether B can be put in right below A.
fn can_put(state: State) -> bool
    ensures { result ≡ can_put state }
{
    !state.p && !state.b
}

/// Whether P, or else K, can be deleted right below A.
fn can_take(state: State) -> bool
    ensures { result ≡ can_take state }
{
    state.p || !state.b && state.k
}

/// The step, if it requests the mode and can be taken.
fn step_if(asks: bool, can: bool, op: Op) -> Option<Op>
    ensures { is_some result ≡ (asks && can) }
{
    if asks && can { Some(op) } else { None }
}

/// Whether a row asks on A for the mode until commit, where it goes by this own mode.
fn asks<T: Protocol>(table: &Table<'_, T>, mode: Mode, own: Mode, row: Row, side: Side) -> bool
    requires { own ≤ (T.table table.now.protocol.now).count }
    ensures { result ≡ asks (T.table table.now.protocol.now) mode own row side }
{
    match table.ask(row, side, own) {
        Some((asked, Span::Commit)) => asked == mode,
        _ => false,
    }
}

/// Whether the step of a rule can be taken where A stands.
fn can_step(rule: Rule, state: State) -> bool
    ensures { result ≡ can_step rule state }
{
    match rule {
        Rule::FetchHit | Rule::Update => true,
        Rule::FetchMiss | Rule::ScanKey | Rule::ScanStop => !state.p,
        Rule::Delete => state.p && state.did_p != Deed::Inserted,
        Rule::Conversion | Rule::Insert | Rule::Split => false,
    }
}

/// The step of a rule where A stands, for those that have one.
fn step_of(rule: Rule) -> Op {
    match rule {
        Rule::FetchMiss => Op::Fetch(P),
        Rule::ScanKey => Op::Scan(P, A),
        Rule::ScanStop => Op::Scan(P, P),
        Rule::Delete => Op::Delete(P),
        Rule::Update => Op::Update(A, 0),
        _ => Op::Fetch(A),
    }
}
