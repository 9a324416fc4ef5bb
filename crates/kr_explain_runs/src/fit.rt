//! How near a script is to a failed case.

use crate::scene::Scene;
use crate::table::Table;
use crate::turns::Turn;
use kr_model::{FailedCase, Origin, Row, Rule, Side};
use kr_protocol::Protocol;

/// How near a script has to be to the case.
#[derive(Clone, Copy)]
pub enum Fit {
    /// The holder comes to the case's mode as the case says.
    Case,
    /// The holder has the case's mode, and what the case is about to protect.
    Mode,
}

/// Whether the case is about a turn on A, from a scene that is seen by the one that takes it.
pub(crate) fn is_step<P: Protocol>(
    table: &Table<P>,
    case: &FailedCase,
    from: Scene,
    turn: Turn,
) -> bool {
    let (row, side) = turn.request;
    let on_a = from.first.mode;
    let on_next = match side {
        Side::Current => from.above.mode,
        Side::Next => on_a,
    };
    match case.from {
        Origin::Own(own) => on_a == own && is_row(case.case, row, side),
        Origin::Conversion { held, asked } => {
            on_a == held
                && matches!(table.ask(row, side, on_next), Some((mode, _)) if mode == asked)
        }
        Origin::Insert { own_next, own } => {
            row == Row::Insert && on_a == own && on_next == own_next
        }
    }
}

/// Whether a rule is about requests at a row and a side.
fn is_row(rule: Rule, row: Row, side: Side) -> bool {
    match (rule, row, side) {
        (Rule::FetchHit, Row::FetchHit, Side::Current) => true,
        (Rule::FetchMiss, Row::FetchMiss, Side::Next) => true,
        (Rule::ScanKey, Row::ScanKey, Side::Current) => true,
        (Rule::ScanStop, Row::ScanStop, Side::Next) => true,
        (Rule::Delete, Row::Delete, Side::Next) => true,
        (Rule::Update, Row::Update, Side::Current) => true,
        _ => false,
    }
}
