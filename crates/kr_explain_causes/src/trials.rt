//! The changes of what is to blame that are tried.
ghost use Rattle.std.specs.Prelude.{◌≤◌, IfOk, length};
ghost use Rattle.kr_explain_causes.specs.Mends.{IsOf};

use crate::blame::Blame;
use crate::cause::Cause;
use crate::reasons::own_next;
use kr_cases::Memory;
use kr_change::Change;
use kr_model::{FailedCase, Mode, Row, Side, Span};
use kr_protocol::{Protocol, asked};
use std::alloc::Global;

/// The own modes on the next name with which the locks of the cases were taken, each as a bit; or `None` where these are
/// all, or where the row doesn't go by them.
fn own_modes<P: Protocol>(protocol: &P, row: Row, cases: &[FailedCase]) -> Option<u16> {
    if !matches!(row, Row::Insert | Row::Delete) {
        return None;
    }
    let mut modes: u16 = 0;
    for case in cases {
        let own = own_next(case);
        if own <= protocol.count() {
            modes |= 1 << own;
        }
    }
    for own in 0..protocol.count() + 1 {
        if modes >> own & 1 == 0 {
            return Some(modes);
        }
    }
    None
}

/// How long a lock is to be held where none was requested so far.
fn usual_span(row: Row, side: Side) -> Span {
    match (row, side) {
        (Row::Insert, Side::Next) | (Row::Delete, Side::Current) => Span::Instant,
        _ => Span::Commit,
    }
}

/// The change of what is to blame, for which a mode is still to be chosen.
pub(crate) fn change_of<P: Protocol>(protocol: &P, cause: &Cause) -> Change
    ensures { IsOf cause.now.blame result }
{
    match cause.blame {
        Blame::Place { row, side } => {
            let span = match asked(protocol, row, side, 0) {
                Some((_, span)) => span,
                None => usual_span(row, side),
            };
            Change::Request {
                row,
                side,
                own_next: None,
                request: Some((0, span)),
            }
        }
        Blame::Request { row, side, .. } => Change::Request {
            row,
            side,
            own_next: own_modes(protocol, row, &cause.cases),
            request: Some((0, Span::Commit)),
        },
        Blame::Conversion { held, requested } => Change::Convert {
            held,
            requested,
            mode: 0,
        },
        Blame::Pair { requested, held } => Change::Compatible {
            requested,
            held,
            is_compatible: false,
        },
    }
}

/// The modes, rising, without one of them; or that one before the others.
fn modes_but(
    alloc: Global,
    count: Mode,
    one: Option<Mode>,
    comes_first: bool,
) -> Result<Vec<Mode>, Memory>
    requires { count ≤ 15 }
    ensures { IfOk result (λ modes. length modes.items ≤ count) }
{
    let mut modes = Vec::new(alloc);
    if let Some(mode) = one {
        if comes_first && mode > 0 && mode <= count {
            modes.push(mode)?;
        }
    }
    for mode in 1..count + 1 {
        if one != Some(mode) {
            modes.push(mode)?;
        }
    }
    Ok(modes)
}

/// The modes that the entry of what is to blame could have instead, in the order of trial: first a mode that is requested
/// and not kept. For a pair one stands for all, since its change has no mode.
pub(crate) fn trials<P: Protocol>(
    alloc: Global,
    protocol: &P,
    blame: Blame,
) -> Result<Vec<Mode>, Memory>
    ensures { IfOk result (λ modes. length modes.items ≤ 15) }
{
    let count = protocol.count();
    match blame {
        Blame::Request {
            asked: Some((mode, Span::Instant)),
            ..
        } => modes_but(alloc, count, Some(mode), true),
        Blame::Request {
            asked: Some((mode, Span::Commit)),
            ..
        } => modes_but(alloc, count, Some(mode), false),
        Blame::Pair { requested, .. } => {
            let mut modes = Vec::new(alloc);
            modes.push(requested)?;
            Ok(modes)
        }
        Blame::Conversion { held, requested } if held <= count && requested <= count => {
            let made = protocol.convert(held, requested);
            modes_but(alloc, count, Some(made), false)
        }
        _ => modes_but(alloc, count, None, false),
    }
}
