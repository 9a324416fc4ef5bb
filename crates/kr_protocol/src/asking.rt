//! A protocol, asked of any numbers: one that is no mode of it has no name, requests nothing, and converts to no lock. And
//! what becomes of a request.
ghost use Rattle.std.specs.Prelude.{◌≡◌, ◌≤◌};
ghost use Rattle.kr_model.specs.Covers.{is_open, mode_after};
ghost use Rattle.kr_model.specs.ModeNames.{name_of};
ghost use Rattle.kr_protocol.specs.Asking.{asked_at, converted_at};

use crate::protocol::Protocol;
use kr_model::{Mode, Requester, Row, Side, Span};

/// The name of a mode, and `none` for 0. A number beyond the modes has none, which is the empty text.
pub fn name_or_empty<P: Protocol>(protocol: &P, mode: Mode) -> &str
    ensures { result.now ≡ name_of (P.names protocol.now) mode }
{
    if mode <= protocol.count() {
        protocol.name(mode)
    } else {
        ""
    }
}

/// What the row requests at the side, of one who holds `own_next` on the next name; nothing where that is no mode.
pub fn asked<P: Protocol>(
    protocol: &P,
    row: Row,
    side: Side,
    own_next: Mode,
) -> Option<(Mode, Span)>
    ensures { result ≡ asked_at (P.table protocol.now) row side own_next }
{
    if own_next <= protocol.count() {
        protocol.ask(row, side, own_next)
    } else {
        None
    }
}

/// The mode that a held and a requested mode convert to; 0 where one of them is no mode.
pub fn converted<P: Protocol>(protocol: &P, held: Mode, requested: Mode) -> Mode
    ensures { result ≡ converted_at (P.table protocol.now) held requested }
{
    let count = protocol.count();
    if held <= count && requested <= count {
        protocol.convert(held, requested)
    } else {
        0
    }
}

/// The mode of one who held `own` on a name, after what a row requests there was granted: a request for an instant isn't
/// kept.
pub fn mode_after<P: Protocol>(
    protocol: &P,
    own: Mode,
    row: Row,
    side: Side,
    own_next: Mode,
) -> Mode
    requires own { own ≤ (P.table protocol.now).count }
    requires own_next { own_next ≤ (P.table protocol.now).count }
    ensures mode { result ≡ mode_after (P.table protocol.now) own ((P.table protocol.now).ask row side own_next) }
    ensures in_range { result ≤ (P.table protocol.now).count }
{
    match protocol.ask(row, side, own_next) {
        Some((mode, Span::Commit)) => protocol.convert(own, mode),
        _ => own,
    }
}

/// Whether a lock in mode `held` lets the requester through: it requests nothing, or the converted mode is compatible.
pub fn is_open<P: Protocol>(protocol: &P, held: Mode, requester: Requester) -> bool
    requires held { held ≤ (P.table protocol.now).count }
    requires own { requester.own ≤ (P.table protocol.now).count }
    requires own_next { requester.own_next ≤ (P.table protocol.now).count }
    ensures { result ≡ is_open (P.table protocol.now) held requester }
{
    match protocol.ask(requester.row, requester.side, requester.own_next) {
        Some((mode, _)) => protocol.ok(protocol.convert(requester.own, mode), held),
        None => true,
    }
}
