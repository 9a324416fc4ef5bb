//! How a request is answered under two tables.
ghost use Rattle.std.specs.Prelude.{◌≡◌, ◌≤◌, ◌<◌, IsTrue};
ghost use Rattle.kr_alike.specs.Closed.{given, is_blocked, after};
ghost use Rattle.kr_alike.specs.Marks.{is_within, answer, plain};

use crate::modes::{Ask, Modes};
use kr_model::{Mode, Requester, Row, Side};
use kr_protocol::{Protocol, is_open, mode_after};

/// The own mode on the next name that a request goes by, of one who holds `own` on the requested name and `next` on the next
/// name.
fn given(row: Row, side: Side, own: Mode, next: Mode) -> Mode
    ensures { result ≡ given row side own next }
{
    match (row, side) {
        (Row::Insert, Side::Current) => next,
        (Row::Insert, Side::Next) => own,
        (Row::Delete, Side::Current) => next,
        (Row::Delete, Side::Next) => own,
        _ => 0,
    }
}

/// Whether the request of one who holds `own` on the name and `next` on the next name conflicts with another's lock.
fn is_blocked<P: Protocol>(
    protocol: &P,
    row: Row,
    side: Side,
    own: Mode,
    next: Mode,
    other: Mode,
) -> bool
    requires own { own ≤ (P.table protocol.now).count }
    requires next { next ≤ (P.table protocol.now).count }
    requires other { other ≤ (P.table protocol.now).count }
    ensures { result ≡ is_blocked (P.table protocol.now) row side own next other }
{
    let requester = Requester {
        row,
        side,
        own,
        own_next: given(row, side, own, next),
    };
    !is_open(protocol, other, requester)
}

/// What the requester holds after the request is granted under both tables.
pub(crate) fn after<P: Protocol, Q: Protocol>(first: &P, second: &Q, ask: Ask) -> Modes
    requires own { IsTrue (is_within (P.table first.now) (Q.table second.now) ask.own) }
    requires next { IsTrue (is_within (P.table first.now) (Q.table second.now) ask.next) }
    ensures modes { result ≡ after (P.table first.now) (Q.table second.now) ask.row ask.side ask.own ask.next }
    ensures within { IsTrue (is_within (P.table first.now) (Q.table second.now) result) }
{
    let (row, side) = (ask.row, ask.side);
    let own_next = given(row, side, ask.own.first, ask.next.first);
    let own_second = given(row, side, ask.own.second, ask.next.second);
    Modes {
        first: mode_after(first, ask.own.first, row, side, own_next),
        second: mode_after(second, ask.own.second, row, side, own_second),
    }
}

/// Whether a request is blocked, or `None` where it is under one table alone.
pub(crate) fn answer<P: Protocol, Q: Protocol>(first: &P, second: &Q, ask: Ask) -> Option<bool>
    requires own { IsTrue (is_within (P.table first.now) (Q.table second.now) ask.own) }
    requires next { IsTrue (is_within (P.table first.now) (Q.table second.now) ask.next) }
    requires other { IsTrue (is_within (P.table first.now) (Q.table second.now) ask.other) }
    ensures { result ≡ answer (P.table first.now) (Q.table second.now) ask }
{
    let (row, side) = (ask.row, ask.side);
    let one = is_blocked(
        first,
        row,
        side,
        ask.own.first,
        ask.next.first,
        ask.other.first,
    );
    let two = is_blocked(
        second,
        row,
        side,
        ask.own.second,
        ask.next.second,
        ask.other.second,
    );
    match (one, two) {
        (true, true) => Some(true),
        (false, false) => Some(false),
        _ => None,
    }
}

/// The places of the table whose requests go by no mode on another name: each row and side but insert and delete at the side
/// current.
const PLAIN: [(Row, Side); 12] = [
    (Row::FetchHit, Side::Current),
    (Row::FetchHit, Side::Next),
    (Row::FetchMiss, Side::Current),
    (Row::FetchMiss, Side::Next),
    (Row::ScanKey, Side::Current),
    (Row::ScanKey, Side::Next),
    (Row::ScanStop, Side::Current),
    (Row::ScanStop, Side::Next),
    (Row::Update, Side::Current),
    (Row::Update, Side::Next),
    (Row::Insert, Side::Next),
    (Row::Delete, Side::Next),
];

/// The place with this number.
pub(crate) fn plain(number: usize) -> (Row, Side)
    requires { number < 12 }
    ensures { result ≡ plain number }
{
    PLAIN[number]
}
