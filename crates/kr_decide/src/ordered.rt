//! Whether a protocol is ordered.

ghost use Rattle.std.specs.Prelude.{◌≡◌, ℕ, ◌≤◌, ◌↔◌, IsTrue};
ghost use Rattle.kr_theorem.specs.Ordered.{IsAtLeast, AsksAtLeast, IsOrdered};
ghost use Rattle.kr_decide.specs.Rising.{GoesUp, GoesUpFrom, RisesTo, RisesFrom, Rises, AllGoUp, KeepsNone, AllKeepNone};

use kr_model::{Mode, Row, Side, Span};
use kr_protocol::Protocol;

/// Whether a mode is at least another: it is compatible with nothing that the other conflicts with, be it requested or held.
pub fn is_at_least<P: Protocol>(protocol: &P, mode: Mode, lesser: Mode) -> bool
    requires mode { mode ≤ (P.table protocol.now).count }
    requires lesser { lesser ≤ (P.table protocol.now).count }
    ensures { IsTrue result ↔ IsAtLeast (P.table protocol.now) mode lesser }
{
    for other in 0..=protocol.count() {
        if protocol.ok(mode, other) && !protocol.ok(lesser, other) {
            return false;
        }
        if protocol.ok(other, mode) && !protocol.ok(other, lesser) {
            return false;
        }
    }
    true
}

/// Whether what is requested at the own mode `own` is at least what is requested at `lesser`.
fn asks_at_least<P: Protocol>(protocol: &P, row: Row, side: Side, own: Mode, lesser: Mode) -> bool
    requires own { own ≤ (P.table protocol.now).count }
    requires lesser { lesser ≤ (P.table protocol.now).count }
    ensures { IsTrue result ↔ AsksAtLeast (P.table protocol.now) ((P.table protocol.now).ask row side own) ((P.table protocol.now).ask row side lesser) }
{
    match (
        protocol.ask(row, side, own),
        protocol.ask(row, side, lesser),
    ) {
        (_, None) => true,
        (None, Some(_)) => false,
        (Some((mode, until)), Some((least, least_until))) => {
            (least_until == Span::Instant || until == Span::Commit)
                && is_at_least(protocol, mode, least)
        }
    }
}

/// Whether who holds `own` requests at least what one requests who holds `lesser`, if `own` is at least that.
fn rises_to<P: Protocol>(protocol: &P, row: Row, side: Side, lesser: Mode, own: Mode) -> bool
    requires lesser { lesser ≤ (P.table protocol.now).count }
    requires own { own ≤ (P.table protocol.now).count }
    ensures { IsTrue result ↔ RisesTo (P.table protocol.now) row side lesser own }
{
    !is_at_least(protocol, own, lesser) || asks_at_least(protocol, row, side, own, lesser)
}

/// Whether so does who holds any mode at least `lesser`.
fn rises_from<P: Protocol>(protocol: &P, row: Row, side: Side, lesser: Mode) -> bool
    requires { lesser ≤ (P.table protocol.now).count }
    ensures { IsTrue result ↔ RisesFrom (P.table protocol.now) row side lesser }
{
    for own in 0..=protocol.count() {
        if !rises_to(protocol, row, side, lesser, own) {
            return false;
        }
    }
    true
}

/// Whether what is requested rises with the own mode on the next name.
fn rises<P: Protocol>(protocol: &P, row: Row, side: Side) -> bool
    ensures { IsTrue result ↔ Rises (P.table protocol.now) row side }
{
    for lesser in 0..=protocol.count() {
        if !rises_from(protocol, row, side, lesser) {
            return false;
        }
    }
    true
}

/// Whether a converted mode is at least both that it is made of.
fn goes_up<P: Protocol>(protocol: &P, held: Mode, requested: Mode) -> bool
    requires held { held ≤ (P.table protocol.now).count }
    requires requested { requested ≤ (P.table protocol.now).count }
    ensures { IsTrue result ↔ GoesUp (P.table protocol.now) held requested }
{
    let mode = protocol.convert(held, requested);
    is_at_least(protocol, mode, held) && is_at_least(protocol, mode, requested)
}

/// Whether it is, whatever is requested.
fn goes_up_from<P: Protocol>(protocol: &P, held: Mode) -> bool
    requires { held ≤ (P.table protocol.now).count }
    ensures { IsTrue result ↔ GoesUpFrom (P.table protocol.now) held }
{
    for requested in 0..=protocol.count() {
        if !goes_up(protocol, held, requested) {
            return false;
        }
    }
    true
}

/// Whether it is, whatever is held and requested.
fn all_go_up<P: Protocol>(protocol: &P) -> bool
    ensures { IsTrue result ↔ AllGoUp (P.table protocol.now) }
{
    for held in 0..=protocol.count() {
        if !goes_up_from(protocol, held) {
            return false;
        }
    }
    true
}

/// Whether an insert at this own mode on the next name keeps no lock there.
fn keeps_none<P: Protocol>(protocol: &P, own: Mode) -> bool
    requires { own ≤ (P.table protocol.now).count }
    ensures { IsTrue result ↔ KeepsNone (P.table protocol.now) own }
{
    match protocol.ask(Row::Insert, Side::Next, own) {
        None => true,
        Some((_, span)) => span == Span::Instant,
    }
}

/// Whether no insert does.
fn all_keep_none<P: Protocol>(protocol: &P) -> bool
    ensures { IsTrue result ↔ AllKeepNone (P.table protocol.now) }
{
    for own in 0..=protocol.count() {
        if !keeps_none(protocol, own) {
            return false;
        }
    }
    true
}

/// Whether a protocol is ordered: a converted mode is at least both that it is made of, what insert and delete request rises
/// with the own mode on the next name, and an insert keeps no lock there. Takes no memory.
pub fn is_ordered<P: Protocol>(protocol: &P) -> bool
    ensures { IsTrue result ↔ IsOrdered (P.table protocol.now) }
{
    all_go_up(protocol)
        && all_keep_none(protocol)
        && rises(protocol, Row::Insert, Side::Current)
        && rises(protocol, Row::Insert, Side::Next)
        && rises(protocol, Row::Delete, Side::Current)
        && rises(protocol, Row::Delete, Side::Next)
}
