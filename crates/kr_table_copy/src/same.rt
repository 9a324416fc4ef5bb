//! Whether two protocols answer the same.
ghost use Rattle.std.specs.Prelude.{◌≡◌, ℕ, ◌+◌, ◌<◌, ◌≤◌, IsTrue};
ghost use Rattle.kr_model.specs.declared.Row.{Row};
ghost use Rattle.kr_kinds.specs.Kinds.{Gone};
ghost use Rattle.kr_table_copy.specs.declared.copying.Copy.TheVariants as copied;
ghost use Rattle.kr_table_copy.specs.Same.{AnswersAs, IsCopy, SameConversions, SameNames, SamePairs, SameRequests, SameSides};

use kr_model::{Mode, Row, Side, Span};
use kr_protocol::Protocol;
use kr_table::Table;

/// Whether a requested mode is compatible with the same held modes under both.
fn has_same_pairs<P: Protocol, Q: Protocol>(one: &P, other: &Q, requested: Mode) -> bool
    requires count { (Q.table other.now).count ≡ (P.table one.now).count }
    requires mode { requested ≤ (P.table one.now).count }
    ensures { IsTrue result → SamePairs (P.table one.now) (Q.table other.now) requested ((P.table one.now).count + 1) }
{
    for held in 0..one.count() + 1 {
        if other.ok(requested, held) != one.ok(requested, held) {
            return false;
        }
    }
    true
}

/// Whether a held mode and each requested one convert to the same under both.
fn has_same_conversions<P: Protocol, Q: Protocol>(one: &P, other: &Q, held: Mode) -> bool
    requires count { (Q.table other.now).count ≡ (P.table one.now).count }
    requires mode { held ≤ (P.table one.now).count }
    ensures { IsTrue result → SameConversions (P.table one.now) (Q.table other.now) held ((P.table one.now).count + 1) }
{
    for requested in 0..one.count() + 1 {
        if other.convert(held, requested) != one.convert(held, requested) {
            return false;
        }
    }
    true
}

/// Whether two requests are the same.
pub(crate) fn is_same_request(request: Option<(Mode, Span)>, other: Option<(Mode, Span)>) -> bool
    ensures { IsTrue result → request ≡ other }
{
    request == other
}

/// Whether a row requests the same at a side under both, whatever the own mode on the next name.
fn has_same_requests<P: Protocol, Q: Protocol>(one: &P, other: &Q, row: Row, side: Side) -> bool
    requires { (Q.table other.now).count ≡ (P.table one.now).count }
    ensures { IsTrue result → SameRequests (P.table one.now) (Q.table other.now) row side ((P.table one.now).count + 1) }
{
    for own in 0..one.count() + 1 {
        if !is_same_request(other.ask(row, side, own), one.ask(row, side, own)) {
            return false;
        }
    }
    true
}

/// Whether a row requests the same under both.
fn has_same_sides<P: Protocol, Q: Protocol>(one: &P, other: &Q, row: Row) -> bool
    requires { (Q.table other.now).count ≡ (P.table one.now).count }
    ensures { IsTrue result → SameSides (P.table one.now) (Q.table other.now) row ((P.table one.now).count + 1) }
{
    has_same_requests(one, other, row, Side::Current)
        && has_same_requests(one, other, row, Side::Next)
}

/// Whether all rows request the same under both.
fn has_same_rows<P: Protocol, Q: Protocol>(one: &P, other: &Q) -> bool
    requires { (Q.table other.now).count ≡ (P.table one.now).count }
    ensures { IsTrue result → ((row : Row) → SameSides (P.table one.now) (Q.table other.now) row ((P.table one.now).count + 1)) }
{
    has_same_sides(one, other, Row::FetchHit)
        && has_same_sides(one, other, Row::FetchMiss)
        && has_same_sides(one, other, Row::ScanKey)
        && has_same_sides(one, other, Row::ScanStop)
        && has_same_sides(one, other, Row::Insert)
        && has_same_sides(one, other, Row::Delete)
        && has_same_sides(one, other, Row::Update)
}

/// Whether the modes stand together and convert alike under both.
fn has_same_modes<P: Protocol, Q: Protocol>(one: &P, other: &Q) -> bool
    requires { (Q.table other.now).count ≡ (P.table one.now).count }
    ensures pairs { IsTrue result → ((r : ℕ) → r < (P.table one.now).count + 1 → SamePairs (P.table one.now) (Q.table other.now) r ((P.table one.now).count + 1)) }
    ensures conversions { IsTrue result → ((h : ℕ) → h < (P.table one.now).count + 1 → SameConversions (P.table one.now) (Q.table other.now) h ((P.table one.now).count + 1)) }
{
    for mode in 0..one.count() + 1 {
        if !has_same_pairs(one, other, mode) || !has_same_conversions(one, other, mode) {
            return false;
        }
    }
    true
}

/// Whether a protocol answers as another one does.
pub(crate) fn answers_as<P: Protocol, Q: Protocol>(one: &P, other: &Q) -> bool
    ensures { IsTrue result → AnswersAs (P.table one.now) (Q.table other.now) }
{
    other.count() == one.count()
        && other.updates() == one.updates()
        && has_same_modes(one, other)
        && has_same_rows(one, other)
}

/// Whether each mode has the same name.
pub(crate) fn has_same_names<P: Protocol, Q: Protocol>(one: &P, other: &Q) -> bool
    requires { (Q.table other.now).count ≡ (P.table one.now).count }
    ensures { IsTrue result → SameNames (P.names one.now) (Q.names other.now) ((P.table one.now).count + 1) }
{
    for mode in 0..one.count() + 1 {
        if other.name(mode) != one.name(mode) {
            return false;
        }
    }
    true
}

/// Whether a table answers as a protocol does, with the same names of its modes.
pub(crate) fn is_copy<P: Protocol>(protocol: &P, table: &Table) -> bool
    ensures { IsTrue result → IsCopy (Gone (P.table protocol.now)) (P.names protocol.now) (copied.Gone table.now) }
{
    answers_as(protocol, table) && has_same_names(protocol, table)
}
