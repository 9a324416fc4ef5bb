//! What a transaction may come to request on a name, what blocks it, and what it has afterwards.
ghost use Rattle.std.specs.Prelude.{◌≡◌, ◌≤◌, ◌↔◌, false, IsTrue};
ghost use Rattle.kr_model.specs.Covers.{mode_after, conflicts_with};
ghost use Rattle.kr_model.specs.Safe as safe;
ghost use Rattle.kr_model.specs.Safe.{MayAsk, MayInsert, MayBeside, IsIdle, MayBeOnAbsent};

use crate::absent::may_be_on_absent;
use kr_model::{GapUse, KeyUse, LockState, Mode, Row, Side};
use kr_protocol::{Protocol, mode_after};

/// What a transaction has on a name where it has requested nothing.
pub const FREE: LockState = LockState {
    mode: 0,
    key: KeyUse::Free,
    gap: GapUse::Free,
    deleted: false,
};

/// The own mode on the next name that a request goes by.
pub fn given(row: Row, side: Side, own: LockState, next: LockState) -> Mode
    ensures { result ≡ safe.given row side own next }
{
    match (row, side) {
        (Row::Insert, Side::Next) => own.mode,
        (Row::Delete, Side::Next) => own.mode,
        (Row::Insert, Side::Current) => next.mode,
        (Row::Delete, Side::Current) => next.mode,
        _ => 0,
    }
}

/// Whether a lock of the mode `held` conflicts with the request of another transaction that has the mode `own` on the name. The
/// request goes by the mode `given`.
pub(crate) fn conflicts<P: Protocol>(
    protocol: &P,
    row: Row,
    side: Side,
    given: Mode,
    own: Mode,
    held: Mode,
) -> bool
    requires given { given ≤ (P.table protocol.now).count }
    requires own { own ≤ (P.table protocol.now).count }
    requires held { held ≤ (P.table protocol.now).count }
    ensures { result ≡ conflicts_with (P.table protocol.now) held own ((P.table protocol.now).ask row side given) }
{
    match protocol.ask(row, side, given) {
        Some((mode, _)) => !protocol.ok(protocol.convert(own, mode), held),
        None => false,
    }
}

/// Whether another's lock blocks the request of a transaction that has `own` on the name and `next` on the next one.
pub fn is_blocked<P: Protocol>(
    protocol: &P,
    row: Row,
    side: Side,
    own: LockState,
    next: LockState,
    other: LockState,
) -> bool
    requires own { own.mode ≤ (P.table protocol.now).count }
    requires next { next.mode ≤ (P.table protocol.now).count }
    requires other { other.mode ≤ (P.table protocol.now).count }
    ensures { result ≡ safe.is_blocked (P.table protocol.now) row side own next other }
{
    conflicts(
        protocol,
        row,
        side,
        given(row, side, own, next),
        own.mode,
        other.mode,
    )
}

/// The lock state after a request is granted.
pub fn after<P: Protocol>(
    protocol: &P,
    row: Row,
    side: Side,
    own: LockState,
    next: LockState,
) -> LockState
    requires own { own.mode ≤ (P.table protocol.now).count }
    requires next { next.mode ≤ (P.table protocol.now).count }
    ensures { result ≡ safe.after (P.table protocol.now) row side own next }
{
    LockState {
        mode: mode_after(protocol, own.mode, row, side, given(row, side, own, next)),
        key: key_after(row, side, own.key),
        gap: gap_after(row, side, own.gap, next.gap),
        deleted: is_deleting(row, side),
    }
}

/// What has been done with the key then.
fn key_after(row: Row, side: Side, key: KeyUse) -> KeyUse
    ensures { result ≡ safe.key_after row side key }
{
    match (row, side, key) {
        (Row::FetchHit, Side::Current, KeyUse::Free) => KeyUse::Read,
        (Row::ScanKey, Side::Current, KeyUse::Free) => KeyUse::Read,
        (Row::Insert, Side::Current, _) => KeyUse::Inserted,
        (Row::Update, Side::Current, KeyUse::Inserted) => KeyUse::Inserted,
        (Row::Update, Side::Current, _) => KeyUse::Updated,
        _ => key,
    }
}

/// What has been done in a gap, where both of these have.
fn and_gap(gap: GapUse, other: GapUse) -> GapUse
    ensures { result ≡ safe.and_gap gap other }
{
    match (gap, other) {
        (GapUse::Free, _) => other,
        (GapUse::Read, GapUse::Deleted) => GapUse::Deleted,
        (GapUse::Read, _) => GapUse::Read,
        (GapUse::Deleted, _) => GapUse::Deleted,
    }
}

/// What has been done in the gap then.
fn gap_after(row: Row, side: Side, gap: GapUse, next: GapUse) -> GapUse
    ensures { result ≡ safe.gap_after row side gap next }
{
    match (row, side) {
        (Row::FetchMiss, Side::Next) => and_gap(gap, GapUse::Read),
        (Row::ScanKey, Side::Current) => and_gap(gap, GapUse::Read),
        (Row::ScanStop, Side::Next) => and_gap(gap, GapUse::Read),
        (Row::Insert, Side::Current) => and_gap(gap, next),
        (Row::Delete, Side::Next) => GapUse::Deleted,
        _ => gap,
    }
}

/// Whether the transaction has deleted the key then.
fn is_deleting(row: Row, side: Side) -> bool
    ensures { result ≡ safe.deleted_after row side }
{
    match (row, side) {
        (Row::Delete, Side::Current) => true,
        _ => false,
    }
}

/// Whether a lock has nothing to protect.
fn is_idle(state: LockState) -> bool
    ensures { IsTrue result ↔ IsIdle state }
{
    state.key == KeyUse::Free && state.gap == GapUse::Free
}

/// Whether a transaction may have this lock state on an absent key that it hasn't deleted: it has nothing to protect there.
fn is_on_absent<P: Protocol>(protocol: &P, state: LockState) -> bool
    requires { state.mode ≤ (P.table protocol.now).count }
    ensures { IsTrue result ↔ (state.deleted ≡ false) × IsIdle state × MayBeOnAbsent (P.table protocol.now) state.mode }
{
    !state.deleted && is_idle(state) && may_be_on_absent(protocol, state.mode)
}

/// Whether a transaction that has `own` on a name, and `next` on the next one, may insert the key.
fn may_insert<P: Protocol>(protocol: &P, own: LockState, next: LockState) -> bool
    requires { own.mode ≤ (P.table protocol.now).count }
    ensures { IsTrue result ↔ MayInsert (P.table protocol.now) own next }
{
    is_on_absent(protocol, own) || own.deleted && next.gap == GapUse::Deleted
}

/// Whether a transaction that has `own` on a name, and `next` on the next one, may come to request a lock there at this row and
/// side.
pub fn may_ask<P: Protocol>(
    protocol: &P,
    row: Row,
    side: Side,
    own: LockState,
    next: LockState,
) -> bool
    requires { own.mode ≤ (P.table protocol.now).count }
    ensures { IsTrue result ↔ MayAsk (P.table protocol.now) row side own next }
{
    match (row, side) {
        (Row::FetchHit, Side::Current) => !own.deleted,
        (Row::FetchMiss, Side::Next) => !own.deleted,
        (Row::ScanKey, Side::Current) => !own.deleted,
        (Row::ScanStop, Side::Next) => !own.deleted,
        (Row::Insert, Side::Current) => !next.deleted && may_insert(protocol, own, next),
        (Row::Insert, Side::Next) => !own.deleted,
        (Row::Delete, Side::Current) => !own.deleted && !next.deleted,
        (Row::Delete, Side::Next) => !own.deleted,
        (Row::Update, Side::Current) => !own.deleted && protocol.updates(),
        _ => false,
    }
}

/// Whether it may beside another's lock state on the name.
pub fn may_beside<P: Protocol>(protocol: &P, row: Row, side: Side, other: LockState) -> bool
    requires { other.mode ≤ (P.table protocol.now).count }
    ensures { IsTrue result ↔ MayBeside (P.table protocol.now) row side other }
{
    match (row, side) {
        (Row::Insert, Side::Current) => is_on_absent(protocol, other),
        _ => true,
    }
}

/// Whether no other transaction may be granted a request at this row and side beside a lock state.
pub fn keeps_out(state: LockState, row: Row, side: Side) -> bool
    ensures { result ≡ safe.keeps_out state row side }
{
    keeps_out_by_key(state.key, row, side) || keeps_out_by_gap(state.gap, row, side)
}

fn keeps_out_by_key(key: KeyUse, row: Row, side: Side) -> bool
    ensures { result ≡ safe.by_key key row side }
{
    match (key, row, side) {
        (KeyUse::Read, Row::Delete | Row::Update, Side::Current) => true,
        (
            KeyUse::Updated,
            Row::FetchHit | Row::ScanKey | Row::Delete | Row::Update,
            Side::Current,
        ) => true,
        (
            KeyUse::Inserted,
            Row::FetchHit | Row::ScanKey | Row::Delete | Row::Update,
            Side::Current,
        ) => true,
        (KeyUse::Inserted, Row::FetchMiss | Row::ScanStop | Row::Delete, Side::Next) => true,
        _ => false,
    }
}

fn keeps_out_by_gap(gap: GapUse, row: Row, side: Side) -> bool
    ensures { result ≡ safe.by_gap gap row side }
{
    match (gap, row, side) {
        (GapUse::Read, Row::Insert, Side::Next) => true,
        (GapUse::Read, Row::Delete, Side::Current) => true,
        (GapUse::Deleted, Row::FetchMiss | Row::ScanStop | Row::Insert | Row::Delete, Side::Next) =>
            true,
        (GapUse::Deleted, Row::ScanKey | Row::Delete, Side::Current) => true,
        _ => false,
    }
}
