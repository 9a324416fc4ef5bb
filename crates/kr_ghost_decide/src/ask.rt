//! Requests on a name: what each asks for, who may make it, whom it has to be kept from, and what it does where it is granted.
ghost use Rattle.std.specs.Prelude.{◌≡◌, ◌≤◌, IfSome};
ghost use Rattle.kr_model.specs.Covers.{mode_after};
ghost use Rattle.kr_ghost.specs.Step as spec;
ghost use Rattle.kr_ghost.specs.Safe.{asked, keeps_out, is_blocked, present_after, and_read, and_changed, key_after, after, on_new_key};
ghost use Rattle.kr_ghost_decide.specs.Holds.{asking, key_use, hold, fact, facts};
ghost use Rattle.kr_ghost_decide.specs.Ways.{may_ask, asks, granted};

use crate::hold::{Hold, KeyUse, Pair, is_changed, is_read};
use kr_ghost_protocol::{GhostProtocol, Mode, Row, Side, Span, Vain, vain_request};

/// What is requested of a name. An insert requests its lock on the next name here. A revive is an insert of a ghost; it and an insert
/// of a present key may request a lock on the next name too.
#[derive(Clone, Copy, PartialEq, Eq)]
pub enum Ask {
    FetchHit,
    FetchMiss,
    ScanName,
    ScanStop,
    Insert,
    Delete,
    Update,
    Revive,
    InsertHit,
    DeleteMiss,
    UpdateMiss,
    ReviveNext,
    InsertHitNext,
}

/// All requests, in order, each once.
pub fn asks() -> &'static [Ask]
    ensures { result.now ≡ asks }
{
    &[
        Ask::FetchHit,
        Ask::FetchMiss,
        Ask::ScanName,
        Ask::ScanStop,
        Ask::Insert,
        Ask::Delete,
        Ask::Update,
        Ask::Revive,
        Ask::InsertHit,
        Ask::DeleteMiss,
        Ask::UpdateMiss,
        Ask::ReviveNext,
        Ask::InsertHitNext,
    ]
}

/// How many modes there are.
pub(crate) fn count<P: GhostProtocol>(protocol: &P) -> Mode
    ensures count { result ≡ (P.ghosts protocol.now).table.count }
    ensures few { result ≤ 15 }
{
    protocol.count()
}

/// What a row requests at a side, of one who has this own mode on the next name.
fn row<P: GhostProtocol>(protocol: &P, row: Row, side: Side, own_next: Mode) -> Option<(Mode, Span)>
    requires { own_next ≤ (P.ghosts protocol.now).table.count }
    ensures asked { result ≡ (P.ghosts protocol.now).table.ask row side own_next }
    ensures in_range { IfSome result (λ a. a.0 ≤ (P.ghosts protocol.now).table.count) }
{
    protocol.ask(row, side, own_next)
}

/// What an insert of a ghost requests on it.
fn revive<P: GhostProtocol>(protocol: &P) -> Option<(Mode, Span)>
    ensures asked { result ≡ (P.ghosts protocol.now).revive }
    ensures in_range { IfSome result (λ a. a.0 ≤ (P.ghosts protocol.now).table.count) }
{
    protocol.revive()
}

/// And on the next name.
fn revive_next<P: GhostProtocol>(protocol: &P) -> Option<(Mode, Span)>
    ensures asked { result ≡ (P.ghosts protocol.now).revive_next }
    ensures in_range { IfSome result (λ a. a.0 ≤ (P.ghosts protocol.now).table.count) }
{
    protocol.revive_next()
}

/// What an insert of a present key requests on the next name.
fn insert_hit_next<P: GhostProtocol>(protocol: &P) -> Option<(Mode, Span)>
    ensures asked { result ≡ (P.ghosts protocol.now).insert_hit_next }
    ensures in_range { IfSome result (λ a. a.0 ≤ (P.ghosts protocol.now).table.count) }
{
    protocol.insert_hit_next()
}

/// What a vain step requests.
fn vain<P: GhostProtocol>(protocol: &P, vain: Vain) -> Option<(Mode, Span)>
    ensures asked { result ≡ spec.vain (P.ghosts protocol.now) vain }
    ensures in_range { IfSome result (λ a. a.0 ≤ (P.ghosts protocol.now).table.count) }
{
    vain_request(protocol, vain)
}

/// What is requested, by one who has this own mode on the name.
fn asked<P: GhostProtocol>(protocol: &P, ask: Ask, own: Mode) -> Option<(Mode, Span)>
    requires { own ≤ (P.ghosts protocol.now).table.count }
    ensures asked { result ≡ asked (P.ghosts protocol.now) (asking ask) own }
    ensures in_range { IfSome result (λ a. a.0 ≤ (P.ghosts protocol.now).table.count) }
{
    match ask {
        Ask::FetchHit => row(protocol, Row::FetchHit, Side::Current, 0),
        Ask::FetchMiss => row(protocol, Row::FetchMiss, Side::Next, 0),
        Ask::ScanName => row(protocol, Row::ScanKey, Side::Current, 0),
        Ask::ScanStop => row(protocol, Row::ScanStop, Side::Next, 0),
        Ask::Insert => row(protocol, Row::Insert, Side::Next, own),
        Ask::Delete => row(protocol, Row::Delete, Side::Current, 0),
        Ask::Update => row(protocol, Row::Update, Side::Current, 0),
        Ask::Revive => revive(protocol),
        Ask::InsertHit => vain(protocol, Vain::InsertHit),
        Ask::DeleteMiss => vain(protocol, Vain::DeleteMiss),
        Ask::UpdateMiss => vain(protocol, Vain::UpdateMiss),
        Ask::ReviveNext => revive_next(protocol),
        Ask::InsertHitNext => insert_hit_next(protocol),
    }
}

/// The mode of one who held `own`, after a request was granted: one for an instant isn't kept.
fn mode_after<P: GhostProtocol>(protocol: &P, own: Mode, asked: Option<(Mode, Span)>) -> Mode
    requires own { own ≤ (P.ghosts protocol.now).table.count }
    requires asked { IfSome asked (λ a. a.0 ≤ (P.ghosts protocol.now).table.count) }
    ensures { result ≡ mode_after (P.ghosts protocol.now).table own asked }
{
    match asked {
        Some((mode, Span::Commit)) => protocol.convert(own, mode),
        _ => own,
    }
}

/// Whether one with this lock state may come to request this of a name whose key is present or not: it doesn't roll back; only a
/// ghost is revived, an insert finds only a present key, and an update is offered.
pub fn may_ask<P: GhostProtocol>(protocol: &P, present: bool, own: Hold, ask: Ask) -> bool
    ensures { result ≡ may_ask (P.ghosts protocol.now) present (hold own) (asking ask) }
{
    if own.rolling {
        return false;
    }
    match ask {
        Ask::Revive => !present,
        Ask::InsertHit => present,
        Ask::Update | Ask::UpdateMiss => protocol.updates(),
        _ => true,
    }
}

/// Whether the lock of the other blocks the request.
pub(crate) fn is_blocked<P: GhostProtocol>(protocol: &P, own: Hold, other: Hold, ask: Ask) -> bool
    requires own { own.mode ≤ (P.ghosts protocol.now).table.count }
    requires other { other.mode ≤ (P.ghosts protocol.now).table.count }
    ensures { result ≡ is_blocked (P.ghosts protocol.now) (hold own) (hold other) (asking ask) }
{
    match asked(protocol, ask, own.mode) {
        Some((mode, _)) => {
            let mode = protocol.convert(own.mode, mode);
            !protocol.ok(mode, other.mode)
        }
        None => false,
    }
}

/// Whether a lock state has to keep the request out.
pub(crate) fn keeps_out(present: bool, other: Hold, ask: Ask) -> bool
    ensures { result ≡ keeps_out present (hold other) (asking ask) }
{
    match ask {
        Ask::FetchMiss | Ask::ScanStop | Ask::DeleteMiss | Ask::UpdateMiss => false,
        Ask::ReviveNext | Ask::InsertHitNext => false,
        Ask::Insert => other.gap,
        Ask::FetchHit | Ask::InsertHit | Ask::ScanName => is_changed(other.key),
        Ask::Delete | Ask::Update if present => is_read(other.key),
        Ask::Revive if !present => is_read(other.key),
        _ => is_changed(other.key),
    }
}

/// Whether the key is present after the request is granted.
fn present_after(present: bool, ask: Ask) -> bool
    ensures { result ≡ present_after present (asking ask) }
{
    match ask {
        Ask::Delete => false,
        Ask::Revive => true,
        _ => present,
    }
}

/// What has been done with a key once it is read too.
fn and_read(key: KeyUse) -> KeyUse
    ensures { key_use result ≡ and_read (key_use key) }
{
    match key {
        KeyUse::Free => KeyUse::Read,
        _ => key,
    }
}

/// And once it is changed too.
fn and_changed(by: KeyUse, key: KeyUse) -> KeyUse
    ensures { key_use result ≡ and_changed (key_use by) (key_use key) }
{
    match key {
        KeyUse::Free | KeyUse::Read => by,
        _ => KeyUse::Several,
    }
}

/// What has been done with a key after the request is granted.
fn key_after(present: bool, key: KeyUse, ask: Ask) -> KeyUse
    ensures { key_use result ≡ key_after present (key_use key) (asking ask) }
{
    match ask {
        Ask::FetchHit | Ask::InsertHit | Ask::ScanName => and_read(key),
        Ask::Delete if present => and_changed(KeyUse::Deleted, key),
        Ask::Update if present => and_changed(KeyUse::Updated, key),
        Ask::Delete | Ask::Update => and_read(key),
        Ask::Revive => and_changed(KeyUse::Inserted, key),
        _ => key,
    }
}

/// The lock state after the request is granted.
fn after<P: GhostProtocol>(protocol: &P, present: bool, own: Hold, ask: Ask) -> Hold
    requires { own.mode ≤ (P.ghosts protocol.now).table.count }
    ensures { hold result ≡ after (P.ghosts protocol.now) present (hold own) (asking ask) }
{
    let gap = match ask {
        Ask::FetchMiss | Ask::DeleteMiss | Ask::UpdateMiss | Ask::ScanName | Ask::ScanStop => true,
        _ => own.gap,
    };
    Hold {
        mode: mode_after(protocol, own.mode, asked(protocol, ask, own.mode)),
        key: key_after(present, own.key, ask),
        gap,
        rolling: own.rolling,
    }
}

/// The lock state on a new key of one who has inserted it below a name where it had this one.
pub(crate) fn on_new_key<P: GhostProtocol>(protocol: &P, own: Hold) -> Hold
    requires { own.mode ≤ (P.ghosts protocol.now).table.count }
    ensures { hold result ≡ on_new_key (P.ghosts protocol.now) (hold own) }
{
    let asked = row(protocol, Row::Insert, Side::Current, own.mode);
    Hold {
        mode: mode_after(protocol, 0, asked),
        key: KeyUse::Inserted,
        gap: own.gap,
        rolling: false,
    }
}

/// What two transactions have on a name after the request of the first is granted, if it may come to make it and isn't blocked.
pub(crate) fn granted<P: GhostProtocol>(protocol: &P, pair: Pair, ask: Ask) -> Option<Pair>
    requires own { pair.own.mode ≤ (P.ghosts protocol.now).table.count }
    requires other { pair.other.mode ≤ (P.ghosts protocol.now).table.count }
    ensures { facts result ≡ granted (P.ghosts protocol.now) (fact pair) (asking ask) }
{
    if !may_ask(protocol, pair.present, pair.own, ask) {
        return None;
    }
    if is_blocked(protocol, pair.own, pair.other, ask) {
        return None;
    }
    Some(Pair {
        present: present_after(pair.present, ask),
        own: after(protocol, pair.present, pair.own, ask),
        other: pair.other,
    })
}
