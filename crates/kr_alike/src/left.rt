//! Which modes may be left on an absent key.
ghost use Rattle.std.specs.Prelude.{◌≡◌, ◌≤◌, ◌+◌, IfOk, IsTrue, ◌↔◌};
ghost use Rattle.kr_alike.specs.Alone.{AreAlone};
ghost use Rattle.kr_alike.specs.Asked.{AreLeft};
ghost use Rattle.kr_alike.specs.Coming.{IsPast, IsHeldPast, LetsInDelete, MayBeLeft};
ghost use Rattle.kr_alike.specs.Deletes.{LetsIn, LetsInOf};

use kr_decide::{is_blocked, may_ask, may_beside};
use kr_model::{GapUse, KeyUse, LockState, Memory, Mode, Row, Side};
use kr_protocol::Protocol;
use std::alloc::Global;

/// Whether a transaction may have the lock state on an absent key that it doesn't change.
fn is_past<P: Protocol>(protocol: &P, state: LockState) -> bool
    requires { state.mode ≤ (P.table protocol.now).count }
    ensures { IsTrue result ↔ IsPast (P.table protocol.now) state }
{
    state.key == KeyUse::Inserted || may_beside(protocol, Row::Insert, Side::Current, state)
}

/// Whether a transaction can have such a lock state of this mode.
fn is_held_past<P: Protocol>(protocol: &P, states: &Vec<LockState>, mode: Mode) -> bool
    requires { AreAlone (P.table protocol.now) states.now.items }
    ensures { IsTrue result ↔ IsHeldPast (P.table protocol.now) mode }
{
    for at in 0..states.len() {
        let state = states[at];
        if state.mode == mode && is_past(protocol, state) {
            return true;
        }
    }
    false
}

/// Whether a lock of this mode lets in a delete by one with these lock states on the key and on the next name.
fn lets_in<P: Protocol>(protocol: &P, mode: Mode, own: LockState, next: LockState) -> bool
    requires mode { mode ≤ (P.table protocol.now).count }
    requires own { own.mode ≤ (P.table protocol.now).count }
    requires next { next.mode ≤ (P.table protocol.now).count }
    ensures { IsTrue result ↔ LetsIn (P.table protocol.now) mode own next }
{
    let other = LockState {
        mode,
        key: KeyUse::Free,
        gap: GapUse::Free,
        deleted: false,
    };
    may_ask(protocol, Row::Delete, Side::Current, own, next)
        && !is_blocked(protocol, Row::Delete, Side::Current, own, next, other)
}

/// Whether it lets in one with this lock state on the key, and some on the next name.
fn lets_in_of<P: Protocol>(
    protocol: &P,
    states: &Vec<LockState>,
    mode: Mode,
    own: LockState,
) -> bool
    requires states { AreAlone (P.table protocol.now) states.now.items }
    requires mode { mode ≤ (P.table protocol.now).count }
    requires own { own.mode ≤ (P.table protocol.now).count }
    ensures { IsTrue result ↔ LetsInOf (P.table protocol.now) mode own }
{
    for at in 0..states.len() {
        if lets_in(protocol, mode, own, states[at]) {
            return true;
        }
    }
    false
}

/// Whether it lets in some delete that may come.
fn lets_in_delete<P: Protocol>(protocol: &P, states: &Vec<LockState>, mode: Mode) -> bool
    requires states { AreAlone (P.table protocol.now) states.now.items }
    requires mode { mode ≤ (P.table protocol.now).count }
    ensures { IsTrue result ↔ LetsInDelete (P.table protocol.now) mode }
{
    for at in 0..states.len() {
        if lets_in_of(protocol, states, mode, states[at]) {
            return true;
        }
    }
    false
}

/// Whether a mode may be left on an absent key.
fn may_be_left<P: Protocol>(protocol: &P, states: &Vec<LockState>, mode: Mode) -> bool
    requires states { AreAlone (P.table protocol.now) states.now.items }
    requires mode { mode ≤ (P.table protocol.now).count }
    ensures { IsTrue result ↔ MayBeLeft (P.table protocol.now) mode }
{
    lets_in_delete(protocol, states, mode) || is_held_past(protocol, states, mode)
}

/// By the mode, whether it may be left on an absent key. The only fault is that a growth was refused.
pub(crate) fn all_left<P: Protocol>(
    alloc: Global,
    protocol: &P,
    states: &Vec<LockState>,
) -> Result<Vec<bool>, Memory>
    requires { AreAlone (P.table protocol.now) states.now.items }
    ensures { IfOk result (λ marks. AreLeft (P.table protocol.now) marks.items ((P.table protocol.now).count + 1)) }
{
    let mut marks = Vec::new(alloc);
    for mode in 0..protocol.count() + 1 {
        marks.push(may_be_left(protocol, states, mode))?;
    }
    Ok(marks)
}
