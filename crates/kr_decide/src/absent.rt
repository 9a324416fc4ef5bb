//! Which locks may be on an absent key.
ghost use Rattle.std.specs.Prelude.{◌≡◌, ◌≤◌, ◌↔◌, IsTrue};
ghost use Rattle.kr_model.specs.Safe.{LetsDelete, IsCompatible, MayBeOnAbsent};
ghost use Rattle.kr_decide.specs.Absent.{LetsDeleteOf};

use crate::moves::conflicts;
use kr_model::{Mode, Row, Side};
use kr_protocol::Protocol;

/// Whether a mode is compatible with some held mode.
fn is_compatible<P: Protocol>(protocol: &P, mode: Mode) -> bool
    requires { mode ≤ (P.table protocol.now).count }
    ensures { IsTrue result ↔ IsCompatible (P.table protocol.now) mode }
{
    for held in 1..=protocol.count() {
        if protocol.ok(mode, held) {
            return true;
        }
    }
    false
}

/// Whether a lock of a mode lets a transaction delete the key that has the mode `own` there, and some mode on the next name.
fn lets_delete_of<P: Protocol>(protocol: &P, mode: Mode, own: Mode) -> bool
    requires mode { mode ≤ (P.table protocol.now).count }
    requires own { own ≤ (P.table protocol.now).count }
    ensures { IsTrue result ↔ LetsDeleteOf (P.table protocol.now) mode own }
{
    for next in 0..=protocol.count() {
        if !conflicts(protocol, Row::Delete, Side::Current, next, own, mode) {
            return true;
        }
    }
    false
}

/// Whether a lock of a mode lets some transaction delete the key.
fn lets_delete<P: Protocol>(protocol: &P, mode: Mode) -> bool
    requires { mode ≤ (P.table protocol.now).count }
    ensures { IsTrue result ↔ LetsDelete (P.table protocol.now) mode }
{
    for own in 0..=protocol.count() {
        if lets_delete_of(protocol, mode, own) {
            return true;
        }
    }
    false
}

/// Whether a lock of a mode that has nothing to protect may be on an absent key: another transaction may have taken the key
/// away beside it.
pub(crate) fn may_be_on_absent<P: Protocol>(protocol: &P, mode: Mode) -> bool
    requires { mode ≤ (P.table protocol.now).count }
    ensures { IsTrue result ↔ MayBeOnAbsent (P.table protocol.now) mode }
{
    is_compatible(protocol, mode) || lets_delete(protocol, mode)
}
