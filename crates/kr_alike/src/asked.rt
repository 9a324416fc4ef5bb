//! Which requests a transaction may come to make, by the modes that it holds.
ghost use Rattle.std.specs.Prelude.{◌≡◌, ◌≤◌, ◌<◌, IfOk, IsTrue, ◌↔◌};
ghost use Rattle.kr_model.specs.Safe.{MayAsk};
ghost use Rattle.kr_alike.specs.Marks.{by_next};
ghost use Rattle.kr_alike.specs.Alone.{AreAlone};
ghost use Rattle.kr_alike.specs.Asked.{row_at, side_at, Asks, AsksAbove, IsAsked, AreAsked};

use crate::coming::{ASKED, by_next};
use kr_decide::may_ask;
use kr_model::{LockState, Memory, Mode, Row, Side};
use kr_protocol::Protocol;
use std::alloc::Global;

/// A row and a side with the lock state of a requester on the name, and the mode that it holds on the next name, where the
/// request goes by that.
#[derive(Clone, Copy)]
struct Asker {
    row: Row,
    side: Side,
    own: LockState,
    next: Mode,
}

/// Whether it may come to request a lock with this lock state on the next name.
fn asks<P: Protocol>(protocol: &P, asker: Asker, above: LockState) -> bool
    requires { asker.own.mode ≤ (P.table protocol.now).count }
    ensures { IsTrue result ↔ Asks (P.table protocol.now) asker.row asker.side asker.own asker.next above }
{
    by_next(asker.row, asker.side, above.mode) == asker.next
        && may_ask(protocol, asker.row, asker.side, asker.own, above)
}

/// Whether it may with one of these.
fn asks_above<P: Protocol>(protocol: &P, states: &Vec<LockState>, asker: Asker) -> bool
    requires states { AreAlone (P.table protocol.now) states.now.items }
    requires own { asker.own.mode ≤ (P.table protocol.now).count }
    ensures { IsTrue result ↔ AsksAbove (P.table protocol.now) asker.row asker.side asker.own asker.next }
{
    for at in 0..states.len() {
        if asks(protocol, asker, states[at]) {
            return true;
        }
    }
    false
}

/// Whether one that holds these modes may.
fn is_asked<P: Protocol>(
    protocol: &P,
    states: &Vec<LockState>,
    row: Row,
    side: Side,
    own: Mode,
    next: Mode,
) -> bool
    requires { AreAlone (P.table protocol.now) states.now.items }
    ensures { IsTrue result ↔ IsAsked (P.table protocol.now) row side own next }
{
    for at in 0..states.len() {
        let state = states[at];
        let asker = Asker {
            row,
            side,
            own: state,
            next,
        };
        if state.mode == own && asks_above(protocol, states, asker) {
            return true;
        }
    }
    false
}

/// The rows, and the sides, each at its number.
const ROWS: [Row; 7] = [
    Row::FetchHit,
    Row::FetchMiss,
    Row::ScanKey,
    Row::ScanStop,
    Row::Insert,
    Row::Delete,
    Row::Update,
];

const SIDES: [Side; 2] = [Side::Current, Side::Next];

/// The row with this number.
fn row_at(number: usize) -> Row
    requires { number < 7 }
    ensures { result ≡ row_at number }
{
    ROWS[number]
}

/// The side with this number.
fn side_at(number: usize) -> Side
    requires { number < 2 }
    ensures { result ≡ side_at number }
{
    SIDES[number]
}

/// By the place, whether a transaction may come to make the request. The only fault is that a growth was refused.
pub(crate) fn all_asked<P: Protocol>(
    alloc: Global,
    protocol: &P,
    states: &Vec<LockState>,
) -> Result<Vec<bool>, Memory>
    requires { AreAlone (P.table protocol.now) states.now.items }
    ensures { IfOk result (λ marks. AreAsked (P.table protocol.now) marks.items) }
{
    let mut marks = Vec::new(alloc);
    for place in 0..ASKED {
        let row = row_at(place / 512);
        let side = side_at(place / 256 % 2);
        let own = (place / 16 % 16) as Mode;
        let next = (place % 16) as Mode;
        marks.push(is_asked(protocol, states, row, side, own, next))?;
    }
    Ok(marks)
}
