//! What transactions hold on a name under two tables.
ghost use Rattle.std.specs.Prelude.{◌≡◌};
ghost use Rattle.kr_alike.specs.Marks.{modes_of, is_within, place};

use kr_model::{Mode, Row, Side};
use kr_protocol::Protocol;

/// What one transaction holds on a name: its mode under the first table, and under the second.
#[derive(Clone, Copy, Debug, PartialEq, Eq)]
pub struct Modes {
    pub first: Mode,
    pub second: Mode,
}

/// No lock under either table.
pub(crate) const NONE: Modes = Modes {
    first: 0,
    second: 0,
};

/// A request beside another transaction.
#[derive(Clone, Copy, Debug)]
pub(crate) struct Ask {
    pub(crate) row: Row,
    pub(crate) side: Side,
    /// What the requester holds on the name.
    pub(crate) own: Modes,
    /// What the other holds there.
    pub(crate) other: Modes,
    /// What the requester holds on the next name.
    pub(crate) next: Modes,
}

/// The modes with this code, of the codes from 0 to 255: each two modes of at most 15 have one.
pub(crate) fn modes_of(code: u8) -> Modes
    ensures { result ≡ modes_of code }
{
    Modes {
        first: code / 16,
        second: code % 16,
    }
}

/// Whether these are modes of the two tables.
pub(crate) fn is_within<P: Protocol, Q: Protocol>(first: &P, second: &Q, modes: Modes) -> bool
    ensures { result ≡ is_within (P.table first.now) (Q.table second.now) modes }
{
    modes.first <= first.count() && modes.second <= second.count()
}

/// The place of what two transactions hold on a name, among all of at most 15 modes.
pub(crate) fn place(own: Modes, other: Modes) -> usize
    ensures { result ≡ place own other }
{
    let own = own.first as usize * 16 + own.second as usize;
    (own * 16 + other.first as usize) * 16 + other.second as usize
}
