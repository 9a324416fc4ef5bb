//! What one transaction can come to at A and Y.
ghost use Rattle.std.specs.Prelude.{◌≤◌};

use crate::deed::Deed;
use kr_model::Mode;

/// Which keys stand, the holder's modes, and what it did.
#[derive(Clone, Copy)]
pub(crate) struct State {
    pub k: bool,
    pub b: bool,
    pub p: bool,
    pub a: bool,
    /// The holder's mode on A.
    pub on_a: Mode,
    /// The holder's mode on Y.
    pub on_y: Mode,
    pub did_p: Deed,
    pub did_a: Deed,
}

/// The numbers of states are below this: 16 ways in which keys stand, 16 modes on each of two names, and 5 deeds at each of
/// two keys.
pub(crate) const NUMBERS: usize = 16 * 16 * 16 * 25;

impl State {
    /// A state in which the holder did nothing, and K stands without B.
    pub(crate) fn fresh(p: bool, a: bool, on_y: Mode) -> State {
        State {
            k: true,
            b: false,
            p,
            a,
            on_a: 0,
            on_y,
            did_p: Deed::Nothing,
            did_a: Deed::Nothing,
        }
    }

    /// The holder's mode on the name above P: A where it stands, else Y.
    pub(crate) fn on_above(self) -> Mode {
        if self.a { self.on_a } else { self.on_y }
    }

    /// The state with this mode on the name above P.
    pub(crate) fn with_above(self, mode: Mode) -> State {
        if self.a {
            State { on_a: mode, ..self }
        } else {
            State { on_y: mode, ..self }
        }
    }

    /// The state's number: states that differ have different numbers, where modes are at most 15.
    pub(crate) fn number(self) -> usize {
        let keys = bit(self.k) * 8 + bit(self.b) * 4 + bit(self.p) * 2 + bit(self.a);
        let modes = (self.on_a % 16) as usize * 16 + (self.on_y % 16) as usize;
        (keys * 256 + modes) * 25 + self.did_p.number() * 5 + self.did_a.number()
    }
}

fn bit(stands: bool) -> usize
    ensures { result ≤ 1 }
{
    if stands { 1 } else { 0 }
}
