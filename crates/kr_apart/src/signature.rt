//! When two states are taken for the same.

use crate::keys::{A, LOW, Y, Z};
use crate::light::{Light, Stand};
use crate::node::Node;
use crate::seat::{Place, Seat};
use kr_model::Mode;

/// What is told of a state: states with the same signature are taken for the same.
#[derive(Clone, Copy, PartialEq, Eq)]
pub(crate) struct Signature {
    /// What it is under the table.
    one: u64,
    /// The modes under the other table, 0 where there is none.
    other: u64,
}

/// The places of A, Y, Z, and the key below A, where they came.
#[derive(Clone, Copy)]
struct Landmarks {
    a: Option<Place>,
    y: Option<Place>,
    z: Option<Place>,
    low: Option<Place>,
}

impl Signature {
    /// That of a state. With `backs` the newest change counts too.
    pub(crate) fn of(node: &Node, backs: bool) -> Signature {
        let marks = Landmarks::of(&node.light);
        let first = of_seat(node.seat(node.pair[0]), marks, backs);
        let second = of_seat(node.seat(node.pair[1]), marks, backs);
        Signature {
            one: (of_index(&node.light) << 56) | (first.min(second) << 28) | first.max(second),
            other: 0,
        }
    }

    /// That of a state, and the same state under another table.
    pub(crate) fn of_both(node: &Node, other: &Light, backs: bool) -> Signature {
        let marks = Landmarks::of(&node.light);
        let first = of_seat(node.seat(node.pair[0]), marks, backs);
        let second = of_seat(node.seat(node.pair[1]), marks, backs);
        let [one, two] = node.pair;
        let order = if first <= second {
            [one, two]
        } else {
            [two, one]
        };
        let mut modes = 0;
        for seat in order {
            modes = (modes << 16) | modes_at(other.seat(seat), marks);
        }
        Signature {
            one: Signature::of(node, backs).one,
            other: modes.wrapping_mul(ODD) ^ elsewhere(node, other, order, marks),
        }
    }

    /// A number that spreads signatures.
    pub(crate) fn hash(self) -> usize {
        let mixed = (self.one ^ self.other.rotate_left(29)).wrapping_mul(ODD);
        (mixed >> 40) as usize
    }
}

/// An odd number by which products spread.
const ODD: u64 = 0x9E37_79B9_7F4A_7C15;

impl Landmarks {
    fn of(light: &Light) -> Landmarks {
        Landmarks {
            a: light.place_of(A),
            y: light.place_of(Y),
            z: light.place_of(Z),
            low: light.place_of(light.below(A)),
        }
    }

    fn has(self, place: Place) -> bool {
        [self.a, self.y, self.z, self.low].contains(&Some(place))
    }
}

/// Which landmarks are present, and whether the name below A is a key of the opening; and before these bits, which of the three are
/// ghosts: 6 bits.
fn of_index(light: &Light) -> u64 {
    let low = light.below(A);
    let ghosts = [A, Y, low].map(|key| u64::from(light.stand(key) == Stand::Ghost));
    let [a_ghost, y_ghost, low_ghost] = ghosts;
    let a = light.stand(A) == Stand::Present;
    let y = light.stand(Y) == Stand::Present;
    let is_of_opening = LOW.contains(&low);
    a_ghost << 5
        | y_ghost << 4
        | low_ghost << 3
        | u64::from(a) << 2
        | u64::from(y) << 1
        | u64::from(is_of_opening)
}

/// What a transaction holds and has changed at the landmarks: 27 bits.
fn of_seat(seat: &Seat, marks: Landmarks, backs: bool) -> u64 {
    let mut told = modes_at(seat, marks);
    for place in [marks.a, marks.y, marks.low] {
        told = told << 2 | first_change(seat, place);
    }
    told = told << 2 | u64::from(seat.has_changes()) << 1 | u64::from(seat.rolls_back());
    told << 3 | if backs { newest(seat, marks) } else { 0 }
}

/// The modes at the landmarks: 16 bits.
fn modes_at(seat: &Seat, marks: Landmarks) -> u64 {
    let mut modes = 0;
    for place in [marks.a, marks.y, marks.z, marks.low] {
        modes = modes << 4 | mode_bits(seat, place);
    }
    modes
}

/// The mode at a place: 4 bits.
fn mode_bits(seat: &Seat, place: Option<Place>) -> u64 {
    match place {
        Some(place) => u64::from(seat.held(place) % 16),
        None => 0,
    }
}

/// Whether the key of a place stood before its first change: 2 bits.
fn first_change(seat: &Seat, place: Option<Place>) -> u64 {
    let Some(place) = place else {
        return 2;
    };
    match seat.stood_first(place) {
        Some(true) => 1,
        Some(false) => 0,
        None => 2,
    }
}

/// Where the newest change is: 3 bits.
fn newest(seat: &Seat, marks: Landmarks) -> u64 {
    let newest = seat.newest();
    if newest.is_none() {
        0
    } else if newest == marks.a {
        1
    } else if newest == marks.y {
        2
    } else if newest == marks.low {
        3
    } else {
        4
    }
}

/// The modes that differ beside the landmarks, as one number.
fn elsewhere(node: &Node, other: &Light, order: [usize; 2], marks: Landmarks) -> u64 {
    let mut told: u64 = 0;
    for seat in order {
        for place in 0..16 {
            let mode: Mode = other.seat(seat).held(place);
            if !marks.has(place) && mode != node.seat(seat).held(place) {
                told = told.wrapping_mul(ODD).wrapping_add(u64::from(mode) + 1);
            }
        }
    }
    told.wrapping_mul(ODD)
}
