//! What transactions have on A and on Y.
ghost use Rattle.std.specs.Prelude.{◌≤◌, ◌<◌};

use kr_decide::{FREE, STATES, state_number};
use kr_model::{KeyUse, LockState};

/// What transactions have on A: two of them where A is present all the while and Y has no lock; or one that is alone, on A
/// and on Y.
#[derive(Clone, Copy)]
pub(crate) struct Scene {
    /// What the first has on A.
    pub first: LockState,
    /// What the second has there, where there are two.
    pub second: LockState,
    /// What the first has on Y, where it is alone.
    pub above: LockState,
    pub is_alone: bool,
    /// Whether A is present in the opening.
    pub stood: bool,
    /// Whether one that is alone has deleted a key below A.
    pub took: bool,
}

/// The numbers of scenes are below this: pairs of lock states on A, and four ways in which one is alone.
pub(crate) const NUMBERS: usize = 5 * STATES * STATES;

impl Scene {
    /// Two that have nothing yet, on a key that is present.
    pub(crate) fn of_two() -> Scene {
        Scene {
            first: FREE,
            second: FREE,
            above: FREE,
            is_alone: false,
            stood: true,
            took: false,
        }
    }

    /// One that has nothing yet; whether A is present in the opening.
    pub(crate) fn of_one(stood: bool) -> Scene {
        Scene {
            is_alone: true,
            stood,
            ..Scene::of_two()
        }
    }

    /// Whether A is present.
    pub(crate) fn has_a(self) -> bool {
        !self.first.deleted && (self.stood || self.first.key == KeyUse::Inserted)
    }

    /// The scene with the two exchanged.
    pub(crate) fn turned(self) -> Scene {
        Scene {
            first: self.second,
            second: self.first,
            ..self
        }
    }

    /// The scene as the second sees it, if wanted, or as the first does.
    pub(crate) fn seen_by(self, by_second: bool) -> Scene {
        if by_second { self.turned() } else { self }
    }

    /// The scene's number: scenes that differ have different numbers, where modes are at most 15.
    pub(crate) fn number(self) -> usize {
        if self.is_alone {
            let way = 1 + bit(self.stood) * 2 + bit(self.took);
            (way * STATES + number_of(self.first)) * STATES + number_of(self.above)
        } else {
            number_of(self.first) * STATES + number_of(self.second)
        }
    }
}

fn bit(is: bool) -> usize
    ensures { result ≤ 1 }
{
    if is { 1 } else { 0 }
}

/// The number of a lock state.
fn number_of(state: LockState) -> usize
    ensures { result < 384 }
{
    state_number(LockState {
        mode: state.mode % 16,
        ..state
    })
}
