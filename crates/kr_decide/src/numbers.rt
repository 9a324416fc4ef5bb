//! Lock states, and pairs of them, as numbers.
ghost use Rattle.std.specs.Prelude.{◌≡◌, ◌≤◌, ◌<◌};
ghost use Rattle.kr_decide.specs.Numbers.{key_number, gap_number, deleted_number, state_number, pair_number};

use kr_model::{GapUse, KeyUse, LockState};

/// How many lock states there are, of at most 15 modes.
pub const STATES: usize = 384;

/// How many pairs of lock states there are.
pub(crate) const PAIRS: usize = 147456;

/// The number of what was done with a key, below 4.
fn key_number(key: KeyUse) -> usize
    ensures { result ≡ key_number key }
{
    match key {
        KeyUse::Free => 0,
        KeyUse::Read => 1,
        KeyUse::Updated => 2,
        KeyUse::Inserted => 3,
    }
}

/// The number of what was done in a gap, below 3.
fn gap_number(gap: GapUse) -> usize
    ensures { result ≡ gap_number gap }
{
    match gap {
        GapUse::Free => 0,
        GapUse::Read => 1,
        GapUse::Deleted => 2,
    }
}

/// The number of a lock state, below `STATES`: each has its own.
pub fn state_number(state: LockState) -> usize
    requires { state.mode ≤ 15 }
    ensures value { result ≡ state_number state }
    ensures below { result < 384 }
{
    let deleted = if state.deleted { 1 } else { 0 };
    state.mode as usize * 24 + key_number(state.key) * 6 + gap_number(state.gap) * 2 + deleted
}

/// The number of a pair of lock states, below `PAIRS`: each has its own.
pub(crate) fn pair_number(own: LockState, other: LockState) -> usize
    requires own { own.mode ≤ 15 }
    requires other { other.mode ≤ 15 }
    ensures value { result ≡ pair_number own other }
    ensures below { result < 147456 }
{
    state_number(own) * STATES + state_number(other)
}
