//! What requested locks, and what it was granted.

use crate::parts::Touch;
use kr_model::{Mode, Plan};

/// What requested locks, and what it was granted.
#[derive(Drop)]
pub struct GrantedTouch {
    /// What requested locks.
    pub touch: Touch,
    /// The locks that it requested, of which those to commit are held by now.
    pub plan: Plan,
    /// The mode that the transaction had on the current name, where the step keeps a lock there.
    pub current_was: Mode,
    /// The mode that the transaction had on the next name, where the step keeps a lock there.
    pub next_was: Mode,
    /// No rows yet, with room for the first, where the step begins a scan.
    pub first_rows: Vec<(u64, u64)>,
}
