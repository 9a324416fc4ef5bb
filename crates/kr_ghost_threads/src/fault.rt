//! Why a run shows nothing.
ghost use Rattle.std.specs.Prelude.{◌≡◌};
ghost use Rattle.kr_ghost_threads.specs.declared.fault.GhostRunFault.TheVariants as fault;

use std::alloc::AllocError;

/// Why a run shows nothing.
#[derive(Drop)]
pub enum GhostRunFault {
    /// A growth was refused.
    Memory,
    /// A transaction is active at the end, or the history isn't that of the script: only by a fault of the run.
    Place,
}

impl From<AllocError> for GhostRunFault {
    ghost from_gives = { λ _ e. e ≡ fault.Memory };

    fn from(_e: AllocError) -> GhostRunFault {
        GhostRunFault::Memory
    }
}
