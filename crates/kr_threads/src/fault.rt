//! Why a run shows nothing.
ghost use Rattle.std.specs.Prelude.{◌≡◌};
ghost use Rattle.kr_threads.specs.Faults.{fault_of_call, fault_of_close, fault_of_row};
ghost use Rattle.kr_threads.specs.declared.fault.RunFault.TheVariants as fault;

use kr_records::{CloseFault, EngineFault, NewFault};
use std::alloc::AllocError;

/// Why a run shows nothing.
#[derive(Debug, Drop)]
pub enum RunFault {
    /// A growth was refused.
    Memory,
    /// A place refused a write or there were too few, a number was taken, open or not begun, an abort was refused, a share
    /// doesn't fit the history, a transaction is active at its end, it doesn't follow the script, or a step was left out where
    /// its transaction hadn't come to it: only by a fault of the engine or of the run.
    Place,
}

impl From<AllocError> for RunFault {
    ghost from_gives = { λ _ e. e ≡ fault.Memory };

    fn from(_e: AllocError) -> RunFault {
        RunFault::Memory
    }
}

impl From<NewFault> for RunFault {
    ghost from_gives = { λ f e. e ≡ fault_of_row f };

    fn from(fault: NewFault) -> RunFault {
        match fault {
            NewFault::Memory => RunFault::Memory,
            NewFault::Places => RunFault::Place,
        }
    }
}

impl From<CloseFault> for RunFault {
    ghost from_gives = { λ f e. e ≡ fault_of_close f };

    fn from(fault: CloseFault) -> RunFault {
        match fault {
            CloseFault::Memory => RunFault::Memory,
            CloseFault::Place => RunFault::Place,
        }
    }
}

/// Why a worker gives up at this fault: `Memory` where a growth was refused.
pub fn failure(fault: &EngineFault) -> RunFault
    ensures { result ≡ fault_of_call fault.now }
{
    match fault {
        EngineFault::Memory => RunFault::Memory,
        _ => RunFault::Place,
    }
}
