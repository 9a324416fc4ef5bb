//! Why a report isn't written, or not whole.
ghost use Rattle.std.specs.Prelude.{◌≡◌};
ghost use Rattle.kr_cli_tasks.specs.Endings.{ending_of};
ghost use Rattle.kr_cli_tasks.specs.declared.faults.ReportFault.TheVariants as fault;

use kr_cli::Ending;
use std::alloc::AllocError;

/// Why a report isn't written, or not whole.
#[derive(Drop)]
pub enum ReportFault {
    /// A growth was refused.
    Memory,
    /// The sink didn't take the whole report.
    Print,
}

impl From<AllocError> for ReportFault {
    ghost from_gives = { λ _ e. e ≡ fault.Memory };

    fn from(_e: AllocError) -> ReportFault {
        ReportFault::Memory
    }
}

impl From<ReportFault> for Ending {
    ghost from_gives = { λ f e. e ≡ ending_of f };

    fn from(fault: ReportFault) -> Ending {
        match fault {
            ReportFault::Memory => Ending::Memory,
            ReportFault::Print => Ending::Output,
        }
    }
}
