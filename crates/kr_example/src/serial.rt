//! Runs under a table that was checked.
ghost use Rattle.std.specs.Prelude.{◌≡◌, IfOk, IfErr, IsOk};
ghost use Rattle.kr_model.specs.Map.{IsMap};
ghost use Rattle.kr_model.specs.State.{start};
ghost use Rattle.kr_model.specs.Run as model;
ghost use Rattle.kr_model.specs.Serial.{IsSerialRun};
ghost use Rattle.kr_table.specs.Tables.{protocol_of};
ghost use Rattle.kr_table.specs.Reading.{reading};
ghost use Rattle.kr_example.specs.Faults.{Explains};
ghost use Rattle.kr_example.specs.declared.serial.Fault.TheVariants as told_as;

use kr_cases::{Rejected, check};
use kr_model::Event;
use kr_serial::{Ran, run};
use kr_table::{Table, TableFault, read};
use std::alloc::{AllocError, Global};
use thiserror::Error;

/// Why nothing was run.
#[derive(Debug, Drop, Error)]
pub enum Fault {
    /// The bytes are no table.
    #[error("{0}")]
    Table(TableFault),
    /// Some case of the table fails.
    #[error("not accepted")]
    Rejected,
    /// A growth was refused.
    #[error("out of memory")]
    Memory,
}

impl From<TableFault> for Fault {
    ghost from_gives = { λ f e. e ≡ told_as.Table f };

    fn from(fault: TableFault) -> Fault {
        Fault::Table(fault)
    }
}

impl From<Rejected<Table>> for Fault {
    ghost from_gives = { λ _ e. e ≡ told_as.Rejected };

    fn from(_rejected: Rejected<Table>) -> Fault {
        Fault::Rejected
    }
}

impl From<AllocError> for Fault {
    ghost from_gives = { λ _ e. e ≡ told_as.Memory };

    fn from(_e: AllocError) -> Fault {
        Fault::Memory
    }
}

/// Runs the events under the table that the bytes are, if every case of it holds, from an opening map whose keys rise
/// strictly. The run is serializable: nothing here proves it anew, since it is a clause of `run`.
pub fn run_checked(
    alloc: Global,
    table: &[u8],
    opening: &[(u64, u64)],
    events: &[Event],
) -> Result<Ran, Fault>
    requires { IsMap opening.now }
    ensures err { IfErr result (Explains table.now) }
    ensures reads { IfOk result (λ _. IsOk (reading table.now)) }
    ensures replies { IfOk result (λ ran. IfOk (reading table.now) (λ t. ran.replies ≡ model.replies_of (model.run (protocol_of t) (start opening.now) events.now).history)) }
    ensures serial_run { IfOk result (λ _. IfOk (reading table.now) (λ t. IsSerialRun opening.now (model.run (protocol_of t) (start opening.now) events.now))) }
{
    let table = read(alloc, table)?;
    let checked = check(alloc, table)?;
    Ok(run(alloc, &checked, opening, events)?)
}
