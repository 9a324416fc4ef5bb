//! Runs of scripts from bytes.
ghost use Rattle.std.specs.Prelude.{◌≡◌, ◌↔◌, IfOk, IfErr, IsTrue, string_bytes};
ghost use Rattle.kr_model.specs.Difference.{first_difference};
ghost use Rattle.kr_model.specs.Serial.{AreSerial};
ghost use Rattle.kr_judge.specs.Verdicts.{verdict_of};
ghost use Rattle.kr_report.specs.Report.{run_text};
ghost use Rattle.kr_cli.specs.Tables.{names_of};
ghost use Rattle.kr_cli.specs.GhostScripts.{IsSerialGhosts};
ghost use Rattle.kr_cli.specs.GhostTables.{ghosts_of};
ghost use Rattle.kr_embed.specs.Inputs.{Explains, ExplainsScript};
ghost use Rattle.kr_embed.specs.Reports.{IsRun, IsRunUnder, IsSerialScript, report_of_moves, report_of_run};

use crate::faults::Fault;
use crate::scripts::{ghost_script_in, script_in};
use crate::tables::table_in;
use kr_cli::{AnyGhostTable, AnyTable, Named};
use kr_ghost_report::report_ghost_run;
use kr_ghost_run::run_moves;
use kr_judge::judge_programs;
use kr_report::report_run;
use kr_script::{GhostScript, Script};
use kr_serial::{Ran, judge, run_any};
use std::alloc::{AllocError, Global};

/// Whether a run is serializable in commit order, and its report with that verdict.
fn report_of(alloc: Global, table: &AnyTable, ran: &Ran) -> Result<(bool, String), AllocError>
    ensures serial { IfOk result (λ told. IsTrue told.0 ↔ AreSerial ran.now.opening ran.now.programs) }
    ensures text { IfOk result (λ told. string_bytes told.1 ≡ run_text (names_of table.now) ran.now.index ran.now.locks
        ran.now.replies ran.now.unfinished (verdict_of (first_difference ran.now.opening ran.now.programs))) }
{
    let verdict = judge(alloc, ran)?;
    let text = report_run(alloc, table, ran, &verdict)?;
    Ok((verdict.is_serial(), text))
}

/// Whether the run of a script under a table without ghosts is serializable in commit order, and the report of the run.
fn run_script(
    alloc: Global,
    table: &AnyTable,
    script: &Script,
) -> Result<(bool, String), AllocError>
    ensures serial { IfOk result (λ told. IsTrue told.0 ↔ IsSerialScript table.now script.now) }
    ensures text { IfOk result (λ told. string_bytes told.1 ≡ report_of_run table.now script.now) }
{
    let ran = run_any(alloc, table, script.opening(), script.steps())?;
    report_of(alloc, table, &ran)
}

/// The same under a table with ghosts, of a script that may have purges.
fn run_ghost_script(
    alloc: Global,
    table: &AnyGhostTable,
    script: &GhostScript,
) -> Result<(bool, String), AllocError>
    ensures serial { IfOk result (λ told. IsTrue told.0 ↔ IsSerialGhosts (ghosts_of table.now) script.now) }
    ensures text { IfOk result (λ told. string_bytes told.1 ≡ report_of_moves table.now script.now) }
{
    let ran = run_moves(alloc, table, script.opening(), script.moves())?;
    let verdict = judge_programs(alloc, script.opening(), ran.programs.as_slice())?;
    let is_serial = verdict.is_serial();
    let text = report_ghost_run(alloc, table, &ran, &verdict)?;
    Ok((is_serial, text))
}

/// Whether the run of the script that bytes are, under a table, is serializable in commit order, and the report of the run.
fn run_under(alloc: Global, table: &Named, script: &[u8]) -> Result<(bool, String), Fault>
    ensures run { IfOk result (λ told. IsRunUnder table.now script.now told.0 (string_bytes told.1)) }
    ensures fault { IfErr result (ExplainsScript table.now script.now) }
{
    match table {
        Named::Table(table) => {
            let script = script_in(alloc, script)?;
            Ok(run_script(alloc, table, &script)?)
        }
        Named::Ghosts(table) => {
            let script = ghost_script_in(alloc, script)?;
            Ok(run_ghost_script(alloc, table, &script)?)
        }
    }
}

/// Whether the run of the script that bytes are, under the table that bytes are, is serializable in commit order, and the report
/// of the run. Under a table with ghosts the script may have purges. A fault of the table comes before one of the script.
pub fn run_bytes(alloc: Global, table: &[u8], script: &[u8]) -> Result<(bool, String), Fault>
    ensures run { IfOk result (λ told. IsRun table.now script.now told.0 (string_bytes told.1)) }
    ensures fault { IfErr result (Explains table.now script.now) }
{
    let table = table_in(alloc, table)?;
    run_under(alloc, &table, script)
}
