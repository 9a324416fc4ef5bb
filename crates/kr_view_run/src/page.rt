//! The page of a run.
ghost use Rattle.std.specs.Prelude.{◌↔◌, IfOk, IsTrue, map, string_bytes};
ghost use Rattle.kr_model.specs.Covers.{IsCovered};
ghost use Rattle.kr_model.specs.Safe.{IsSafe};
ghost use Rattle.kr_model.specs.State.{start};
ghost use Rattle.kr_model.specs.Run.{run, programs};
ghost use Rattle.kr_model.specs.Serial.{AreSerial};
ghost use Rattle.kr_view_scenes.specs.Scenes.{drawn_steps, step_of};
ghost use Rattle.kr_view_run.specs.Page.{IsPage};

use crate::bands::body_of;
use crate::frame::framed;
use kr_locks::Memory;
use kr_protocol::Protocol;
use kr_script::Script;
use kr_serial::{Ran, judge, run_any};
use kr_view_scenes::{Drawn, Run, escape, scenes_of};
use std::alloc::Global;

/// The page of a script's run under a protocol, whose table has this name, and whether the run is serializable: the programs of
/// the transactions that commit are serializable in commit order. Under a safe protocol they are, and so under a covered one.
///
/// The page is HTML that stands alone. It has the name as its title and heading, and then tells whether the run is
/// serializable. Behind that it has a band for each step that is drawn, in the order of the run, with the step's number, its
/// transaction, its operation and its reply; all else is made of the parts of `kr_view_scenes`: no text of the table or the script is
/// markup. At most 200 steps and 60 names are drawn, the last ones, and the page says so. The only error is that a growth was
/// refused.
pub fn picture<P: Protocol>(
    alloc: Global,
    protocol: &P,
    table: &str,
    script: &Script,
) -> Result<(String, bool), Memory>
    ensures page { IfOk result (λ told. IsPage table.now
        (drawn_steps (P.table protocol.now) script.now.opening script.now.steps) told.1 (string_bytes told.0)) }
    ensures serial { IfOk result (λ told. IsTrue told.1
        ↔ AreSerial script.now.opening (programs (run (P.table protocol.now) (start script.now.opening) script.now.steps).history)) }
    ensures safe { IsSafe (P.table protocol.now) → IfOk result (λ told. IsTrue told.1) }
    ensures covered { IsCovered (P.table protocol.now) → IfOk result (λ told. IsTrue told.1) }
{
    let ran = run_any(alloc, protocol, script.opening(), script.steps())?;
    judged(alloc, protocol, table, script, ran)
}

/// The page of a script's run, which is judged, and whether it is serializable.
fn judged<P: Protocol>(
    alloc: Global,
    protocol: &P,
    table: &str,
    script: &Script,
    ran: Ran,
) -> Result<(String, bool), Memory>
    ensures page { IfOk result (λ told. IsPage table.now
        (drawn_steps (P.table protocol.now) script.now.opening script.now.steps) told.1 (string_bytes told.0)) }
    ensures serial { IfOk result (λ told. IsTrue told.1 ↔ AreSerial ran.opening ran.programs) }
{
    let verdict = judge(alloc, &ran)?;
    let is_serial = verdict.is_serial();
    let run = Run::of_steps(alloc, script.opening(), script.steps(), ran, verdict)?;
    let page = page(alloc, protocol, table, script, &run, is_serial)?;
    Ok((page, is_serial))
}

/// The page of a script's run, which has been judged.
fn page<P: Protocol>(
    alloc: Global,
    protocol: &P,
    table: &str,
    script: &Script,
    run: &Run<'_>,
    is_serial: bool,
) -> Result<String, Memory>
    ensures { IfOk result (λ page. IsPage table.now
        (drawn_steps (P.table protocol.now) script.now.opening script.now.steps) is_serial (string_bytes page)) }
{
    let drawn = scenes_of(alloc, protocol, script.opening(), script.steps())?;
    page_of_run(alloc, protocol, table, run, &drawn, is_serial)
}

/// The page of a run whose verdict is this and whose drawn steps have these scenes, under a table of this name: it has a band
/// for each of them, in their order. The only error is that a growth was refused.
pub fn page_of_run<P: Protocol>(
    alloc: Global,
    protocol: &P,
    table: &str,
    run: &Run<'_>,
    drawn: &Drawn,
    is_serial: bool,
) -> Result<String, Memory>
    ensures { IfOk result (λ page. IsPage table.now (map step_of drawn.now.scenes.items) is_serial (string_bytes page)) }
{
    let name = escape(alloc, table)?;
    let body = body_of(alloc, protocol, run, drawn)?;
    framed(alloc, name.as_str(), is_serial, &body)
}
