//! Runs under covered protocols.
ghost use Rattle.std.specs.Prelude.{IfOk, OnOk};
ghost use Rattle.kr_model.specs.Map.{IsMap};
ghost use Rattle.kr_model.specs.State.{start};
ghost use Rattle.kr_model.specs.Run as model;
ghost use Rattle.kr_model.specs.Serial.{AreSerial, IsSerialRun};
ghost use Rattle.kr_judge.specs.Ran.{IsRanUnder};

use crate::{Ran, run_any};
use kr_index::Memory;
use kr_model::Event;
use kr_protocol::Covered;
use std::alloc::Global;

/// Runs the events under a covered protocol, from an opening map whose keys rise strictly: the run is serializable.
///
/// It is the run of `run_any`. The committed programs are serializable in commit order from the opening map, and the index with
/// the unfinished rolled back, in any order, is the map that they leave. The only fault is `Memory`: a step that was
/// refused memory ends the run, and nothing of it is shown.
pub fn run<P: Covered>(
    alloc: Global,
    protocol: &P,
    opening: &[(u64, u64)],
    events: &[Event],
) -> Result<Ran, Memory>
    requires { IsMap opening.now }
    ensures ran { IfOk result (λ ran. IsRanUnder (P.table protocol.now) opening.now events.now ran) }
    ensures serial { IfOk result (λ ran. AreSerial ran.opening ran.programs) }
    ensures serial_run { OnOk result (IsSerialRun opening.now (model.run (P.table protocol.now) (start opening.now) events.now)) }
{
    run_any(alloc, protocol, opening, events)
}
