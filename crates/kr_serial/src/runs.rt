//! Whole runs.
ghost use Rattle.std.specs.Prelude.{◌≡◌, ◌≤◌, None, IfOk, OnOk, All, map};
ghost use Rattle.kr_model.specs.Map.{IsMap};
ghost use Rattle.kr_model.specs.Covers.{IsCovered};
ghost use Rattle.kr_model.specs.Safe.{IsSafe};
ghost use Rattle.kr_model.specs.Serial.{AreSerial, IsSerialRun};
ghost use Rattle.kr_model.specs.State.{start};
ghost use Rattle.kr_model.specs.Run.{run, replies_of, programs};
ghost use Rattle.kr_model.specs.Log.{log_after, no_log};
ghost use Rattle.kr_judge.specs.Ran.{IsRanUnder};

use crate::logged::{Logged, log_all};
use crate::played::show;
use crate::{Index, Ran};
use kr_index::{Memory, Ordered, Tree};
use kr_locks::{Buckets, Holdings};
use kr_machine::Stepper;
use kr_model::Event;
use kr_protocol::Protocol;
use std::alloc::Global;

/// Runs the events under any protocol, from an opening map whose keys rise strictly. The only fault is `Memory`: a step
/// that was refused memory ends the run, and nothing of it is shown.
///
/// Where the protocol is safe the run is serializable in commit order: its committed programs are serializable in commit order
/// from the opening map, and the index with the unfinished rolled back, in any order, is the map that they leave. A
/// covered protocol is safe.
pub fn run_any<P: Protocol>(
    alloc: Global,
    protocol: &P,
    opening: &[(u64, u64)],
    events: &[Event],
) -> Result<Ran, Memory>
    requires { IsMap opening.now }
    ensures ran { IfOk result (λ ran. IsRanUnder (P.table protocol.now) opening.now events.now ran) }
    ensures safe { IsSafe (P.table protocol.now) → IfOk result (λ ran. AreSerial ran.opening ran.programs) }
    ensures safe_run { IsSafe (P.table protocol.now) → OnOk result (IsSerialRun opening.now (run (P.table protocol.now) (start opening.now) events.now)) }
    ensures covered { IsCovered (P.table protocol.now) → IfOk result (λ ran. AreSerial ran.opening ran.programs) }
    ensures covered_run { IsCovered (P.table protocol.now) → OnOk result (IsSerialRun opening.now (run (P.table protocol.now) (start opening.now) events.now)) }
{
    replayed(alloc, protocol, opening, events)
}

/// The same, clause by clause, without what holds where the protocol is safe.
#[tactic(auto, using(crate::proofs::Replayed::programs_of_run))]
fn replayed<P: Protocol>(
    alloc: Global,
    protocol: &P,
    opening: &[(u64, u64)],
    events: &[Event],
) -> Result<Ran, Memory>
    requires { IsMap opening.now }
    ensures opening { IfOk result (λ ran. ran.opening ≡ opening.now) }
    ensures replies { IfOk result (λ ran. let r = run (P.table protocol.now) (start opening.now) events.now in ran.replies ≡ replies_of r.history) }
    ensures index { IfOk result (λ ran. let r = run (P.table protocol.now) (start opening.now) events.now in ran.index ≡ r.state.map) }
    ensures locks { IfOk result (λ ran. let r = run (P.table protocol.now) (start opening.now) events.now in ran.locks ≡ r.state.locks) }
    ensures programs { IfOk result (λ ran. let r = run (P.table protocol.now) (start opening.now) events.now in ran.programs ≡ programs r.history) }
    ensures modes { IfOk result (λ ran. All (λ l. l.1 ≤ (P.table protocol.now).count) ran.locks) }
    ensures unfinished { IfOk result (λ ran. let r = run (P.table protocol.now) (start opening.now) events.now in ran.unfinished ≡ map (λ a. a.0) r.state.active) }
{
    let first = Index::copy_of(alloc, opening)?;
    let index = Tree::from_pairs(alloc, opening)?;
    let mut stepper = Stepper::new(alloc, protocol, index, Buckets::new(alloc));
    ran_on(alloc, first, &mut stepper, events)
}

/// What the events leave on a machine at rest that has done no step, with the index before them.
fn ran_on<P: Protocol, I: Ordered, L: Holdings>(
    alloc: Global,
    opening: Index,
    stepper: &mut Stepper<P, I, L>,
    events: &[Event],
) -> Result<Ran, Memory>
    requires is_map { IsMap opening }
    requires at_rest { stepper.old.pending ≡ None }
    requires starts { stepper.old.state ≡ start opening }
    ensures opening { IfOk result (λ ran. ran.opening ≡ opening) }
    ensures replies { IfOk result (λ ran. let r = run (P.table stepper.old.protocol) stepper.old.state events.now in ran.replies ≡ replies_of r.history) }
    ensures index { IfOk result (λ ran. let r = run (P.table stepper.old.protocol) stepper.old.state events.now in ran.index ≡ r.state.map) }
    ensures locks { IfOk result (λ ran. let r = run (P.table stepper.old.protocol) stepper.old.state events.now in ran.locks ≡ r.state.locks) }
    ensures programs { IfOk result (λ ran. let r = run (P.table stepper.old.protocol) stepper.old.state events.now in let log = log_after no_log r.history in ran.programs ≡ log.committed) }
    ensures modes { IfOk result (λ ran. All (λ l. l.1 ≤ (P.table stepper.old.protocol).count) ran.locks) }
    ensures unfinished { IfOk result (λ ran. let r = run (P.table stepper.old.protocol) stepper.old.state events.now in ran.unfinished ≡ map (λ a. a.0) r.state.active) }
{
    let Logged { replies, programs } = log_all(alloc, stepper, events)?;
    let played = show(stepper, replies)?;
    Ok(Ran {
        opening,
        replies: played.replies,
        programs,
        index: Index::from_pairs(played.index),
        locks: played.locks,
        unfinished: played.unfinished,
    })
}
