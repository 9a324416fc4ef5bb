//! Verdicts on runs of which nothing else is shown.
ghost use Rattle.std.specs.Prelude.{◌≡◌, None, IfOk};
ghost use Rattle.kr_model.specs.Map.{IsMap};
ghost use Rattle.kr_model.specs.State.{start};
ghost use Rattle.kr_judge.specs.Verdicts.{verdict_of_run};

use crate::logged::log_all;
use crate::{Verdict, judge_programs};
use kr_index::{Memory, Ordered, Tree};
use kr_locks::{Buckets, Holdings};
use kr_machine::Stepper;
use kr_model::Event;
use kr_protocol::Protocol;
use std::alloc::Global;

/// The verdict on the run of the events under a protocol, from an opening map whose keys rise strictly: that of `judge` on what
/// `run_any` leaves. It copies neither the opening nor the end of the run, so it takes less time and memory than both. The only fault is `Memory`.
pub fn judge_run<P: Protocol>(
    alloc: Global,
    protocol: &P,
    opening: &[(u64, u64)],
    events: &[Event],
) -> Result<Verdict, Memory>
    requires { IsMap opening.now }
    ensures { IfOk result (λ v. v ≡ verdict_of_run (P.table protocol.now) opening.now events.now) }
{
    let index = Tree::from_pairs(alloc, opening)?;
    let mut stepper = Stepper::new(alloc, protocol, index, Buckets::new(alloc));
    judge_steps(alloc, &mut stepper, opening, events)
}

/// The same, on a machine at rest that has done no step.
#[tactic(auto, using(crate::proofs::Replayed::programs_of_run))]
fn judge_steps<P: Protocol, I: Ordered, L: Holdings>(
    alloc: Global,
    stepper: &mut Stepper<P, I, L>,
    opening: &[(u64, u64)],
    events: &[Event],
) -> Result<Verdict, Memory>
    requires is_map { IsMap opening.now }
    requires at_rest { stepper.old.pending ≡ None }
    requires starts { stepper.old.state ≡ start opening.now }
    ensures { IfOk result (λ v. v ≡ verdict_of_run (P.table stepper.old.protocol) opening.now events.now) }
{
    let logged = log_all(alloc, stepper, events)?;
    judge_programs(alloc, opening, logged.programs.as_slice())
}
