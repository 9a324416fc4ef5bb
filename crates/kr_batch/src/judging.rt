//! Verdicts on the runs of scripts.
ghost use Rattle.std.specs.Prelude.{◌≡◌, IfOk, map};
ghost use Rattle.kr_judge.specs.Verdicts.{verdict_of_run};

use kr_protocol::Protocol;
use kr_script::Script;
use kr_serial::{Verdict, judge_run};
use rayon::prelude::*;
use std::alloc::{AllocError, Global};
use std::thread::Threads;

/// The verdict on the run of a script under a protocol.
pub fn verdict_on<P: Protocol>(
    alloc: Global,
    protocol: &P,
    script: &Script,
) -> Result<Verdict, AllocError>
    ensures { IfOk result (λ v. v ≡ verdict_of_run (P.table protocol.now) script.now.opening script.now.steps) }
{
    judge_run(alloc, protocol, script.opening(), script.steps())
}

/// The verdicts on the runs of the scripts under a protocol, in the order of the scripts: the list that one thread gives
/// which judges one script after another. The scripts are shared out by their number, in pieces of neighbours, two pieces
/// for each processor, and each piece has a thread of its own. The only fault is `Memory`; it may have met several
/// scripts, each script was tried all the same, and no verdict is shown.
pub fn judge_all<P: Protocol + Sync>(
    rt: &(impl Threads + Sync),
    alloc: Global,
    protocol: &P,
    scripts: &[Script],
) -> Result<Vec<Verdict>, AllocError>
    ensures { IfOk result (λ v. v.items ≡ map (λ s. verdict_of_run (P.table protocol.now) s.opening s.steps) scripts.now) }
{
    // A script may have as many as 100,000 steps, so that one is worth a thread.
    let judged: Result<Vec<Verdict>, AllocError> = scripts
        .par_iter()
        .with_min_len(1)
        .map(
            |script: &Script| -> Result<Verdict, AllocError>
                ensures { IfOk result (λ v. v ≡ verdict_of_run (P.table protocol.entry.now) script.now.opening script.now.steps) }
            { verdict_on(alloc, protocol, script) },
        )
        .collect(rt, alloc)?;
    judged
}
