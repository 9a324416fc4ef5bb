//! What the workers did, compared with the script, and what is shown of it.
ghost use Rattle.std.specs.Prelude.{◌≡◌, ◌≢◌, List, Err, IfOk};
ghost use Rattle.kr_model.specs.declared.Event.{Event};
ghost use Rattle.kr_model.specs.Protocol.{Protocol};
ghost use Rattle.kr_model.specs.Map.{Map, IsMap};
ghost use Rattle.kr_workers.specs.Dealt.{AreDealt};
ghost use Rattle.kr_threads.specs.Told.{IsWorked};
ghost use Rattle.kr_threads.specs.Threaded.{IsCompared, IsFollowed, IsThreaded, ShowsThreads};
ghost use Rattle.kr_threads.specs.declared.fault.RunFault.TheVariants as fault;

use crate::fault::RunFault;
use crate::history::{answers, ran_of, steps_of};
use kr_records::History;
use kr_report::{Threaded, ThreadsShown};
use kr_workers::{Dealt, LeftOut, StepFault, are_placed, faults_of, follows};
use std::alloc::{AllocError, Global};

/// What the workers did: the closed history, in which no transaction is active at the end, and the steps that were left out.
#[derive(Drop)]
pub struct Worked {
    pub history: History,
    pub left_out: Vec<LeftOut>,
}

/// The history with the steps that were left out, compared with the script: `Place` where it doesn't follow it, or a step was
/// left out where its transaction hadn't come to it.
pub fn compared(
    alloc: Global,
    script: Dealt,
    worked: Worked,
) -> Result<(History, Vec<StepFault>), RunFault>
    ensures compared { IfOk result (λ r. (p : Protocol) (opening : Map) (steps : List Event) → IsWorked p opening worked.history worked.left_out.items → AreDealt steps script → IsCompared p opening steps r.0 r.1.items) }
    ensures history { IfOk result (λ r. r.0 ≡ worked.history) }
    ensures followed { (steps : List Event) → AreDealt steps script → IfOk result (λ r. IsFollowed steps worked.history worked.left_out.items) }
    ensures place { (steps : List Event) → AreDealt steps script → IsFollowed steps worked.history worked.left_out.items → result ≢ Err fault.Place }
{
    let Worked { history, left_out } = worked;
    let steps = steps_of(alloc, &history.entries)?;
    if !are_placed(alloc, &left_out, &steps)? {
        return Err(RunFault::Place);
    }
    let faults = faults_of(alloc, left_out)?;
    if !follows(alloc, script, &faults, &steps)? {
        return Err(RunFault::Place);
    }
    Ok((history, faults))
}

/// The whole of a run with this history and these faults, from this opening map, or an error where a growth is refused.
pub fn threaded_of(
    alloc: Global,
    opening: &[(u64, u64)],
    history: History,
    faults: Vec<StepFault>,
) -> Result<Threaded, AllocError>
    requires opening { IsMap opening.now }
    requires index { IsMap history.index }
    ensures { IfOk result (λ d. (p : Protocol) (steps : List Event) → IsCompared p opening.now steps history faults.items → IsThreaded p opening.now steps d) }
{
    let (entries, ran) = ran_of(alloc, opening, history)?;
    let history = answers(alloc, entries)?;
    Ok(Threaded {
        history,
        ran,
        faults,
    })
}

/// What is shown of a run with this history and these faults, or an error where a growth is refused.
pub fn shown_of(
    alloc: Global,
    history: History,
    faults: Vec<StepFault>,
) -> Result<ThreadsShown, AllocError>
    ensures { IfOk result (λ d. (p : Protocol) (opening : Map) (steps : List Event) → IsCompared p opening steps history faults.items → ShowsThreads p opening steps d) }
{
    let History {
        entries,
        index,
        unfinished,
        locks: _,
        seats: _,
    } = history;
    let history = answers(alloc, entries)?;
    Ok(ThreadsShown {
        history,
        faults,
        index,
        unfinished,
    })
}
