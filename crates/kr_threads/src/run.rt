//! A run of a script in several threads.
ghost use Rattle.std.specs.Prelude.{◌≡◌, ◌<◌, ◌≤◌, IfOk};
ghost use Rattle.kr_model.specs.Map.{IsMap};
ghost use Rattle.kr_threads.specs.Told.{IsWorked};
ghost use Rattle.kr_threads.specs.Threaded.{IsCompared, IsThreaded, ShowsThreads};

use crate::comparing::{Worked, compared, shown_of, threaded_of};
use crate::fault::RunFault;
use crate::gathering::{finished, gather};
use crate::report::Report;
use crate::work::{Worker, work};
use kr_engine::{Engine, EngineName, History, PlaceRow};
use kr_protocol::Covered;
use kr_report::{Threaded, ThreadsShown};
use kr_script::Script;
use kr_workers::{Dealt, Gate, StepFault};
use std::alloc::{AllocError, Global};
use std::marker::Brand;
use std::sync::{Mutex, Wait};
use std::thread;
use std::thread::Threads;

/// Runs a script under a covered protocol in as many threads as there are workers, 1 to 64.
///
/// The transactions are dealt to the workers in turn, in the order in which they first appear. A worker does its
/// transactions one after another, the steps of each in script order. A step that is refused is noted as a fault and left
/// out. At a deadlock the step is noted as a fault, and the rest of its transaction's steps is dropped. A transaction that
/// is active after that is aborted. The gate stands before and after each call. A step that is blocked waits.
///
/// It returns where all workers do: a worker waits for the locks of others' transactions, and for the gate.
///
/// - `Memory`: a growth was refused, to a worker or after all were done.
/// - `Place`: the engine answered what it doesn't answer here, or the history isn't that of the script; only by a fault of
///   the engine or of the run.
pub fn run_threads<P: Covered + Sync, G: Gate + Sync, R: Threads + Wait + Sync>(
    rt: &R,
    alloc: Global,
    protocol: &P,
    script: &Script,
    workers: usize,
    gate: &G,
) -> Result<Threaded, RunFault>
    requires workers { (0 < workers) × (workers ≤ 64) }
    ensures { IfOk result (λ d. IsThreaded (P.table protocol.now) script.now.opening script.now.steps d) }
{
    let (history, faults) = run_compared(rt, alloc, protocol, script, workers, gate)?;
    Ok(threaded_of(alloc, script.opening(), history, faults)?)
}

/// The same run, of which only that is given which its report shows: no replies apart, no programs and no locks.
pub fn show_threads<P: Covered + Sync, G: Gate + Sync, R: Threads + Wait + Sync>(
    rt: &R,
    alloc: Global,
    protocol: &P,
    script: &Script,
    workers: usize,
    gate: &G,
) -> Result<ThreadsShown, RunFault>
    requires workers { (0 < workers) × (workers ≤ 64) }
    ensures { IfOk result (λ d. ShowsThreads (P.table protocol.now) script.now.opening script.now.steps d) }
{
    let (history, faults) = run_compared(rt, alloc, protocol, script, workers, gate)?;
    Ok(shown_of(alloc, history, faults)?)
}

/// The closed history of such a run, and the steps that were left out, compared with the script.
fn run_compared<P: Covered + Sync, G: Gate + Sync, R: Threads + Wait + Sync>(
    rt: &R,
    alloc: Global,
    protocol: &P,
    script: &Script,
    workers: usize,
    gate: &G,
) -> Result<(History, Vec<StepFault>), RunFault>
    requires workers { (0 < workers) × (workers ≤ 64) }
    ensures compared { IfOk result (λ r. IsCompared (P.table protocol.now) script.now.opening script.now.steps r.0 r.1.items) }
    ensures is_map { IfOk result (λ r. IsMap r.0.index) }
{
    let steps = script.steps();
    let opening = script.opening();
    let dealt = Dealt::new(alloc, steps)?;
    let places = steps.len() as u64 + dealt.txns().len() as u64 + 1;
    let row = PlaceRow::new(alloc, places)?;
    let worked = run_named::<&P, Brand, G, R>(
        rt, alloc, protocol, opening, row, &dealt, workers, gate,
    )?;
    compared(alloc, dealt, worked)
}

/// The run over an engine that has this row.
fn run_named<
    P: Covered + Send,
    K: EngineName + Send + Sync,
    G: Gate + Sync,
    R: Threads + Wait + Sync,
>(
    rt: &R,
    alloc: Global,
    protocol: P,
    opening: &[(u64, u64)],
    row: PlaceRow,
    dealt: &Dealt,
    workers: usize,
    gate: &G,
) -> Result<Worked, RunFault>
    requires row { row ≡ K.places }
    requires opening { opening.now ≡ K.opening }
    requires table { P.table protocol ≡ K.table }
    requires is_map { IsMap opening.now }
    requires workers { 0 < workers }
    ensures worked { IfOk result (λ w. IsWorked K.table K.opening w.history w.left_out.items) }
    ensures is_map { IfOk result (λ w. IsMap w.history.index) }
{
    let engine = Engine::<P, K>::new(alloc, protocol, opening, row)?;
    let jobs = hired(rt, alloc, &engine, workers)?;
    let turns = Mutex::new(());
    let reports = thread::map_vec(
        rt,
        jobs,
        &|job: Worker<'_, P, K>| -> Report<K>
            requires { 0 < workers }
        { work(rt, dealt, workers, gate, &turns, job) },
    )?;
    let (shares, left_out) = gather(alloc, reports)?;
    let history = engine.into_history(&shares)?;
    finished(history, &shares, left_out)
}

/// As many workers, each with a seat of its own.
fn hired<'a, P: Covered, K: EngineName, R: Wait>(
    rt: &R,
    alloc: Global,
    engine: &'a Engine<P, K>,
    workers: usize,
) -> Result<Vec<Worker<'a, P, K>>, AllocError> {
    let mut all = Vec::new(alloc);
    for number in 0..workers {
        let seat = engine.seat(rt)?;
        all.push(Worker {
            number,
            seat,
            calls: 0,
            last: None,
            recent: Vec::new(alloc),
            passed: None,
            left_out: Vec::new(alloc),
        })?;
    }
    Ok(all)
}
