//! A run of a script with purges in several threads.
ghost use Rattle.std.specs.Prelude.{◌≡◌, ◌<◌, ◌≤◌, IfOk, OnOk, List, [], false, true};
ghost use Rattle.std.specs.List.Sorted.{IsPermutation};
ghost use Rattle.kr_model.specs.declared.Event.{Event};
ghost use Rattle.kr_model.specs.Map.{IsMap};
ghost use Rattle.kr_model.specs.Serial.{AreSerial};
ghost use Rattle.kr_ghost.specs.Safe.{IsSafeGhost};
ghost use Rattle.kr_workers.specs.Dealt.{AreDealt};
ghost use Rattle.kr_workers.specs.Follows.{Follows};
ghost use Rattle.kr_ghost_threads.specs.Histories.{programs_of, steps_in, steps_of as done_in};
ghost use Rattle.kr_ghost_threads.specs.Threaded.{IsGhostThreaded, IsOver};

use crate::hands::{Hand, deal};
use crate::kernel::Kernel;
use crate::name::GhostRunName;
use crate::steps::{steps_in, steps_of};
use crate::work::{Shared, work};
use crate::{GhostRunFault, GhostThreaded};
use kr_ghost_protocol::GhostProtocol;
use kr_model::{Items, Pairs};
use kr_script::GhostScript;
use kr_workers::{Dealt, Gate, StepFault, follows};
use std::alloc::{AllocError, Global};
use std::marker::Brand;
use std::sync::{Condvar, Mutex, Wait};
use std::thread;
use std::thread::Threads;

/// Runs a script, which may have purges, under a protocol with ghosts in as many threads as there are workers, 1 to 64. There are
/// no ghosts at first.
///
/// The transactions are dealt to the workers in turn, in the order in which they first appear. A worker does its
/// transactions one after another, the steps of each in script order. A step that is refused is noted as a fault and left
/// out. At a deadlock the step is noted as a fault, and the rest of its transaction's steps is dropped. A transaction that
/// is active after that is aborted. The gate stands before and after each step. A step that is blocked waits.
///
/// A purge of the script is tried when a worker has come past the step before it. Besides, once a transaction has ended its worker
/// tries to purge the keys that the transaction's inserts and deletes name. A purge that takes no ghost away leaves no trace.
///
/// Where the protocol is safe the programs of the history are serializable in commit order. It returns where all workers do: a
/// worker waits for the locks of others' transactions, and for the gate.
///
/// - `Memory`: a growth was refused, to a worker or after all were done.
/// - `Place`: a transaction is active at the end, or the history isn't that of the script; only by a fault of the run.
pub fn run_ghost_threads<P: GhostProtocol + Sync, G: Gate + Sync, R: Threads + Wait + Sync>(
    rt: &R,
    alloc: Global,
    protocol: &P,
    script: &GhostScript,
    workers: usize,
    gate: &G,
) -> Result<GhostThreaded, GhostRunFault>
    requires workers { (0 < workers) × (workers ≤ 64) }
    ensures threaded { IfOk result (λ d. IsGhostThreaded (P.ghosts protocol.now) script.now.opening script.now.moves d) }
    ensures safe { IsSafeGhost (P.ghosts protocol.now) → IfOk result (λ d. AreSerial script.now.opening (programs_of (P.ghosts protocol.now) script.now.opening d.history.items)) }
{
    let opening = script.opening();
    let hands = deal(alloc, script.moves())?;
    let threaded = run_named::<&P, Brand, G, R>(
        rt, alloc, protocol, opening, &hands, workers, gate,
    )?;
    follow_script(alloc, script, &threaded)?;
    Ok(threaded)
}

/// Nothing where the history follows the steps of a script, but for the faults; else `Place`.
fn follow_script(
    alloc: Global,
    script: &GhostScript,
    threaded: &GhostThreaded,
) -> Result<(), GhostRunFault>
    ensures { OnOk result (Follows (steps_in script.now.moves) threaded.now.faults.items (done_in threaded.now.history.items)) }
{
    let steps = steps_in(alloc, script.moves())?;
    let dealt = Dealt::new(alloc, &steps)?;
    let follows = follows_script(alloc, dealt, threaded)?;
    if follows {
        Ok(())
    } else {
        Err(GhostRunFault::Place)
    }
}

/// Whether the history follows the steps of a script that were dealt, but for the faults.
fn follows_script(alloc: Global, dealt: Dealt, threaded: &GhostThreaded) -> Result<bool, AllocError>
    ensures { IfOk result (λ yes. (steps : List Event) → AreDealt steps dealt → yes ≡ true → Follows steps threaded.now.faults.items (done_in threaded.now.history.items)) }
{
    let done = steps_of(alloc, &threaded.history)?;
    follows(alloc, dealt, &threaded.faults, &done)
}

/// The run that has this name.
fn run_named<
    P: GhostProtocol + Send,
    K: GhostRunName + Send + Sync,
    G: Gate + Sync,
    R: Threads + Wait + Sync,
>(
    rt: &R,
    alloc: Global,
    protocol: P,
    opening: &[(u64, u64)],
    hands: &[Hand],
    workers: usize,
    gate: &G,
) -> Result<GhostThreaded, GhostRunFault>
    requires table { P.ghosts protocol ≡ K.table }
    requires opening { opening.now ≡ K.opening }
    requires is_map { IsMap opening.now }
    requires workers { 0 < workers }
    ensures { IfOk result (IsOver K.table K.opening) }
{
    let kernel = Kernel::<P, K>::new(alloc, protocol, opening)?;
    let shared = Shared {
        kernel: Mutex::new(kernel),
        changed: Condvar::new(),
    };
    thread::map_indices(
        rt,
        alloc,
        workers,
        &|number: usize| -> u64
            requires { 0 < workers }
        { work(rt, hands, workers, gate, &shared, number) },
    )?;
    let Shared { kernel, changed: _ } = shared;
    over(kernel.into_inner())
}

/// What a run leaves that all workers have left: `Memory` where a growth was refused, and `Place` where a transaction is active.
fn over<P: GhostProtocol, K: GhostRunName>(
    kernel: Kernel<P, K>,
) -> Result<GhostThreaded, GhostRunFault>
    ensures { IfOk result (IsOver K.table K.opening) }
{
    let (index, ghosts) = left_by(&kernel)?;
    let Kernel {
        alloc: _,
        stepper: _,
        history,
        faults,
        come: _,
        waiting: _,
        failed: _,
        of: _,
    } = kernel;
    let faults = in_order(faults);
    Ok(GhostThreaded {
        history,
        faults,
        index,
        ghosts,
    })
}

/// The index and the ghosts that a run leaves; `Memory` where a growth was refused, and `Place` where a transaction is active.
fn left_by<P: GhostProtocol, K: GhostRunName>(
    kernel: &Kernel<P, K>,
) -> Result<(Pairs, Items<u64>), GhostRunFault>
    ensures running { OnOk result (kernel.now.failed ≡ false) }
    ensures index { IfOk result (λ r. r.0 ≡ kernel.now.steps.state.state.map) }
    ensures ghosts { IfOk result (λ r. r.1 ≡ kernel.now.steps.state.ghosts) }
    ensures ended { OnOk result (kernel.now.steps.state.state.active ≡ []) }
{
    if kernel.failed {
        return Err(GhostRunFault::Memory);
    }
    if !kernel.stepper.unfinished()?.as_slice().is_empty() {
        return Err(GhostRunFault::Place);
    }
    Ok((kernel.stepper.index()?, kernel.stepper.ghosts()?))
}

/// Faults by transaction, and then by number.
fn in_order(faults: Vec<StepFault>) -> Vec<StepFault>
    ensures { IsPermutation faults.items result.items }
{
    let mut faults = faults;
    faults.sort_unstable_by_key(|fault| (fault.txn, fault.step));
    faults
}
