//! Runs of scripts by several threads, each compared with a replay of its history.

mod deadlock;
pub mod gates;
mod many;
mod reports;
mod soak;
mod turns;

use kr_protocol::{Covered, Kvl, KvlUpdate};
use kr_report::{Threaded, ThreadsShown};
use kr_script::{Script, read_script};
use kr_serial::run;
use kr_threads::{Gate, run_threads, show_threads};
use std::alloc::Global;
use std::sync::Wait;
use std::test::Fail;
use std::thread::Threads;

/// The number after this one, in a row that looks random.
pub fn next(number: u64) -> u64 {
    number
        .wrapping_mul(6_364_136_223_846_793_005)
        .wrapping_add(1_442_695_040_888_963_407)
}

/// A script of this format with these steps, on an opening index of three pairs.
fn script_of(alloc: Global, format: u32, steps: &str) -> Result<Script, Fail> {
    let text = format!(in alloc;
        "{{\"format\":{format},\"opening\":[[10,1],[20,2],[30,3]],\"steps\":{steps}}}"
    )?;
    Ok(read_script(alloc, text.as_bytes()).ok().ok_or("script")?)
}

/// Whether what is shown beside the history is what a run of its steps leaves, one after another: the replies, the
/// programs, the index and the locks.
fn is_replayed<P: Covered>(
    alloc: Global,
    protocol: &P,
    script: &Script,
    done: &Threaded,
) -> Result<bool, Fail> {
    let mut steps = Vec::new(alloc);
    for answered in &done.history {
        steps.push(answered.event)?;
    }
    let ran = run(alloc, protocol, script.opening(), &steps)
        .ok()
        .ok_or("replay")?;
    Ok(format!(in alloc; "{:?}", done.ran)? == format!(in alloc; "{ran:?}")?)
}

/// What a run of a script by 1 to 64 workers shows, which is compared with a replay.
fn done_under<P: Covered + Sync, G: Gate + Sync, R: Threads + Wait + Sync>(
    rt: &R,
    alloc: Global,
    protocol: &P,
    script: &Script,
    workers: usize,
    gate: &G,
) -> Result<Threaded, Fail> {
    if 0 < workers && workers <= 64 {
        let done = run_threads(rt, alloc, protocol, script, workers, gate)
            .ok()
            .ok_or("runs")?;
        if is_replayed(alloc, protocol, script, &done)? {
            return Ok(done);
        }
    }
    Err("replayed")?
}

/// The same of these steps under key-value locking.
pub fn done_by<G: Gate + Sync, R: Threads + Wait + Sync>(
    rt: &R,
    alloc: Global,
    steps: &str,
    workers: usize,
    gate: &G,
) -> Result<Threaded, Fail> {
    let script = script_of(alloc, 1, steps)?;
    done_under(rt, alloc, &Kvl, &script, workers, gate)
}

/// What the report shows of such a run.
pub fn shown_by<G: Gate + Sync, R: Threads + Wait + Sync>(
    rt: &R,
    alloc: Global,
    steps: &str,
    workers: usize,
    gate: &G,
) -> Result<ThreadsShown, Fail> {
    let script = script_of(alloc, 1, steps)?;
    if 0 < workers && workers <= 64 {
        return Ok(
            show_threads(rt, alloc, &Kvl, &script, workers, gate)
                .ok()
                .ok_or("shows")?,
        );
    }
    Err("workers")?
}

/// The same where updates are offered.
pub fn done_with_updates<G: Gate + Sync, R: Threads + Wait + Sync>(
    rt: &R,
    alloc: Global,
    steps: &str,
    workers: usize,
    gate: &G,
) -> Result<Threaded, Fail> {
    let script = script_of(alloc, 2, steps)?;
    done_under(rt, alloc, &KvlUpdate, &script, workers, gate)
}
