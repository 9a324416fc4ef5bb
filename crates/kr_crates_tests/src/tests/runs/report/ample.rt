//! Scripts and reports with ample memory, none of which answers out of memory: each operation at boundary keys, values and
//! numbers, long scripts, and reports of runs, verdicts and checks of each size, each compared with what it is made of.
mod cases;
mod lists;
mod numbers;
mod runs;
mod scripts;
mod steps;
mod threaded;
mod verdicts;

use std::alloc::{AllocError, Global};
use std::process::Abort;

/// What is made at a size, and compared with what it is made of.
#[derive(Clone, Copy)]
enum Subject {
    /// Scripts of so many steps.
    Scripts,
    /// The same, each with four pairs in its opening.
    OpenedScripts,
    /// The report of a run with the boundary numbers of this index.
    Run,
    /// The reports of a verdict with so many rows.
    Verdict,
    /// The report of a run in threads, of so many steps that were done and as many that weren't.
    Threaded,
    /// The report of a check with so many failed cases.
    Check,
}

/// Whether what is made at a size is what it is made of.
fn holds(alloc: Global, subject: Subject, size: usize) -> Result<bool, AllocError> {
    match subject {
        Subject::Scripts => scripts::are_read(alloc, size % 5, size),
        Subject::OpenedScripts => scripts::are_read(alloc, 4, size),
        Subject::Run => runs::is_reported(alloc, size),
        Subject::Verdict => verdicts::are_told(alloc, size),
        Subject::Threaded => threaded::is_reported(alloc, size),
        Subject::Check => cases::is_reported(alloc, size),
    }
}

/// Compares at each size from the first to before the end.
fn compare(
    rt: &impl Abort,
    alloc: Global,
    subject: Subject,
    first: usize,
    end: usize,
) -> Result<(), AllocError> {
    for size in first..end {
        assert!(rt; holds(alloc, subject, size)?, "{size}");
    }
    Ok(())
}

#[test]
fn scripts_of_each_length(rt: HostRuntime) -> Result<(), AllocError> {
    compare(&rt, rt.alloc(), Subject::Scripts, 0, 100)?;
    compare(&rt, rt.alloc(), Subject::OpenedScripts, 1000, 1001)
}

#[test]
fn reports_at_boundaries(rt: HostRuntime) -> Result<(), AllocError> {
    compare(&rt, rt.alloc(), Subject::Run, 0, 48)
}

#[test]
fn verdicts_of_each_size(rt: HostRuntime) -> Result<(), AllocError> {
    compare(&rt, rt.alloc(), Subject::Verdict, 0, 100)
}

#[test]
fn runs_in_threads_of_each_size(rt: HostRuntime) -> Result<(), AllocError> {
    compare(&rt, rt.alloc(), Subject::Threaded, 0, 100)?;
    compare(&rt, rt.alloc(), Subject::Threaded, 400, 401)
}

#[test]
fn checks_of_each_size(rt: HostRuntime) -> Result<(), AllocError> {
    compare(&rt, rt.alloc(), Subject::Check, 1, 100)?;
    compare(&rt, rt.alloc(), Subject::Check, 400, 401)
}
