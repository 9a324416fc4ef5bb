//! What the workers handed back, gathered.
ghost use Rattle.std.specs.Prelude.{◌≡◌, ◌≢◌, ◌++◌, ◌∷◌, ◌⊎◌, [], All, IfOk, IfErr, IsOk, OnOk, None, Some, map};
ghost use Rattle.kr_model.specs.Protocol.{IsLawful};
ghost use Rattle.kr_model.specs.Map.{IsMap};
ghost use Rattle.kr_records.specs.Closed.{IsClosed};
ghost use Rattle.std.specs.List.{flat_map};
ghost use Rattle.std.specs.List.Sorted.{IsPermutation};
ghost use Rattle.kr_threads.specs.Told.{IsToldToOne, IsWorked, first_failure};
ghost use Rattle.kr_threads.specs.declared.fault.RunFault.TheVariants as fault;

use crate::comparing::Worked;
use crate::fault::RunFault;
use crate::report::Report;
use kr_records::{EngineName, History, Share};
use kr_workers::LeftOut;
use std::alloc::Global;

/// The shares of all workers and the steps that they left out, in the workers' order; or why the first worker gave up that
/// did, or `Memory` where a growth is refused.
pub fn gather<K: EngineName>(
    alloc: Global,
    reports: Vec<Report<K>>,
) -> Result<(Vec<Share<K>>, Vec<LeftOut>), RunFault>
    ensures told { IfOk result (λ r. All (IsToldToOne K.table K.opening r.0.items) r.1.items) }
    ensures shares { IfOk result (λ r. r.0.items ≡ map (λ w. w.share) reports.items) }
    ensures left_out { IfOk result (λ r. r.1.items ≡ flat_map (λ w. w.left_out) reports.items) }
    ensures all_worked { IsOk result → first_failure reports.items ≡ None }
    ensures failed { IfErr result (λ f. (f ≡ fault.Memory) ⊎ (first_failure reports.items ≡ Some f)) }
{
    let mut shares = Vec::new(alloc);
    let mut left_out = Vec::new(alloc);
    for report in reports {
        if let Err(fault) = add(&mut shares, &mut left_out, report) {
            return Err(fault);
        }
    }
    Ok((shares, left_out))
}

/// Adds what one worker hands back.
#[tactic(auto, using(crate::proofs::Gathered::all_told_both))]
fn add<K: EngineName>(
    shares: &mut Vec<Share<K>>,
    left_out: &mut Vec<LeftOut>,
    report: Report<K>,
) -> Result<(), RunFault>
    requires { All (IsToldToOne K.table K.opening shares.old.items) left_out.old.items }
    ensures told { OnOk result (All (IsToldToOne K.table K.opening shares.new.items) left_out.new.items) }
    ensures share { OnOk result (shares.new.items ≡ shares.old.items ++ report.share ∷ []) }
    ensures left_out { OnOk result (left_out.new.items ≡ left_out.old.items ++ report.left_out) }
    ensures worked { IsOk result → report.failed ≡ None }
    ensures failed { IfErr result (λ f. (f ≡ fault.Memory) ⊎ (report.failed ≡ Some f)) }
{
    let Report {
        share,
        left_out: mut more,
        failed,
    } = report;
    if let Some(fault) = failed {
        return Err(fault);
    }
    if shares.push(share).is_err() {
        return Err(RunFault::Memory);
    }
    left_out.append(&mut more)?;
    Ok(())
}

/// The closed history with the steps that were left out by transaction, then by number; or `Place` where a transaction is
/// active.
pub fn finished<K: EngineName>(
    history: History,
    shares: &[Share<K>],
    left_out: Vec<LeftOut>,
) -> Result<Worked, RunFault>
    requires lawful { IsLawful K.table }
    requires is_map { IsMap K.opening }
    requires closed { IsClosed K.table K.opening history shares.now }
    requires told { All (IsToldToOne K.table K.opening shares.now) left_out.items }
    ensures worked { IfOk result (λ w. IsWorked K.table K.opening w.history w.left_out.items) }
    ensures is_map { IfOk result (λ w. IsMap w.history.index) }
    ensures history { IfOk result (λ w. w.history ≡ history) }
    ensures left_out { IfOk result (λ w. IsPermutation left_out.items w.left_out.items) }
    ensures place { IfErr result (λ f. (f ≡ fault.Place) × (history.unfinished ≢ [])) }
{
    if !history.unfinished.as_slice().is_empty() {
        return Err(RunFault::Place);
    }
    let mut left_out = left_out;
    left_out.sort_unstable_by_key(|l| (l.fault.txn, l.fault.step));
    Ok(Worked { history, left_out })
}
