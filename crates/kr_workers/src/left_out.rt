//! Steps that a worker left out, and where in the history.
ghost use Rattle.std.specs.Prelude.{◌≡◌, IfOk, map};

use kr_script::StepFault;
use std::alloc::{AllocError, Global};

/// A step that was left out, between two steps of its transaction that were done.
#[derive(Drop)]
pub struct LeftOut {
    /// The step, and why it was left out.
    pub fault: StepFault,
    /// The place of the step that was done last before it.
    pub last: Option<usize>,
    /// The place of the step that was done next after it.
    pub next: Option<usize>,
}

/// The steps alone, and why they were left out.
pub fn faults_of(alloc: Global, left_out: Vec<LeftOut>) -> Result<Vec<StepFault>, AllocError>
    ensures { IfOk result (λ faults. faults.items ≡ map (λ l. l.fault) left_out.items) }
{
    let mut faults = Vec::with_capacity(alloc, left_out.len())?;
    for left in left_out {
        let LeftOut {
            fault,
            last: _,
            next: _,
        } = left;
        faults.push(fault)?;
    }
    Ok(faults)
}
