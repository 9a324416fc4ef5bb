//! Steps that a worker left out, told between two places of the history.
ghost use Rattle.std.specs.Prelude.{◌≡◌, ◌++◌, List, [], All, OnOk, map, reverse};
ghost use Rattle.kr_model.specs.Protocol.{Protocol};
ghost use Rattle.kr_model.specs.Map.{Map};
ghost use Rattle.kr_model.specs.Run as model;
ghost use Rattle.kr_threads.specs.Told.{IsToldAt, IsLeftOut, left_between};

use kr_workers::{LeftOut, StepFault};
use std::alloc::AllocError;

/// Moves the steps that were left out between these places to those that were left out before, the last of them first. Where
/// a growth is refused they are gone.
pub fn settle(
    recent: &mut Vec<StepFault>,
    left_out: &mut Vec<LeftOut>,
    last: Option<usize>,
    next: Option<usize>,
) -> Result<(), AllocError>
    ensures told { (p : Protocol) (opening : Map) (h : List model.Entry) → All (IsToldAt p opening h last next) recent.old.items → All (IsLeftOut p opening h) left_out.old.items → All (IsLeftOut p opening h) left_out.new.items }
    ensures all { OnOk result (left_out.new.items ≡ left_out.old.items ++ map (left_between last next) (reverse recent.old.items)) }
    ensures moved { recent.new.items ≡ [] }
{
    let mut refused = false;
    while let Some(fault) = recent.pop() {
        if left_out.push(LeftOut { fault, last, next }).is_err() {
            refused = true;
        }
    }
    if refused {
        return Err(AllocError);
    }
    Ok(())
}
