//! What an attempt answers where it is granted.
ghost use Rattle.std.specs.Prelude.{◌≡◌, true, IfOk, option_map, option_copied};
ghost use Rattle.kr_model.specs.Map.{Map};
ghost use Rattle.kr_model.specs.State.{idle};
ghost use Rattle.kr_model.specs.Step.{looked};
ghost use Rattle.kr_model.specs.Run.{is_granted};
ghost use Rattle.kr_txn.specs.Standings.{scan_of};
ghost use Rattle.kr_touch.specs.Effects.{reply_of, rows_of};
ghost use Rattle.kr_touch.specs.Sights.{value_at, value_of_name};

use kr_model::{Pairs, Reply, Step};
use kr_parts::{Memory, Name};
use kr_txn::Scan;
use std::alloc::Global;

/// What the step of a scan with these rows answers on a name with this value, `hi` being the upper end; or `Memory` where
/// the scan ends and its rows can't be copied.
fn looked_at(
    alloc: Global,
    name: Name,
    hi: u64,
    rows: &[(u64, u64)],
    value: Option<u64>,
) -> Result<Reply, Memory>
    ensures reply { IfOk result (λ r. (m : Map) → value ≡ value_of_name m name → r ≡ (looked m idle (record { lo = 0; hi = hi; rows = rows.now }) name).reply) }
    ensures granted { IfOk result (λ r. is_granted r ≡ true) }
{
    if let Name::Key(key) = name {
        if key < hi {
            return Ok(Reply::Going(key));
        }
        if key == hi {
            let mut all = Vec::with_capacity(alloc, rows.len() + 1)?;
            all.extend_from_slice(rows)?;
            all.push((key, value.unwrap_or(0)))?;
            return Ok(Reply::Rows(Pairs::from_vec(all)));
        }
    }
    let all = Vec::from_slice(alloc, rows)?;
    Ok(Reply::Rows(Pairs::from_vec(all)))
}

/// What an attempt answers where it is granted, by the scan in progress and the value of its key; or `Memory` where the
/// rows of a scan that ends can't be copied.
#[inline(always)]
pub fn reply_at(
    alloc: Global,
    scan: Option<&Scan>,
    attempt: Step,
    value: Option<u64>,
) -> Result<Reply, Memory>
    ensures reply { IfOk result (λ r. (m : Map) → value ≡ value_at m attempt → r ≡ reply_of m (rows_of (option_map scan_of (option_copied scan.entry))) attempt) }
    ensures granted { IfOk result (λ r. is_granted r ≡ true) }
{
    match (attempt, value) {
        (Step::Fetch(_), Some(value)) => Ok(Reply::Found(value)),
        (Step::Fetch(_), None) => Ok(Reply::None),
        (Step::Insert(_), Some(_)) => Ok(Reply::Duplicate),
        (Step::Insert(_), None) => Ok(Reply::Done),
        (Step::Delete(_), Some(value)) => Ok(Reply::Deleted(value)),
        (Step::Update(_), Some(value)) => Ok(Reply::Updated(value)),
        (Step::Delete(_) | Step::Update(_), None) => Ok(Reply::Absent),
        (Step::Look(name, hi), value) => match scan {
            Some(scan) => looked_at(alloc, name, hi, scan.rows.as_slice(), value),
            None => looked_at(alloc, name, hi, &[], value),
        },
    }
}
