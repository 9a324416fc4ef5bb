//! A step of a scan: the name that it looks at, and what it leaves.
ghost use Rattle.std.specs.Prelude.{◌≡◌, ◌<◌, Some, IfOk, IfSome, option_map, vec_len, vec_capacity};
ghost use Rattle.kr_model.specs.State.{idle};
ghost use Rattle.kr_model.specs.Step.{looked, name_to_look};
ghost use Rattle.kr_txn.specs.Standings.{active_of, scan_of};
ghost use Rattle.kr_touch.specs.Parts.{op_of_touch};
ghost use Rattle.kr_touch.specs.Room.{HasFirstRoom};
ghost use Rattle.kr_touch.specs.Effects.{look_effect};

use crate::parts::Touch;
use kr_parts::{Memory, Name, Ordered};
use kr_txn::{Scan, Standing};
use std::alloc::Global;

/// The name that a scan looks at next: the first from its lower end, or else that after the last key that it read.
fn name_to_look<I: Ordered>(index: &I, scan: &Scan) -> Name
    ensures { result ≡ name_to_look (I.map index.now) (scan_of scan.now) }
{
    match scan.rows.last() {
        Some(row) => index.after(row.0),
        None => index.at(scan.lo),
    }
}

/// No rows, with room for the first where a scan begins.
pub fn first_rows(alloc: Global, touch: Touch) -> Result<Vec<(u64, u64)>, Memory>
    ensures { IfOk result (λ rows. HasFirstRoom rows (op_of_touch touch)) }
{
    match touch {
        Touch::Scan(_, _) => Ok(Vec::with_capacity(alloc, 1)?),
        Touch::Key(_) | Touch::Go => Ok(Vec::new(alloc)),
    }
}

/// Does a scan's step: gives it back with one row more where it goes on, and `None` where it ends. Takes no memory.
fn look<I: Ordered>(index: &I, scan: Scan) -> Option<Scan>
    requires { vec_len scan.rows < vec_capacity scan.rows }
    ensures { option_map scan_of result ≡ (looked (I.map index.now) idle (scan_of scan) (name_to_look (I.map index.now) (scan_of scan))).standing.scan }
{
    let mut scan = scan;
    match name_to_look(index, &scan) {
        Name::Key(key) => {
            if key < scan.hi {
                scan.rows.push_reserved((key, index.get(key).unwrap_or(0)));
                return Some(scan);
            }
            None
        }
        Name::End => None,
    }
}

/// Takes the first step of a scan that a transaction begins.
pub fn begin<I: Ordered>(index: &I, standing: Standing, scan: Scan) -> Standing
    requires { vec_len scan.rows < vec_capacity scan.rows }
    ensures txn { result.txn ≡ standing.txn }
    ensures standing { active_of result ≡ (look_effect (I.map index.now) (active_of standing) (Some (scan_of scan))).standing }
    ensures changes { (active_of result).changes ≡ (active_of standing).changes }
{
    let Standing {
        txn,
        scan: _,
        changes,
        rolling,
    } = standing;
    let scan = look(index, scan);
    Standing {
        txn,
        scan,
        changes,
        rolling,
    }
}

/// Takes the next step of the scan in progress; where there is none, the transaction stays.
pub fn go_on<I: Ordered>(index: &I, standing: Standing) -> Standing
    requires { IfSome standing.scan (λ c. vec_len c.rows < vec_capacity c.rows) }
    ensures txn { result.txn ≡ standing.txn }
    ensures standing { active_of result ≡ (look_effect (I.map index.now) (active_of standing) (active_of standing).scan).standing }
    ensures changes { (active_of result).changes ≡ (active_of standing).changes }
{
    let mut standing = standing;
    match standing.scan.take() {
        Some(scan) => begin(index, standing, scan),
        None => standing,
    }
}
