//! What a granted step of a scan does to its transaction.
ghost use Rattle.std.specs.Prelude.{◌≡◌, ◌<◌, IfSome, OnErr, OnOk, IfOk, vec_len, vec_capacity};
ghost use Rattle.kr_model.specs.Locks.{kept};
ghost use Rattle.kr_model.specs.Map.{Map};
ghost use Rattle.kr_model.specs.Plan.{requests};
ghost use Rattle.kr_model.specs.State.{Active};
ghost use Rattle.kr_model.specs.Step.{effect};
ghost use Rattle.kr_ghost.specs.Step.{looked};
ghost use Rattle.kr_model.proofs.Requests.{AreLocks};
ghost use Rattle.kr_plan.specs.Modes.{ArePlanModes};
ghost use Rattle.kr_txn.specs.Standings.{active_of, scan_of};
ghost use Rattle.kr_touch.specs.Sights.{value_of_name};
ghost use Rattle.kr_ghost_machine.specs.Deeds.{after_look, glance_effect};

use crate::deeds::Glance;
use kr_locks::{Holdings, Memory, Name};
use kr_model::{Pairs, Plan, Reply};
use kr_plan::holds::hold_both;
use kr_protocol::Protocol;
use kr_txn::{Scan, Standing};

/// Looks at a name with its value: a key within the range adds its row, if it is present, and the scan goes on above it,
/// which is told; at its greatest key, and at any name above, it ends. Takes no memory.
fn read(scan: &mut Scan, name: Name, value: Option<u64>) -> Option<u64>
    requires { vec_len scan.old.rows < vec_capacity scan.old.rows }
    ensures { (m : Map) (a : Active) → value ≡ value_of_name m name → looked m a (scan_of scan.old) name ≡ after_look m a (scan_of scan.new) result }
{
    let Name::Key(key) = name else {
        return None;
    };
    if key > scan.hi {
        return None;
    }
    if let Some(value) = value {
        scan.rows.push_reserved((key, value));
    }
    if key == scan.hi {
        return None;
    }
    scan.lo = key + 1;
    Some(key)
}

/// Takes a scan's step, and answers. Takes no memory.
fn go_on(standing: &mut Standing, scan: Scan, name: Name, value: Option<u64>) -> Reply
    requires { vec_len scan.rows < vec_capacity scan.rows }
    ensures effect { (m : Map) → value ≡ value_of_name m name → looked m (active_of standing.old) (scan_of scan) name ≡ effect result m (active_of standing.new) }
    ensures txn { standing.new.txn ≡ standing.old.txn }
    ensures changes { standing.new.changes ≡ standing.old.changes }
{
    let mut scan = scan;
    match read(&mut scan, name, value) {
        Some(key) => {
            standing.scan = Some(scan);
            Reply::Going(key)
        }
        None => {
            standing.scan = None;
            Reply::Rows(Pairs::from_vec(scan.rows))
        }
    }
}

/// Takes room for one more row of the scan in progress.
fn make_room(standing: &mut Standing) -> Result<(), Memory>
    ensures txn { standing.new.txn ≡ standing.old.txn }
    ensures changes { standing.new.changes ≡ standing.old.changes }
    ensures same { active_of standing.new ≡ active_of standing.old }
    ensures ok { OnOk result (IfSome standing.new.scan (λ c. vec_len c.rows < vec_capacity c.rows)) }
{
    if let Some(scan) = &mut standing.scan {
        scan.rows.reserve(1)?;
    }
    Ok(())
}

/// Keeps the locks of a scan's step that is granted, and takes it. Where a growth is refused, no lock changes, and the scan
/// stays.
pub(crate) fn look<P: Protocol, L: Holdings>(
    protocol: &P,
    locks: &mut L,
    standing: &mut Standing,
    plan: Plan,
    glance: Glance,
) -> Result<Reply, Memory>
    requires locks { AreLocks (P.table protocol.now) (L.locks locks.old) }
    requires modes { ArePlanModes (P.table protocol.now).count plan }
    ensures effect { IfOk result (λ r. (m : Map) → glance.value ≡ value_of_name m glance.name → glance_effect glance m (active_of standing.old) ≡ effect r m (active_of standing.new)) }
    ensures kept { OnOk result (L.locks locks.new ≡ kept (P.table protocol.now) (L.locks locks.old) standing.old.txn (requests plan)) }
    ensures locks { AreLocks (P.table protocol.now) (L.locks locks.new) }
    ensures txn { standing.new.txn ≡ standing.old.txn }
    ensures changes { standing.new.changes ≡ standing.old.changes }
    ensures err_locks { OnErr result (L.locks locks.new ≡ L.locks locks.old) }
    ensures err_standing { OnErr result (active_of standing.new ≡ active_of standing.old) }
{
    let txn = standing.txn;
    match glance.begins {
        Some((lo, hi)) => {
            let rows = Vec::with_capacity(*standing.changes.allocator(), 1)?;
            hold_both(protocol, locks, txn, plan)?;
            let scan = Scan { lo, hi, rows };
            Ok(go_on(standing, scan, glance.name, glance.value))
        }
        None => {
            make_room(standing)?;
            hold_both(protocol, locks, txn, plan)?;
            match standing.scan.take() {
                Some(scan) => Ok(go_on(standing, scan, glance.name, glance.value)),
                None => Ok(Reply::None),
            }
        }
    }
}
