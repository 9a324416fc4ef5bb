//! What an attempt requests, by what it finds in the index.
ghost use Rattle.std.specs.Prelude.{◌≡◌};
ghost use Rattle.kr_model.specs.Locks.{AreWithin};
ghost use Rattle.kr_model.specs.Plan.{access, plan_by};
ghost use Rattle.kr_plan.specs.Modes.{ArePlanModes};

use kr_model::{Plan, Txn};
use kr_parts::Holdings;
use kr_protocol::Protocol;
use kr_touch::sights::Sight;

/// What the attempt requests under these locks.
#[inline(always)]
pub(crate) fn plan<P: Protocol, L: Holdings>(
    protocol: &P,
    locks: &L,
    txn: Txn,
    sight: &Sight,
) -> Plan
    requires { AreWithin (P.table protocol.now).count (L.locks locks.now) }
    ensures plan { result ≡ plan_by (P.table protocol.now) (L.locks locks.now) txn (access sight.now.row sight.now.current sight.now.next) }
    ensures modes { ArePlanModes (P.table protocol.now).count result }
{
    kr_plan::plan_at(protocol, locks, txn, sight.row, sight.current, sight.next)
}
