//! The decision: whether two tables are alike.
ghost use Rattle.std.specs.Prelude.{◌↔◌, IsTrue, IfOk};
ghost use Rattle.kr_alike.specs.Alike.{Alike};
ghost use Rattle.kr_alike.specs.Closed.{HasClosedSet, HasClosedSetFor};
ghost use Rattle.kr_alike.specs.Growth.{Comes};

use crate::coming::Coming;
use crate::found::Found;
use kr_model::Memory;
use kr_protocol::Protocol;
use std::alloc::Global;

/// Whether some set of the modes that two transactions can hold on one name is closed under the requests that come, and both
/// tables offer updates or neither does. The only fault is that a growth was refused.
pub fn alike_where<P: Protocol, Q: Protocol>(
    alloc: Global,
    first: &P,
    second: &Q,
    coming: &Coming,
) -> Result<bool, Memory>
    ensures { IfOk result (λ yes. IsTrue yes ↔ HasClosedSetFor (P.table first.now) (Q.table second.now) (Comes coming.now)) }
{
    if first.updates() != second.updates() {
        return Ok(false);
    }
    let mut found = Found::new(alloc, first, second, coming)?;
    Ok(found.close(first, second, coming))
}

/// Whether two tables are alike by the modes that two transactions can hold on one name: some set of these is closed, and
/// both tables offer updates or neither does. Where it is `true`, each step of every schedule has the same reply under both
/// tables, with the same blockers. Where it is `false`, some schedule may tell the two apart, but none has to. The only fault
/// is that a growth was refused.
pub fn alike<P: Protocol, Q: Protocol>(alloc: Global, first: &P, second: &Q) -> Result<bool, Memory>
    ensures exactly { IfOk result (λ yes. IsTrue yes ↔ HasClosedSet (P.table first.now) (Q.table second.now)) }
    ensures alike { IfOk result (λ yes. IsTrue yes → Alike (P.table first.now) (Q.table second.now)) }
{
    let coming = Coming {
        asked: Vec::new(alloc),
        left: Vec::new(alloc),
    };
    alike_where(alloc, first, second, &coming)
}
