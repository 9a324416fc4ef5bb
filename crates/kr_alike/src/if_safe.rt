//! The decision: whether a table is alike to a safe one.
ghost use Rattle.std.specs.Prelude.{IsTrue, IfOk, ◌↔◌};
ghost use Rattle.kr_alike.specs.Coming.{HasClosedSet, AlikeOnMaps};

use crate::alone::alone;
use crate::asked::all_asked;
use crate::coming::Coming;
use crate::decision::alike_where;
use crate::left::all_left;
use kr_model::Memory;
use kr_protocol::{Protocol, SafeProtocol};
use std::alloc::Global;

/// Whether a table is alike to a safe one, by the modes that two transactions can hold on one name: some set of these is
/// closed under the requests that may come under the safe table, and both offer updates or neither does. Where it is `true`,
/// each step of every schedule has the same reply under both tables, with the same blockers. Where it is `false`, some schedule
/// may tell the two apart, but none has to. The only fault is that a growth was refused.
pub fn alike_if_safe<P: SafeProtocol, Q: Protocol>(
    alloc: Global,
    first: &P,
    second: &Q,
) -> Result<bool, Memory>
    ensures exactly { IfOk result (λ yes. IsTrue yes ↔ HasClosedSet (P.table first.now) (Q.table second.now)) }
    ensures alike { IfOk result (λ yes. IsTrue yes → AlikeOnMaps (P.table first.now) (Q.table second.now)) }
{
    let states = alone(alloc, first)?;
    let asked = all_asked(alloc, first, &states)?;
    let left = all_left(alloc, first, &states)?;
    alike_where(alloc, first, second, &Coming { asked, left })
}
