//! One call of a seat, in its worker's turn or out of it.
ghost use Rattle.std.specs.Prelude.{◌≡◌, ◌≤◌, ◌-◌, false, IfOk, IfErr, OnOk};
ghost use mathlib.Core.List.{IsPrefix};
ghost use Rattle.kr_records.specs.Faults.{is_blocked as blocked};
ghost use Rattle.kr_records.specs.Seats.{ToldFault};
ghost use Rattle.kr_threads.specs.Told.{IsNext};

use kr_engine::{EngineFault, EngineName, Receipt, Seat};
use kr_model::{Op, Reply};
use kr_protocol::Covered;
use kr_workers::Turn;
use std::sync::Wait;

/// A call of a seat. In the worker's turn it is attempted, and where the step is blocked the turn is given up for the wait.
#[tactic(auto, using(crate::proofs::Told::told_at_once, crate::proofs::Told::next_shown))]
pub(crate) fn call_in_turn<P: Covered, K: EngineName, R: Wait>(
    rt: &R,
    seat: &mut Seat<'_, P, K>,
    turn: &mut Turn<'_>,
    op: Op,
) -> Result<Receipt, EngineFault>
    ensures speaks { seat.new.speaks ≡ seat.old.speaks }
    ensures begins { IsPrefix seat.old.view seat.new.view }
    ensures done { IfOk result (λ r. IsNext seat.old.view seat.new.view r.place) }
    ensures fault { IfErr result (λ f. ToldFault K.table K.opening seat.old seat.new op f) }
    ensures free { IfErr result (λ f. blocked f ≡ false) }
    ensures turn { turn.new ≤ turn.old - 1 }
{
    if !turn.is_own() {
        return seat.call(rt, op);
    }
    turn.count();
    let result = seat.try_call(rt, op);
    if !is_blocked(&result) {
        return result;
    }
    turn.give();
    seat.call(rt, op)
}

/// Whether the answer is that the step is blocked.
fn is_blocked(answer: &Result<Receipt, EngineFault>) -> bool
    ensures ok { OnOk answer.now (result ≡ false) }
    ensures err { IfErr answer.now (λ f. result ≡ blocked f) }
{
    matches!(answer, Err(EngineFault::Refused(Reply::Blocked(_))))
}
