//! What one worker does.
ghost use Rattle.std.specs.Prelude.{◌≡◌, ◌<◌, false, Some, None, IfErr, OnErr};
ghost use Rattle.kr_records.specs.Faults.{is_blocked as blocked};
ghost use Rattle.kr_records.specs.Histories.{events_with_replies};
ghost use Rattle.kr_records.specs.Seats.{ToldFault};
ghost use Rattle.kr_threads.specs.Told.{IsCaused};

use crate::calls::call_in_turn;
use crate::fault::{RunFault, failure};
use crate::left_out::settle;
use crate::report::Report;
use kr_engine::{EngineFault, EngineName, Receipt, Seat};
use kr_model::{Op, Txn, is_end};
use kr_protocol::Covered;
use kr_workers::{Dealt, Gate, LeftOut, MOST_CALLS, StepFault, Turn, WhyNotDone};
use std::alloc::AllocError;
use std::marker::Model;
use std::sync::{Mutex, Wait};

/// A worker: its number, from 0, its seat, and how many calls it has made; and the steps that it left out, each told at the
/// end of a prefix of what its seat has seen.
#[derive(Drop)]
pub(crate) struct Worker<'a, P: Covered, K: EngineName> {
    pub number: usize,
    pub seat: Seat<'a, P, K>,
    pub calls: u64,
    /// The place of a step that its transaction did, after which come the recent ones that were left out.
    pub last: Option<usize>,
    /// The steps that it left out since then.
    pub recent: Vec<StepFault>,
    /// The place of the step that its transaction did next.
    pub passed: Option<usize>,
    /// The steps that it left out before.
    pub left_out: Vec<LeftOut>,
}

impl<'a, P: Covered, K: EngineName> Model for Worker<'a, P, K> {
    ghost use Rattle.kr_threads.specs.Told.{Working, IsWorker};

    ghost Value = { Working };

    ghost view = { λ w. record { seat = w.seat; last = w.last; recent = w.recent.items; passed = w.passed; left_out = w.left_out.items } };

    ghost invariant = { λ w. IsWorker K.table K.opening (record { seat = w.seat; last = w.last; recent = w.recent.items; passed = w.passed; left_out = w.left_out.items }) };
}

/// What became of a step.
#[derive(Clone, Copy)]
enum Outcome {
    Done,
    Refused,
    Stuck,
}

/// Does the transactions that are dealt to a worker, one after another, and leaves. It gives up where a growth is refused,
/// and where the engine answers anything but a receipt, a refusal or a deadlock.
pub(crate) fn work<P: Covered, K: EngineName, G: Gate, R: Wait>(
    rt: &R,
    dealt: &Dealt,
    workers: usize,
    gate: &G,
    turns: &Mutex<()>,
    worker: Worker<'_, P, K>,
) -> Report<K>
    requires { 0 < workers }
{
    let mut worker = worker;
    let mut turn = Turn::new(turns);
    let mut failed = None;
    let txns = dealt.txns();
    for i in 0..txns.len() {
        if i % workers != worker.number {
            continue;
        }
        let txn = txns[i];
        if let Err(fault) = worker.transact(rt, gate, &mut turn, txn, dealt.ops(txn)) {
            failed = Some(fault);
            break;
        }
    }
    let Worker {
        number: _,
        seat,
        calls: _,
        last: _,
        recent: _,
        passed: _,
        left_out,
    } = worker;
    Report {
        share: seat.leave(rt),
        left_out,
        failed,
    }
}

impl<P: Covered, K: EngineName> Worker<'_, P, K> {
    /// Does the steps of one transaction in order, and aborts it where it is active after them, also where the worker gives
    /// up: others would wait for its locks.
    fn transact<G: Gate, R: Wait>(
        &mut self,
        rt: &R,
        gate: &G,
        turn: &mut Turn<'_>,
        txn: Txn,
        ops: &[Op],
    ) -> Result<(), RunFault> {
        if !gate.may_wait() {
            turn.take(rt);
        }
        if let Err(fault) = self.seat.begin(rt, txn) {
            return Err(failure(&fault));
        }
        let (active, done) = self.do_steps(rt, gate, turn, txn, ops);
        let closed = if active {
            self.abort(rt, gate, turn)
        } else {
            Ok(())
        };
        done?;
        closed?;
        self.end()
    }

    /// Aborts the transaction that the seat speaks for.
    fn abort<G: Gate, R: Wait>(
        &mut self,
        rt: &R,
        gate: &G,
        turn: &mut Turn<'_>,
    ) -> Result<(), RunFault> {
        let settled = self.settle();
        match self.call(rt, gate, turn, Op::Abort) {
            Ok(_) => settled,
            Err(fault) => Err(failure(&fault)),
        }
    }

    /// Does the steps of the transaction that the seat speaks for. A refused step is noted and left out; a deadlock is
    /// noted, and the rest left out. Answers whether the transaction is active after them, and why the worker gives up, if
    /// it does.
    fn do_steps<G: Gate, R: Wait>(
        &mut self,
        rt: &R,
        gate: &G,
        turn: &mut Turn<'_>,
        txn: Txn,
        ops: &[Op],
    ) -> (bool, Result<(), RunFault>)
        requires { self.old.seat.speaks ≡ Some txn }
    {
        let mut active = false;
        for i in 0..ops.len() {
            match self.do_step(rt, gate, turn, txn, i as u64 + 1, ops[i]) {
                Ok(Outcome::Done) => active = !is_end(ops[i]),
                Ok(Outcome::Refused) => {}
                Ok(Outcome::Stuck) => return (active, Ok(())),
                Err(fault) => return (active, Err(fault)),
            }
        }
        (active, Ok(()))
    }

    /// One step of the transaction that the seat speaks for, which is noted where it is left out.
    #[tactic(auto, using(crate::proofs::Told::told_refused, crate::proofs::Told::told_deadlock))]
    fn do_step<G: Gate, R: Wait>(
        &mut self,
        rt: &R,
        gate: &G,
        turn: &mut Turn<'_>,
        txn: Txn,
        step: u64,
        op: Op,
    ) -> Result<Outcome, RunFault>
        requires { self.old.seat.speaks ≡ Some txn }
        ensures { self.new.seat.speaks ≡ Some txn }
    {
        self.settle()?;
        match self.call(rt, gate, turn, op) {
            Ok(_) => Ok(Outcome::Done),
            Err(EngineFault::Deadlock(cycle)) => {
                let cause = WhyNotDone::Deadlock(cycle);
                self.note(StepFault {
                    txn,
                    step,
                    op,
                    cause,
                })?;
                Ok(Outcome::Stuck)
            }
            Err(EngineFault::Refused(reply)) => {
                let cause = WhyNotDone::Refused(reply);
                self.note(StepFault {
                    txn,
                    step,
                    op,
                    cause,
                })?;
                Ok(Outcome::Refused)
            }
            Err(fault) => Err(failure(&fault)),
        }
    }

    /// Notes a step that is left out.
    fn note(&mut self, fault: StepFault) -> Result<(), AllocError>
        requires passed { self.old.passed ≡ None }
        requires caused { IsCaused K.table K.opening (events_with_replies self.old.seat.view) fault }
        ensures { self.new.seat ≡ self.old.seat }
    {
        self.recent.push(fault)?;
        Ok(())
    }

    /// Where the transaction did a step after the recent ones that were left out, these stand before it, and the next ones
    /// come after it.
    fn settle(&mut self) -> Result<(), RunFault>
        ensures seat { self.new.seat ≡ self.old.seat }
        ensures passed { self.new.passed ≡ None }
    {
        if self.passed.is_none() {
            return Ok(());
        }
        let settled = settle(&mut self.recent, &mut self.left_out, self.last, self.passed);
        self.last = self.passed;
        self.passed = None;
        settled?;
        Ok(())
    }

    /// The transaction does no further step.
    fn end(&mut self) -> Result<(), RunFault> {
        self.settle()?;
        let settled = settle(&mut self.recent, &mut self.left_out, self.last, None);
        self.last = None;
        settled?;
        Ok(())
    }

    /// One call of the seat between its gates. Where the gates may wait, it isn't in the worker's turn; else it is the next of
    /// its turn, if it has or gets one, which ends after some calls.
    fn call<G: Gate, R: Wait>(
        &mut self,
        rt: &R,
        gate: &G,
        turn: &mut Turn<'_>,
        op: Op,
    ) -> Result<Receipt, EngineFault>
        requires { self.old.passed ≡ None }
        ensures speaks { self.new.seat.speaks ≡ self.old.seat.speaks }
        ensures passed { OnErr result (self.new.passed ≡ None) }
        ensures turn { turn.new < MOST_CALLS }
        ensures lowers { 0 < turn.old → turn.new < turn.old }
        ensures fault { IfErr result (λ f. ToldFault K.table K.opening self.old.seat self.new.seat op f) }
        ensures free { IfErr result (λ f. blocked f ≡ false) }
    {
        if gate.may_wait() {
            turn.give();
        } else {
            turn.retake(rt);
        }
        gate.before(rt, self.number, self.calls);
        let result = call_in_turn(rt, &mut self.seat, turn, op);
        gate.after(rt, self.number, self.calls);
        self.calls = self.calls.saturating_add(1);
        if let Ok(receipt) = &result {
            self.passed = Some(receipt.place);
        }
        result
    }
}
