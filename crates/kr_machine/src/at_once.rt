//! Steps at once, of which nothing is noted.
ghost use Rattle.std.specs.Prelude.{◌≡◌, true, None, Ok, Err, IfOk, IfErr, OnOk, OnErr};
ghost use Rattle.std.specs.Fn.{FnOnceReturnsAt};
ghost use Rattle.kr_model.specs.Run.{is_granted};
ghost use Rattle.kr_model.specs.Step.{step, IsStep};
ghost use Rattle.kr_machine.specs.Accepted.{TellsWhy};

use crate::accepted::NotDone;
use crate::at_place::touch_at;
use crate::stepper::Stepper;
use kr_model::{Op, Reply, Txn};
use kr_parts::{Holdings, Ordered};
use kr_protocol::Protocol;
use kr_touch::parts::Part;
use kr_txn::position;
use std::convert::Infallible;

impl<P: Protocol, I: Ordered, L: Holdings> Stepper<P, I, L> {
    /// Attempts one operation of a transaction, as `Machine::step` does, and notes nothing of it.
    pub fn step(&mut self, txn: Txn, op: Op) -> Reply
        requires at_rest { self.old.pending ≡ None }
        ensures step { IsStep (P.table self.old.protocol) self.old.state txn op result self.new.state }
        ensures protocol { self.new.protocol ≡ self.old.protocol }
        ensures at_rest { self.new.pending ≡ None }
    {
        match self.step_if(txn, op, |_reply: &Reply| -> Result<(), Infallible> {
            Ok(())
        }) {
            Ok((reply, ())) => reply,
            Err(NotDone::NotGranted(reply)) => reply,
        }
    }

    /// Attempts one operation of a transaction, and does it if `accept` takes its reply.
    ///
    /// `accept` is asked where the step is granted and has all its memory, and nothing is done yet. What it answers is
    /// handed on beside the reply where it takes it, and as `Declined` where it doesn't. A step that is refused or blocked
    /// is `NotGranted`, and `accept` isn't asked. At an error nothing has changed.
    pub fn step_if<T, E, F: FnOnce(&Reply) -> Result<T, E>>(
        &mut self,
        txn: Txn,
        op: Op,
        accept: F,
    ) -> Result<(Reply, T), NotDone<E>>
        requires at_rest { self.old.pending ≡ None }
        requires callable { F.IsAlwaysCallable accept }
        ensures reply { IfOk result (λ d. (d.0 ≡ (step (P.table self.old.protocol) self.old.state txn op).0) × (is_granted d.0 ≡ true)) }
        ensures state { OnOk result (self.new.state ≡ (step (P.table self.old.protocol) self.old.state txn op).1) }
        ensures accepted { IfOk result (λ d. FnOnceReturnsAt F.FnOnce accept d.0 (Ok d.1)) }
        ensures not_done { IfErr result (λ n. TellsWhy (P.table self.old.protocol) self.old.state txn op (λ e. FnOnceReturnsAt F.FnOnce accept (step (P.table self.old.protocol) self.old.state txn op).0 (Err e)) n) }
        ensures err { OnErr result (self.new ≡ self.old) }
        ensures protocol { self.new.protocol ≡ self.old.protocol }
        ensures at_rest { self.new.pending ≡ None }
    {
        if let Part::Touch(touch) = Part::of(op) {
            if let Some(place) = position(&self.active, txn) {
                return touch_at(
                    &self.protocol,
                    &mut self.index,
                    &mut self.locks,
                    &self.ended,
                    &mut self.active,
                    place,
                    txn,
                    touch,
                    accept,
                );
            }
        }
        self.step_in_parts(txn, op, accept)
    }

    /// The same in two parts, as a step that ends a transaction, or the first of one, is done.
    fn step_in_parts<T, E, F: FnOnce(&Reply) -> Result<T, E>>(
        &mut self,
        txn: Txn,
        op: Op,
        accept: F,
    ) -> Result<(Reply, T), NotDone<E>>
        requires at_rest { self.old.pending ≡ None }
        requires callable { F.IsAlwaysCallable accept }
        ensures reply { IfOk result (λ d. (d.0 ≡ (step (P.table self.old.protocol) self.old.state txn op).0) × (is_granted d.0 ≡ true)) }
        ensures state { OnOk result (self.new.state ≡ (step (P.table self.old.protocol) self.old.state txn op).1) }
        ensures accepted { IfOk result (λ d. FnOnceReturnsAt F.FnOnce accept d.0 (Ok d.1)) }
        ensures not_done { IfErr result (λ n. TellsWhy (P.table self.old.protocol) self.old.state txn op (λ e. FnOnceReturnsAt F.FnOnce accept (step (P.table self.old.protocol) self.old.state txn op).0 (Err e)) n) }
        ensures err { OnErr result (self.new ≡ self.old) }
        ensures protocol { self.new.protocol ≡ self.old.protocol }
        ensures at_rest { self.new.pending ≡ None }
    {
        let ready = match self.ready(txn, op) {
            Ok(ready) => ready,
            Err(reply) => return Err(NotDone::NotGranted(reply)),
        };
        match accept(ready.reply()) {
            Ok(accepted) => Ok((self.finish(ready), accepted)),
            Err(declined) => {
                self.cancel(ready);
                Err(NotDone::Declined(declined))
            }
        }
    }
}
