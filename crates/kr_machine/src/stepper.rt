//! What does the steps of a machine.
ghost use Rattle.std.specs.Prelude.{All, map, ◌≡◌, ◌≢◌, ℕ, ◌<◌, ◌≤◌, ◌⊎◌, [], None, Some, IfOk, IfErr, OnOk, OnErr, IsTrue, IsOk, true, false, is_some, ◌&&◌};
ghost use Rattle.kr_model.specs.State.{start, active_of};
ghost use Rattle.kr_model.specs.Step.{step, IsStep, takes_no_memory, refusal_of};
ghost use Rattle.kr_model.specs.Run.{is_granted};
ghost use Rattle.kr_model.specs.declared.Op.TheVariants as op_is;
ghost use Rattle.kr_touch.specs.Parts.{ended_by, op_of_touch};

use crate::at_place::blocked;
use crate::pending::{Pending, PendingPart, Ready};
use crate::{plans, reserve};
use kr_model::{Mode, Name, Op, Pairs, Refusal, Reply, Txn, Txns};
use kr_parts::{Holdings, Memory, Ordered};
use kr_plan::{refusals, room};
use kr_protocol::Protocol;
use kr_touch::parts::{Ending, Part, Touch};
use kr_touch::sights::sight_of;
use kr_touch::{change, replies};
use kr_txn::{Ended, Standing, put_in};
use std::alloc::Global;
use std::marker::Model;

/// A machine without a log: an index under a locking protocol, with the locks of its transactions and how each stands.
///
/// Contracts see its protocol, its state between two steps, and the event of a step that is ready and not yet done.
/// While a step is ready it has taken what the step needs, and the state is seen as without it.
pub struct Stepper<P: Protocol, I: Ordered, L: Holdings> {
    /// The transactions that have ended, with room for each active one and for that of a pending step.
    pub(crate) ended: Ended,
    /// The active transactions, rising by number, without that of a pending step.
    pub(crate) active: Vec<Standing>,
    /// A step that has its memory and is neither done nor given up.
    pub(crate) pending: Option<Pending>,
    /// The locking protocol.
    pub(crate) protocol: P,
    /// The index, with a pin for each change of an active transaction, and one for that of a pending step.
    pub(crate) index: I,
    /// The locks that are held, with those that a pending step keeps.
    pub(crate) locks: L,
}

impl<P: Protocol, I: Ordered, L: Holdings> Model for Stepper<P, I, L> {
    ghost use Rattle.std.specs.Option.{option_map};
    ghost use Rattle.kr_txn.specs.Standings.{entries};
    ghost use Rattle.kr_machine.specs.Pending.{shown, IsMachine};
    ghost use Rattle.kr_machine.specs.Steps.{Steps};

    ghost Value = { Steps P };

    ghost view = { λ m. record { protocol = m.protocol; state = shown m.pending (I.map m.index) (L.locks m.locks) m.ended.numbers (entries m.active.items); pending = option_map (λ p. p.event) m.pending } };

    ghost invariant = { λ m. IsMachine (P.table m.protocol) (I.map m.index) (I.pins m.index) (L.locks m.locks) m.ended m.active m.pending };
}

impl<P: Protocol, I: Ordered, L: Holdings> Stepper<P, I, L> {
    /// A machine with this opening index and no transactions. The index has no pins, and no locks are held. Takes no memory.
    pub fn new(alloc: Global, protocol: P, index: I, locks: L) -> Self
        requires no_pins { (q : ℕ) → I.pins index q ≡ 0 }
        requires no_locks { L.locks locks ≡ [] }
        ensures { result ≡ record { protocol = protocol; state = start (I.map index); pending = None } }
    {
        Stepper {
            ended: Ended::new(alloc),
            active: Vec::new(alloc),
            pending: None,
            protocol,
            index,
            locks,
        }
    }

    /// Where its memory comes from.
    pub fn alloc(&self) -> Global {
        *self.active.allocator()
    }

    /// Whether a transaction is active: some step of it was granted, and it has neither committed nor aborted.
    pub fn active(&self, txn: Txn) -> bool
        requires { self.now.pending ≡ None }
        ensures { result ≡ is_some (active_of self.now.state txn) }
    {
        match kr_txn::position(&self.active, txn) {
            Some(_) => true,
            None => false,
        }
    }

    /// Whether a step takes no memory: it is of an active transaction, and ends it or undoes a change.
    pub fn takes_no_memory(&self, txn: Txn, op: Op) -> bool
        requires { self.now.pending ≡ None }
        ensures { result ≡ (takes_no_memory op && is_some (active_of self.now.state txn)) }
    {
        match Part::of(op) {
            Part::End(_) | Part::Back => self.active(txn),
            Part::Touch(_) => false,
        }
    }

    /// A copy of the pairs of the index, keys rising, or `Memory` where a growth is refused.
    pub fn index(&self) -> Result<Pairs, Memory>
        requires { self.now.pending ≡ None }
        ensures { IfOk result (λ pairs. pairs ≡ self.now.state.map) }
    {
        self.index.copy(*self.active.allocator())
    }

    /// A copy of the locks that are held, each with its mode, by name, the end last, and then by transaction; or `Memory`
    /// where a growth is refused.
    pub fn locks(&self) -> Result<Vec<((Name, Txn), Mode)>, Memory>
        requires { self.now.pending ≡ None }
        ensures locks { IfOk result (λ list. list.items ≡ self.now.state.locks) }
        ensures modes { IfOk result (λ list. All (λ l. l.1 ≤ (P.table self.now.protocol).count) list.items) }
    {
        self.locks.copy(*self.active.allocator())
    }

    /// The numbers of the active transactions, rising, or `Memory` where a growth is refused.
    pub fn unfinished(&self) -> Result<Txns, Memory>
        requires { self.now.pending ≡ None }
        ensures { IfOk result (λ txns. txns ≡ map (λ a. a.0) self.now.state.active) }
    {
        kr_txn::numbers(*self.active.allocator(), &self.active)
    }

    /// Takes all memory of a step, and tells its reply without doing it; at `Err` the step is refused or blocked, and
    /// nothing has changed.
    pub fn ready(&mut self, txn: Txn, op: Op) -> Result<Ready, Reply>
        requires at_rest { self.old.pending ≡ None }
        ensures event { IfOk result (λ r. r.event ≡ record { txn = txn; op = op }) }
        ensures reply { IfOk result (λ r. r.reply ≡ (step (P.table self.old.protocol) self.old.state txn op).0) }
        ensures granted { IfOk result (λ r. is_granted r.reply ≡ true) }
        ensures waits { OnOk result (self.new ≡ record { protocol = self.old.protocol; state = self.old.state; pending = Some (record { txn = txn; op = op }) }) }
        ensures allowed { OnOk result (refusal_of (P.table self.old.protocol) self.old.state txn op ≡ None) }
        ensures refusal { IfErr result (λ r. IsStep (P.table self.old.protocol) self.old.state txn op r self.old.state) }
        ensures not_granted { IfErr result (λ r. is_granted r ≡ false) }
        ensures err { OnErr result (self.new ≡ self.old) }
    {
        let refusal = refusals::refusal(&self.protocol, &self.ended, &self.active, txn, op);
        if let Some(refusal) = refusal {
            return Err(Reply::Refused(refusal));
        }
        match Part::of(op) {
            Part::End(ending) => self.end(txn, ending),
            Part::Back => self.back(txn),
            Part::Touch(touch) => self.attempt(txn, touch),
        }
    }

    /// The same for the end of a transaction, where no refusal applies.
    fn end(&mut self, txn: Txn, ending: Ending) -> Result<Ready, Reply>
        requires at_rest { self.old.pending ≡ None }
        requires allowed { refusal_of (P.table self.old.protocol) self.old.state txn (ended_by ending) ≡ None }
        ensures event { IfOk result (λ r. r.event ≡ record { txn = txn; op = ended_by ending }) }
        ensures reply { IfOk result (λ r. r.reply ≡ (step (P.table self.old.protocol) self.old.state txn (ended_by ending)).0) }
        ensures granted { IfOk result (λ r. is_granted r.reply ≡ true) }
        ensures waits { OnOk result (self.new ≡ record { protocol = self.old.protocol; state = self.old.state; pending = Some (record { txn = txn; op = ended_by ending }) }) }
        ensures refusal { IfErr result (λ r. IsStep (P.table self.old.protocol) self.old.state txn (ended_by ending) r self.old.state) }
        ensures not_granted { IfErr result (λ r. is_granted r ≡ false) }
        ensures err { OnErr result (self.new ≡ self.old) }
    {
        match reserve::reserve_end(
            &self.protocol,
            &self.index,
            &self.locks,
            &mut self.ended,
            &mut self.active,
            txn,
            ending,
        ) {
            Ok(pending) => {
                let event = pending.event;
                self.pending = Some(pending);
                let reply = ending.reply();
                Ok(Ready { event, reply })
            }
            Err(_) => Err(Reply::Refused(Refusal::Memory)),
        }
    }

    /// The same for a change undone, where no refusal applies. Takes no memory.
    fn back(&mut self, txn: Txn) -> Result<Ready, Reply>
        requires at_rest { self.old.pending ≡ None }
        requires allowed { refusal_of (P.table self.old.protocol) self.old.state txn op_is.Back ≡ None }
        ensures event { IfOk result (λ r. r.event ≡ record { txn = txn; op = op_is.Back }) }
        ensures reply { IfOk result (λ r. r.reply ≡ (step (P.table self.old.protocol) self.old.state txn op_is.Back).0) }
        ensures waits { OnOk result (self.new ≡ record { protocol = self.old.protocol; state = self.old.state; pending = Some (record { txn = txn; op = op_is.Back }) }) }
        ensures ok { IsOk result }
    {
        match reserve::reserve_back(
            &self.protocol,
            &self.index,
            &self.locks,
            &self.ended,
            &mut self.active,
            txn,
        ) {
            Some(pending) => {
                let event = pending.event;
                let left = pending.standing.changes.len() - 1;
                self.pending = Some(pending);
                let reply = Reply::Undone(left as u64);
                Ok(Ready { event, reply })
            }
            None => Err(Reply::Refused(Refusal::NothingLeft)),
        }
    }

    /// The same for what requests locks, where no refusal applies.
    fn attempt(&mut self, txn: Txn, touch: Touch) -> Result<Ready, Reply>
        requires at_rest { self.old.pending ≡ None }
        requires allowed { refusal_of (P.table self.old.protocol) self.old.state txn (op_of_touch touch) ≡ None }
        ensures event { IfOk result (λ r. r.event ≡ record { txn = txn; op = op_of_touch touch }) }
        ensures reply { IfOk result (λ r. r.reply ≡ (step (P.table self.old.protocol) self.old.state txn (op_of_touch touch)).0) }
        ensures granted { IfOk result (λ r. is_granted r.reply ≡ true) }
        ensures waits { OnOk result (self.new ≡ record { protocol = self.old.protocol; state = self.old.state; pending = Some (record { txn = txn; op = op_of_touch touch }) }) }
        ensures refusal { IfErr result (λ r. IsStep (P.table self.old.protocol) self.old.state txn (op_of_touch touch) r self.old.state) }
        ensures not_granted { IfErr result (λ r. is_granted r ≡ false) }
        ensures err { OnErr result (self.new ≡ self.old) }
    {
        let scan = room::scan_of(&self.active, txn);
        let Some(sight) = sight_of(&self.index, scan, touch) else {
            return Err(Reply::Refused(Refusal::NoScan));
        };
        let plan = plans::plan(&self.protocol, &self.locks, txn, &sight);
        let alloc = *self.active.allocator();
        if !kr_plan::granted(&self.protocol, &self.locks, txn, &plan) {
            return Err(blocked(alloc, &self.protocol, &self.locks, txn, &plan));
        }
        let reply = match replies::reply_at(alloc, scan, sight.attempt, sight.value) {
            Ok(reply) => reply,
            Err(_) => return Err(Reply::Refused(Refusal::Memory)),
        };
        match reserve::reserve(
            &self.protocol,
            &mut self.index,
            &mut self.locks,
            &mut self.ended,
            &mut self.active,
            txn,
            touch,
            plan,
        ) {
            Ok(pending) => {
                let event = pending.event;
                self.pending = Some(pending);
                Ok(Ready { event, reply })
            }
            Err(_) => Err(Reply::Refused(Refusal::Memory)),
        }
    }

    /// Gives up the step that is ready: the machine is as before it was. Takes no memory.
    pub fn cancel(&mut self, ready: Ready)
        requires { self.old.pending ≡ Some ready.event }
        ensures { self.new ≡ record { protocol = self.old.protocol; state = self.old.state; pending = None } }
    {
        let Ready { event, reply: _ } = ready;
        let Pending {
            event: _,
            standing,
            was_active,
            part,
        } = self.pending.take().unwrap();
        match part {
            PendingPart::End(_) | PendingPart::Back => {}
            PendingPart::Touch(granted) => {
                reserve::give_up(&mut self.index, &mut self.locks, event.txn, granted);
            }
        }
        room::put_down(&mut self.active, event.txn, standing, was_active);
    }

    /// Does the step that is ready, and returns the reply that it was ready with. Takes no memory.
    pub fn finish(&mut self, ready: Ready) -> Reply
        requires { self.old.pending ≡ Some ready.event }
        ensures machine { self.new ≡ record { protocol = self.old.protocol; state = (step (P.table self.old.protocol) self.old.state ready.event.txn ready.event.op).1; pending = None } }
        ensures reply { result ≡ ready.reply }
    {
        let Ready { event, reply } = ready;
        let Pending { standing, part, .. } = self.pending.take().unwrap();
        match part {
            PendingPart::End(ending) => {
                change::end(&mut self.index, standing, ending);
                room::leave(&mut self.locks, &mut self.ended, event.txn);
            }
            PendingPart::Back => {
                let left = change::take_back(&mut self.index, standing);
                put_in(&mut self.active, left);
            }
            PendingPart::Touch(granted) => {
                let done = change::perform(&mut self.index, standing, granted);
                put_in(&mut self.active, done);
            }
        }
        reply
    }
}

/// By hand, so that crates above call it by its contract and don't prove a destructor of their own.
impl<P: Protocol, I: Ordered, L: Holdings> Drop for Stepper<P, I, L> {
    fn drop(self) {
        let Stepper {
            ended: _,
            active: _,
            pending: _,
            protocol: _,
            index: _,
            locks: _,
        } = self;
    }
}
