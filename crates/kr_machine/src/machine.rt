//! A machine: what does the steps, and the log of what they did.
ghost use Rattle.std.specs.Prelude.{All, map, ◌≡◌, ℕ, ◌≤◌, ◌-◌, [], None, Some, IfSome, IfNone, IfOk, IfErr, OnOk, OnErr, IsTrue, true, false, is_some, length, if◌then◌else◌};
ghost use Rattle.kr_model.specs.declared.Op.TheVariants as op_is;
ghost use Rattle.kr_model.specs.declared.Refusal.TheVariants as refusal_is;
ghost use Rattle.kr_model.specs.declared.Reply.TheVariants as reply_is;
ghost use Rattle.kr_model.specs.State.{start, active_of, standing, is_scanning, is_rolling, has_nothing_left};
ghost use Rattle.kr_model.specs.Step.{step, IsStep};
ghost use Rattle.kr_model.specs.WellFormed.{IsState};
ghost use Rattle.kr_model.specs.Log.{no_log, logged};
ghost use Rattle.kr_model.specs.Run.{is_granted};

use crate::noting::{keep, step_key};
use crate::pending::{DueReply, Ready};
use crate::stepper::Stepper;
use kr_model::{Mode, Name, Op, Pairs, Programs, Refusal, Reply, Txn, Txns};
use kr_parts::{Holdings, Memory, Ordered};
use kr_protocol::Protocol;
use kr_touch::parts::{Part, Touch};
use kr_txn::Log;
use std::alloc::Global;
use std::marker::Model;

/// An index under a locking protocol, with the locks of its transactions, how each stands, and what it has done.
///
/// Contracts see its protocol, its state between two steps, the log of the steps so far, and the event of a step that is
/// ready and not yet done. While a step is ready the machine has taken what the step needs, and the state is seen as
/// without it.
pub struct Machine<P: Protocol, I: Ordered, L: Holdings> {
    /// The programs so far, and the committed ones.
    log: Log,
    /// The reply of a step that is ready.
    due: Option<DueReply>,
    /// What does the steps.
    stepper: Stepper<P, I, L>,
}

impl<P: Protocol, I: Ordered, L: Holdings> Model for Machine<P, I, L> {
    ghost use Rattle.kr_machine.specs.Logged.{Seen, IsLogged};

    ghost Value = { Seen P };

    ghost view = { λ m. record { protocol = m.stepper.protocol; state = m.stepper.state; log = m.log.log; pending = m.stepper.pending } };

    ghost invariant = { λ m. IsLogged (P.table m.stepper.protocol) m.stepper.state m.stepper.pending m.log m.due };
}

impl<P: Protocol, I: Ordered, L: Holdings> Machine<P, I, L> {
    /// A machine with this opening index and no transactions. The index has no pins, and no locks are held. Takes no memory.
    pub fn new(alloc: Global, protocol: P, index: I, locks: L) -> Self
        requires no_pins { (q : ℕ) → I.pins index q ≡ 0 }
        requires no_locks { L.locks locks ≡ [] }
        ensures { result ≡ record { protocol = protocol; state = start (I.map index); log = no_log; pending = None } }
    {
        Machine {
            log: Log::new(alloc),
            due: None,
            stepper: Stepper::new(alloc, protocol, index, locks),
        }
    }

    /// Whether a transaction is active: some step of it was granted, and it has neither committed nor aborted.
    pub fn active(&self, txn: Txn) -> bool
        requires { self.now.pending ≡ None }
        ensures active { result ≡ is_some (active_of self.now.state txn) }
        ensures well_formed { IsState (P.table self.now.protocol) self.now.state }
    {
        self.stepper.active(txn)
    }

    /// A copy of the pairs of the index, keys rising, or `Memory` where a growth is refused.
    pub fn index(&self) -> Result<Pairs, Memory>
        requires { self.now.pending ≡ None }
        ensures index { IfOk result (λ pairs. pairs ≡ self.now.state.map) }
        ensures well_formed { IsState (P.table self.now.protocol) self.now.state }
    {
        self.stepper.index()
    }

    /// A copy of the locks that are held, each with its mode, by name, the end last, and then by transaction; or `Memory`
    /// where a growth is refused.
    pub fn locks(&self) -> Result<Vec<((Name, Txn), Mode)>, Memory>
        requires { self.now.pending ≡ None }
        ensures locks { IfOk result (λ list. list.items ≡ self.now.state.locks) }
        ensures modes { IfOk result (λ list. All (λ l. l.1 ≤ (P.table self.now.protocol).count) list.items) }
        ensures well_formed { IsState (P.table self.now.protocol) self.now.state }
    {
        self.stepper.locks()
    }

    /// The numbers of the active transactions, rising, or `Memory` where a growth is refused.
    pub fn unfinished(&self) -> Result<Txns, Memory>
        requires { self.now.pending ≡ None }
        ensures unfinished { IfOk result (λ txns. txns ≡ map (λ a. a.0) self.now.state.active) }
        ensures well_formed { IsState (P.table self.now.protocol) self.now.state }
    {
        self.stepper.unfinished()
    }

    /// A copy of the programs of the transactions that committed, in commit order, or `Memory` where a growth is refused.
    /// Blocked and refused steps aren't in them, nor are the commit and the steps that go on with a scan; a scan has the
    /// rows that it ended with as its answer.
    pub fn programs(&self) -> Result<Programs, Memory>
        ensures { IfOk result (λ programs. programs ≡ self.now.log.committed) }
    {
        self.log.programs()
    }

    /// Takes all memory of a step, and tells its reply without doing it.
    ///
    /// What it gives must be spent by `finish` or `cancel` before the next call. Until then the state is seen as before
    /// the step. It answers `Err` with the reply that `step` would have where the step is refused or blocked; then
    /// nothing has changed, and nothing is to be spent.
    pub fn ready(&mut self, txn: Txn, op: Op) -> Result<Ready, Reply>
        requires at_rest { self.old.pending ≡ None }
        ensures event { IfOk result (λ r. r.event ≡ record { txn = txn; op = op }) }
        ensures reply { IfOk result (λ r. r.reply ≡ (step (P.table self.old.protocol) self.old.state txn op).0) }
        ensures granted { IfOk result (λ r. is_granted r.reply ≡ true) }
        ensures waits { OnOk result (self.new ≡ record { protocol = self.old.protocol; state = self.old.state; log = self.old.log; pending = Some (record { txn = txn; op = op }) }) }
        ensures refusal { IfErr result (λ r. IsStep (P.table self.old.protocol) self.old.state txn op r self.old.state) }
        ensures not_granted { IfErr result (λ r. is_granted r ≡ false) }
        ensures err { OnErr result (self.new ≡ self.old) }
        ensures well_formed { IsState (P.table self.old.protocol) self.old.state }
    {
        let alloc = self.stepper.alloc();
        let is_free = self.stepper.takes_no_memory(txn, op);
        let ready = self.stepper.ready(txn, op)?;
        match keep(alloc, &mut self.log, txn, op, is_free, ready.reply()) {
            Ok(due) => {
                self.due = Some(due);
                Ok(ready)
            }
            Err(_) => {
                self.stepper.cancel(ready);
                Err(Reply::Refused(Refusal::Memory))
            }
        }
    }

    /// Attempts one operation of a transaction.
    ///
    /// A step that is refused or blocked changes nothing:
    ///
    /// - `Refused(Ended)`: the transaction has committed or aborted.
    /// - `Refused(Full)`: 64 transactions are active, and this isn't one of them.
    /// - `Refused(RollingBack)`: a change of the transaction was undone, and the operation takes none back.
    /// - `Refused(Busy)`: a scan of the transaction is in progress, and the operation neither goes on with it nor takes changes
    ///   back.
    /// - `Refused(NoScan)`: no scan is in progress to go on with.
    /// - `Refused(BadRange)`: the lower end of the range to scan is above the upper end.
    /// - `Refused(NoUpdate)`: the operation is an update, and the protocol offers none.
    /// - `Refused(NothingLeft)`: the transaction has no change left to undo.
    /// - `Refused(Memory)`: a growth was refused, and no other refusal applies. So it is for an insert, a delete or an update
    ///   that would change a key which the active transactions have changed 4,294,967,295 times. The commit or abort of an
    ///   active transaction takes no memory, nor does a change undone.
    /// - `Blocked`: these transactions hold locks that conflict with one that the step requests. A transaction that wasn't
    ///   active isn't so after it.
    ///
    /// `Undone` says that the newest change of the transaction was undone, and how many are left. It then rolls back: it
    /// keeps its locks, its scan in progress is dropped, and it takes no other step than these and an abort.
    ///
    /// Any other reply says that the step is done. The transaction is then active and holds the locks that the protocol
    /// requests; or, after a commit or an abort, it has ended and holds none. After an abort each key of a change that was
    /// left is as before the first of the changes left of it, and any other key stays.
    ///
    /// A scan takes one name a step: `Going` says that it read this key and goes on, `Rows` that it ended, with all that it
    /// read. One that reads its upper end ends there.
    pub fn step(&mut self, txn: Txn, op: Op) -> Reply
        requires at_rest { self.old.pending ≡ None }
        ensures step { IsStep (P.table self.old.protocol) self.old.state txn op result self.new.state }
        ensures abort { op ≡ op_is.Abort → IsTrue (is_some (active_of self.old.state txn)) → result ≡ reply_is.Aborted }
        ensures commit { op ≡ op_is.Commit → IsTrue (is_some (active_of self.old.state txn)) →
            result ≡ (if is_rolling self.old.state txn then reply_is.Refused refusal_is.RollingBack else if is_scanning self.old.state txn then reply_is.Refused refusal_is.Busy else reply_is.Committed) }
        ensures back { op ≡ op_is.Back → IsTrue (is_some (active_of self.old.state txn)) →
            result ≡ (if has_nothing_left self.old.state txn then reply_is.Refused refusal_is.NothingLeft else reply_is.Undone (length (standing self.old.state txn).changes - 1)) }
        ensures well_formed { IsState (P.table self.new.protocol) self.new.state }
        ensures log { self.new.log ≡ logged self.old.log (record { txn = txn; op = op }, result) }
        ensures protocol { self.new.protocol ≡ self.old.protocol }
        ensures at_rest { self.new.pending ≡ None }
    {
        match self.step_at_once(txn, op) {
            Some(reply) => reply,
            None => self.step_in_parts(txn, op),
        }
    }

    /// Attempts an operation that reads or changes one key, and notes it. Does nothing where the operation is another, or
    /// where the log gets no room.
    fn step_at_once(&mut self, txn: Txn, op: Op) -> Option<Reply>
        requires at_rest { self.old.pending ≡ None }
        ensures step { IfSome result (λ r. IsStep (P.table self.old.protocol) self.old.state txn op r self.new.state) }
        ensures log { IfSome result (λ r. self.new.log ≡ logged self.old.log (record { txn = txn; op = op }, r)) }
        ensures protocol { self.new.protocol ≡ self.old.protocol }
        ensures at_rest { self.new.pending ≡ None }
        ensures none { IfNone result (self.new ≡ self.old) }
        ensures well_formed { IsState (P.table self.old.protocol) self.old.state }
    {
        if let Part::Touch(Touch::Key(touch)) = Part::of(op) {
            if let Ok(()) = self.log.make_room(txn) {
                return Some(step_key(&mut self.stepper, &mut self.log, txn, touch));
            }
        }
        None
    }

    /// Attempts an operation in two parts.
    fn step_in_parts(&mut self, txn: Txn, op: Op) -> Reply
        requires at_rest { self.old.pending ≡ None }
        ensures step { IsStep (P.table self.old.protocol) self.old.state txn op result self.new.state }
        ensures log { self.new.log ≡ logged self.old.log (record { txn = txn; op = op }, result) }
        ensures protocol { self.new.protocol ≡ self.old.protocol }
        ensures at_rest { self.new.pending ≡ None }
    {
        match self.ready(txn, op) {
            Ok(ready) => self.finish(ready),
            Err(reply) => reply,
        }
    }

    /// Gives up the step that is ready: the machine is as before it was. Takes no memory.
    pub fn cancel(&mut self, ready: Ready)
        requires { self.old.pending ≡ Some ready.event }
        ensures { self.new ≡ record { protocol = self.old.protocol; state = self.old.state; log = self.old.log; pending = None } }
    {
        self.due = None;
        self.stepper.cancel(ready);
    }

    /// Does the step that is ready, and answers its reply. Takes no memory.
    pub fn finish(&mut self, ready: Ready) -> Reply
        requires { self.old.pending ≡ Some ready.event }
        ensures reply { result ≡ (step (P.table self.old.protocol) self.old.state ready.event.txn ready.event.op).0 }
        ensures machine { self.new ≡ (let o = step (P.table self.old.protocol) self.old.state ready.event.txn ready.event.op in
            record { protocol = self.old.protocol; state = o.1; log = logged self.old.log (ready.event, o.0); pending = None }) }
        ensures well_formed { IsState (P.table self.new.protocol) self.new.state }
    {
        let DueReply { noted, told } = self.due.take().unwrap();
        self.log.note(ready.event, noted);
        let _ = self.stepper.finish(ready);
        told
    }
}

/// By hand, so that crates above call it by its contract and don't prove a destructor of their own.
impl<P: Protocol, I: Ordered, L: Holdings> Drop for Machine<P, I, L> {
    fn drop(self) {
        let Machine {
            log: _,
            due: _,
            stepper: _,
        } = self;
    }
}
