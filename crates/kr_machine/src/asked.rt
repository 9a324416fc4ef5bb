//! What a machine's transactions request and hold.
ghost use Rattle.std.specs.Prelude.{◌≡◌, ◌↔◌, [], None, IfOk, IfSome, IsTrue, false, option_map};
ghost use Rattle.kr_model.specs.Locks.{AreWithin, blockers, own};
ghost use Rattle.kr_model.specs.Plan.{plan_of, requests};
ghost use Rattle.kr_model.specs.State.{standing};
ghost use Rattle.kr_model.specs.Step.{blockers_in, step};
ghost use Rattle.kr_plan.specs.Modes.{ArePlanModes};
ghost use Rattle.kr_touch.specs.Attempts.{attempt_of};

use crate::plans;
use crate::stepper::Stepper;
use kr_model::{Mode, Name, Op, Plan, Txn};
use kr_parts::{Holdings, Memory, Ordered};
use kr_plan::{refusals, room};
use kr_protocol::Protocol;
use kr_touch::parts::Part;
use kr_touch::sights::sight_of;

impl<P: Protocol, I: Ordered, L: Holdings> Stepper<P, I, L> {
    /// What an operation requests now, refused or not; `None` where it ends its transaction or undoes a change, or goes on with
    /// a scan and none is in progress. Takes no memory.
    pub fn plan(&self, txn: Txn, op: Op) -> Option<Plan>
        requires { self.now.pending ≡ None }
        ensures { result ≡ option_map (plan_of (P.table self.now.protocol) self.now.state.map self.now.state.locks txn) (attempt_of self.now.state.map (standing self.now.state txn).scan op) }
    {
        self.requested(txn, op)
    }

    /// The same; what it requests are modes of the protocol.
    fn requested(&self, txn: Txn, op: Op) -> Option<Plan>
        requires { self.now.pending ≡ None }
        ensures plan { result ≡ option_map (plan_of (P.table self.now.protocol) self.now.state.map self.now.state.locks txn) (attempt_of self.now.state.map (standing self.now.state txn).scan op) }
        ensures modes { IfSome result (λ plan. ArePlanModes (P.table self.now.protocol).count plan) }
    {
        let Part::Touch(touch) = Part::of(op) else {
            return None;
        };
        let scan = room::scan_of(&self.active, txn);
        match sight_of(&self.index, scan, touch) {
            Some(sight) => Some(plans::plan(&self.protocol, &self.locks, txn, &sight)),
            None => None,
        }
    }

    /// The transactions that block an operation now, rising: those that a step would name that is blocked. None where it is
    /// refused or granted. `Memory` where a growth is refused.
    pub fn blockers(&self, txn: Txn, op: Op) -> Result<Vec<Txn>, Memory>
        requires { self.now.pending ≡ None }
        ensures { IfOk result (λ us. us.items ≡ blockers_in (step (P.table self.now.protocol) self.now.state txn op).0) }
    {
        let alloc = self.alloc();
        match self.tested(txn, op) {
            Some(plan) => kr_plan::blockers(alloc, &self.protocol, &self.locks, txn, &plan),
            None => Ok(Vec::new(alloc)),
        }
    }

    /// Whether an operation is blocked now. Takes no memory.
    pub fn is_blocked(&self, txn: Txn, op: Op) -> bool
        requires { self.now.pending ≡ None }
        ensures { (result ≡ false) ↔ (blockers_in (step (P.table self.now.protocol) self.now.state txn op).0 ≡ []) }
    {
        match self.tested(txn, op) {
            Some(plan) => !kr_plan::granted(&self.protocol, &self.locks, txn, &plan),
            None => false,
        }
    }

    /// What an operation requests, where it is tested against the locks of others: it is neither refused nor of those that
    /// request nothing. Takes no memory.
    fn tested(&self, txn: Txn, op: Op) -> Option<Plan>
        requires { self.now.pending ≡ None }
        ensures held { AreWithin (P.table self.now.protocol).count self.now.state.locks }
        ensures some { IfSome result (λ plan. blockers_in (step (P.table self.now.protocol) self.now.state txn op).0 ≡ blockers (P.table self.now.protocol) self.now.state.locks txn (requests plan)) }
        ensures modes { IfSome result (λ plan. ArePlanModes (P.table self.now.protocol).count plan) }
        ensures none { result ≡ None → blockers_in (step (P.table self.now.protocol) self.now.state txn op).0 ≡ [] }
    {
        let refusal = refusals::refusal(&self.protocol, &self.ended, &self.active, txn, op);
        if refusal.is_some() {
            return None;
        }
        self.requested(txn, op)
    }

    /// The mode in which a transaction holds a lock on a name, or 0 where it holds none.
    pub fn own(&self, txn: Txn, name: Name) -> Mode
        requires { self.now.pending ≡ None }
        ensures { result ≡ own self.now.state.locks txn name }
    {
        self.locks.own(txn, name)
    }
}
