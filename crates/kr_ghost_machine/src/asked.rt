//! What an operation requests, what is held, and whose locks conflict.
ghost use Rattle.std.specs.Prelude.{◌≡◌, ◌≤◌, [], ◌∷◌, IfNone, IfOk, IfSome};
ghost use Rattle.kr_model.specs.Locks.{blockers, own};
ghost use Rattle.kr_model.specs.Plan.{requests};
ghost use Rattle.kr_model.specs.declared.Span.TheVariants as span;
ghost use Rattle.kr_plan.specs.Modes.{ArePlanModes};
ghost use Rattle.kr_ghost.specs.State.{among, name_from, stand};
ghost use Rattle.kr_ghost.specs.Step.{keyed_requests, look_requests};
ghost use Rattle.kr_ghost_machine.specs.Plans.{requests_of};

use crate::requests::{insert, keyed, look};
use crate::sights::range_left;
use crate::stepper::GhostStepper;
use kr_ghost_protocol::GhostProtocol;
use kr_locks::Holdings;
use kr_model::{Memory, Mode, Name, Op, Plan, Row, Txn};

impl<P: GhostProtocol, L: Holdings> GhostStepper<P, L> {
    /// The protocol.
    pub fn protocol(&self) -> &P
        ensures { result.now ≡ self.now.protocol }
    {
        &self.protocol
    }

    /// What an operation requests now, refused or not; `None` where it ends its transaction or undoes a change, or goes on with
    /// a scan and none is in progress. Takes no memory.
    pub fn plan(&self, txn: Txn, op: Op) -> Option<Plan>
        ensures some { IfSome result (λ plan. requests plan ≡ requests_of (P.ghosts self.now.protocol) self.now.state txn op) }
        ensures none { IfNone result (requests_of (P.ghosts self.now.protocol) self.now.state txn op ≡ []) }
        ensures modes { IfSome result (λ plan. ArePlanModes (P.ghosts self.now.protocol).table.count plan) }
    {
        match op {
            Op::Fetch(key) => Some(self.keyed(txn, Row::FetchHit, key)),
            Op::Delete(key) => Some(self.keyed(txn, Row::Delete, key)),
            Op::Update(key, _) => Some(self.keyed(txn, Row::Update, key)),
            Op::Insert(key, _) => Some(insert(
                &self.protocol,
                &self.index,
                &self.locks,
                txn,
                key,
                self.index.look(key),
            )),
            Op::Scan(lo, hi) => Some(self.look(txn, lo, hi)),
            Op::Go => match range_left(&self.active, txn) {
                Some((lo, hi)) => Some(self.look(txn, lo, hi)),
                None => None,
            },
            Op::Commit | Op::Abort | Op::Back => None,
        }
    }

    /// What a fetch, a delete or an update of a key requests.
    fn keyed(&self, txn: Txn, row: Row, key: u64) -> Plan
        ensures requests { requests result ≡ keyed_requests (P.ghosts self.now.protocol) row key (name_from self.now.state key) (stand self.now.state key) }
        ensures modes { ArePlanModes (P.ghosts self.now.protocol).table.count result }
    {
        keyed(
            &self.protocol,
            &self.locks,
            txn,
            row,
            key,
            self.index.look(key),
        )
    }

    /// What a scan's step requests, where the scan has the range from `lo` to `hi` left.
    fn look(&self, txn: Txn, lo: u64, hi: u64) -> Plan
        ensures requests { requests result ≡ look_requests (P.ghosts self.now.protocol) (name_from self.now.state lo) hi }
        ensures modes { ArePlanModes (P.ghosts self.now.protocol).table.count result }
    {
        look(&self.protocol, &self.locks, txn, self.name_from(lo), hi)
    }

    /// The least name not below `from`: a present key, a ghost, or the end.
    pub fn name_from(&self, from: u64) -> Name
        ensures { result ≡ name_from self.now.state from }
    {
        self.index.name_from(from).0
    }

    /// Whether a key is a ghost.
    pub fn is_ghost(&self, key: u64) -> bool
        ensures { result ≡ among self.now.state.ghosts key }
    {
        self.index.look(key).is_ghost
    }

    /// The mode in which a transaction holds a lock on a name, or 0 where it holds none.
    pub fn own(&self, txn: Txn, name: Name) -> Mode
        ensures own { result ≡ own self.now.state.state.locks txn name }
        ensures mode { result ≤ (P.ghosts self.now.protocol).table.count }
    {
        self.locks.own(txn, name)
    }

    /// The transactions whose locks conflict with a request of a transaction for a mode on a name: rising, each once. The only
    /// error is that a growth was refused.
    pub fn blockers(&self, txn: Txn, name: Name, mode: Mode) -> Result<Vec<Txn>, Memory>
        requires { mode ≤ (P.table self.now.protocol).count }
        ensures { IfOk result (λ list. list.items ≡ blockers (P.ghosts self.now.protocol).table self.now.state.state.locks txn
            ((name, mode, span.Commit) ∷ [])) }
    {
        let alloc = *self.active.allocator();
        self.locks.blockers(alloc, &self.protocol, txn, name, mode)
    }
}
