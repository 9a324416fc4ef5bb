//! What lies under the lock.
ghost use Rattle.std.specs.Prelude.{◌≡◌, ◌+◌, ◌∷◌, ◌++◌, [], false, true, IfSome};
ghost use Rattle.kr_model.specs.Map.{IsMap};
ghost use Rattle.kr_workers.specs.Waits.{event};
ghost use Rattle.kr_workers.specs.Counts.{count_in};
ghost use Rattle.kr_ghost_threads.specs.Told.{IsCause, CountsOne, in_the_way};

use crate::Made;
use crate::name::GhostRunName;
use kr_deadlock::{Waiting, find_cycle};
use kr_ghost::Move;
use kr_ghost_index::GhostIndex;
use kr_ghost_machine::GhostStepper;
use kr_ghost_protocol::GhostProtocol;
use kr_ghost_run::Answer;
use kr_locks::Buckets;
use kr_model::{Event, Memory, Op, Reply, Txn, Txns};
use kr_workers::{StepFault, WhyNotDone};
use std::alloc::Global;
use std::collections::HashMap;
use std::marker::{Model, PhantomData};

/// What became of a step.
#[derive(Clone, Copy, PartialEq, Eq)]
pub(crate) enum Outcome {
    /// It was granted, and is in the history.
    Done,
    /// It was refused, and is left out.
    Refused,
    /// It would wait for its own transaction, and is left out.
    Stuck,
    /// Others block it.
    Blocked,
    /// Memory was refused, to this step or before: no step is done any more.
    Failed,
}

/// All that lies under the lock: the machine, the moves that were made, the steps that were left out, and who is blocked now.
///
/// The history is a run that ends in the machine's state, and each fault was told at the end of a prefix of it, for as long as no
/// memory was refused.
#[derive(Drop)]
pub(crate) struct Kernel<P: GhostProtocol, K: GhostRunName> {
    pub alloc: Global,
    pub stepper: GhostStepper<P, Buckets>,
    pub history: Vec<Made>,
    pub faults: Vec<StepFault>,
    /// How many of its steps each transaction has come to: those that were done, and those that were left out.
    pub come: HashMap<Txn, u64>,
    /// The steps that are blocked in this state, each with those that block it; none once the state has changed.
    pub waiting: Vec<Waiting>,
    pub failed: bool,
    pub of: PhantomData<K>,
}

impl<P: GhostProtocol, K: GhostRunName> Model for Kernel<P, K> {
    ghost use Rattle.std.specs.Prelude.{◌≡◌, false};
    ghost use Rattle.kr_workers.specs.Counts.{count_in};
    ghost use Rattle.kr_ghost_threads.specs.Told.{Kept, IsKernel};

    ghost Value = { Kept P };

    ghost view = { λ k. record { steps = k.stepper; failed = k.failed } };

    ghost invariant = { λ k. k.failed ≡ false → IsKernel K.table K.opening (P.ghosts k.stepper.protocol) k.stepper.state k.history.items k.faults.items (count_in k.come) k.waiting.items };
}

impl<P: GhostProtocol, K: GhostRunName> Kernel<P, K> {
    /// Over an index of these pairs, with no ghosts and no history.
    pub fn new(alloc: Global, protocol: P, opening: &[(u64, u64)]) -> Result<Kernel<P, K>, Memory>
        requires table { P.ghosts protocol ≡ K.table }
        requires opening { opening.now ≡ K.opening }
        requires is_map { IsMap opening.now }
    {
        let index = GhostIndex::from_pairs(alloc, opening)?;
        Ok(Kernel {
            alloc,
            stepper: GhostStepper::new(alloc, protocol, index, Buckets::new(alloc)),
            history: Vec::new(alloc),
            faults: Vec::new(alloc),
            come: HashMap::new(alloc),
            waiting: Vec::new(alloc),
            failed: false,
            of: PhantomData,
        })
    }

    /// Attempts a transaction's next step. One that is granted comes into the history; one that is refused, or that closes a cycle
    /// of waiting transactions, is left out, and why is noted.
    pub fn attempt(&mut self, txn: Txn, op: Op) -> Outcome {
        if self.failed {
            return Outcome::Failed;
        }
        let Ok(reply) = self.stepper.step(txn, op) else {
            self.failed = true;
            return Outcome::Failed;
        };
        match reply {
            Reply::Blocked(blockers) => self.wait(txn, op, blockers),
            Reply::Refused(why) => {
                let cause = WhyNotDone::Refused(Reply::Refused(why));
                self.leave_out(txn, op, cause, Outcome::Refused)
            }
            reply => {
                let made = Made {
                    next: Move::Attempt(Event { txn, op }),
                    answer: Answer::Step(reply),
                };
                self.waiting.clear();
                self.failed = !add_done(&mut self.come, &mut self.history, txn, made);
                self.unless_failed(Outcome::Done)
            }
        }
    }

    /// What became of a step, unless memory was refused.
    fn unless_failed(&self, outcome: Outcome) -> Outcome {
        if self.failed {
            Outcome::Failed
        } else {
            outcome
        }
    }

    /// Notes that others block a step now; or leaves it out, where these wait for one another and for its transaction.
    fn wait(&mut self, txn: Txn, op: Op, blockers: Txns) -> Outcome
        requires running { self.old.failed ≡ false }
        requires blocked { blockers ≡ in_the_way (P.ghosts self.old.steps.protocol) self.old.steps.state (event txn op) }
    {
        let own = Waiting {
            txn,
            blockers: blockers.into_vec(),
        };
        if !add_first(&mut self.waiting, own) {
            self.failed = true;
            return Outcome::Failed;
        }
        match find_cycle(self.alloc, &self.waiting, txn) {
            Ok(None) => Outcome::Blocked,
            Ok(Some(cycle)) => {
                // It waits no more, so that none of the others is told of the same cycle.
                self.waiting.clear();
                let cause = WhyNotDone::Deadlock(Txns::from_vec(cycle));
                self.leave_out(txn, op, cause, Outcome::Stuck)
            }
            Err(_) => {
                self.failed = true;
                Outcome::Failed
            }
        }
    }

    /// Notes a step that is left out.
    fn leave_out(&mut self, txn: Txn, op: Op, cause: WhyNotDone, outcome: Outcome) -> Outcome
        requires { IsCause (P.ghosts self.old.steps.protocol) self.old.steps.state txn op cause }
    {
        if !add_fault(&mut self.come, &mut self.faults, txn, op, cause) {
            self.failed = true;
        }
        self.unless_failed(outcome)
    }

    /// Purges a key, if it is a ghost that may be purged, and answers whether anything has changed. Then the purge comes into the
    /// history.
    pub fn purge(&mut self, key: u64) -> bool {
        if self.failed {
            return false;
        }
        match self.stepper.purge(key) {
            Ok(true) => {
                let made = Made {
                    next: Move::Purge(key),
                    answer: Answer::Purge(true),
                };
                self.waiting.clear();
                self.failed = !add(&mut self.history, made);
                true
            }
            Ok(false) => false,
            Err(_) => {
                self.failed = true;
                true
            }
        }
    }
}

/// Adds an item at the end of a list, and answers whether there was memory for it.
fn add<T: Drop>(list: &mut Vec<T>, item: T) -> bool
    ensures { result ≡ true → list.new.items ≡ list.old.items ++ item ∷ [] }
{
    list.push(item).is_ok()
}

/// Adds an item at the beginning of a list, and answers whether there was memory for it.
fn add_first<T: Drop>(list: &mut Vec<T>, item: T) -> bool
    ensures { result ≡ true → list.new.items ≡ item ∷ list.old.items }
{
    list.insert(0, item).is_ok()
}

/// Adds a step that was done at the end of a history, counts it, and answers whether there was memory for it.
fn add_done(come: &mut HashMap<Txn, u64>, history: &mut Vec<Made>, txn: Txn, made: Made) -> bool
    ensures history { result ≡ true → history.new.items ≡ history.old.items ++ made ∷ [] }
    ensures counts { result ≡ true → CountsOne txn (count_in come.old) (count_in come.new) }
{
    if count(come, txn).is_none() {
        return false;
    }
    add(history, made)
}

/// Adds a step that is left out to the faults, counts it, and answers whether there was memory for it.
fn add_fault(
    come: &mut HashMap<Txn, u64>,
    faults: &mut Vec<StepFault>,
    txn: Txn,
    op: Op,
    cause: WhyNotDone,
) -> bool
    ensures fault { result ≡ true → faults.new.items ≡ faults.old.items ++ record { txn = txn; step = count_in come.old txn + 1; op = op; cause = cause } ∷ [] }
    ensures counts { result ≡ true → CountsOne txn (count_in come.old) (count_in come.new) }
{
    let Some(step) = count(come, txn) else {
        return false;
    };
    let fault = StepFault {
        txn,
        step,
        op,
        cause,
    };
    add(faults, fault)
}

/// Counts a step to which its transaction has come, and answers its number among the transaction's own, from 1; or nothing where
/// there was no memory for it.
fn count(come: &mut HashMap<Txn, u64>, txn: Txn) -> Option<u64>
    ensures number { IfSome result (λ n. n ≡ count_in come.old txn + 1) }
    ensures counts { IfSome result (λ n. CountsOne txn (count_in come.old) (count_in come.new)) }
{
    let number = match come.get(&txn) {
        Some(number) => number.checked_add(1)?,
        None => 1,
    };
    match come.insert(txn, number) {
        Ok(_) => Some(number),
        Err(_) => None,
    }
}
