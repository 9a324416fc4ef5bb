//! What a blocked step requested, and whose locks conflicted with it.
ghost use Rattle.std.specs.Prelude.{◌≤◌, IfOk, OnOk};
ghost use Rattle.kr_model.specs.Map.{IsMap};
ghost use Rattle.kr_model.specs.Locks.{AreWithin};
ghost use Rattle.kr_plan.specs.Modes.{SideIsMode};

use kr_index::{Ordered, Sorted};
use kr_locks::{Holdings, List, Memory};
use kr_model::{Event, Mode, Name, Op, Reply, Span, Step, Txn};
use kr_protocol::Protocol;
use std::alloc::Global;
use std::collections::BTreeMap;

/// A lock that a step requested, and the transactions whose locks conflicted with it.
#[derive(Drop)]
pub struct Asked {
    pub name: Name,
    pub mode: Mode,
    pub span: Span,
    pub blockers: Vec<Txn>,
}

/// How far a scan is.
#[derive(Clone, Copy)]
struct Scan {
    /// The key that it read last.
    read: u64,
    /// The upper end of its range.
    hi: u64,
}

/// The scans that are in progress, as the replies told them.
#[derive(Drop)]
pub struct Scans {
    scans: BTreeMap<Txn, Scan>,
}

impl Scans {
    /// No scans.
    pub fn new(alloc: Global) -> Scans {
        Scans {
            scans: BTreeMap::new(alloc),
        }
    }

    /// Takes note of a step and its reply.
    pub fn note(&mut self, event: Event, reply: &Reply) -> Result<(), Memory> {
        if let Reply::Going(key) = reply {
            let hi = match (event.op, self.scans.get(&event.txn)) {
                (Op::Scan(_, hi), _) => hi,
                (_, Some(scan)) => scan.hi,
                (_, None) => *key,
            };
            self.scans.insert(event.txn, Scan { read: *key, hi })?;
        }
        Ok(())
    }

    /// What a step looks up or changes, if it requests locks at all.
    fn attempt<I: Ordered>(&self, index: &I, event: Event) -> Option<Step> {
        match event.op {
            Op::Fetch(key) => Some(Step::Fetch(key)),
            Op::Insert(key, _) => Some(Step::Insert(key)),
            Op::Delete(key) => Some(Step::Delete(key)),
            Op::Update(key, _) => Some(Step::Update(key)),
            Op::Scan(lo, hi) => Some(Step::Look(index.at(lo), hi)),
            Op::Go => {
                let scan = self.scans.get(&event.txn)?;
                Some(Step::Look(index.after(scan.read), scan.hi))
            }
            Op::Commit | Op::Abort | Op::Back => None,
        }
    }

    /// Takes note of a step and its reply, and answers what it requested, if it is blocked.
    pub(crate) fn take<P: Protocol>(
        &mut self,
        alloc: Global,
        protocol: &P,
        pairs: &[(u64, u64)],
        held: &[((Name, Txn), Mode)],
        event: Event,
        reply: &Reply,
    ) -> Result<Vec<Asked>, Memory>
        requires { IsMap pairs.now }
    {
        if let Reply::Blocked(_) = reply {
            return self.asked(alloc, protocol, pairs, held, event);
        }
        self.note(event, reply)?;
        Ok(Vec::new(alloc))
    }

    /// What a step requests on an index with these locks, and whose locks conflict with it.
    fn asked<P: Protocol>(
        &self,
        alloc: Global,
        protocol: &P,
        pairs: &[(u64, u64)],
        held: &[((Name, Txn), Mode)],
        event: Event,
    ) -> Result<Vec<Asked>, Memory>
        requires { IsMap pairs.now }
    {
        let mut list = Vec::new(alloc);
        let index = Sorted::from_pairs(alloc, pairs)?;
        let locks = locks_of(alloc, protocol, held)?;
        if let Some(step) = self.attempt(&index, event) {
            let plan = kr_plan::plan(protocol, &index, &locks, event.txn, step);
            push_side(alloc, protocol, &locks, event.txn, plan.current, &mut list)?;
            push_side(alloc, protocol, &locks, event.txn, plan.next, &mut list)?;
        }
        Ok(list)
    }
}

/// Adds the request of a side, if there is one, with the transactions whose locks conflict with it.
fn push_side<P: Protocol>(
    alloc: Global,
    protocol: &P,
    locks: &List,
    txn: Txn,
    side: Option<(Name, Mode, Span)>,
    list: &mut Vec<Asked>,
) -> Result<(), Memory>
    requires held { AreWithin (P.table protocol.now).count (⟦<List as Holdings>⟧.locks locks.now) }
    requires asked { SideIsMode (P.table protocol.now).count side }
{
    if let Some((name, mode, span)) = side {
        let blockers = locks.blockers(alloc, protocol, txn, name, mode)?;
        list.push(Asked {
            name,
            mode,
            span,
            blockers,
        })?;
    }
    Ok(())
}

/// Gives a transaction a lock on a name. What is no mode of the protocol, which no machine has, is left out.
fn hold<P: Protocol>(
    protocol: &P,
    locks: &mut List,
    lock: (Name, Txn),
    mode: Mode,
) -> Result<(), Memory>
    requires { AreWithin (P.table protocol.now).count (⟦<List as Holdings>⟧.locks locks.old) }
    ensures { OnOk result (AreWithin (P.table protocol.now).count (⟦<List as Holdings>⟧.locks locks.new)) }
{
    if mode > protocol.count() {
        return Ok(());
    }
    locks.keep(lock.1, lock.0, mode)?;
    Ok(())
}

/// A lock table that has these locks.
fn locks_of<P: Protocol>(
    alloc: Global,
    protocol: &P,
    held: &[((Name, Txn), Mode)],
) -> Result<List, Memory>
    ensures { IfOk result (λ locks. AreWithin (P.table protocol.now).count (⟦<List as Holdings>⟧.locks locks)) }
{
    let mut locks = List::new(alloc);
    for (lock, mode) in held {
        hold(protocol, &mut locks, *lock, *mode)?;
    }
    Ok(locks)
}
