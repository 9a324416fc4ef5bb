//! The log of a run: what its transactions have done so far, and the programs that have committed.
ghost use Rattle.std.specs.Prelude.{◌≡◌, Some, None, IfOk, OnOk, OnErr};
ghost use Rattle.kr_model.specs.Log.{no_log, logged};
ghost use Rattle.kr_txn.specs.Logs.{MayNote};

use crate::Memory;
use crate::logging::{Logging, what_to_log};
use crate::unfinished::{Ready, Unfinished, commit, do_step, get_ready, take_operations};
use kr_model::{Event, Program, Programs, Reply, Txn};
use std::alloc::Global;
use std::marker::Model;

/// The programs so far of the transactions that haven't ended, and the committed programs in the order of their commits.
///
/// Contracts see the log, and the transaction whose next operation and end have their memory.
pub struct Log {
    /// Those that haven't ended, rising by number.
    unfinished: Vec<Unfinished>,
    /// The committed programs, with room for that of each unfinished transaction.
    committed: Vec<Program>,
    /// The transaction that has its memory, if there is one.
    ready: Option<Ready>,
}

impl Model for Log {
    ghost use Rattle.std.specs.Option.{option_map};
    ghost use Rattle.kr_txn.specs.Logs.{LogWithRoom, entries, txn_of, HasRoom};

    ghost Value = { LogWithRoom };

    ghost view = { λ l. record { log = record { unfinished = entries l.unfinished.items; committed = l.committed.items }; ready = option_map txn_of l.ready } };

    ghost invariant = { λ l. HasRoom l.unfinished l.committed l.ready };
}

impl Log {
    /// The log of no step. Takes no memory.
    pub fn new(alloc: Global) -> Log
        ensures { result ≡ record { log = no_log; ready = None } }
    {
        Log {
            unfinished: Vec::new(alloc),
            committed: Vec::new(alloc),
            ready: None,
        }
    }

    /// Takes all memory that the next operation of a transaction and its end need, in place of what was taken for another.
    /// Where a growth is refused the answer is `Memory`. The log stays.
    pub fn make_room(&mut self, txn: Txn) -> Result<(), Memory>
        ensures log { self.new.log ≡ self.old.log }
        ensures ok { OnOk result (self.new.ready ≡ Some txn) }
        ensures err { OnErr result (self.new.ready ≡ None) }
    {
        self.ready = None;
        let more = self.unfinished.len() + 1;
        self.committed.reserve(more)?;
        let alloc = *self.committed.allocator();
        self.ready = Some(get_ready(alloc, &mut self.unfinished, txn)?);
        Ok(())
    }

    /// Notes a step and its reply. A step that was blocked or refused changes nothing. A commit has had room made for it, or
    /// its transaction is there; an abort needs no room; and any other has had room made for it. Takes no memory.
    pub fn note(&mut self, event: Event, reply: Reply)
        requires { MayNote self.old event reply }
        ensures { self.new.log ≡ logged self.old.log (event, reply) }
    {
        match what_to_log(&reply) {
            Logging::Operation => {
                if let Some(ready) = self.ready.take() {
                    do_step(&mut self.unfinished, ready, event.op, reply);
                }
            }
            Logging::Committing => {
                self.ready = None;
                commit(&mut self.unfinished, &mut self.committed, event.txn);
            }
            Logging::Aborting => {
                self.ready = None;
                let alloc = *self.committed.allocator();
                let _ = take_operations(alloc, &mut self.unfinished, event.txn);
            }
            Logging::Nothing => {}
        }
    }

    /// A copy of the committed programs in commit order, or `Memory` where a growth is refused.
    pub fn programs(&self) -> Result<Programs, Memory>
        ensures { IfOk result (λ programs. programs ≡ self.now.log.committed) }
    {
        let alloc = *self.committed.allocator();
        let mut list = Vec::with_capacity(alloc, self.committed.len())?;
        for program in &self.committed {
            let copy = program.try_copy(alloc)?;
            list.push(copy)?;
        }
        Ok(Programs::from_vec(list))
    }

    /// The committed programs in commit order, without a copy. Takes no memory.
    pub fn into_programs(self) -> Programs
        ensures { result ≡ self.log.committed }
    {
        let Log {
            unfinished: _,
            committed,
            ready: _,
        } = self;
        Programs::from_vec(committed)
    }
}

/// By hand, so that crates above call it by its contract and don't prove a destructor of their own.
impl Drop for Log {
    fn drop(self) {
        let Log {
            unfinished: _,
            committed: _,
            ready: _,
        } = self;
    }
}
