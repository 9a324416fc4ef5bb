//! Sessions under a table with ghosts.
ghost use Rattle.std.specs.Prelude.{◌≡◌, ◌↔◌, map, IfOk, IsErr, IsTrue, OnErr, OnOk, codes, string_bytes};
ghost use Rattle.kr_cli.specs.declared.named.Named.TheVariants.{Ghosts};
ghost use Rattle.kr_model.specs.Map.{IsMap};
ghost use Rattle.kr_model.specs.Serial.{AreSerial};
ghost use Rattle.kr_report.specs.Report.{verdict_text};
ghost use Rattle.kr_embed.specs.Session.{IsNext, at_start, may_purge_in, purge_may_lack, verdict_so_far, with_purged};

use crate::noting::{attempt, note, settle};
use kr_cli::AnyGhostTable;
use kr_ghost_index::GhostIndex;
use kr_ghost_machine::GhostStepper;
use kr_judge::{Index, judge_programs};
use kr_locks::Buckets;
use kr_model::{Event, Items, Memory, Mode, Name, Op, Pairs, Refusal, Reply, Txn, Txns};
use kr_report::report_verdict;
use kr_txn::Log;
use std::alloc::Global;
use std::marker::Model;
use std::mem;

/// A machine under a table with ghosts, with what its transactions did, the map that it was opened on and the reply to its last
/// step.
#[derive(Drop)]
pub(crate) struct LeavingSession {
    stepper: GhostStepper<AnyGhostTable, Buckets>,
    log: Log,
    /// The last step, if its reply isn't in the log yet.
    owed: Option<Event>,
    opening: Index,
    last: Reply,
}

impl Model for LeavingSession {
    ghost use Rattle.kr_cli.specs.declared.named.Named.TheVariants.{Ghosts};
    ghost use Rattle.kr_embed.specs.Recorded.{IsRecorded, settled};
    ghost use Rattle.kr_embed.specs.Session.{Seen};

    ghost Value = { Seen };

    ghost view = { λ s. record { table = Ghosts s.stepper.protocol; state = s.stepper.state; log = settled s.log.log s.owed s.last; opening = s.opening; last = s.last } };

    ghost invariant = { λ s. IsRecorded s.stepper.state s.log s.owed s.last };
}

impl LeavingSession {
    /// A session under a table on an opening map, whose keys rise.
    pub(crate) fn new(
        alloc: Global,
        table: AnyGhostTable,
        opening: &[(u64, u64)],
    ) -> Result<LeavingSession, Memory>
        requires { IsMap opening.now }
        ensures { IfOk result (λ s. s ≡ at_start (Ghosts table) opening.now) }
    {
        let first = Index::copy_of(alloc, opening)?;
        let index = GhostIndex::from_pairs(alloc, opening)?;
        Ok(LeavingSession {
            stepper: GhostStepper::new(alloc, table, index, Buckets::new(alloc)),
            log: Log::new(alloc),
            owed: None,
            opening: first,
            last: Reply::None,
        })
    }

    /// Attempts a step, whose reply is then the last one. Where it is blocked or refused, for memory too, nothing else changes.
    pub(crate) fn step(&mut self, txn: Txn, op: Op)
        ensures { IsNext self.old txn op self.new }
    {
        let last = mem::replace(&mut self.last, Reply::None);
        settle(&mut self.log, self.owed.take(), last);
        match attempt(&mut self.stepper, &mut self.log, txn, op) {
            Ok(reply) => {
                self.owed = note(&mut self.log, Event { txn, op }, &reply);
                self.last = reply;
            }
            Err(_) => self.last = Reply::Refused(Refusal::Memory),
        }
    }

    /// Purges a ghost, and answers whether it did. At an error a growth was refused, and nothing has changed.
    pub(crate) fn purge(&mut self, key: u64) -> Result<bool, Memory>
        ensures purged { IfOk result (λ is_purged. is_purged ≡ may_purge_in self.old key) }
        ensures session { OnOk result (self.new ≡ with_purged self.old key) }
        ensures err { OnErr result (self.new ≡ self.old) }
        ensures memory { IsErr result → IsTrue (purge_may_lack self.old key) }
    {
        self.stepper.purge(key)
    }

    /// The reply to the last step.
    pub(crate) fn last(&self) -> &Reply
        ensures { result.now ≡ self.now.last }
    {
        &self.last
    }

    /// The pairs of the index, keys rising.
    pub(crate) fn index(&self) -> Result<Pairs, Memory>
        ensures { IfOk result (λ pairs. pairs ≡ self.now.state.state.map) }
    {
        self.stepper.index()
    }

    /// The ghosts, rising.
    pub(crate) fn ghosts(&self) -> Result<Items<u64>, Memory>
        ensures { IfOk result (λ ghosts. ghosts ≡ self.now.state.ghosts) }
    {
        self.stepper.ghosts()
    }

    /// The locks that are held, by name, infinity last, and then by transaction.
    pub(crate) fn locks(&self) -> Result<Vec<((Name, Txn), Mode)>, Memory>
        ensures { IfOk result (λ list. list.items ≡ self.now.state.state.locks) }
    {
        self.stepper.locks()
    }

    /// The active transactions, rising.
    pub(crate) fn unfinished(&self) -> Result<Txns, Memory>
        ensures { IfOk result (λ txns. txns ≡ map (λ a. a.0) self.now.state.state.active) }
    {
        self.stepper.unfinished()
    }

    /// Whether the transactions that have committed so far are serializable in commit order, and the report of that verdict, as of
    /// a script named `session`.
    pub(crate) fn verdict(&self, alloc: Global) -> Result<(bool, String), Memory>
        ensures serial { IfOk result (λ told. IsTrue told.0 ↔ AreSerial self.now.opening self.now.log.committed) }
        ensures text { IfOk result (λ told. string_bytes told.1 ≡ verdict_text (codes "session") (verdict_so_far self.now)) }
    {
        let programs = self.log.programs()?;
        let verdict = judge_programs(alloc, self.opening.as_slice(), programs.as_slice())?;
        let text = report_verdict(alloc, "session", &verdict)?;
        Ok((verdict.is_serial(), text))
    }
}
