//! Sessions under a table without ghosts.
ghost use Rattle.std.specs.Prelude.{◌≡◌, ◌↔◌, map, IfOk, IsTrue, codes, string_bytes};
ghost use Rattle.kr_cli.specs.declared.named.Named.TheVariants.{Table};
ghost use Rattle.kr_model.specs.Map.{IsMap};
ghost use Rattle.kr_model.specs.Serial.{AreSerial};
ghost use Rattle.kr_report.specs.Report.{verdict_text};
ghost use Rattle.kr_embed.specs.Session.{IsNext, at_start, may_purge_in, verdict_so_far, with_purged};

use kr_cli::AnyTable;
use kr_index::Tree;
use kr_judge::{Index, judge_programs};
use kr_locks::Buckets;
use kr_machine::Machine;
use kr_model::{Memory, Mode, Name, Op, Pairs, Reply, Txn, Txns};
use kr_report::report_verdict;
use std::alloc::Global;
use std::marker::Model;

/// A machine under a table without ghosts, with the map that it was opened on and the reply to its last step.
#[derive(Drop)]
pub(crate) struct GoneSession {
    machine: Machine<AnyTable, Tree, Buckets>,
    opening: Index,
    last: Reply,
}

impl Model for GoneSession {
    ghost use Rattle.std.specs.Prelude.{◌≡◌, None, []};
    ghost use Rattle.kr_cli.specs.declared.named.Named.TheVariants.{Table};
    ghost use Rattle.kr_embed.specs.Session.{Seen};

    ghost Value = { Seen };

    ghost view = { λ s. record { table = Table s.machine.protocol; state = record { state = s.machine.state; ghosts = [] }; log = s.machine.log; opening = s.opening; last = s.last } };

    ghost invariant = { λ s. s.machine.pending ≡ None };
}

impl GoneSession {
    /// A session under a table on an opening map, whose keys rise.
    pub(crate) fn new(
        alloc: Global,
        table: AnyTable,
        opening: &[(u64, u64)],
    ) -> Result<GoneSession, Memory>
        requires { IsMap opening.now }
        ensures { IfOk result (λ s. s ≡ at_start (Table table) opening.now) }
    {
        let first = Index::copy_of(alloc, opening)?;
        let index = Tree::from_pairs(alloc, opening)?;
        Ok(GoneSession {
            machine: Machine::new(alloc, table, index, Buckets::new(alloc)),
            opening: first,
            last: Reply::None,
        })
    }

    /// Attempts a step, whose reply is then the last one. Where it is blocked or refused, for memory too, nothing else changes.
    pub(crate) fn step(&mut self, txn: Txn, op: Op)
        ensures { IsNext self.old txn op self.new }
    {
        self.last = self.machine.step(txn, op);
    }

    /// Does nothing, and answers that nothing was purged: there are no ghosts.
    pub(crate) fn purge(&mut self, key: u64) -> bool
        ensures purged { result ≡ may_purge_in self.old key }
        ensures session { self.new ≡ with_purged self.old key }
        ensures same { self.new ≡ self.old }
    {
        let _last = &self.last;
        let _ = key;
        false
    }

    /// The reply to the last step.
    pub(crate) fn last(&self) -> &Reply
        ensures { result.now ≡ self.now.last }
    {
        &self.last
    }

    /// The pairs of the index, keys rising.
    pub(crate) fn index(&self) -> Result<Pairs, Memory>
        ensures { IfOk result (λ pairs. pairs ≡ self.now.state.state.map) }
    {
        self.machine.index()
    }

    /// The ghosts, of which there are none.
    pub(crate) fn ghosts(&self, alloc: Global) -> Vec<u64>
        ensures { result.items ≡ self.now.state.ghosts }
    {
        let _last = &self.last;
        Vec::new(alloc)
    }

    /// The locks that are held, by name, infinity last, and then by transaction.
    pub(crate) fn locks(&self) -> Result<Vec<((Name, Txn), Mode)>, Memory>
        ensures { IfOk result (λ list. list.items ≡ self.now.state.state.locks) }
    {
        self.machine.locks()
    }

    /// The active transactions, rising.
    pub(crate) fn unfinished(&self) -> Result<Txns, Memory>
        ensures { IfOk result (λ txns. txns ≡ map (λ a. a.0) self.now.state.state.active) }
    {
        self.machine.unfinished()
    }

    /// Whether the transactions that have committed so far are serializable in commit order, and the report of that verdict, as of
    /// a script named `session`.
    pub(crate) fn verdict(&self, alloc: Global) -> Result<(bool, String), Memory>
        ensures serial { IfOk result (λ told. IsTrue told.0 ↔ AreSerial self.now.opening self.now.log.committed) }
        ensures text { IfOk result (λ told. string_bytes told.1 ≡ verdict_text (codes "session") (verdict_so_far self.now)) }
    {
        let programs = self.machine.programs()?;
        let verdict = judge_programs(alloc, self.opening.as_slice(), programs.as_slice())?;
        let text = report_verdict(alloc, "session", &verdict)?;
        Ok((verdict.is_serial(), text))
    }
}
