//! Sessions: a machine under a table, one step at a time.
ghost use Rattle.std.specs.Prelude.{◌≡◌, ◌↔◌, map, IfOk, IfErr, IsErr, IsTrue, OnErr, OnOk, codes, string_bytes};
ghost use Rattle.kr_model.specs.Map.{IsMap};
ghost use Rattle.kr_model.specs.Serial.{AreSerial};
ghost use Rattle.kr_model.specs.Step.{blockers_in};
ghost use Rattle.kr_report.specs.Report.{verdict_text};
ghost use Rattle.kr_embed.specs.Inputs.{Explains, ExplainsScript};
ghost use Rattle.kr_embed.specs.Numbers.{pair_of, lock_of};
ghost use Rattle.kr_embed.specs.Session.{IsNext, IsOpened, IsOpenedUnder, at_start, may_purge_in, purge_may_lack, rows_in, verdict_so_far, with_purged};

use crate::faults::Fault;
use crate::gone::GoneSession;
use crate::leaving::LeavingSession;
use crate::numbers::{Lock, Pair, locks_of, pairs_of};
use crate::scripts::{ghost_script_in, script_in};
use crate::tables::table_in;
use kr_cli::Named;
use kr_model::{Memory, Op, Reply, Txn};
use std::alloc::Global;
use std::marker::Model;

/// A session of either kind. It is asked once, when the session is opened.
#[derive(Drop)]
enum Kind {
    /// Deleted keys go at once.
    Gone(GoneSession),
    /// Deleted keys stay as ghosts.
    Leaving(LeavingSession),
}

/// A machine under a table, with the map that it was opened on and the reply to its last step.
#[derive(Drop)]
pub struct Session {
    kind: Kind,
}

impl Model for Session {
    ghost use Rattle.kr_embed.specs.Kinds.{seen_of};
    ghost use Rattle.kr_embed.specs.Session.{Seen};

    ghost Value = { Seen };

    ghost view = { λ s. seen_of s.kind };
}

/// A session under a table, on the opening map of the script that bytes are.
fn open_under(alloc: Global, table: Named, script: &[u8]) -> Result<Session, Fault>
    ensures opened { IfOk result (IsOpenedUnder table script.now) }
    ensures fault { IfErr result (ExplainsScript table script.now) }
{
    match table {
        Named::Table(table) => {
            let script = script_in(alloc, script)?;
            let kind = Kind::Gone(GoneSession::new(alloc, table, script.opening())?);
            Ok(Session { kind })
        }
        Named::Ghosts(table) => {
            let script = ghost_script_in(alloc, script)?;
            let kind = Kind::Leaving(LeavingSession::new(alloc, table, script.opening())?);
            Ok(Session { kind })
        }
    }
}

/// A session under the table that bytes are, on the opening map of the script that bytes are: none of its moves is done, no
/// transaction is active, there are no ghosts, and nothing is the last reply. A fault of the table comes before one of the script.
pub fn open_bytes(alloc: Global, table: &[u8], script: &[u8]) -> Result<Session, Fault>
    ensures opened { IfOk result (IsOpened table.now script.now) }
    ensures fault { IfErr result (Explains table.now script.now) }
{
    let table = table_in(alloc, table)?;
    open_under(alloc, table, script)
}

impl Session {
    /// A session under a table on an opening map, whose keys rise.
    pub fn new(alloc: Global, table: Named, opening: &[(u64, u64)]) -> Result<Session, Memory>
        requires { IsMap opening.now }
        ensures { IfOk result (λ s. s ≡ at_start table opening.now) }
    {
        let kind = match table {
            Named::Table(table) => Kind::Gone(GoneSession::new(alloc, table, opening)?),
            Named::Ghosts(table) => Kind::Leaving(LeavingSession::new(alloc, table, opening)?),
        };
        Ok(Session { kind })
    }

    /// Attempts a step, whose reply is then the last one. Where it is blocked or refused, for memory too, nothing else changes.
    pub fn step(&mut self, txn: Txn, op: Op)
        ensures { IsNext self.old txn op self.new }
    {
        match &mut self.kind {
            Kind::Gone(session) => session.step(txn, op),
            Kind::Leaving(session) => session.step(txn, op),
        }
    }

    /// Purges a ghost, and answers whether it did: not where the key is no ghost, where an active transaction can still undo a
    /// change of it, or where it is locked and locks aren't inherited; and never where deletes leave no ghosts. The last reply
    /// stays. At an error a growth was refused, and nothing has changed.
    pub fn purge(&mut self, key: u64) -> Result<bool, Memory>
        ensures purged { IfOk result (λ is_purged. is_purged ≡ may_purge_in self.old key) }
        ensures session { OnOk result (self.new ≡ with_purged self.old key) }
        ensures err { OnErr result (self.new ≡ self.old) }
        ensures memory { IsErr result → IsTrue (purge_may_lack self.old key) }
    {
        match &mut self.kind {
            Kind::Gone(session) => Ok(session.purge(key)),
            Kind::Leaving(session) => session.purge(key),
        }
    }

    /// The reply to the last step.
    pub fn last(&self) -> &Reply
        ensures { result.now ≡ self.now.last }
    {
        match &self.kind {
            Kind::Gone(session) => session.last(),
            Kind::Leaving(session) => session.last(),
        }
    }

    /// The transactions that block the last step, rising; none where it isn't blocked.
    pub fn blockers(&self, alloc: Global) -> Result<Vec<Txn>, Memory>
        ensures { IfOk result (λ list. list.items ≡ blockers_in self.now.last) }
    {
        match self.last() {
            Reply::Blocked(txns) => Ok(txns.as_slice().to_vec(alloc)?),
            _ => Ok(Vec::new(alloc)),
        }
    }

    /// The pairs that the last step's scan ended with, keys rising; none where it ended none.
    pub fn rows(&self, alloc: Global) -> Result<Vec<Pair>, Memory>
        ensures { IfOk result (λ list. list.items ≡ map pair_of (rows_in self.now.last)) }
    {
        match self.last() {
            Reply::Rows(rows) => Ok(pairs_of(alloc, rows.as_slice())?),
            _ => Ok(Vec::new(alloc)),
        }
    }

    /// The pairs of the index, keys rising.
    pub fn index(&self, alloc: Global) -> Result<Vec<Pair>, Memory>
        ensures { IfOk result (λ list. list.items ≡ map pair_of self.now.state.state.map) }
    {
        let pairs = match &self.kind {
            Kind::Gone(session) => session.index()?,
            Kind::Leaving(session) => session.index()?,
        };
        Ok(pairs_of(alloc, pairs.as_slice())?)
    }

    /// The ghosts, rising; none where deletes leave none.
    pub fn ghosts(&self, alloc: Global) -> Result<Vec<u64>, Memory>
        ensures { IfOk result (λ list. list.items ≡ self.now.state.ghosts) }
    {
        match &self.kind {
            Kind::Gone(session) => Ok(session.ghosts(alloc)),
            Kind::Leaving(session) => Ok(session.ghosts()?.into_vec()),
        }
    }

    /// The locks that are held, by name, infinity last, and then by transaction.
    pub fn locks(&self, alloc: Global) -> Result<Vec<Lock>, Memory>
        ensures { IfOk result (λ list. list.items ≡ map lock_of self.now.state.state.locks) }
    {
        let locks = match &self.kind {
            Kind::Gone(session) => session.locks()?,
            Kind::Leaving(session) => session.locks()?,
        };
        Ok(locks_of(alloc, locks.as_slice())?)
    }

    /// The active transactions, rising.
    pub fn unfinished(&self) -> Result<Vec<Txn>, Memory>
        ensures { IfOk result (λ list. list.items ≡ map (λ a. a.0) self.now.state.state.active) }
    {
        let txns = match &self.kind {
            Kind::Gone(session) => session.unfinished()?,
            Kind::Leaving(session) => session.unfinished()?,
        };
        Ok(txns.into_vec())
    }

    /// Whether the transactions that have committed so far are serializable in commit order, and the report of that verdict, as of
    /// a script named `session`. It takes the time of running them again.
    pub fn verdict(&self, alloc: Global) -> Result<(bool, String), Memory>
        ensures serial { IfOk result (λ told. IsTrue told.0 ↔ AreSerial self.now.opening self.now.log.committed) }
        ensures text { IfOk result (λ told. string_bytes told.1 ≡ verdict_text (codes "session") (verdict_so_far self.now)) }
    {
        match &self.kind {
            Kind::Gone(session) => session.verdict(alloc),
            Kind::Leaving(session) => session.verdict(alloc),
        }
    }
}
