//! A state that may stand beside the lines so far.
ghost use Rattle.std.specs.Prelude.{◌≡◌, ◌++◌, ◌≤◌, ℕ, List, [], All, IfOk, OnOk, IfSome, map};
ghost use Rattle.kr_model.specs.Locks.{release};
ghost use Rattle.kr_model.specs.Map.{Map, IsMap};
ghost use Rattle.kr_trace_follow.specs.Deviates.{kind_of};
ghost use Rattle.kr_trace_follow.specs.Since.{Since, last_noted};
ghost use Rattle.kr_ghost_follow.specs.Points.{after_purge, at_start, conflicts_of, kind_at, point_after, waited_for};
ghost use Rattle.kr_trace_follow.specs.Lines.{Line};
ghost use Rattle.kr_ghost_follow.specs.Stands.{IsStanding, Took, point};
ghost use Rattle.kr_ghost_follow.specs.Tries.{line_of};

use crate::line::Logged;
use crate::requests::{conflicts_now, tests_now};
use crate::since::note_inherited;
use crate::steps::{first_op, try_line};
use crate::tries::Outcome;
use kr_ghost_index::GhostIndex;
use kr_ghost_machine::GhostStepper;
use kr_ghost_protocol::GhostProtocol;
use kr_locks::{Buckets, Holdings};
use kr_model::{Memory, Op, Reply, Txn};
use kr_trace_follow::conflict::Lock;
use kr_trace_follow::kinds::{counted, is_queued, kind_of_blockers, kind_where_granted};
use kr_trace_follow::scans::Progress;
use kr_trace_follow::since::Notes;
use kr_trace_follow::waits::{forget, push_wanted, queue_for};
use kr_trace_lines::{DeviationKind, Observed};
use std::alloc::Global;
use std::collections::BTreeMap;
use std::marker::Model;
use std::mem::replace;

/// A state under a table that may stand beside the lines so far.
#[derive(Drop)]
pub(crate) struct Stand<'a, P: GhostProtocol> {
    pub(crate) stepper: GhostStepper<&'a P, Buckets>,
    /// How far the scans in progress are.
    pub(crate) scans: Vec<Progress>,
    /// The lines since which locks are held.
    pub(crate) notes: Notes,
    /// The locks that are waited for.
    pub(crate) waiting: Vec<Lock>,
    /// How many lines were queued.
    pub(crate) queued: u64,
}

impl<'a, P: GhostProtocol> Model for Stand<'a, P> {
    ghost use Rattle.std.specs.Prelude.{◌≤◌, All};
    ghost use Rattle.kr_ghost_follow.specs.Stands.{Sits, point};

    ghost Value = { Sits P };

    ghost view = { λ x. record { protocol = x.stepper.protocol.now; point = point x.stepper.state x.scans.items x.waiting.items x.queued } };

    ghost invariant = { λ x. All (λ l. l.1 ≤ (P.table x.stepper.protocol.now).count) x.waiting.items };
}

impl<'a, P: GhostProtocol> Stand<'a, P> {
    /// The state before any line.
    pub(crate) fn new(
        alloc: Global,
        protocol: &'a P,
        opening: &[(u64, u64)],
    ) -> Result<Stand<'a, P>, Memory>
        requires { IsMap opening.now }
        ensures { IfOk result (λ x. x ≡ record { protocol = protocol.now; point = at_start opening.now }) }
    {
        let index = GhostIndex::from_pairs(alloc, opening)?;
        Ok(Stand {
            stepper: GhostStepper::new(alloc, protocol, index, Buckets::new(alloc)),
            scans: Vec::new(alloc),
            notes: BTreeMap::new(alloc),
            waiting: Vec::new(alloc),
            queued: 0,
        })
    }

    /// A copy.
    fn try_copy(&self, alloc: Global) -> Result<Stand<'a, P>, Memory>
        ensures { IfOk result (λ x. x ≡ self.now) }
    {
        let scans = Vec::from_slice(alloc, &self.scans)?;
        let waiting = Vec::from_slice(alloc, &self.waiting)?;
        let notes = self.notes.clone()?;
        let stepper = self.stepper.try_copy()?;
        Ok(Stand {
            stepper,
            scans,
            notes,
            waiting,
            queued: self.queued,
        })
    }

    /// A copy from which a ghost is purged before the line of this number, where it may be.
    fn purge(&self, alloc: Global, line: u64, key: u64) -> Result<Option<Stand<'a, P>>, Memory>
        ensures protocol { IfOk result (λ r. IfSome r (λ x. x.protocol ≡ self.now.protocol)) }
        ensures point { IfOk result (λ r. IfSome r (λ x. x.point ≡ after_purge (P.ghosts self.now.protocol) key self.now.point)) }
    {
        let mut copy = self.try_copy(alloc)?;
        let is_purged = copy.purge_here(alloc, line, key)?;
        if is_purged { Ok(Some(copy)) } else { Ok(None) }
    }

    /// Purges a ghost before the line of this number, where it may be, and notes the locks that are inherited. It answers whether
    /// it did.
    fn purge_here(&mut self, alloc: Global, line: u64, key: u64) -> Result<bool, Memory>
        ensures protocol { self.new.protocol ≡ self.old.protocol }
        ensures point { OnOk result (self.new.point ≡ after_purge (P.ghosts self.old.protocol) key self.old.point) }
    {
        let before = self.stepper.locks()?;
        if !self.stepper.purge(key)? {
            return Ok(false);
        }
        let after = self.stepper.locks()?;
        note_inherited(alloc, &mut self.notes, line, &before, &after)?;
        Ok(true)
    }

    /// The same: where a run with purges leads to this state along the lines, one leads to the copy.
    pub(crate) fn purged(
        &self,
        alloc: Global,
        line: u64,
        key: u64,
    ) -> Result<Option<Stand<'a, P>>, Memory>
        ensures { (q : P) (opening : Map) (lines : List Line) → IsStanding P.ghosts q opening lines self.now → IfOk result (λ r. IfSome r (IsStanding P.ghosts q opening lines)) }
    {
        self.purge(alloc, line, key)
    }

    /// Follows a line, and answers how it differs from what the table answers, if it does.
    pub(crate) fn follow(
        &mut self,
        alloc: Global,
        line: Logged,
    ) -> Result<Option<DeviationKind>, Memory>
        ensures { (q : P) (opening : Map) (lines : List Line) → IsStanding P.ghosts q opening lines self.old → IfOk result (Took P.ghosts q opening lines (line_of line.entry) self.new) }
    {
        self.take(alloc, line)
    }

    /// Follows a line: its steps are attempted. It answers how what was observed differs from the table's reply, if it does.
    fn take(&mut self, alloc: Global, line: Logged) -> Result<Option<DeviationKind>, Memory>
        ensures protocol { self.new.protocol ≡ self.old.protocol }
        ensures point { OnOk result (self.new.point ≡ point_after (P.ghosts self.old.protocol) self.old.point (line_of line.entry)) }
        ensures kind { IfOk result (λ kind. (since : Since) × (kind ≡ kind_at (P.ghosts self.old.protocol) since self.old.point (line_of line.entry))) }
    {
        take_line(
            alloc,
            &mut self.stepper,
            &mut self.scans,
            &mut self.notes,
            &mut self.waiting,
            &mut self.queued,
            line,
        )
    }

    /// How many lines so far were queued.
    pub(crate) fn queued(&self) -> u64
        ensures { result ≡ (let at = self.now.point in at.queued) }
    {
        self.queued
    }
}

/// Follows a line with the parts of a state.
fn take_line<P: GhostProtocol + Copy, L: Holdings>(
    alloc: Global,
    stepper: &mut GhostStepper<P, L>,
    scans: &mut Vec<Progress>,
    notes: &mut Notes,
    waiting: &mut Vec<Lock>,
    queued: &mut u64,
    line: Logged,
) -> Result<Option<DeviationKind>, Memory>
    requires modes { All (λ l. l.1 ≤ (P.table stepper.old.protocol).count) waiting.old.items }
    ensures protocol { stepper.new.protocol ≡ stepper.old.protocol }
    ensures modes { All (λ l. l.1 ≤ (P.table stepper.old.protocol).count) waiting.new.items }
    ensures point { OnOk result (point stepper.new.state scans.new.items waiting.new.items queued.new ≡ point_after (P.ghosts stepper.old.protocol) (point stepper.old.state scans.old.items waiting.old.items queued.old) (line_of line.entry)) }
    ensures kind { IfOk result (λ kind. kind ≡ kind_at (P.ghosts stepper.old.protocol) (last_noted notes.new) (point stepper.old.state scans.old.items waiting.old.items queued.old) (line_of line.entry)) }
{
    let txn = line.event.txn;
    let first = first_op(scans, line);
    let queue = queue_for(line.observed, waiting);
    let last = try_line(alloc, stepper, scans, notes, queue, line, first)?;
    let was = replace(waiting, Vec::new(alloc));
    *waiting = waits_after(alloc, stepper, was, txn, last.op, line.observed)?;
    *queued = counted(*queued, is_queued(&last.ahead, &last.reply));
    kind_now(alloc, stepper, notes, txn, last, line.observed)
}

/// The locks that are waited for after a step with this reply: its transaction waits for what it requests, if it waits.
fn waits_after<P: GhostProtocol, L: Holdings>(
    alloc: Global,
    stepper: &GhostStepper<P, L>,
    waiting: Vec<Lock>,
    txn: Txn,
    op: Op,
    observed: &Observed,
) -> Result<Vec<Lock>, Memory>
    requires modes { All (λ l. l.1 ≤ (P.table stepper.now.protocol).count) waiting.items }
    ensures waiting { IfOk result (λ list. list.items ≡ release waiting.items txn ++ waited_for (P.ghosts stepper.now.protocol) txn stepper.now.state op observed.now) }
    ensures modes { IfOk result (λ list. All (λ l. l.1 ≤ (P.table stepper.now.protocol).count) list.items) }
{
    let mut waiting = waiting;
    forget(&mut waiting, txn);
    if let Observed::Blocked(_) = observed {
        let requests = tests_now(alloc, stepper, txn, op)?;
        push_wanted(&mut waiting, &requests)?;
    }
    Ok(waiting)
}

/// How what was observed differs from the table's reply to a step, if it does. Of a step that is blocked, which changes
/// nothing, the conflicts are those in the present state.
fn kind_now<P: GhostProtocol, L: Holdings>(
    alloc: Global,
    stepper: &GhostStepper<P, L>,
    notes: &Notes,
    txn: Txn,
    last: Outcome,
    observed: &Observed,
) -> Result<Option<DeviationKind>, Memory>
    ensures { IfOk result (λ kind. kind ≡ kind_of (conflicts_of (P.ghosts stepper.now.protocol) (last_noted notes.now) txn stepper.now.state last.op) last.ahead.items last.reply observed.now) }
{
    let Outcome { op, ahead, reply } = last;
    match reply {
        Reply::Blocked(blockers) => match observed {
            Observed::Blocked(named) => kind_of_blockers(alloc, named, blockers, &ahead),
            _ => {
                let conflicts = conflicts_now(alloc, stepper, notes, txn, op)?;
                Ok(Some(DeviationKind::Granted {
                    blockers,
                    conflicts,
                }))
            }
        },
        Reply::Refused(refusal) => Ok(Some(DeviationKind::Refused(refusal))),
        granted => kind_where_granted(alloc, granted, &ahead, observed),
    }
}
