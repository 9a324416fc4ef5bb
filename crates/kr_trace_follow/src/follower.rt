//! A table's state beside what an engine logged.
ghost use Rattle.std.specs.Prelude.{◌≡◌, ◌≤◌, All, None, IfOk, OnOk, OnErr, true, false};
ghost use Rattle.kr_model.specs.Map.{IsMap};
ghost use Rattle.kr_model.specs.WellFormed.{IsState};
ghost use Rattle.kr_trace_follow.specs.Followers.{shown};
ghost use Rattle.kr_trace_follow.specs.Following.{counted, next};
ghost use Rattle.kr_trace_follow.specs.Scans.{AreNoted};
ghost use Rattle.kr_trace_follow.specs.Since.{IsSince, last_noted};

use crate::conflict::Lock;
use crate::kinds::{copy_of, counted};
use crate::lines::deviation_of;
use crate::scans::Progress;
use crate::since::Notes;
use kr_index::{Memory, Ordered, Tree};
use kr_locks::{Buckets, Holdings};
use kr_machine::Stepper;
use kr_model::Event;
use kr_protocol::Protocol;
use kr_trace_lines::{Deviation, Observed};
use std::alloc::{AllocError, Global};
use std::collections::BTreeMap;
use std::marker::Model;

/// A table's state beside what an engine logged, up to the first line that differs.
///
/// It keeps no line: the index, the locks, since which lines they are held, what is waited for, the active transactions,
/// and the numbers of those that have ended.
pub struct Follower<'a, P: Protocol> {
    /// The table.
    protocol: &'a P,
    /// The state under it.
    stepper: Stepper<&'a P, Tree, Buckets>,
    /// How far the scans in progress are.
    scans: Vec<Progress>,
    /// The lines since which locks are held.
    notes: Notes,
    /// The locks that are waited for.
    waiting: Vec<Lock>,
    /// How many lines were queued.
    queued: u64,
    /// The deviation of the first line that deviates.
    found: Option<Deviation>,
    /// Whether it was given up, for want of memory.
    lost: bool,
}

impl<'a, P: Protocol> Model for Follower<'a, P> {
    ghost use Rattle.kr_trace_follow.specs.Following.{Follows};
    ghost use Rattle.kr_trace_follow.specs.Followers.{IsFollower, shown};

    ghost Value = { Follows P };

    ghost view = { λ f. record { protocol = f.protocol.now; following = shown f.stepper.state f.notes f.waiting.items f.queued f.found; lost = f.lost } };

    ghost invariant = { λ f. IsFollower (P.table f.protocol.now) (P.table f.stepper.protocol.now) f.stepper.pending f.stepper.state f.scans.items f.notes f.waiting.items f.lost };
}

impl<'a, P: Protocol> Follower<'a, P> {
    ghost use Rattle.kr_trace_follow.specs.Following.{begun, next};

    /// Follows a trace from an opening map whose keys rise strictly. The only fault is `Memory`.
    pub fn new(
        alloc: Global,
        protocol: &'a P,
        opening: &[(u64, u64)],
    ) -> Result<Follower<'a, P>, Memory>
        requires { IsMap opening.now }
        ensures { IfOk result (λ f. f ≡ record { protocol = protocol.now; following = begun opening.now; lost = false }) }
    {
        let index = Tree::from_pairs(alloc, opening)?;
        Ok(Follower {
            protocol,
            stepper: Stepper::new(alloc, protocol, index, Buckets::new(alloc)),
            scans: Vec::new(alloc),
            notes: BTreeMap::new(alloc),
            waiting: Vec::new(alloc),
            queued: 0,
            found: None,
            lost: false,
        })
    }

    /// Follows one more line, the event with the reply that was observed: `None` where this line and all before it are
    /// what the table answers, and else the first line that isn't, and how it differs. Behind that line none is followed.
    ///
    /// A line `blocked` that the table grants is no deviation where it waits behind others: another transaction's latest
    /// line is blocked, and what it requests there conflicts with a request of this one. Such a line is queued: its step
    /// isn't done. The number is given with a deviation, and means nothing else. After `Memory` the follower is given up,
    /// and answers `Memory` from then on.
    pub fn line(
        &mut self,
        number: u64,
        event: Event,
        observed: &Observed,
    ) -> Result<Option<Deviation>, Memory>
        ensures found { IfOk result (λ d. d ≡ (next (P.table self.old.protocol) self.old.following (record { number = number; event = event; observed = observed.now })).found) }
        ensures followed { OnOk result (self.new.following ≡ next (P.table self.old.protocol) self.old.following (record { number = number; event = event; observed = observed.now })) }
        ensures protocol { self.new.protocol ≡ self.old.protocol }
        ensures works { OnOk result (self.old.lost ≡ false) }
        ensures lost { OnErr result (self.new.lost ≡ true) }
    {
        if self.lost {
            return Err(AllocError);
        }
        self.lost = true;
        follow(
            self.protocol,
            &mut self.stepper,
            &mut self.scans,
            &mut self.notes,
            &mut self.waiting,
            &mut self.queued,
            &mut self.found,
            number,
            event,
            observed,
        )?;
        let found = copy_of(self.stepper.alloc(), &self.found)?;
        self.lost = false;
        Ok(found)
    }

    /// How many lines so far were queued; from 2 ^ 64 - 1 on it counts no further.
    pub fn queued(&self) -> u64
        ensures { result ≡ (let at = (self.now.following).at in at.queued) }
    {
        self.queued
    }
}

/// By hand, so that crates above call it by its contract and don't prove a destructor of their own.
impl<'a, P: Protocol> Drop for Follower<'a, P> {
    fn drop(self) {
        let Follower {
            protocol: _,
            stepper: _,
            scans: _,
            notes: _,
            waiting: _,
            queued: _,
            found: _,
            lost: _,
        } = self;
    }
}

/// Follows a line, unless one before it deviates. Then it notes whether it is queued, and whether it deviates.
fn follow<P: Protocol, Q: Protocol, I: Ordered, L: Holdings>(
    protocol: &P,
    stepper: &mut Stepper<Q, I, L>,
    scans: &mut Vec<Progress>,
    notes: &mut Notes,
    waiting: &mut Vec<Lock>,
    count: &mut u64,
    found: &mut Option<Deviation>,
    number: u64,
    event: Event,
    observed: &Observed,
) -> Result<(), Memory>
    requires at_rest { stepper.old.pending ≡ None }
    requires same { Q.table stepper.old.protocol ≡ P.table protocol.now }
    requires well_formed { IsState (P.table protocol.now) stepper.old.state }
    requires noted { AreNoted stepper.old.state scans.old.items }
    requires since { IsSince stepper.old.state.locks (last_noted notes.old) }
    requires modes { All (λ l. l.1 ≤ (P.table protocol.now).count) waiting.old.items }
    ensures at_rest { stepper.new.pending ≡ None }
    ensures protocol { stepper.new.protocol ≡ stepper.old.protocol }
    ensures well_formed { IsState (P.table protocol.now) stepper.new.state }
    ensures noted { OnOk result (AreNoted stepper.new.state scans.new.items) }
    ensures since { OnOk result (IsSince stepper.new.state.locks (last_noted notes.new)) }
    ensures modes { OnOk result (All (λ l. l.1 ≤ (P.table protocol.now).count) waiting.new.items) }
    ensures followed { OnOk result (shown stepper.new.state notes.new waiting.new.items count.new found.new
        ≡ next (P.table protocol.now) (shown stepper.old.state notes.old waiting.old.items count.old found.old) (record { number = number; event = event; observed = observed.now })) }
{
    if found.is_some() {
        return Ok(());
    }
    let (deviation, queued) = deviation_of(
        protocol, stepper, scans, notes, waiting, number, event, observed,
    )?;
    *found = deviation;
    *count = counted(*count, queued);
    Ok(())
}
