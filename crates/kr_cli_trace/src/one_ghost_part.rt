//! One part of a trace as a text, held against a table with ghosts.
ghost use Rattle.std.specs.Prelude.{◌≡◌, ℕ, List, Some, IfOk, IfSome, OnOk};
ghost use Rattle.kr_model.specs.Map.{IsMap};
ghost use Rattle.kr_cli_trace.specs.OnePart.{IsKeptIfAsked, IsWatchedGhosts};
ghost use Rattle.kr_trace_parts.specs.Parts as spec;
ghost use Rattle.kr_trace_parts.specs.Parts.{begun, with_step};
ghost use Rattle.kr_trace_parts.specs.Printed.{printed};
ghost use Rattle.kr_cli_trace.specs.Printed.{IsPrinted, one_ghost_part};

use crate::texts::{text_of, with_cut};
use kr_ghost_follow::Follower;
use kr_ghost_protocol::GhostProtocol;
use kr_model::{Event, Memory, Pairs, Txns};
use kr_trace_lines::{Deviation, Observed};
use kr_trace_parts::{Asks, Part};
use kr_trace_text::LoggedStep;
use std::alloc::Global;

/// Asks for one part as a text, held against a table. Nothing is printed of the others.
#[derive(Drop)]
pub(crate) struct OneGhostPart<'a, P: GhostProtocol> {
    pub(crate) protocol: &'a P,
    /// The number of the part that is asked for, from 1.
    pub(crate) asked: u64,
}

/// The part that is asked for: its steps are kept, and held against the table.
#[derive(Drop)]
pub(crate) struct WatchedGhosts<'a, P: GhostProtocol> {
    pub(crate) follower: Follower<'a, P>,
    /// The line beside which no state stands.
    pub(crate) found: Option<Deviation>,
    pub(crate) opening: Pairs,
    pub(crate) steps: Vec<LoggedStep>,
    ghost rising: { IsMap opening },
}

/// A part of the trace.
#[derive(Drop)]
pub(crate) struct PassedGhosts<'a, P: GhostProtocol> {
    pub(crate) protocol: &'a P,
    /// The number of the part that is asked for.
    pub(crate) asked: u64,
    /// The part, where it is the one that is asked for. Of another nothing is kept.
    pub(crate) watched: Option<WatchedGhosts<'a, P>>,
}

impl<'a, P: GhostProtocol> WatchedGhosts<'a, P> {
    /// The part that is asked for, of which no step is read.
    fn new(alloc: Global, protocol: &'a P, opening: Pairs) -> Result<WatchedGhosts<'a, P>, Memory>
        requires { IsMap opening }
        ensures { IfOk result (λ w. (tests : List (List ℕ)) → IsWatchedGhosts P.ghosts protocol.now (begun opening tests) w.follower w.found w.opening w.steps.items) }
    {
        Ok(WatchedGhosts {
            follower: Follower::new(alloc, protocol, opening.as_slice())?,
            found: None,
            opening,
            steps: Vec::new(alloc),
        })
    }

    /// Takes one more step, with its reply and the number of its line.
    fn take(
        &mut self,
        alloc: Global,
        number: u64,
        event: Event,
        observed: Observed,
    ) -> Result<(), Memory>
        ensures { (q : P) (s : spec.Part) → IsWatchedGhosts P.ghosts q s self.old.follower self.old.found self.old.opening self.old.steps.items
            → OnOk result (IsWatchedGhosts P.ghosts q (with_step number event observed s) self.new.follower self.new.found self.new.opening self.new.steps.items) }
    {
        self.found = self.follower.line(alloc, number, event, &observed)?;
        self.steps.push(LoggedStep {
            number,
            event,
            observed,
        })?;
        Ok(())
    }

    /// The text of the part, which has this number, and whether all is well with it.
    fn text(self, alloc: Global, protocol: &P, part: u64) -> Result<(String, bool), Memory>
        ensures { (s : spec.Part) → IsWatchedGhosts P.ghosts protocol.now s self.entry.follower self.entry.found self.entry.opening self.entry.steps.items
            → IfOk result (λ end. IsPrinted (one_ghost_part (P.ghosts protocol.now) (P.names protocol.now) part) part s (printed (Some end.0)) end.1) }
    {
        let WatchedGhosts {
            follower,
            found,
            opening,
            steps,
        } = self;
        let (text, is_well) = text_of(alloc, protocol, part, &found, opening.as_slice(), steps)?;
        let text = with_cut(alloc, text, &found, follower.cut())?;
        Ok((text, is_well))
    }
}

impl<'a, P: GhostProtocol> Asks for OneGhostPart<'a, P> {
    type Part = PassedGhosts<'a, P>;

    ghost is_printed = { λ a. IsPrinted (one_ghost_part (P.ghosts a.protocol.now) (P.names a.protocol.now) a.asked) };

    fn begin(
        &self,
        alloc: Global,
        number: u64,
        opening: Pairs,
        tests: Vec<String>,
    ) -> Result<PassedGhosts<'a, P>, Memory> {
        let _ = tests;
        if number != self.asked {
            return Ok(PassedGhosts {
                protocol: self.protocol,
                asked: self.asked,
                watched: None,
            });
        }
        let watched = WatchedGhosts::new(alloc, self.protocol, opening)?;
        Ok(PassedGhosts {
            protocol: self.protocol,
            asked: self.asked,
            watched: Some(watched),
        })
    }
}

impl<'a, P: GhostProtocol> Part for PassedGhosts<'a, P> {
    ghost asked = { λ p. IsPrinted (one_ghost_part (P.ghosts p.protocol.now) (P.names p.protocol.now) p.asked) };

    ghost stands_for = { λ p n s. IsKeptIfAsked p.asked p.watched n
        × IfSome p.watched (λ w. IsWatchedGhosts P.ghosts p.protocol.now s w.follower w.found w.opening w.steps.items) };

    fn step(
        &mut self,
        alloc: Global,
        number: u64,
        event: Event,
        observed: Observed,
    ) -> Result<(), Memory> {
        match &mut self.watched {
            Some(watched) => watched.take(alloc, number, event, observed),
            None => Ok(()),
        }
    }

    fn order(&mut self, txns: Txns) {
        let _ = txns;
    }

    fn end(self, alloc: Global, part: u64) -> Result<(Option<String>, bool), Memory> {
        let PassedGhosts {
            protocol,
            asked: _,
            watched,
        } = self;
        match watched {
            Some(watched) => {
                let (text, is_well) = watched.text(alloc, protocol, part)?;
                Ok((Some(text), is_well))
            }
            None => Ok((None, true)),
        }
    }
}
