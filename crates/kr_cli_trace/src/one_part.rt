//! One part of a trace as a text, held against a table without ghosts.
ghost use Rattle.std.specs.Prelude.{◌≡◌, ℕ, List, Some, IfOk, IfSome, OnOk};
ghost use Rattle.kr_model.specs.Map.{IsMap};
ghost use Rattle.kr_model.specs.Protocol.{Protocol as TableOf};
ghost use Rattle.kr_cli_trace.specs.OnePart.{IsKeptIfAsked, IsWatched};
ghost use Rattle.kr_trace_parts.specs.Parts as spec;
ghost use Rattle.kr_trace_parts.specs.Parts.{begun, with_step};
ghost use Rattle.kr_trace_parts.specs.Printed.{printed};
ghost use Rattle.kr_cli_trace.specs.Printed.{IsPrinted, one_part};

use crate::texts::text_of;
use kr_model::{Event, Memory, Pairs, Txns};
use kr_protocol::Protocol;
use kr_trace_follow::{Follower, lines_are_followed};
use kr_trace_lines::{Deviation, Observed};
use kr_trace_parts::{Asks, Part};
use kr_trace_text::LoggedStep;
use std::alloc::Global;

/// Asks for one part as a text, held against a table. Nothing is printed of the others.
#[derive(Drop)]
pub(crate) struct OnePart<'a, P: Protocol> {
    pub(crate) protocol: &'a P,
    /// The number of the part that is asked for, from 1.
    pub(crate) asked: u64,
}

/// The part that is asked for: its steps are kept, and held against the table.
#[derive(Drop)]
pub(crate) struct Watched<'a, P: Protocol> {
    pub(crate) follower: Follower<'a, P>,
    /// The first line that deviates.
    pub(crate) found: Option<Deviation>,
    pub(crate) opening: Pairs,
    pub(crate) steps: Vec<LoggedStep>,
    ghost rising: { IsMap opening },
}

/// A part of the trace.
#[derive(Drop)]
pub(crate) struct Passed<'a, P: Protocol> {
    pub(crate) protocol: &'a P,
    /// The number of the part that is asked for.
    pub(crate) asked: u64,
    /// The part, where it is the one that is asked for. Of another nothing is kept.
    pub(crate) watched: Option<Watched<'a, P>>,
}

impl<'a, P: Protocol> Watched<'a, P> {
    /// The part that is asked for, of which no step is read.
    fn new(alloc: Global, protocol: &'a P, opening: Pairs) -> Result<Watched<'a, P>, Memory>
        requires { IsMap opening }
        ensures { IfOk result (λ w. (tests : List (List ℕ)) → IsWatched (P.table protocol.now) (begun opening tests) (P.table w.follower.protocol) w.follower.following w.found w.opening w.steps.items) }
    {
        Ok(Watched {
            follower: Follower::new(alloc, protocol, opening.as_slice())?,
            found: None,
            opening,
            steps: Vec::new(alloc),
        })
    }

    /// Takes one more step, with its reply and the number of its line.
    fn take(&mut self, number: u64, event: Event, observed: Observed) -> Result<(), Memory>
        ensures { (p : TableOf) (s : spec.Part) → IsWatched p s (P.table self.old.follower.protocol) self.old.follower.following self.old.found self.old.opening self.old.steps.items
            → OnOk result (IsWatched p (with_step number event observed s) (P.table self.new.follower.protocol) self.new.follower.following self.new.found self.new.opening self.new.steps.items) }
    {
        self.found = self.follower.line(number, event, &observed)?;
        self.steps.push(LoggedStep {
            number,
            event,
            observed,
        })?;
        Ok(())
    }

    /// The text of the part, which has this number, and whether all is well with it.
    fn text(self, alloc: Global, protocol: &P, part: u64) -> Result<(String, bool), Memory>
        ensures { (s : spec.Part) → IsWatched (P.table protocol.now) s (P.table self.entry.follower.protocol) self.entry.follower.following self.entry.found self.entry.opening self.entry.steps.items
            → IfOk result (λ end. IsPrinted (one_part (P.table protocol.now) (P.names protocol.now) part) part s (printed (Some end.0)) end.1) }
    {
        let Watched {
            follower: _,
            found,
            opening,
            steps,
        } = self;
        lines_are_followed();
        text_of(alloc, protocol, part, &found, opening.as_slice(), steps)
    }
}

impl<'a, P: Protocol> Asks for OnePart<'a, P> {
    type Part = Passed<'a, P>;

    ghost is_printed = { λ a. IsPrinted (one_part (P.table a.protocol.now) (P.names a.protocol.now) a.asked) };

    fn begin(
        &self,
        alloc: Global,
        number: u64,
        opening: Pairs,
        tests: Vec<String>,
    ) -> Result<Passed<'a, P>, Memory> {
        let _ = tests;
        if number != self.asked {
            return Ok(Passed {
                protocol: self.protocol,
                asked: self.asked,
                watched: None,
            });
        }
        let watched = Watched::new(alloc, self.protocol, opening)?;
        Ok(Passed {
            protocol: self.protocol,
            asked: self.asked,
            watched: Some(watched),
        })
    }
}

impl<'a, P: Protocol> Part for Passed<'a, P> {
    ghost asked = { λ p. IsPrinted (one_part (P.table p.protocol.now) (P.names p.protocol.now) p.asked) };

    ghost stands_for = { λ p n s. IsKeptIfAsked p.asked p.watched n
        × IfSome p.watched (λ w. IsWatched (P.table p.protocol.now) s (P.table w.follower.protocol) w.follower.following w.found w.opening w.steps.items) };

    fn step(
        &mut self,
        alloc: Global,
        number: u64,
        event: Event,
        observed: Observed,
    ) -> Result<(), Memory> {
        let _ = alloc;
        match &mut self.watched {
            Some(watched) => watched.take(number, event, observed),
            None => Ok(()),
        }
    }

    fn order(&mut self, txns: Txns) {
        let _ = txns;
    }

    fn end(self, alloc: Global, part: u64) -> Result<(Option<String>, bool), Memory> {
        let Passed {
            protocol,
            asked: _,
            watched,
        } = self;
        match watched {
            Some(watched) => {
                let (text, is_well) = watched.text(alloc, protocol, part)?;
                Ok((Some(text), is_well))
            }
            None => Ok((None, true)),
        }
    }
}
