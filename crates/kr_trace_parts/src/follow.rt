//! A part held against a table.
ghost use Rattle.std.specs.Prelude.{◌≡◌, ◌↔◌, ◌++◌, ◌∷◌, [], IfOk, IsTrue, None, false, map, string_bytes};
ghost use Rattle.std.specs.Option.{option_map};
ghost use Rattle.kr_trace_follow.specs.Following.{after_lines, begun};
ghost use Rattle.kr_trace_parts.specs.Followed.{IsFollowed};
ghost use Rattle.kr_trace_lines.specs.Report.{part_text};
ghost use Rattle.kr_trace_parts.specs.Printed.{IsPrintedAgainst, IsSerialVerdict, printed};

use crate::asking::{Asks, Part};
use crate::serial::{Judging, is_serial, verdict_of};
use kr_model::{Event, Memory, Pairs, Txns};
use kr_protocol::Protocol;
use kr_trace_follow::{Follower, lines_are_followed};
use kr_trace_lines::{Deviation, Observed, TraceVerdict, write_part};
use std::alloc::Global;

/// Asks whether each reply is the table's, and whether what committed is serializable in commit order.
#[derive(Drop)]
pub struct Against<'a, P: Protocol> {
    pub protocol: &'a P,
}

/// A part that is held against a table.
#[derive(Drop)]
pub struct Followed<'a, P: Protocol> {
    pub protocol: &'a P,
    pub follower: Follower<'a, P>,
    /// The first line that deviates.
    pub found: Option<Deviation>,
    pub tests: Vec<String>,
    pub judging: Judging,
}

/// Whether all is well with a part: no line deviates, and the verdict says that the answers are serializable.
pub fn is_well(found: &Option<Deviation>, verdict: &TraceVerdict) -> bool
    ensures { IsTrue result ↔ ((found.now ≡ None) × IsSerialVerdict verdict.now) }
{
    found.is_none() && is_serial(verdict)
}

/// The line of a part that was held against a table, and whether all is well with it.
fn told<P: Protocol>(
    alloc: Global,
    protocol: &P,
    part: u64,
    found: &Option<Deviation>,
    queued: u64,
    tests: &[String],
    verdict: &TraceVerdict,
) -> Result<(Option<String>, bool), Memory>
    ensures { IfOk result (λ end. (printed end.0 ≡ part_text (P.names protocol.now) part found.now queued (map string_bytes tests.now) verdict.now ++ 10 ∷ [])
        × (IsTrue end.1 ↔ ((found.now ≡ None) × IsSerialVerdict verdict.now))) }
{
    let line = write_part(
        alloc,
        protocol,
        part,
        found.as_ref(),
        queued,
        tests,
        verdict,
    )?;
    Ok((Some(line), is_well(found, verdict)))
}

impl<'a, P: Protocol> Asks for Against<'a, P> {
    type Part = Followed<'a, P>;

    ghost is_printed = { λ a. IsPrintedAgainst (P.table a.protocol.now) (P.names a.protocol.now) };

    fn begin(
        &self,
        alloc: Global,
        number: u64,
        opening: Pairs,
        tests: Vec<String>,
    ) -> Result<Followed<'a, P>, Memory> {
        let _ = number;
        let judging = Judging::new(alloc, opening.as_slice())?;
        let follower = Follower::new(alloc, self.protocol, opening.as_slice())?;
        Ok(Followed {
            protocol: self.protocol,
            follower,
            found: None,
            tests,
            judging,
        })
    }
}

impl<'a, P: Protocol> Part for Followed<'a, P> {
    ghost asked = { λ p. IsPrintedAgainst (P.table p.protocol.now) (P.names p.protocol.now) };

    ghost stands_for = { λ p _ s. IsFollowed (P.table p.protocol.now) s (P.table p.follower.protocol) p.follower.following p.found (map string_bytes p.tests.items) p.judging.tales p.judging.judge.map p.judging.found };

    fn step(
        &mut self,
        alloc: Global,
        number: u64,
        event: Event,
        observed: Observed,
    ) -> Result<(), Memory> {
        self.found = self.follower.line(number, event, &observed)?;
        self.judging.take(alloc, event, observed)
    }

    fn order(&mut self, txns: Txns) {
        let _ = txns;
    }

    fn end(self, alloc: Global, part: u64) -> Result<(Option<String>, bool), Memory> {
        let Followed {
            protocol,
            follower,
            found,
            tests,
            judging,
        } = self;
        let verdict = verdict_of(judging.found);
        let queued = follower.queued();
        lines_are_followed();
        told(
            alloc,
            protocol,
            part,
            &found,
            queued,
            tests.as_slice(),
            &verdict,
        )
    }
}
