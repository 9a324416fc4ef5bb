//! A part held against a table with ghosts.
ghost use Rattle.std.specs.Prelude.{◌≡◌, ◌↔◌, ◌++◌, ◌∷◌, [], IfOk, IsTrue, None, map, string_bytes};
ghost use Rattle.kr_ghost_follow.specs.Report.{ghost_part_text};
ghost use Rattle.kr_cli_trace.specs.Ghosts.{AreFollowed};
ghost use Rattle.kr_trace_parts.specs.Printed.{IsSerialVerdict, printed};
ghost use Rattle.kr_cli_trace.specs.Printed.{IsPrinted, against_ghosts};

use kr_ghost_follow::{Follower, write_ghost_part};
use kr_ghost_protocol::GhostProtocol;
use kr_model::{Event, Memory, Pairs, Txns};
use kr_trace_lines::{Deviation, Observed, TraceVerdict};
use kr_trace_parts::{Asks, Judging, Part, is_well, verdict_of};
use std::alloc::Global;

/// Asks whether a state of the table stands beside each reply, and whether what committed is serializable in commit order.
#[derive(Drop)]
pub(crate) struct AgainstGhosts<'a, P: GhostProtocol> {
    pub(crate) protocol: &'a P,
}

/// A part that is held against a table with ghosts.
#[derive(Drop)]
pub(crate) struct FollowedGhosts<'a, P: GhostProtocol> {
    pub(crate) protocol: &'a P,
    pub(crate) follower: Follower<'a, P>,
    /// The line beside which no state stands.
    pub(crate) found: Option<Deviation>,
    pub(crate) tests: Vec<String>,
    pub(crate) judging: Judging,
}

/// The line of a part that was held against a table with ghosts, and whether all is well with it.
fn told<P: GhostProtocol>(
    alloc: Global,
    protocol: &P,
    part: u64,
    found: &Option<Deviation>,
    queued: u64,
    states: u64,
    cut: Option<u64>,
    tests: &[String],
    verdict: &TraceVerdict,
) -> Result<(Option<String>, bool), Memory>
    ensures { IfOk result (λ end. (printed end.0 ≡ ghost_part_text (P.names protocol.now) part found.now queued states cut (map string_bytes tests.now) verdict.now ++ 10 ∷ [])
        × (IsTrue end.1 ↔ ((found.now ≡ None) × IsSerialVerdict verdict.now))) }
{
    let line = write_ghost_part(
        alloc,
        protocol,
        part,
        found.as_ref(),
        queued,
        states,
        cut,
        tests,
        verdict,
    )?;
    Ok((Some(line), is_well(found, verdict)))
}

impl<'a, P: GhostProtocol> Asks for AgainstGhosts<'a, P> {
    type Part = FollowedGhosts<'a, P>;

    ghost is_printed = { λ a. IsPrinted (against_ghosts (P.ghosts a.protocol.now) (P.names a.protocol.now)) };

    fn begin(
        &self,
        alloc: Global,
        number: u64,
        opening: Pairs,
        tests: Vec<String>,
    ) -> Result<FollowedGhosts<'a, P>, Memory> {
        let _ = number;
        let judging = Judging::new(alloc, opening.as_slice())?;
        let follower = Follower::new(alloc, self.protocol, opening.as_slice())?;
        Ok(FollowedGhosts {
            protocol: self.protocol,
            follower,
            found: None,
            tests,
            judging,
        })
    }
}

impl<'a, P: GhostProtocol> Part for FollowedGhosts<'a, P> {
    ghost asked = { λ p. IsPrinted (against_ghosts (P.ghosts p.protocol.now) (P.names p.protocol.now)) };

    ghost stands_for = { λ p _ s. AreFollowed P.ghosts p.protocol.now s p.follower p.found (map string_bytes p.tests.items) p.judging.tales p.judging.judge.map p.judging.found };

    fn step(
        &mut self,
        alloc: Global,
        number: u64,
        event: Event,
        observed: Observed,
    ) -> Result<(), Memory> {
        self.found = self.follower.line(alloc, number, event, &observed)?;
        self.judging.take(alloc, event, observed)
    }

    fn order(&mut self, txns: Txns) {
        let _ = txns;
    }

    fn end(self, alloc: Global, part: u64) -> Result<(Option<String>, bool), Memory> {
        let FollowedGhosts {
            protocol,
            follower,
            found,
            tests,
            judging,
        } = self;
        let verdict = verdict_of(judging.found);
        told(
            alloc,
            protocol,
            part,
            &found,
            follower.queued(),
            follower.states(),
            follower.cut(),
            tests.as_slice(),
            &verdict,
        )
    }
}
