//! Whether a schedule with purges goes wrong.
ghost use Rattle.std.specs.Prelude.{◌≡◌, Decides, IfOk, IsTrue, All};
ghost use Rattle.std.specs.List.{list_all};
ghost use Rattle.kr_model.specs.Map.{IsMap};
ghost use Rattle.kr_model.specs.Run.{is_granted};
ghost use Rattle.kr_model.specs.Serial.{AreSerial};
ghost use Rattle.kr_ghost_explain.specs.Wrong.{GoesWrongBy, is_done};

use kr_ghost::Move;
use kr_ghost_protocol::GhostProtocol;
use kr_ghost_run::{Answer, GhostRan, run_moves};
use kr_judge::{is_map, judge_programs};
use kr_model::{Memory, Reply};
use std::alloc::Global;

/// Whether these moves go wrong under a protocol, from an opening map: the keys of the map rise strictly, no step is blocked or
/// refused, each purge takes its ghost away, and yet the transactions that commit aren't serializable in commit order. The only
/// fault is that a growth was refused.
pub fn goes_wrong<P: GhostProtocol>(
    alloc: Global,
    protocol: &P,
    opening: &[(u64, u64)],
    moves: &[Move],
) -> Result<bool, Memory>
    ensures { IfOk result (λ wrong. Decides wrong (GoesWrongBy (P.ghosts protocol.now) opening.now moves.now)) }
{
    if !is_map(opening) {
        return Ok(false);
    }
    let ran = run_moves(alloc, protocol, opening, moves)?;
    is_wrong(alloc, opening, &ran)
}

/// Whether each answer of a run is granted, and its programs aren't serializable from its opening map.
fn is_wrong(alloc: Global, opening: &[(u64, u64)], ran: &GhostRan) -> Result<bool, Memory>
    requires { IsMap opening.now }
    ensures { IfOk result (λ wrong. Decides wrong (All (λ a. IsTrue (is_done a)) ran.now.answers × (AreSerial opening.now ran.now.programs → ⊥))) }
{
    if !are_done(ran.answers.as_slice()) {
        return Ok(false);
    }
    Ok(!judge_programs(alloc, opening, ran.programs.as_slice())?.is_serial())
}

/// Whether each of these was done.
fn are_done(answers: &[Answer]) -> bool
    ensures { result ≡ list_all is_done answers.now }
{
    answers.iter().all(is_done)
}

/// Whether a step was neither blocked nor refused, or a purge took its ghost away.
fn is_done(answer: &Answer) -> bool
    ensures { result ≡ is_done answer.now }
{
    match answer {
        Answer::Step(reply) => is_granted(reply),
        Answer::Purge(is_purged) => *is_purged,
    }
}

/// Whether a reply is neither blocked nor refused.
pub(crate) fn is_granted(reply: &Reply) -> bool
    ensures { result ≡ is_granted reply.now }
{
    !matches!(reply, Reply::Blocked(_) | Reply::Refused(_))
}
