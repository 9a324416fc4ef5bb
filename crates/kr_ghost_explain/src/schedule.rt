//! A schedule that goes wrong, with its script as a line of JSON.
ghost use Rattle.std.specs.Prelude.{◌≢◌, All, IfOk, IfSome, IsTrue, string_bytes};
ghost use Rattle.kr_ghost_explain.specs.Lines.{IsGhostLineOf};
ghost use Rattle.kr_ghost_explain.specs.Wrong.{GoesWrongBy};

use crate::draft::Draft;
use crate::judging::goes_wrong;
use crate::search::search;
use kr_ghost::Move;
use kr_ghost_protocol::GhostProtocol;
use kr_model::Memory;
use kr_script::{
    GhostScript, read_ghost_script, separator, write_pairs, write_step, write_with_number,
};
use std::alloc::Global;

/// A schedule that goes wrong.
#[derive(Drop)]
pub struct GhostSchedule {
    /// Its opening map and its moves.
    pub script: GhostScript,
    /// Its script as a line of JSON, with no line feed.
    pub line: String,
    ghost reads: { IsGhostLineOf script (string_bytes line) },
}

/// A schedule that goes wrong under a protocol, if one is found: the search is bounded. The only fault is that a growth was refused.
pub(crate) fn found_schedule<P: GhostProtocol>(
    alloc: Global,
    protocol: &P,
) -> Result<Option<GhostSchedule>, Memory>
    ensures { IfOk result (λ found. IfSome found (λ s. GoesWrongBy (P.ghosts protocol.now) s.script.opening s.script.moves)) }
{
    match search(alloc, protocol)? {
        Some(draft) => {
            let line = line_of(alloc, &draft)?;
            schedule_of(alloc, protocol, line)
        }
        None => Ok(None),
    }
}

/// The schedule whose script a line reads as, if it goes wrong.
fn schedule_of<P: GhostProtocol>(
    alloc: Global,
    protocol: &P,
    line: String,
) -> Result<Option<GhostSchedule>, Memory>
    ensures { IfOk result (λ found. IfSome found (λ s. GoesWrongBy (P.ghosts protocol.now) s.script.opening s.script.moves)) }
{
    let Ok(script) = read_ghost_script(alloc, line.as_bytes()) else {
        return Ok(None);
    };
    if has_no_line_feed(line.as_bytes())
        && goes_wrong(alloc, protocol, script.opening(), script.moves())?
    {
        Ok(Some(GhostSchedule { script, line }))
    } else {
        Ok(None)
    }
}

/// Whether none of the bytes is a line feed.
fn has_no_line_feed(bytes: &[u8]) -> bool
    ensures { IsTrue result → All (λ b. b ≢ 10) bytes.now }
{
    bytes.iter().all(|byte| *byte != b'\n')
}

/// A script as a line of JSON.
fn line_of(alloc: Global, draft: &Draft) -> Result<String, Memory> {
    let mut line = String::from_str(alloc, "{\"format\":3,\"opening\":")?;
    write_pairs(&mut line, &draft.opening)?;
    line.push_str(",\"steps\":[")?;
    for (at, next) in draft.moves.iter().enumerate() {
        line.push_str(separator(at > 0))?;
        match next {
            Move::Attempt(event) => write_step(&mut line, *event)?,
            Move::Purge(key) => write_with_number(&mut line, "[\"purge\",", *key)?,
        }
    }
    line.push_str("]}")?;
    Ok(line)
}
