//! All pairs of lock states that two transactions can have on one name.
ghost use Rattle.std.specs.Prelude.{IfOk};
ghost use Rattle.kr_ghost_decide.specs.Every.{AreAllPairs, HasEvery};
ghost use Rattle.kr_ghost_decide.specs.Found.{IsFound};

use crate::found::Found;
use crate::hold::{PLACES, Pair};
use kr_ghost_protocol::GhostProtocol;
use kr_model::Memory;
use std::alloc::Global;

/// All that two can have, marked.
fn all_found<P: GhostProtocol>(alloc: Global, protocol: &P) -> Result<Found, Memory>
    ensures found { IfOk result (IsFound (P.ghosts protocol.now)) }
    ensures every { IfOk result (λ f. HasEvery (P.ghosts protocol.now) f.marks.items) }
{
    let mut found = Found::new(alloc, protocol)?;
    let mut before = 0;
    while before < found.count {
        before = found.count;
        let heirs = found.heirs(alloc, protocol)?;
        found.pass(protocol, &heirs);
    }
    Ok(found)
}

/// All pairs of lock states that two transactions can have on one name under a protocol, each with whether the key is present,
/// once; the protocol may be unsafe. `Memory` comes only where a growth was refused.
pub fn pairs_of<P: GhostProtocol>(alloc: Global, protocol: &P) -> Result<Vec<Pair>, Memory>
    ensures { IfOk result (λ pairs. AreAllPairs (P.ghosts protocol.now) pairs.items) }
{
    let found = all_found(alloc, protocol)?;
    let mut pairs = Vec::new(alloc);
    for place in 0..PLACES {
        if let Some(pair) = found.at(protocol, place) {
            pairs.push(pair)?;
        }
    }
    Ok(pairs)
}
