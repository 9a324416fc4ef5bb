//! All pairs of lock states that two transactions can have on one name.
ghost use Rattle.std.specs.Prelude.{IfOk};
ghost use Rattle.kr_decide.specs.Every.{AreAllPairs};

use crate::finding::Found;
use crate::pair::Pair;
use kr_model::Memory;
use kr_protocol::Protocol;
use std::alloc::Global;

/// All pairs of lock states that two transactions can have on one name under a protocol, each with how it comes about, found
/// breadth first. The only fault is that a growth was refused.
pub fn pairs_of<P: Protocol>(alloc: Global, protocol: &P) -> Result<Vec<Pair>, Memory>
    ensures { IfOk result (λ pairs. AreAllPairs (P.table protocol.now) pairs.items) }
{
    let found = Found::all(alloc, protocol)?;
    Ok(found.pairs)
}
