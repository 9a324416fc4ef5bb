//! The machines that stories are told on.
ghost use Rattle.std.specs.Prelude.{◌≡◌, None, IfOk};

use super::story::Opening;
use kr_index::Sorted;
use kr_locks::{List, Memory};
use kr_machine::Machine;
use kr_protocol::Protocol;
use kr_test_support::{Countdown, ScarceIndex, ScarceLocks};
use std::alloc::Global;

/// A machine at the plain index and lock table.
pub fn plain<P: Protocol>(
    alloc: Global,
    protocol: P,
    opening: Opening,
) -> Result<Machine<P, Sorted, List>, Memory>
    ensures { IfOk result (λ machine. machine.pending ≡ None) }
{
    let index = Sorted::from_pairs(alloc, opening.pairs())?;
    Ok(Machine::new(alloc, protocol, index, List::new(alloc)))
}

/// A machine whose index and lock table refuse memory once each, after so many calls.
pub fn scarce<P: Protocol>(
    alloc: Global,
    protocol: P,
    opening: Opening,
    index_calls: Option<u32>,
    locks_calls: Option<u32>,
) -> Result<Machine<P, ScarceIndex, ScarceLocks>, Memory>
    ensures { IfOk result (λ machine. machine.pending ≡ None) }
{
    let index = ScarceIndex {
        index: Sorted::from_pairs(alloc, opening.pairs())?,
        memory: Countdown::new(index_calls),
    };
    let locks = ScarceLocks {
        list: List::new(alloc),
        memory: Countdown::new(locks_calls),
    };
    Ok(Machine::new(alloc, protocol, index, locks))
}
