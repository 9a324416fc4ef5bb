//! The replies to events under a protocol of either kind.
ghost use Rattle.std.specs.Prelude.{◌≡◌, false, true, IfOk};
ghost use Rattle.kr_model.specs.Map.{IsMap};
ghost use Rattle.kr_ghost.specs.State.{opened};
ghost use Rattle.kr_kinds.specs.Kinds.{leaves_ghosts};
ghost use Rattle.kr_stepping.specs.Played.{replies_from};

use crate::gone::GoneStepper;
use crate::leaves::LeavingStepper;
use kr_ghost_index::GhostIndex;
use kr_index::Tree;
use kr_kinds::{IndexProtocol, Stepping};
use kr_locks::Buckets;
use kr_model::{Event, Memory, Reply};
use std::alloc::Global;

/// The replies to events that are attempted one after another under a protocol of either kind, from an opening map whose keys rise
/// strictly, with no ghosts. No purge comes between them. The only error is `Memory`: an allocation failed.
pub fn play_any<P: IndexProtocol>(
    alloc: Global,
    protocol: &P,
    opening: &[(u64, u64)],
    events: &[Event],
) -> Result<Vec<Reply>, Memory>
    requires { IsMap opening.now }
    ensures { IfOk result (λ replies. replies.items ≡ replies_from (P.index protocol.now) (opened opening.now) events.now) }
{
    if protocol.leaves_ghosts() {
        play_leaving(alloc, protocol, opening, events)
    } else {
        play_gone(alloc, protocol, opening, events)
    }
}

/// The same where a deleted key stays as a ghost.
fn play_leaving<P: IndexProtocol>(
    alloc: Global,
    protocol: &P,
    opening: &[(u64, u64)],
    events: &[Event],
) -> Result<Vec<Reply>, Memory>
    requires is_map { IsMap opening.now }
    requires leaves { leaves_ghosts (P.index protocol.now) ≡ true }
    ensures { IfOk result (λ replies. replies.items ≡ replies_from (P.index protocol.now) (opened opening.now) events.now) }
{
    let index = GhostIndex::from_pairs(alloc, opening)?;
    let mut stepper = LeavingStepper::new(alloc, protocol, index, Buckets::new(alloc));
    play_on(alloc, &mut stepper, events)
}

/// The same where a deleted key goes at once.
fn play_gone<P: IndexProtocol>(
    alloc: Global,
    protocol: &P,
    opening: &[(u64, u64)],
    events: &[Event],
) -> Result<Vec<Reply>, Memory>
    requires is_map { IsMap opening.now }
    requires gone { leaves_ghosts (P.index protocol.now) ≡ false }
    ensures { IfOk result (λ replies. replies.items ≡ replies_from (P.index protocol.now) (opened opening.now) events.now) }
{
    let index = Tree::from_pairs(alloc, opening)?;
    let mut stepper = GoneStepper::new(alloc, protocol, index, Buckets::new(alloc));
    play_on(alloc, &mut stepper, events)
}

/// The replies to events on a machine, from the state that it is in.
fn play_on<M: Stepping>(
    alloc: Global,
    stepper: &mut M,
    events: &[Event],
) -> Result<Vec<Reply>, Memory>
    ensures { IfOk result (λ replies. replies.items ≡ replies_from (M.index stepper.old) (M.state stepper.old) events.now) }
{
    let mut replies = Vec::with_capacity(alloc, events.len())?;
    for event in events {
        let reply = stepper.step(event.txn, event.op)?;
        replies.push(reply)?;
    }
    Ok(replies)
}
