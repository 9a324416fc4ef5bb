//! Runs of which the replies and the end are kept, and not what the transactions did.
ghost use Rattle.std.specs.Prelude.{◌≡◌, ◌≤◌, None, IfOk, OnOk, All, map};
ghost use Rattle.kr_model.specs.Map.{IsMap};
ghost use Rattle.kr_model.specs.State.{start};
ghost use Rattle.kr_model.specs.Run.{run, replies_of};

use crate::steps::lacks_memory;
use crate::{Played, Replies, Triples};
use kr_index::{Memory, Ordered, Tree};
use kr_locks::{Buckets, Holdings};
use kr_machine::Stepper;
use kr_model::Event;
use kr_protocol::Protocol;
use std::alloc::{AllocError, Global};

/// Runs the events as `run_any` does, and keeps no log of what the transactions did: for a run whose verdict is known
/// beforehand. The only fault is `Memory`: a step that was refused memory ends the run, and nothing of it is shown.
pub fn play<P: Protocol>(
    alloc: Global,
    protocol: &P,
    opening: &[(u64, u64)],
    events: &[Event],
) -> Result<Played, Memory>
    requires { IsMap opening.now }
    ensures replies { IfOk result (λ played. let r = run (P.table protocol.now) (start opening.now) events.now in played.replies ≡ replies_of r.history) }
    ensures index { IfOk result (λ played. let r = run (P.table protocol.now) (start opening.now) events.now in played.index ≡ r.state.map) }
    ensures locks { IfOk result (λ played. let r = run (P.table protocol.now) (start opening.now) events.now in played.locks ≡ r.state.locks) }
    ensures modes { IfOk result (λ played. All (λ l. l.1 ≤ (P.table protocol.now).count) played.locks) }
    ensures unfinished { IfOk result (λ played. let r = run (P.table protocol.now) (start opening.now) events.now in played.unfinished ≡ map (λ a. a.0) r.state.active) }
{
    let index = Tree::from_pairs(alloc, opening)?;
    let mut stepper = Stepper::new(alloc, protocol, index, Buckets::new(alloc));
    play_on(alloc, &mut stepper, events)
}

/// The same, on a machine at rest.
fn play_on<P: Protocol, I: Ordered, L: Holdings>(
    alloc: Global,
    stepper: &mut Stepper<P, I, L>,
    events: &[Event],
) -> Result<Played, Memory>
    requires { stepper.old.pending ≡ None }
    ensures replies { IfOk result (λ played. let r = run (P.table stepper.old.protocol) stepper.old.state events.now in played.replies ≡ replies_of r.history) }
    ensures index { IfOk result (λ played. let r = run (P.table stepper.old.protocol) stepper.old.state events.now in played.index ≡ r.state.map) }
    ensures locks { IfOk result (λ played. let r = run (P.table stepper.old.protocol) stepper.old.state events.now in played.locks ≡ r.state.locks) }
    ensures modes { IfOk result (λ played. All (λ l. l.1 ≤ (P.table stepper.old.protocol).count) played.locks) }
    ensures unfinished { IfOk result (λ played. let r = run (P.table stepper.old.protocol) stepper.old.state events.now in played.unfinished ≡ map (λ a. a.0) r.state.active) }
{
    let replies = step_all(alloc, stepper, events)?;
    show(stepper, replies)
}

/// Attempts the events one after another, and answers the replies. Ends with `Memory` at the first step that is refused
/// memory, or where a reply can't be kept.
fn step_all<P: Protocol, I: Ordered, L: Holdings>(
    alloc: Global,
    stepper: &mut Stepper<P, I, L>,
    events: &[Event],
) -> Result<Replies, Memory>
    requires { stepper.old.pending ≡ None }
    ensures at_rest { stepper.new.pending ≡ None }
    ensures protocol { stepper.new.protocol ≡ stepper.old.protocol }
    ensures replies { IfOk result (λ replies. let r = run (P.table stepper.old.protocol) stepper.old.state events.now in replies ≡ replies_of r.history) }
    ensures state { OnOk result (let r = run (P.table stepper.old.protocol) stepper.old.state events.now in stepper.new.state ≡ r.state) }
{
    let mut replies = Vec::with_capacity(alloc, events.len())?;
    for event in events {
        let reply = stepper.step(event.txn, event.op);
        if lacks_memory(&reply) {
            return Err(AllocError);
        }
        replies.push(reply)?;
    }
    Ok(Replies::from_vec(replies))
}

/// What is shown of a run with these replies.
pub(crate) fn show<P: Protocol, I: Ordered, L: Holdings>(
    stepper: &Stepper<P, I, L>,
    replies: Replies,
) -> Result<Played, Memory>
    requires { stepper.now.pending ≡ None }
    ensures replies { IfOk result (λ played. played.replies ≡ replies) }
    ensures index { IfOk result (λ played. played.index ≡ stepper.now.state.map) }
    ensures locks { IfOk result (λ played. played.locks ≡ stepper.now.state.locks) }
    ensures modes { IfOk result (λ played. All (λ l. l.1 ≤ (P.table stepper.now.protocol).count) played.locks) }
    ensures unfinished { IfOk result (λ played. played.unfinished ≡ map (λ a. a.0) stepper.now.state.active) }
{
    let index = stepper.index()?;
    let locks = Triples::from_vec(stepper.locks()?);
    let unfinished = stepper.unfinished()?;
    Ok(Played {
        replies,
        index,
        locks,
        unfinished,
    })
}
