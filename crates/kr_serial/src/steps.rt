//! The steps of a run.
ghost use Rattle.std.specs.Prelude.{◌≡◌, ◌↔◌, None, IfOk, OnOk, All, IsTrue};
ghost use Rattle.kr_model.specs.declared.Reply.TheVariants as reply_is;
ghost use Rattle.kr_model.specs.declared.Refusal.TheVariants as refusal_is;
ghost use Rattle.kr_model.specs.Run.{run, replies_of};
ghost use Rattle.kr_model.specs.Log.{log_after};

use crate::Replies;
use kr_index::{Memory, Ordered};
use kr_locks::Holdings;
use kr_machine::Machine;
use kr_model::{Event, Refusal, Reply};
use kr_protocol::Protocol;
use std::alloc::{AllocError, Global};

/// Attempts the events one after another, and answers the replies. Ends with `Memory` at the first step that is
/// refused memory, or where a reply can't be kept.
pub fn replay<P: Protocol, I: Ordered, L: Holdings>(
    alloc: Global,
    machine: &mut Machine<P, I, L>,
    events: &[Event],
) -> Result<Replies, Memory>
    requires { machine.old.pending ≡ None }
    ensures at_rest { machine.new.pending ≡ None }
    ensures protocol { machine.new.protocol ≡ machine.old.protocol }
    ensures replies { IfOk result (λ replies. let r = run (P.table machine.old.protocol) machine.old.state events.now in replies ≡ replies_of r.history) }
    ensures state { OnOk result (let r = run (P.table machine.old.protocol) machine.old.state events.now in machine.new.state ≡ r.state) }
    ensures log { OnOk result (let r = run (P.table machine.old.protocol) machine.old.state events.now in machine.new.log ≡ log_after machine.old.log r.history) }
{
    let mut replies = Vec::with_capacity(alloc, events.len())?;
    for event in events {
        let reply = machine.step(event.txn, event.op);
        if lacks_memory(&reply) {
            return Err(AllocError);
        }
        replies.push(reply)?;
    }
    Ok(Replies::from_vec(replies))
}

/// Whether a reply is the refusal `Memory`.
pub(crate) fn lacks_memory(reply: &Reply) -> bool
    ensures { IsTrue result ↔ (reply.now ≡ reply_is.Refused refusal_is.Memory) }
{
    match reply {
        Reply::Refused(Refusal::Memory) => true,
        _ => false,
    }
}
