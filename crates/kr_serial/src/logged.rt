//! Steps with a log of what the transactions did.
ghost use Rattle.std.specs.Prelude.{◌≡◌, [], None, IfOk, OnOk};
ghost use Rattle.kr_model.specs.Run.{run, replies_of};
ghost use Rattle.kr_model.specs.Log.{log_after, no_log};

use crate::Replies;
use crate::steps::lacks_memory;
use kr_index::{Memory, Ordered};
use kr_judge::note;
use kr_locks::Holdings;
use kr_machine::Stepper;
use kr_model::{Event, Programs, Reply};
use kr_protocol::Protocol;
use kr_txn::Log;
use std::alloc::{AllocError, Global};

/// The reply to each step, in the order of the steps, and what each transaction that committed did, in commit order.
#[derive(Drop)]
pub(crate) struct Logged {
    pub(crate) replies: Replies,
    pub(crate) programs: Programs,
}

/// Attempts the events one after another, and notes what they did. Ends with `Memory` at the first step that is refused memory,
/// or where a reply can't be kept.
pub(crate) fn log_all<P: Protocol, I: Ordered, L: Holdings>(
    alloc: Global,
    stepper: &mut Stepper<P, I, L>,
    events: &[Event],
) -> Result<Logged, Memory>
    requires { stepper.old.pending ≡ None }
    ensures at_rest { stepper.new.pending ≡ None }
    ensures protocol { stepper.new.protocol ≡ stepper.old.protocol }
    ensures replies { IfOk result (λ l. let r = run (P.table stepper.old.protocol) stepper.old.state events.now in l.replies ≡ replies_of r.history) }
    ensures state { OnOk result (let r = run (P.table stepper.old.protocol) stepper.old.state events.now in stepper.new.state ≡ r.state) }
    ensures programs { IfOk result (λ l. let r = run (P.table stepper.old.protocol) stepper.old.state events.now in let log = log_after no_log r.history in l.programs ≡ log.committed) }
{
    let mut replies = Vec::with_capacity(alloc, events.len())?;
    let mut log = Log::new(alloc);
    log_each(alloc, stepper, events, &mut log, &mut replies)?;
    Ok(Logged {
        replies: Replies::from_vec(replies),
        programs: log.into_programs(),
    })
}

/// The same, with the log and the replies of the caller.
fn log_each<P: Protocol, I: Ordered, L: Holdings>(
    alloc: Global,
    stepper: &mut Stepper<P, I, L>,
    events: &[Event],
    log: &mut Log,
    replies: &mut Vec<Reply>,
) -> Result<(), Memory>
    requires at_rest { stepper.old.pending ≡ None }
    requires none_yet { replies.old.items ≡ [] }
    ensures at_rest { stepper.new.pending ≡ None }
    ensures protocol { stepper.new.protocol ≡ stepper.old.protocol }
    ensures replies { OnOk result (let r = run (P.table stepper.old.protocol) stepper.old.state events.now in replies.new.items ≡ replies_of r.history) }
    ensures state { OnOk result (let r = run (P.table stepper.old.protocol) stepper.old.state events.now in stepper.new.state ≡ r.state) }
    ensures log { OnOk result (let r = run (P.table stepper.old.protocol) stepper.old.state events.now in log.new.log ≡ log_after log.old.log r.history) }
{
    for event in events {
        let reply = stepper.step(event.txn, event.op);
        if lacks_memory(&reply) {
            return Err(AllocError);
        }
        note(alloc, log, *event, &reply)?;
        replies.push(reply)?;
    }
    Ok(())
}
