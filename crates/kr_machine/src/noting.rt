//! What a log notes of a step.
ghost use Rattle.std.specs.Prelude.{◌≡◌, ℕ, None, Some, IfSome, IfNone, IfOk, OnOk, IsOk, IsTrue, true, false};
ghost use Rattle.kr_model.specs.declared.Reply.TheVariants as reply_is;
ghost use Rattle.kr_model.specs.Step.{takes_no_memory, IsStep};
ghost use Rattle.kr_model.specs.Log.{logged};
ghost use Rattle.kr_model.specs.Run.{is_granted};
ghost use Rattle.kr_txn.specs.Logs.{MayNote};
ghost use Rattle.kr_touch.specs.Parts.{op_of_key};
ghost use Rattle.kr_machine.specs.Logged.{MayKeep, twice, has_list};

use crate::pending::DueReply;
use crate::stepper::Stepper;
use kr_model::{Event, Op, Reply, Txn};
use kr_parts::{Holdings, Memory, Ordered};
use kr_protocol::Protocol;
use kr_touch::parts::{KeyTouch, Part};
use kr_txn::Log;
use std::alloc::Global;

/// Attempts an operation that reads or changes one key, and notes it in a log that has had room made for it.
pub(crate) fn step_key<P: Protocol, I: Ordered, L: Holdings>(
    stepper: &mut Stepper<P, I, L>,
    log: &mut Log,
    txn: Txn,
    touch: KeyTouch,
) -> Reply
    requires at_rest { stepper.old.pending ≡ None }
    requires room { log.old.ready ≡ Some txn }
    ensures step { IsStep (P.table stepper.old.protocol) stepper.old.state txn (op_of_key touch) result stepper.new.state }
    ensures protocol { stepper.new.protocol ≡ stepper.old.protocol }
    ensures at_rest { stepper.new.pending ≡ None }
    ensures log { log.new.log ≡ logged log.old.log (record { txn = txn; op = op_of_key touch }, result) }
{
    let op = touch.op();
    let reply = stepper.step(txn, op);
    note_copy(log, Event { txn, op }, &reply);
    reply
}

/// Notes a copy of a reply, which has a list only where its step isn't granted; the log has had room made for it. Takes no
/// memory.
fn note_copy(log: &mut Log, event: Event, reply: &Reply)
    requires room { log.old.ready ≡ Some event.txn }
    requires plain { has_list reply.now ≡ true → is_granted reply.now ≡ false }
    ensures { log.new.log ≡ logged log.old.log (event, reply.now) }
{
    if let Some(noted) = copy_without_list(reply) {
        log.note(event, noted);
    }
}

/// A copy of a reply that has no list of rows or blockers; `None` where it has one. Takes no memory.
fn copy_without_list(reply: &Reply) -> Option<Reply>
    ensures some { IfSome result (λ copy. copy ≡ reply.now) }
    ensures none { IfNone result (has_list reply.now ≡ true) }
{
    match reply {
        Reply::Found(value) => Some(Reply::Found(*value)),
        Reply::None => Some(Reply::None),
        Reply::Going(key) => Some(Reply::Going(*key)),
        Reply::Done => Some(Reply::Done),
        Reply::Duplicate => Some(Reply::Duplicate),
        Reply::Deleted(value) => Some(Reply::Deleted(*value)),
        Reply::Absent => Some(Reply::Absent),
        Reply::Updated(value) => Some(Reply::Updated(*value)),
        Reply::Committed => Some(Reply::Committed),
        Reply::Aborted => Some(Reply::Aborted),
        Reply::Undone(left) => Some(Reply::Undone(*left)),
        Reply::Refused(refusal) => Some(Reply::Refused(*refusal)),
        Reply::Rows(_) | Reply::Blocked(_) => None,
    }
}

/// Copies of the reply to a change undone. Takes no memory.
fn undone(reply: &Reply) -> DueReply
    requires { (left : ℕ) × (reply.now ≡ reply_is.Undone left) }
    ensures { result ≡ twice reply.now }
{
    match reply {
        Reply::Undone(left) => DueReply {
            noted: Reply::Undone(*left),
            told: Reply::Undone(*left),
        },
        _ => unreachable!(),
    }
}

/// Takes the memory of noting a step with this reply, and gives copies of the reply. The end of an active transaction
/// takes none, nor does a change undone; else the answer is `Memory` where a growth is refused. The log stays.
pub(crate) fn keep(
    alloc: Global,
    log: &mut Log,
    txn: Txn,
    op: Op,
    is_active: bool,
    reply: &Reply,
) -> Result<DueReply, Memory>
    requires { MayKeep log.old op is_active txn reply.now }
    ensures log { log.new.log ≡ log.old.log }
    ensures due { IfOk result (λ due. due ≡ twice reply.now) }
    ensures noted { OnOk result (MayNote log.new (record { txn = txn; op = op }) reply.now) }
    ensures end { IsTrue (takes_no_memory op) → IsTrue is_active → IsOk result }
{
    match Part::of(op) {
        Part::End(ending) => {
            if !is_active {
                log.make_room(txn)?;
            }
            Ok(DueReply {
                noted: ending.reply(),
                told: ending.reply(),
            })
        }
        Part::Back => Ok(undone(reply)),
        Part::Touch(_) => {
            log.make_room(txn)?;
            Ok(DueReply {
                noted: reply.try_copy(alloc)?,
                told: reply.try_copy(alloc)?,
            })
        }
    }
}
