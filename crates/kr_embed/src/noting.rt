//! Steps under a table with ghosts, and the log of them. A step that would have no room in the log isn't done.
ghost use Rattle.std.specs.Prelude.{◌≡◌, false, IfOk, IfSome, IsErr, IsTrue, OnErr, OnOk};
ghost use Rattle.kr_model.specs.Log.{logged};
ghost use Rattle.kr_model.specs.Step.{takes_back};
ghost use Rattle.kr_ghost.specs.Step.{step};
ghost use Rattle.kr_txn.specs.Logs.{MayNote};
ghost use Rattle.kr_cli.specs.GhostTables.{ghosts_of};
ghost use Rattle.kr_kinds.specs.Kinds.{Leaves};
ghost use Rattle.kr_embed.specs.Recorded.{HasRoomFor, IsOwed, settled};
ghost use Rattle.kr_embed.specs.Session.{may_lack};

use kr_cli::AnyGhostTable;
use kr_ghost_machine::GhostStepper;
use kr_locks::Buckets;
use kr_model::{Event, Memory, Op, Reply, Txn};
use kr_txn::Log;

/// Notes the last reply, where it is owed to the log. Takes no memory.
pub(crate) fn settle(log: &mut Log, owed: Option<Event>, last: Reply)
    requires { IfSome owed (IsOwed log.old last) }
    ensures { log.new.log ≡ settled log.old.log owed last }
{
    if let Some(event) = owed {
        log.note(event, last);
    }
}

/// Makes room in the log for a step. An abort needs none, nor does a change undone.
fn make_room(log: &mut Log, txn: Txn, op: Op) -> Result<(), Memory>
    ensures log { log.new.log ≡ log.old.log }
    ensures room { OnOk result (HasRoomFor log.new txn op) }
    ensures err { OnErr result (takes_back op ≡ false) }
{
    match op {
        Op::Abort | Op::Back => Ok(()),
        _ => log.make_room(txn),
    }
}

/// Attempts a step, once the log has room for it. At an error a growth was refused, and nothing has changed.
pub(crate) fn attempt(
    stepper: &mut GhostStepper<AnyGhostTable, Buckets>,
    log: &mut Log,
    txn: Txn,
    op: Op,
) -> Result<Reply, Memory>
    ensures step { IfOk result (λ reply. step (ghosts_of stepper.old.protocol) stepper.old.state txn op ≡ (reply, stepper.new.state)) }
    ensures err { OnErr result (stepper.new ≡ stepper.old) }
    ensures memory { IsErr result → IsTrue (may_lack (Leaves (ghosts_of stepper.old.protocol)) stepper.old.state txn op) }
    ensures protocol { stepper.new.protocol ≡ stepper.old.protocol }
    ensures log { log.new.log ≡ log.old.log }
    ensures room { IfOk result (MayNote log.new (record { txn = txn; op = op })) }
{
    make_room(log, txn, op)?;
    stepper.step(txn, op)
}

/// Notes a reply that ends its transaction. That of an operation is owed: it can wait, and is noted without a copy. Takes no
/// memory.
pub(crate) fn note(log: &mut Log, event: Event, reply: &Reply) -> Option<Event>
    requires { MayNote log.old event reply.now }
    ensures settled { settled log.new.log result reply.now ≡ logged log.old.log (event, reply.now) }
    ensures owed { IfSome result (IsOwed log.new reply.now) }
{
    match reply {
        Reply::Blocked(_) | Reply::Refused(_) | Reply::Undone(_) => None,
        Reply::Committed => {
            log.note(event, Reply::Committed);
            None
        }
        Reply::Aborted => {
            log.note(event, Reply::Aborted);
            None
        }
        _ => Some(event),
    }
}
