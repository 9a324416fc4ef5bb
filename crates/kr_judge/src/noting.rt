//! Notes of steps in a log of what the transactions did.
ghost use Rattle.std.specs.Prelude.{◌≡◌, OnOk};
ghost use Rattle.kr_model.specs.Log.{logged};

use kr_model::{Event, Memory, Reply};
use kr_txn::Log;
use std::alloc::Global;

/// Notes a step with its reply in a log, and nothing where it was blocked or refused, or undid a change. The only fault is that a
/// growth is refused.
pub fn note(alloc: Global, log: &mut Log, event: Event, reply: &Reply) -> Result<(), Memory>
    ensures { OnOk result (log.new.log ≡ logged log.old.log (event, reply.now)) }
{
    match reply {
        Reply::Blocked(_) | Reply::Refused(_) | Reply::Undone(_) => Ok(()),
        Reply::Aborted => {
            log.note(event, Reply::Aborted);
            Ok(())
        }
        _ => {
            log.make_room(event.txn)?;
            log.note(event, reply.try_copy(alloc)?);
            Ok(())
        }
    }
}
