//! What a reply means to a log.
ghost use Rattle.std.specs.Prelude.{◌≡◌};
ghost use Rattle.kr_model.specs.declared.Event.{Event};
ghost use Rattle.kr_model.specs.Log.{Log, logged};
ghost use Rattle.kr_txn.specs.Logs.{logged_as, LogWithRoom, MayNote, MayNoteAs};

use kr_model::Reply;

/// What a reply means to a log.
#[derive(Clone, Copy, Debug, PartialEq, Eq)]
pub enum Logging {
    /// The transaction did an operation, or went on with one.
    Operation,
    /// It committed.
    Committing,
    /// It aborted.
    Aborting,
    /// Nothing happened.
    Nothing,
}

/// What this reply means to a log.
pub fn what_to_log(reply: &Reply) -> Logging
    ensures logged { (l : Log) (e : Event) → logged l (e, reply.now) ≡ logged_as result l e reply.now }
    ensures may_note { (l : LogWithRoom) (e : Event) → MayNote l e reply.now → MayNoteAs result l e }
{
    match reply {
        Reply::Found(_) => Logging::Operation,
        Reply::None => Logging::Operation,
        Reply::Going(_) => Logging::Operation,
        Reply::Rows(_) => Logging::Operation,
        Reply::Done => Logging::Operation,
        Reply::Duplicate => Logging::Operation,
        Reply::Deleted(_) => Logging::Operation,
        Reply::Absent => Logging::Operation,
        Reply::Updated(_) => Logging::Operation,
        Reply::Committed => Logging::Committing,
        Reply::Aborted => Logging::Aborting,
        Reply::Undone(_) => Logging::Nothing,
        Reply::Blocked(_) => Logging::Nothing,
        Reply::Refused(_) => Logging::Nothing,
    }
}
