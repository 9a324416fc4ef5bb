//! A step that is done only if its reply is accepted.
ghost use Rattle.kr_machine.specs.declared.accepted.NotDone.TheVariants as not_done_is;
ghost use Rattle.kr_model.specs.declared.Reply.TheVariants as reply_is;
ghost use Rattle.kr_model.specs.declared.Refusal.TheVariants as refusal_is;

use kr_model::{Refusal, Reply};
use kr_parts::Memory;

/// Why a step wasn't done.
#[derive(Drop)]
pub enum NotDone<E> {
    /// It was refused or blocked, with this reply.
    NotGranted(Reply),
    /// Its reply wasn't accepted.
    Declined(E),
}

impl<E> From<Memory> for NotDone<E> {
    ghost use Rattle.std.specs.Prelude.{◌≡◌};

    ghost from_gives = { λ _ n. n ≡ not_done_is.NotGranted (reply_is.Refused refusal_is.Memory) };

    fn from(_refused: Memory) -> NotDone<E> {
        NotDone::NotGranted(Reply::Refused(Refusal::Memory))
    }
}
