//! A step that has its memory and is not done yet.
ghost use Rattle.std.specs.Prelude.{◌≡◌};

use kr_model::{Event, Reply};
use kr_touch::granted::GrantedTouch;
use kr_touch::parts::Ending;
use kr_txn::Standing;
use std::marker::Model;

/// What the machine keeps of the step.
#[derive(Drop)]
pub(crate) struct Pending {
    /// What is attempted, and by which transaction.
    pub(crate) event: Event,
    /// How the transaction stands before the step; it isn't in the machine's list meanwhile.
    pub(crate) standing: Standing,
    /// Whether the transaction was active before the step.
    pub(crate) was_active: bool,
    /// What the operation of the event comes to, with what it was granted.
    pub(crate) part: PendingPart,
}

/// What a pending step comes to.
#[derive(Drop)]
pub(crate) enum PendingPart {
    /// Its transaction ends.
    End(Ending),
    /// The newest change is undone.
    Back,
    /// It requested locks, and was granted them.
    Touch(GrantedTouch),
}

/// A step that is ready, with its reply. The machine that gave it must do it or give it up: it can't be dropped.
pub struct Ready {
    pub(crate) event: Event,
    pub(crate) reply: Reply,
}

impl Model for Ready {
    ghost use Rattle.kr_machine.specs.Due.{Due, due_code};
    ghost use Rattle.kr_model.specs.contracts.Event as event_type;
    ghost use Rattle.kr_model.specs.contracts.Reply as reply_type;

    ghost Value = { Due };

    ghost coded = { due_code event_type.the_row.coded reply_type.the_row.coded };

    ghost view = { λ r. record { event = r.event; reply = r.reply } };

    ghost inverse = { λ d. record { event = d.event; reply = d.reply } };
}

/// The reply of a step that is ready, as the machine keeps it.
#[derive(Drop)]
pub struct DueReply {
    /// For the log.
    pub noted: Reply,
    /// For the caller.
    pub told: Reply,
}

impl Ready {
    /// The reply that the step has if it is done.
    pub fn reply(&self) -> &Reply
        ensures { result.now ≡ self.now.reply }
    {
        &self.reply
    }
}
