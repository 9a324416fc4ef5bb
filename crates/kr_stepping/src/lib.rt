//! A machine for each kind of index, behind one trait, and whole runs by the kind of a protocol.
#![tactic(auto)]

mod gone;
mod leaves;
mod noted;
mod played;
mod runs;

ghost use Rattle.kr_model.specs.Protocol.{Protocol};
ghost use Rattle.kr_ghost.specs.Protocol.{GhostProtocol};
ghost use Rattle.kr_stepping.specs.Answers.{AreAnswersOfSteps, AreAnswersWithGhosts};
ghost use Rattle.kr_stepping.specs.Played.{AreRepliesOfSteps, AreRepliesWithGhosts};

pub use gone::GoneStepper;
pub use kr_ghost_run::{Answer, GhostRan};
pub use kr_model::{Memory, Mode, Name, Txn};
pub use leaves::LeavingStepper;
pub use noted::{Noted, note_all};
pub use played::play_any;
pub use runs::run_any;

/// The answers of a run are those of its protocol's kind: where a deleted key goes at once the replies to its steps, with no
/// purge done, and where it stays those with ghosts.
pub fn answers_are_of_either_kind()
    ensures gone { (p : Protocol) → AreAnswersOfSteps p }
    ensures leaves { (p : GhostProtocol) → AreAnswersWithGhosts p }
{}

/// The replies to events with no purge between them are those of the protocol's kind: of its steps alone where a deleted key goes at
/// once, and with ghosts where it stays.
pub fn replies_are_of_either_kind()
    ensures gone { (p : Protocol) → AreRepliesOfSteps p }
    ensures leaves { (p : GhostProtocol) → AreRepliesWithGhosts p }
{}
