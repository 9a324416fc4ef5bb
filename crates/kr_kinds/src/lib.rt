//! Locking protocols of either kind of index: a deleted key goes at once, or stays as a ghost until it is purged. Their steps,
//! runs and theorem are those of the two kinds; and a trait for machines of either.
#![tactic(auto)]

mod gone;
mod leaves;
mod protocol;
mod stepping;

ghost use Rattle.kr_model.specs.Protocol.{Protocol};
ghost use Rattle.kr_ghost.specs.Protocol.{GhostProtocol};
ghost use Rattle.kr_kinds.specs.Kinds.{IndexProtocol, IsCoveredIndex, IsLawfulIndex, IsSafeIndex};
ghost use Rattle.kr_kinds.specs.Runs.{AreRunsOfSteps, AreRunsWithGhosts, RunsAreSerial};
ghost use Rattle.kr_kinds.specs.Steps.{IsNeverRefusedMemory};

pub use gone::Gone;
pub use kr_ghost::{Move, Vain};
pub use kr_ghost_protocol::GhostProtocol;
pub use kr_protocol::{Mode, Protocol, Row, Side, Span};
pub use leaves::Leaves;
pub use protocol::IndexProtocol;
pub use stepping::Stepping;

/// The main theorem for either kind of index: every run under a lawful and safe protocol is serializable in commit order. Where
/// deletes leave ghosts, purges may come at any time.
pub fn safe_runs_are_serial()
    ensures { (p : IndexProtocol) → IsLawfulIndex p → IsSafeIndex p → RunsAreSerial p }
{}

/// A lawful protocol whose cases all hold is safe.
pub fn covered_is_safe()
    ensures { (p : IndexProtocol) → IsLawfulIndex p → IsCoveredIndex p → IsSafeIndex p }
{}

/// A run is one of its protocol's kind: of its steps alone where a deleted key goes at once, and with ghosts where it stays.
pub fn runs_are_of_either_kind()
    ensures gone { (p : Protocol) → AreRunsOfSteps p }
    ensures leaves { (p : GhostProtocol) → AreRunsWithGhosts p }
{}

/// No step's reply is the refusal `Memory`: a failed allocation is an error of `Stepping`, and no reply.
pub fn no_reply_is_memory()
    ensures { (p : IndexProtocol) → IsNeverRefusedMemory p }
{}
