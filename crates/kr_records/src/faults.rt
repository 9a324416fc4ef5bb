//! What a core and a seat answer.
ghost use Rattle.std.specs.Prelude.{◌≡◌};
ghost use Rattle.kr_records.specs.Faults.{fault_of as the_fault, is_refusal as refusal, is_blocked as blocked};

use kr_model::{Event, Refusal, Reply, Txns};

/// Why nothing was done.
#[derive(Debug, Drop)]
pub enum EngineFault {
    /// A cycle of waiting transactions, the requester first: each waits for the next, the last for the requester.
    Deadlock(Txns),
    /// All places of the row are used or kept for the ends of transactions.
    RowFull,
    /// The machine refused the step, or it was blocked.
    Refused(Reply),
    /// A growth was refused.
    Memory,
    /// The number was begun before.
    Taken,
    /// The seat speaks for no transaction. A seat answers so, and never the core.
    NotBegun,
    /// The transaction that the seat began last is active.
    Open,
    /// The next place refused the write; or, of a seat, the core's record of the seat isn't the seat's.
    PlaceTaken,
}

impl EngineFault {
    /// Whether the machine refused or blocked the step.
    pub fn is_refusal(&self) -> bool
        ensures { result ≡ refusal self.now }
    {
        matches!(self, EngineFault::Refused(_))
    }

    /// Whether the step is blocked.
    pub fn is_blocked(&self) -> bool
        ensures { result ≡ blocked self.now }
    {
        matches!(self, EngineFault::Refused(Reply::Blocked(_)))
    }
}

/// What a step did: the place of its entry in the row, the event and its reply.
#[derive(Debug, Drop)]
pub struct Receipt {
    /// The place, from 0.
    pub place: usize,
    pub event: Event,
    pub reply: Reply,
}

/// What an attempt of a seat comes to.
pub type Attempted = Result<Receipt, EngineFault>;

/// The fault that tells a reply which wasn't granted.
pub fn fault_of(reply: Reply) -> EngineFault
    ensures { result ≡ the_fault reply }
{
    match reply {
        Reply::Refused(Refusal::Memory) => EngineFault::Memory,
        reply => EngineFault::Refused(reply),
    }
}
