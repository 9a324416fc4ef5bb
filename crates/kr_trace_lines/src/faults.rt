//! Why the bytes of a line are no line of a trace, or why the line may not stand where it does.
ghost use Rattle.std.specs.Prelude.{◌≡◌};
ghost use Rattle.kr_trace_lines.specs.declared.faults.LineFault.TheVariants as fault;
ghost use Rattle.kr_trace_lines.specs.Faults.{fault_number, fault_name};

use std::alloc::AllocError;
use thiserror::Error;

/// Why bytes are no line of a trace, or why the line may not stand where it does. A fault is shown by its number and its
/// name, as `fault 6 Step`.
#[derive(Clone, Copy, Debug, PartialEq, Eq, Error)]
pub enum LineFault {
    /// The line has more than 16,777,216 bytes. Whoever cuts the trace into lines tells this.
    #[error("fault 1 TooLong")]
    TooLong,
    /// The bytes are no JSON text, or nest deeper than 127.
    #[error("fault 2 NotJson")]
    NotJson,
    /// The format of a head is a whole number other than 1.
    #[error("fault 3 Format")]
    Format,
    /// A head has an unknown member, or lacks one, or has one of the wrong kind; or so has an order; or no head comes before
    /// a step or an order.
    #[error("fault 4 Field")]
    Field,
    /// An element of a head's opening is no pair of whole numbers, or its key isn't above the one before it.
    #[error("fault 5 Opening")]
    Opening,
    /// The line is no array of two, or the first of these is no step of a script of format 2.
    #[error("fault 6 Step")]
    Step,
    /// A head's opening has more than 100,000 pairs.
    #[error("fault 7 TooMany")]
    TooMany,
    /// A growth was refused.
    #[error("fault 8 Memory")]
    Memory,
    /// The reply is none that such a step can have.
    #[error("fault 9 Reply")]
    Reply,
    /// An order doesn't have each committed transaction of its part once; or a step or an order stands behind it.
    #[error("fault 10 Order")]
    Order,
    /// A step of a transaction that has committed or aborted in this part.
    #[error("fault 11 Ended")]
    Ended,
}

impl LineFault {
    /// The number of the kind of fault, 1 to 11.
    pub fn number(&self) -> u8
        ensures { result ≡ fault_number self.now }
    {
        match self {
            LineFault::TooLong => 1,
            LineFault::NotJson => 2,
            LineFault::Format => 3,
            LineFault::Field => 4,
            LineFault::Opening => 5,
            LineFault::Step => 6,
            LineFault::TooMany => 7,
            LineFault::Memory => 8,
            LineFault::Reply => 9,
            LineFault::Order => 10,
            LineFault::Ended => 11,
        }
    }

    /// The name of the kind of fault.
    pub fn name(&self) -> &'static str
        ensures { result.now ≡ fault_name self.now }
    {
        match self {
            LineFault::TooLong => "TooLong",
            LineFault::NotJson => "NotJson",
            LineFault::Format => "Format",
            LineFault::Field => "Field",
            LineFault::Opening => "Opening",
            LineFault::Step => "Step",
            LineFault::TooMany => "TooMany",
            LineFault::Memory => "Memory",
            LineFault::Reply => "Reply",
            LineFault::Order => "Order",
            LineFault::Ended => "Ended",
        }
    }
}

impl From<AllocError> for LineFault {
    ghost from_gives = { λ _ e. e ≡ fault.Memory };

    fn from(_error: AllocError) -> LineFault {
        LineFault::Memory
    }
}
