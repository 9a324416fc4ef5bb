//! Why bytes are no script.
ghost use Rattle.std.specs.Prelude.{◌≡◌};
ghost use Rattle.kr_script.specs.Faults.{fault_number, fault_name};

use thiserror::Error;

/// Why bytes are no script: the first of all their faults. They come in this order: those of the
/// bytes as JSON, of the value as an object, of `format`, of unknown members (the least name in the
/// order of bytes), of `opening` and then `steps` as arrays, of the size of `opening` and then of
/// `steps`, of the elements of `opening`, of the elements of `steps`. A fault is shown by its
/// number, its name and, where it has one, its place, as `fault 6 Step at 0`.
#[derive(Debug, Drop, Error)]
pub enum ScriptFault {
    /// There are more than 16,777,216 bytes.
    #[error("fault 1 TooLong")]
    TooLong,
    /// The bytes are no JSON text, or nest deeper than 127.
    #[error("fault 2 NotJson")]
    NotJson,
    /// The format is a whole number other than 1 and 2.
    #[error("fault 3 Format")]
    Format,
    /// The member of this name is unknown, missing or of the wrong kind; with the empty name, the
    /// document is no object.
    #[error("fault 4 Field at {0}")]
    Field(String),
    /// The element at this index of `opening`, from 0, is no pair of whole numbers, or its key
    /// isn't above the one before it.
    #[error("fault 5 Opening at {0}")]
    Opening(usize),
    /// The element at this index of `steps`, from 0, has the form of no step of the script's format.
    #[error("fault 6 Step at {0}")]
    Step(usize),
    /// The member of this name has more than 100,000 elements.
    #[error("fault 7 TooMany at {0}")]
    TooMany(String),
    /// A growth was refused.
    #[error("fault 8 Memory")]
    Memory,
}

impl ScriptFault {
    /// The number of the kind of fault, 1 to 8.
    pub fn number(&self) -> u8
        ensures { result ≡ fault_number self.now }
    {
        match self {
            ScriptFault::TooLong => 1,
            ScriptFault::NotJson => 2,
            ScriptFault::Format => 3,
            ScriptFault::Field(_) => 4,
            ScriptFault::Opening(_) => 5,
            ScriptFault::Step(_) => 6,
            ScriptFault::TooMany(_) => 7,
            ScriptFault::Memory => 8,
        }
    }

    /// The name of the kind of fault.
    pub fn name(&self) -> &'static str
        ensures { result.now ≡ fault_name self.now }
    {
        match self {
            ScriptFault::TooLong => "TooLong",
            ScriptFault::NotJson => "NotJson",
            ScriptFault::Format => "Format",
            ScriptFault::Field(_) => "Field",
            ScriptFault::Opening(_) => "Opening",
            ScriptFault::Step(_) => "Step",
            ScriptFault::TooMany(_) => "TooMany",
            ScriptFault::Memory => "Memory",
        }
    }
}
