//! Why bytes are no table.
ghost use Rattle.std.specs.Prelude.{◌≡◌};
ghost use Rattle.kr_table.specs.Faults.{fault_number, fault_name};

use thiserror::Error;

/// A table has no more bytes, as it is read and as it is written.
pub(crate) const MAX_BYTES: usize = 65_536;

/// Why bytes are no table: the first of all their faults. They come in this order: those of the
/// bytes as TOML, of `format`, of unknown members (the least name in the order of bytes), of
/// `modes`, `compatible`, `convert` and `rules` as an array and tables, of the number of modes, of
/// their names, of the entries of `compatible`, of those of `convert`, of the rows of `rules`. A
/// path is the names that lead to a place, joined by points. A fault is shown by its number, its
/// name and, where it has one, its path or index, as `fault 6 ModeName at 3`.
#[derive(Debug, Drop, Error)]
pub enum TableFault {
    /// There are more than 65,536 bytes.
    #[error("fault 1 TooLong")]
    TooLong,
    /// The bytes are no TOML document.
    #[error("fault 2 NotToml")]
    NotToml,
    /// The format is a whole number that the reader doesn't take: [`read`](crate::read) takes 1 and 2.
    #[error("fault 3 Format")]
    Format,
    /// The member of this name is unknown, missing or of the wrong kind.
    #[error("fault 4 Field at {0}")]
    Field(String),
    /// There are no modes, or more than 15.
    #[error("fault 5 ModeCount")]
    ModeCount,
    /// The element at this index of `modes`, from 0, isn't text of 1 to 24 bytes from 32 to 126, is
    /// `none`, or stands there before.
    #[error("fault 6 ModeName at {0}")]
    ModeName(usize),
    /// The entry of `compatible` at this path is missing, is no array of names of modes, or isn't at
    /// the name of a mode.
    #[error("fault 7 Compatible at {0}")]
    Compatible(String),
    /// The entry or the pair of `convert` at this path is missing, is no table or no name of a mode,
    /// or isn't at the name of a mode.
    #[error("fault 8 Convert at {0}")]
    Convert(String),
    /// The row, side or clause of `rules` at this path is unknown or of the wrong kind, or has a
    /// word or a name that is unknown or missing.
    #[error("fault 9 Rule at {0}")]
    Rule(String),
    /// The clause at this path has an `own`, in a row that doesn't go by the own mode.
    #[error("fault 10 OwnNotAllowed at {0}")]
    OwnNotAllowed(String),
    /// A growth was refused.
    #[error("fault 11 Memory")]
    Memory,
}

impl TableFault {
    /// The name of the kind of fault.
    pub fn name(&self) -> &'static str
        ensures { result.now ≡ fault_name self.now }
    {
        match self {
            TableFault::TooLong => "TooLong",
            TableFault::NotToml => "NotToml",
            TableFault::Format => "Format",
            TableFault::Field(_) => "Field",
            TableFault::ModeCount => "ModeCount",
            TableFault::ModeName(_) => "ModeName",
            TableFault::Compatible(_) => "Compatible",
            TableFault::Convert(_) => "Convert",
            TableFault::Rule(_) => "Rule",
            TableFault::OwnNotAllowed(_) => "OwnNotAllowed",
            TableFault::Memory => "Memory",
        }
    }

    /// The number of the kind of fault, 1 to 11.
    pub fn number(&self) -> u8
        ensures { result ≡ fault_number self.now }
    {
        match self {
            TableFault::TooLong => 1,
            TableFault::NotToml => 2,
            TableFault::Format => 3,
            TableFault::Field(_) => 4,
            TableFault::ModeCount => 5,
            TableFault::ModeName(_) => 6,
            TableFault::Compatible(_) => 7,
            TableFault::Convert(_) => 8,
            TableFault::Rule(_) => 9,
            TableFault::OwnNotAllowed(_) => 10,
            TableFault::Memory => 11,
        }
    }
}
