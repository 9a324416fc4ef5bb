//! Why a call on bytes has no answer.
ghost use Rattle.std.specs.Prelude.{◌≡◌};
ghost use Rattle.kr_embed.specs.declared.faults.Fault.TheVariants as fault;

use std::alloc::AllocError;

/// Why a call on bytes has no answer.
#[derive(Drop)]
pub enum Fault {
    /// The bytes are no table: the line that tells their first fault, as of a file named `table`.
    NoTable(String),
    /// The bytes are no script: the line that tells their first fault, as of a file named `script`.
    NoScript(String),
    /// A growth was refused.
    Memory,
}

impl From<AllocError> for Fault {
    ghost from_gives = { λ _ e. e ≡ fault.Memory };

    fn from(_e: AllocError) -> Fault {
        Fault::Memory
    }
}
