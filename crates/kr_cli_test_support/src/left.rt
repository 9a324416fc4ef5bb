//! What a program leaves.
ghost use Rattle.std.specs.Prelude.{◌≡◌, IfOk};

use kr_sink::Io;
use std::alloc::{AllocError, Global};

/// What a program left: its status, and the bytes on its two streams.
#[derive(Drop)]
pub struct Left {
    pub status: u8,
    pub out: Vec<u8>,
    pub err: Vec<u8>,
}

impl Left {
    /// What a program of this status left on two streams that keep all bytes.
    pub fn on(
        alloc: Global,
        status: u8,
        out: &Io<Vec<u8>>,
        err: &Io<Vec<u8>>,
    ) -> Result<Left, AllocError>
        ensures status { IfOk result (λ left. left.status ≡ status) }
        ensures out { IfOk result (λ left. left.out.items ≡ out.now.writer.items) }
        ensures err { IfOk result (λ left. left.err.items ≡ err.now.writer.items) }
    {
        Ok(Left {
            status,
            out: Vec::from_slice(alloc, out.writer().as_slice())?,
            err: Vec::from_slice(alloc, err.writer().as_slice())?,
        })
    }
}
