//! Reading no more than is wanted.
ghost use Rattle.std.specs.Prelude.{◌≤◌, ◌<◌, IfOk, length};
ghost use Rattle.std.specs.Io.KnownBytes.{Consumes, IsAtEnd};

use std::alloc::Global;
use std::io::{Error, ErrorKind, Read, Result};

/// How many bytes are read at once.
const CHUNK: usize = 4096;

/// The bytes that a reader gives up to its end, or the first `most` where it gives more: no byte behind those is read. A read
/// that a signal interrupts is tried again.
pub fn first_bytes<R: Read>(alloc: Global, reader: &mut R, most: usize) -> Result<Vec<u8>>
    ensures bound { IfOk result (λ bytes. length bytes.items ≤ most) }
    ensures bytes { IfOk result (λ bytes. Consumes (R.remaining reader.old) (R.remaining reader.new) bytes.items) }
    ensures end { IfOk result (λ bytes. length bytes.items < most → IsAtEnd (R.remaining reader.new)) }
{
    let mut bytes = Vec::new(alloc);
    let mut chunk = [0; CHUNK];
    for _ in 0..u64::MAX {
        let wanted = CHUNK.min(most - bytes.len());
        if wanted == 0 {
            return Ok(bytes);
        }
        match reader.read(&mut chunk[..wanted]) {
            Ok(0) => return Ok(bytes),
            Ok(count) => bytes.extend_from_slice(&chunk[..count])?,
            Err(e) if e.kind() == ErrorKind::Interrupted => {}
            Err(e) => return Err(e),
        }
    }
    Err(Error::from(ErrorKind::Interrupted))
}
