//! A sink that takes nothing.

use kr_sink::{Failed, Sink};

/// A sink that takes nothing, of which no more failures are counted.
#[derive(Drop)]
pub struct Full;

impl Sink for Full {
    ghost use Rattle.std.specs.Prelude.{None};

    ghost taken = { λ _. None };

    ghost failures = { λ _. 18446744073709551615 };

    fn put(&mut self, bytes: &[u8]) -> Result<usize, Failed> {
        let _ = bytes;
        Err(Failed)
    }
}
