//! Printing on a sink that may take less than it is offered.
ghost use Rattle.std.specs.Prelude.{◌≡◌, ◌≤◌, ◌++◌, ◌∷◌, [], ℕ, List, Option, length, IfOk, OnOk, OnErr};
ghost use Rattle.std.specs.Io.KnownBytes.{Appends, WriteAppends};
ghost use Rattle.kr_sink.specs.Puts.{Output, AppendsFront, failures_after, HasCause};

use std::io::Write;
use std::marker::Model;
use thiserror::Error;

/// A put failed, and took nothing.
#[derive(Clone, Copy, Debug, PartialEq, Eq, Error)]
#[error("a put failed")]
pub struct Failed;

/// What was to be printed wasn't, or not all of it.
#[derive(Clone, Copy, Debug, PartialEq, Eq, Error)]
#[error("a text was not printed whole")]
pub struct PrintFault;

/// A place for bytes, which may take fewer than it is offered.
pub trait Sink {
    /// The bytes that it took, where it tells them.
    ghost taken: { Self → Option (List ℕ) };
    /// How many puts have failed, a number that stays once it is `2^64 - 1`. A put fails at an
    /// error, and where none of some bytes is taken.
    ghost failures: { Self → ℕ };

    /// Offers bytes, and tells how many of them were taken, from the front. At an error none was.
    fn put(&mut self, bytes: &[u8]) -> Result<usize, Failed>
        ensures bound { IfOk result (λ n. n ≤ length bytes.now) }
        ensures taken { WriteAppends (taken self.old) (taken self.new) result bytes.now }
        ensures failures { failures self.new ≡ failures_after result (length bytes.now) (failures self.old) };
}

/// A sink over any writer, seen as the writer with the count of failed puts.
#[derive(Drop)]
pub struct Io<W> {
    writer: W,
    failures: u64,
}

impl<W> Model for Io<W> {
    ghost Value = { Output W };

    ghost view = { λ io. record { writer = io.writer; failed_puts = io.failures } };
}

impl<W> Io<W> {
    /// A sink over the writer, on which no put has failed.
    pub fn new(writer: W) -> Self
        ensures { result ≡ record { writer = writer; failed_puts = 0 } }
    {
        Io {
            writer,
            failures: 0,
        }
    }

    /// The writer.
    pub fn writer(&self) -> &W
        ensures { result.now ≡ self.now.writer }
    {
        &self.writer
    }
}

impl<W: Write> Sink for Io<W> {
    ghost taken = { λ io. W.contents io.writer };

    ghost failures = { λ io. io.failed_puts };

    fn put(&mut self, bytes: &[u8]) -> Result<usize, Failed> {
        let put = self.writer.write(bytes);
        match put {
            Ok(n) if n > 0 || bytes.is_empty() => Ok(n),
            Ok(n) => {
                self.failures = self.failures.saturating_add(1);
                Ok(n)
            }
            Err(_) => {
                self.failures = self.failures.saturating_add(1);
                Err(Failed)
            }
        }
    }
}

/// Puts bytes until all of them are taken. At a fault a prefix of them was taken, no byte is put again that was taken,
/// and a put has failed in this call or the count of failed puts is at its end.
pub fn put_all<W: Sink>(out: &mut W, bytes: &[u8]) -> Result<(), PrintFault>
    ensures ok { OnOk result (Appends (W.taken out.old) (W.taken out.new) bytes.now) }
    ensures err { OnErr result (AppendsFront (W.taken out.old) (W.taken out.new) bytes.now) }
    ensures count { OnOk result (W.failures out.new ≡ W.failures out.old) }
    ensures cause { OnErr result (HasCause (W.failures out.old) (W.failures out.new)) }
{
    let mut done = 0;
    while done < bytes.len() {
        match out.put(&bytes[done..]) {
            Ok(0) => return Err(PrintFault),
            Ok(n) => done += n,
            Err(Failed) => return Err(PrintFault),
        }
    }
    Ok(())
}

/// Prints a text and a line feed. At a fault a prefix of them was printed, no text is printed
/// twice, and a put has failed in this call or the count of failed puts is at its end.
#[tactic(auto, using(crate::proofs::Grows::front_of_more, crate::proofs::Grows::front_behind, crate::proofs::Grows::appends_more))]
pub fn print<W: Sink>(out: &mut W, text: &str) -> Result<(), PrintFault>
    ensures ok { OnOk result (Appends (W.taken out.old) (W.taken out.new) (text.now ++ 10 ∷ [])) }
    ensures err { OnErr result (AppendsFront (W.taken out.old) (W.taken out.new) (text.now ++ 10 ∷ [])) }
    ensures count { OnOk result (W.failures out.new ≡ W.failures out.old) }
    ensures cause { OnErr result (HasCause (W.failures out.old) (W.failures out.new)) }
{
    put_all(out, text.as_bytes())?;
    put_all(out, b"\n")?;
    Ok(())
}
