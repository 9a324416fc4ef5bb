//! The lines of what a reader gives.
ghost use Rattle.std.specs.Prelude.{◌≡◌, ◌≢◌, ◌<◌, ◌≤◌, ◌++◌, ◌∷◌, [], ℕ, List, Ok, Some, None, IfOk, IfErr, IfSome, IfNone, OnOk, true, false, length, drop};
ghost use Rattle.std.specs.Io.{StartsWith};
ghost use Rattle.kr_trace_parts.specs.Lines.{HasLineFeedAt, HasNoLineFeed, IsLeft, MayGive, some_given};
ghost use Rattle.kr_trace_parts.specs.declared.source.LinesFault.TheVariants as lines_fault;

use crate::source::{LINE_BYTES, Lines, LinesFault};
use std::alloc::{AllocError, Global};
use std::io::{ErrorKind, Read};

/// How many bytes are read at once.
const CHUNK: usize = 8192;

/// The lines that a reader gives.
#[derive(Drop)]
pub struct ReadLines<R> {
    pub reader: R,
    /// The bytes that were read ahead.
    pub ahead: Vec<u8>,
    /// How many of these were given.
    pub given: usize,
    /// Whether the reader has come to its end.
    pub ended: bool,
    ghost within: { given ≤ length ahead.items },
}

/// The place of the first line feed behind the first bytes, which have none.
fn line_feed(bytes: &[u8], seen: usize) -> Option<usize>
    requires { HasNoLineFeed seen bytes.now }
    ensures within { IfSome result (λ i. i < length bytes.now) }
    ensures some { IfSome result (λ i. HasLineFeedAt i bytes.now × HasNoLineFeed i bytes.now) }
    ensures none { IfNone result (HasNoLineFeed (length bytes.now) bytes.now) }
{
    for i in seen..bytes.len() {
        if bytes[i] == b'\n' {
            return Some(i);
        }
    }
    None
}

/// Reads some more bytes behind those that were read ahead, and answers whether the reader has come to its end. A read that a
/// signal interrupts reads none.
fn read_piece<R: Read>(reader: &mut R, ahead: &mut Vec<u8>) -> Result<bool, LinesFault>
    ensures more { OnOk result ((bytes : List ℕ) → IsLeft false (R.remaining reader.new) ahead.new.items bytes → IsLeft false (R.remaining reader.old) ahead.old.items bytes) }
    ensures end { result ≡ Ok true → IsLeft false (R.remaining reader.old) ahead.old.items ahead.new.items }
    ensures front { OnOk result (StartsWith ahead.new.items ahead.old.items) }
    ensures err { IfErr result (λ e. e ≢ lines_fault.TooLong) }
{
    let mut chunk = [0; CHUNK];
    match reader.read(&mut chunk) {
        Ok(0) => Ok(true),
        Ok(count) => {
            ahead.extend_from_slice(&chunk[..count])?;
            Ok(false)
        }
        Err(e) if e.kind() == ErrorKind::Interrupted => Ok(false),
        Err(e) => Err(LinesFault::from(e)),
    }
}

impl<R: Read> ReadLines<R> {
    /// The lines of what the reader gives from here on. Takes no memory.
    pub fn new(alloc: Global, reader: R) -> ReadLines<R>
        ensures reader { result.reader ≡ reader }
        ensures ahead { result.ahead.items ≡ [] }
        ensures ended { result.ended ≡ false }
    {
        ReadLines {
            reader,
            ahead: Vec::new(alloc),
            given: 0,
            ended: false,
        }
    }

    /// The bytes that were read ahead and aren't given.
    fn left(&self) -> &[u8]
        ensures { result.now ≡ drop self.now.given self.now.ahead.items }
    {
        &self.ahead[self.given..]
    }

    /// Takes the line that ends at this place of what is left, before its line feed.
    fn take_line(&mut self, alloc: Global, end: usize) -> Result<Vec<u8>, AllocError>
        requires { HasLineFeedAt end (drop self.old.given self.old.ahead.items) }
        ensures parts { IfOk result (λ line. drop self.old.given self.old.ahead.items ≡ line.items ++ 10 ∷ drop self.new.given self.new.ahead.items) }
        ensures len { IfOk result (λ line. length line.items ≡ end) }
        ensures reader { self.new.reader ≡ self.old.reader }
        ensures ended { self.new.ended ≡ self.old.ended }
    {
        let line = self.left()[..end].to_vec(alloc)?;
        self.given += end + 1;
        Ok(line)
    }

    /// Takes all that is left.
    fn take_rest(&mut self, alloc: Global) -> Result<Vec<u8>, AllocError>
        ensures rest { IfOk result (λ line. line.items ≡ drop self.old.given self.old.ahead.items) }
        ensures none { OnOk result (drop self.new.given self.new.ahead.items ≡ []) }
        ensures reader { self.new.reader ≡ self.old.reader }
        ensures ended { self.new.ended ≡ self.old.ended }
    {
        let line = self.left().to_vec(alloc)?;
        self.given = self.ahead.len();
        Ok(line)
    }

    /// Lets go what was given.
    fn let_go(&mut self) -> Result<(), AllocError>
        ensures left { OnOk result (self.new.ahead.items ≡ drop self.old.given self.old.ahead.items) }
        ensures none { OnOk result (self.new.given ≡ 0) }
        ensures reader { self.new.reader ≡ self.old.reader }
        ensures ended { self.new.ended ≡ self.old.ended }
    {
        if self.given == 0 {
            return Ok(());
        }
        let left = self.ahead.split_off(self.given)?;
        self.given = 0;
        self.ahead = left;
        Ok(())
    }

    /// Reads some more bytes behind what is left.
    fn read_more(&mut self) -> Result<(), LinesFault>
        requires { self.old.ended ≡ false }
        ensures more { OnOk result ((bytes : List ℕ) → IsLeft self.new.ended (R.remaining self.new.reader) (drop self.new.given self.new.ahead.items) bytes
            → IsLeft self.old.ended (R.remaining self.old.reader) (drop self.old.given self.old.ahead.items) bytes) }
        ensures front { OnOk result (StartsWith (drop self.new.given self.new.ahead.items) (drop self.old.given self.old.ahead.items)) }
        ensures err { IfErr result (λ e. e ≢ lines_fault.TooLong) }
    {
        self.let_go()?;
        self.ended = read_piece(&mut self.reader, &mut self.ahead)?;
        Ok(())
    }
}

impl<R: Read> Lines for ReadLines<R> {
    ghost may_give = { λ l lines. MayGive l.ended (R.remaining l.reader) (drop l.given l.ahead.items) lines };

    ghost gives = { λ l. some_given l.ended (R.remaining l.reader) (drop l.given l.ahead.items) };

    fn next_line(&mut self, alloc: Global) -> Result<Option<Vec<u8>>, LinesFault> {
        let mut seen = 0;
        for _ in 0..u64::MAX {
            if let Some(end) = line_feed(self.left(), seen) {
                if end > LINE_BYTES {
                    return Err(LinesFault::TooLong);
                }
                return Ok(Some(self.take_line(alloc, end)?));
            }
            seen = self.left().len();
            if seen > LINE_BYTES {
                return Err(LinesFault::TooLong);
            }
            if self.ended {
                if seen == 0 {
                    return Ok(None);
                }
                return Ok(Some(self.take_rest(alloc)?));
            }
            self.read_more()?;
        }
        Err(LinesFault::Unreadable)
    }
}
