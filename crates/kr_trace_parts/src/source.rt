//! Traces that words name, read line by line.
ghost use Rattle.std.specs.Prelude.{◌≡◌, ◌≢◌, ◌∷◌, [], ℕ, List, Option, Err, Some, None, IfOk, IfErr, IfSome, IfNone};
ghost use Rattle.kr_cli.specs.declared.files.FileFault.TheVariants as file_fault;
ghost use Rattle.kr_trace_parts.specs.Lines.{BeginTooLong};
ghost use Rattle.kr_trace_parts.specs.declared.source.LinesFault.TheVariants as lines_fault;

use crate::lines::ReadLines;
use kr_cli::{Disk, FileFault};
use std::alloc::{AllocError, Global};
use std::fs;
use std::io::{Error, ErrorKind};

/// How many bytes a line may have, its line feed left out.
pub const LINE_BYTES: usize = 16_777_216;

/// Why the next line isn't given.
#[derive(Clone, Copy, PartialEq, Eq)]
pub enum LinesFault {
    /// The line has more bytes than a line may have.
    TooLong,
    /// The trace can't be read further.
    Unreadable,
    /// A growth was refused.
    Memory,
}

impl From<AllocError> for LinesFault {
    ghost from_gives = { λ _ f. f ≡ lines_fault.Memory };

    fn from(_e: AllocError) -> LinesFault {
        LinesFault::Memory
    }
}

impl From<Error> for LinesFault {
    ghost from_gives = { λ _ f. f ≢ lines_fault.TooLong };

    fn from(e: Error) -> LinesFault {
        match e.kind() {
            ErrorKind::OutOfMemory => LinesFault::Memory,
            _ => LinesFault::Unreadable,
        }
    }
}

/// A trace that is given line by line.
pub trait Lines {
    /// Whether these may be the lines that it gives from here on.
    ghost may_give: { Self → List (List ℕ) → Type 0 };

    /// It may give some lines.
    ghost gives: { (s : Self) → (lines : List (List ℕ)) × may_give s lines };

    /// The next line without its line feed, or `None` where there is none. Of a line that is too long a front is read.
    fn next_line(&mut self, alloc: Global) -> Result<Option<Vec<u8>>, LinesFault>
        ensures line { IfOk result (λ next. IfSome next (λ line. (rest : List (List ℕ)) → may_give self.new rest → may_give self.old (line.items ∷ rest))) }
        ensures end { IfOk result (λ next. IfNone next (may_give self.old [])) }
        ensures long { result ≡ Err lines_fault.TooLong → (lines : List (List ℕ)) × (may_give self.old lines × BeginTooLong lines) };
}

/// Where words name traces.
pub trait Traces {
    /// A trace.
    type Lines: Lines + Drop;

    /// Whether the trace that a word names may have these lines, or there may be none.
    ghost may_name: { Self → List ℕ → Option (List (List ℕ)) → Type 0 };

    /// The trace that the word names, of which nothing is read so far.
    fn open(&self, alloc: Global, word: &str) -> Result<Self::Lines, FileFault>
        ensures found { IfOk result (λ trace. (lines : List (List ℕ)) → Self.Lines.may_give trace lines → may_name self.now word.now (Some lines)) }
        ensures none { IfErr result (λ e. (e ≢ file_fault.Memory) → may_name self.now word.now None) };
}

impl<R: std::rt::Files> Traces for Disk<'_, R> {
    type Lines = ReadLines<R::File>;

    ghost may_name = { λ _ _ _. Unit {0} };

    fn open(&self, alloc: Global, word: &str) -> Result<Self::Lines, FileFault> {
        let file = fs::open(self.0, word)?;
        Ok(ReadLines::new(alloc, file))
    }
}
