//! How a program ends.
ghost use Rattle.std.specs.Prelude.{◌≡◌, ◌≤◌, ◌↔◌, true, false, Ok, OnOk, OnErr};
ghost use Rattle.std.specs.Io.KnownBytes.{Appends};
ghost use Rattle.kr_sink.specs.Puts.{AppendsFront, HasCause};
ghost use Rattle.kr_cli.specs.Endings.{MemoryOrTold, is_output, line_of, ending_line};
ghost use Rattle.kr_cli.specs.Lines.{HasNoLineFeed, told_line};
ghost use Rattle.kr_cli.specs.declared.endings.Ending.TheVariants as ending;

use crate::lines::told_line;
use kr_sink::{PrintFault, Sink, print, put_all};
use std::alloc::{AllocError, Global};

/// Why a program ends without its output, or with a prefix of it. Each is told on one line.
#[derive(Drop)]
pub enum Ending {
    /// The words are of no form.
    NotUnderstood,
    /// A growth was refused.
    Memory,
    /// A place of a history was refused. Only runs by several threads end so.
    Place,
    /// The output wasn't taken whole.
    Output,
    /// Of a word something is told, which stands here with the word in front.
    Told(String),
}

impl Ending {
    /// What the line says behind the program's name.
    fn line(&self) -> &str
        ensures { result.now ≡ line_of self.now }
    {
        match self {
            Ending::NotUnderstood => "words not understood",
            Ending::Memory => "out of memory",
            Ending::Place => "place refused",
            Ending::Output => "output: cannot be written",
            Ending::Told(line) => line.as_str(),
        }
    }

    /// What is told of a word. A control character, of the word or of a name in a file, stands as its number, as `\u{a}`, so
    /// that it neither breaks the line nor reaches the terminal. Where a growth is refused, that is how the program ends.
    pub fn told(alloc: Global, word: &str, what: &str) -> Ending
        ensures line { MemoryOrTold result (λ line. line ≡ told_line word.now what.now) }
        ensures one_line { MemoryOrTold result HasNoLineFeed }
        ensures other { is_output result ≡ false }
    {
        match told_line(alloc, word, what) {
            Ok(line) => Ending::Told(line),
            Err(_) => Ending::Memory,
        }
    }
}

impl From<AllocError> for Ending {
    ghost from_gives = { λ _ e. e ≡ ending.Memory };

    fn from(_e: AllocError) -> Ending {
        Ending::Memory
    }
}

impl From<PrintFault> for Ending {
    ghost from_gives = { λ _ e. e ≡ ending.Output };

    fn from(_e: PrintFault) -> Ending {
        Ending::Output
    }
}

/// The status of a program that ended so: 0 where all was well, 1 where it wasn't, and 2 where it ended without its output.
pub(crate) fn status_of(done: &Result<bool, Ending>) -> u8
    ensures within { result ≤ 2 }
    ensures well { (result ≡ 0) ↔ (done.now ≡ Ok true) }
    ensures not_well { (result ≡ 1) ↔ (done.now ≡ Ok false) }
{
    match done {
        Ok(true) => 0,
        Ok(false) => 1,
        Err(_) => 2,
    }
}

/// Prints the line of an ending.
pub(crate) fn tell<E: Sink>(ending: &Ending, err: &mut E) -> Result<(), PrintFault>
    ensures ok { OnOk result (Appends (E.taken err.old) (E.taken err.new) (ending_line ending.now)) }
    ensures front { AppendsFront (E.taken err.old) (E.taken err.new) (ending_line ending.now) }
    ensures count { OnOk result (E.failures err.new ≡ E.failures err.old) }
    ensures cause { OnErr result (HasCause (E.failures err.old) (E.failures err.new)) }
{
    put_all(err, b"kr: ")?;
    print(err, ending.line())?;
    Ok(())
}
