//! Files that are read whole.
ghost use Rattle.std.specs.Prelude.{◌≡◌, ◌≢◌, ℕ, List, Option, Some, None, false, IfOk, IfErr};
ghost use Rattle.kr_script.specs.declared.faults.ScriptFault.TheVariants as script_fault;
ghost use Rattle.kr_cli.specs.declared.endings.Ending.TheVariants as ending;
ghost use Rattle.kr_cli.specs.declared.files.FileFault.TheVariants as file_fault;
ghost use Rattle.kr_cli.specs.Endings.{MemoryOrTold, is_output};
ghost use Rattle.std.specs.IoError.{error_kind};
ghost use Rattle.kr_cli.specs.Files.{IsFaultOf, MayBeRead, MayBeHad};
ghost use Rattle.kr_cli.specs.Lines.{told_line, unreadable_line, script_fault_text};
ghost use Rattle.kr_cli.specs.Named.{NamesScript, TellsNoScript, TellsUnreadable};

use crate::endings::Ending;
use crate::faults::script_fault_text;
use crate::reading::first_bytes;
use crate::words::is_no_file;
use kr_script::{Script, ScriptFault, read_script};
use std::alloc::Global;
use std::fs;
use std::io::{Error, ErrorKind};

/// How many bytes of a script are read at most: one more than a script may have, so that one that is too long is seen to be.
pub const SCRIPT_BYTES: usize = 16_777_217;

/// Why a file isn't read.
#[derive(Clone, Copy, Debug, PartialEq, Eq)]
pub enum FileFault {
    /// There is no such file.
    Missing,
    /// The file may not be read.
    Denied,
    /// The word names a directory.
    Directory,
    /// The file can't be read to where it was wanted, for another cause.
    Unreadable,
    /// A growth was refused.
    Memory,
}

impl From<Error> for FileFault {
    ghost from_gives = { λ e f. IsFaultOf (error_kind e) f };

    fn from(e: Error) -> FileFault {
        match e.kind() {
            ErrorKind::NotFound => FileFault::Missing,
            ErrorKind::PermissionDenied => FileFault::Denied,
            ErrorKind::IsADirectory => FileFault::Directory,
            ErrorKind::OutOfMemory => FileFault::Memory,
            _ => FileFault::Unreadable,
        }
    }
}

/// Where words name files.
pub trait Files {
    /// Whether these bytes may be given for a word, or none.
    ghost may_give: { Self → List ℕ → Option (List ℕ) → Type 0 };

    /// The bytes of the file that the word names, the whole of it, or its first `most` where it has more. They may be others
    /// at each call.
    fn whole(&self, alloc: Global, word: &str, most: usize) -> Result<Vec<u8>, FileFault>
        ensures found { IfOk result (λ bytes. MayBeRead most (may_give self.now) word.now bytes.items) }
        ensures none { IfErr result (λ e. (e ≢ file_fault.Memory) → may_give self.now word.now None) };
}

/// The files of the machine, read by its runtime: a word is a path. No clause can say what the machine gives for it. What gets
/// this as its `Files` can read files, and not write or remove them.
#[derive(Drop)]
pub struct Disk<'a, R>(pub &'a R);

impl<R: std::rt::Files> Files for Disk<'_, R> {
    ghost may_give = { λ _ _ _. Unit {0} };

    fn whole(&self, alloc: Global, word: &str, most: usize) -> Result<Vec<u8>, FileFault> {
        let mut file = fs::open(self.0, word)?;
        Ok(first_bytes(alloc, &mut file, most)?)
    }
}

/// The bytes of the file that a word names, the whole of it, or its first `most` where it has more. A word that begins with
/// `@` is never a file.
pub fn read_file<F: Files>(
    alloc: Global,
    word: &str,
    files: &F,
    most: usize,
) -> Result<Vec<u8>, FileFault>
    ensures bytes { IfOk result (λ bytes. MayBeHad most (F.may_give files.now) word.now (Some bytes.items)) }
    ensures none { IfErr result (λ e. (e ≢ file_fault.Memory) → MayBeHad most (F.may_give files.now) word.now None) }
{
    if is_no_file(word) {
        return Err(FileFault::Unreadable);
    }
    files.whole(alloc, word, most)
}

/// The bytes of the file that a word names, as `read_file` has them, or how the program ends.
pub fn whole<F: Files>(alloc: Global, word: &str, files: &F, most: usize) -> Result<Vec<u8>, Ending>
    ensures bytes { IfOk result (λ bytes. MayBeHad most (F.may_give files.now) word.now (Some bytes.items)) }
    ensures fault { IfErr result (λ e. MemoryOrTold e (TellsUnreadable (F.may_give files.now) word.now)) }
    ensures other { IfErr result (λ e. is_output e ≡ false) }
{
    match read_file(alloc, word, files, most) {
        Ok(bytes) => Ok(bytes),
        Err(FileFault::Memory) => Err(Ending::Memory),
        Err(_) => Err(unreadable(alloc, word)),
    }
}

/// How a program ends at a word that names no file that can be read.
pub fn unreadable(alloc: Global, word: &str) -> Ending
    ensures line { MemoryOrTold result (λ line. line ≡ unreadable_line word.now) }
    ensures other { is_output result ≡ false }
{
    Ending::told(alloc, word, "cannot be read")
}

/// How a program ends at a fault of the script that a word names.
pub fn at_fault(alloc: Global, word: &str, fault: ScriptFault) -> Ending
    ensures line { MemoryOrTold result (λ line. line ≡ told_line word.now (script_fault_text fault)) }
    ensures memory { fault ≡ script_fault.Memory → result ≡ ending.Memory }
    ensures other { is_output result ≡ false }
{
    match fault {
        ScriptFault::Memory => Ending::Memory,
        fault => match script_fault_text(alloc, &fault) {
            Ok(what) => Ending::told(alloc, word, what.as_str()),
            Err(_) => Ending::Memory,
        },
    }
}

/// The script in the file that a word names, or how the program ends: its file can't be read, or its bytes are no script, and
/// the first of their faults is told.
pub fn script_at<F: Files>(alloc: Global, word: &str, files: &F) -> Result<Script, Ending>
    ensures script { IfOk result (NamesScript (F.may_give files.now) word.now) }
    ensures fault { IfErr result (λ e. MemoryOrTold e (TellsNoScript (F.may_give files.now) word.now)) }
    ensures other { IfErr result (λ e. is_output e ≡ false) }
{
    let bytes = whole(alloc, word, files, SCRIPT_BYTES)?;
    match read_script(alloc, bytes.as_slice()) {
        Ok(script) => Ok(script),
        Err(fault) => Err(at_fault(alloc, word, fault)),
    }
}
