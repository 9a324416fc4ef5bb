//! The words that a program is called with.
ghost use Rattle.std.specs.Prelude.{◌≡◌, ◌↔◌, ◌⊎◌, ◌<◌, ◌^◌, ℕ, IfErr, IfSome, IfNone, IsTrue};
ghost use Rattle.std.specs.Fmt.{decimal};
ghost use Rattle.kr_cli.specs.declared.endings.Ending.TheVariants as ending;
ghost use Rattle.kr_cli.specs.Words.{IsNoFile, IsPlain};

use crate::endings::Ending;
use std::env;
use std::io::ErrorKind;
use std::rt::Env;

/// The words that the program was called with, its own name left out, or how it ends: words that aren't UTF-8 aren't
/// understood.
pub fn words_given<R: Env + AllocGlobal>(rt: &R) -> Result<Vec<String>, Ending>
    ensures { IfErr result (λ e. (e ≡ ending.Memory) ⊎ (e ≡ ending.NotUnderstood)) }
{
    let mut given = match env::args(rt) {
        Ok(given) => given,
        Err(e) if e.kind() == ErrorKind::OutOfMemory => return Err(Ending::Memory),
        Err(_) => return Err(Ending::NotUnderstood),
    };
    let _name = given.next();
    Ok(given.collect::<Vec<String>>(rt.alloc())?)
}

/// Whether a word can name a table or a file: it doesn't begin with a hyphen.
pub fn is_plain(word: &str) -> bool
    ensures { IsTrue result ↔ IsPlain word.now }
{
    let bytes = word.as_bytes();
    bytes.is_empty() || bytes[0] != b'-'
}

/// Whether a word never names a file: it begins with `@`.
pub fn is_no_file(word: &str) -> bool
    ensures { IsTrue result ↔ IsNoFile word.now }
{
    let bytes = word.as_bytes();
    !bytes.is_empty() && bytes[0] == b'@'
}

/// The number, from 1 to `2^64 - 1`, that a word is: decimal digits without a leading zero. Another word is none.
pub fn number_of(word: &str) -> Option<usize>
    ensures some { IfSome result (λ n. (0 < n) × (word.now ≡ decimal n)) }
    ensures none { IfNone result ((n : ℕ) → 0 < n → n < 2 ^ 64 → word.now ≡ decimal n → ⊥) }
{
    let bytes = word.as_bytes();
    if bytes.is_empty() || bytes[0] < b'1' {
        return None;
    }
    word.parse::<usize>().ok()
}
