//! Members that stand twice in a script.
ghost use Rattle.std.specs.Prelude.{◌≡◌, [], false, IfOk, string_bytes};
ghost use Rattle.kr_cli_diagnosis.specs.Help.{IsHelp, AreThreeHelps};
ghost use Rattle.kr_cli_diagnosis.specs.Repeated.{HasNoMemberTwice};

use crate::help::{Help, print_said};
use crate::json_places::{Members, members_of};
use json::{Error, Scratch, Value};
use std::alloc::{AllocError, Global};
use std::str;

/// What is said of the members of a name: nothing where there is one or none.
fn said_of(alloc: Global, bytes: &[u8], name: &str) -> Result<Option<Help>, AllocError> {
    match members_of(alloc, bytes, name)? {
        Some(Members { count, key, .. }) if count > 1 => {
            let what = format!(in alloc;
                "warning: \"{name}\" stands {count} times, and the last counts"
            )?;
            Ok(Some(Help::new(alloc, Some(key), what)))
        }
        _ => Ok(None),
    }
}

/// The warning of the members of a name: empty where there is one or none.
fn warning_of(alloc: Global, word: &str, bytes: &[u8], name: &str) -> Result<String, AllocError>
    ensures { IfOk result (λ text. IsHelp word.now bytes.now (string_bytes text)) }
{
    let said = said_of(alloc, bytes, name)?;
    print_said(alloc, word, bytes, said)
}

/// Whether some object of a JSON text has two members of one name.
fn has_member_twice(alloc: Global, bytes: &[u8]) -> Result<bool, AllocError>
    ensures { HasNoMemberTwice bytes.now → IfOk result (λ twice. twice ≡ false) }
{
    let Ok(text) = str::from_utf8(bytes) else {
        return Ok(false);
    };
    let mut scratch = Scratch::new(alloc);
    match Value::parse_strict(alloc, text, &mut scratch) {
        Ok(_) | Err(Error::Invalid | Error::TooLong) => Ok(false),
        Err(Error::DuplicateKey) => Ok(true),
        Err(Error::OutOfMemory) => Err(AllocError),
    }
}

/// A warning for each member that stands twice in a script that reads, at the last one, which counts. Empty where none does.
pub fn repeated_help(alloc: Global, word: &str, bytes: &[u8]) -> Result<String, AllocError>
    ensures helps { IfOk result (λ text. AreThreeHelps word.now bytes.now (string_bytes text)) }
    ensures none { HasNoMemberTwice bytes.now → IfOk result (λ text. string_bytes text ≡ []) }
{
    if !has_member_twice(alloc, bytes)? {
        return Ok(String::new(alloc));
    }
    let mut text = warning_of(alloc, word, bytes, "format")?;
    text.push_str(warning_of(alloc, word, bytes, "opening")?.as_str())?;
    text.push_str(warning_of(alloc, word, bytes, "steps")?.as_str())?;
    Ok(text)
}
