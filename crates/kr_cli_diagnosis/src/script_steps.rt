//! What is said of a step that has the form of none.

use crate::help::Help;
use crate::json_places::{element, token};
use crate::kinds::json_kind;
use crate::names::no_such;
use crate::source::elements;
use serde_json::Value;
use std::alloc::{AllocError, Global};

const OPERATIONS: [&str; 9] = [
    "fetch", "scan", "go", "insert", "delete", "update", "commit", "abort", "back",
];

/// Of each operation what its step looks like, and how many elements it has.
const FORMS: [(&str, &str, usize); 9] = [
    ("fetch", "[t,\"fetch\",key]", 3),
    ("scan", "[t,\"scan\",low,high]", 4),
    ("go", "[t,\"go\"]", 2),
    ("insert", "[t,\"insert\",key,value]", 4),
    ("delete", "[t,\"delete\",key]", 3),
    ("update", "[t,\"update\",key,value]", 4),
    ("commit", "[t,\"commit\"]", 2),
    ("abort", "[t,\"abort\"]", 2),
    ("back", "[t,\"back\"]", 2),
];

/// What an operation's step looks like, and how many elements it has.
fn form_of(word: &str) -> Option<(&'static str, usize)> {
    for (operation, form, count) in &FORMS {
        if *operation == word {
            return Some((*form, *count));
        }
    }
    None
}

/// Why a number of a text is no whole number from 0 to 2 to the 64, less 1.
fn number_reason(token: &[u8]) -> &'static str {
    if token.contains(&b'.') || token.contains(&b'e') || token.contains(&b'E') {
        "written without a point or an exponent"
    } else if token.first() == Some(&b'-') {
        "without a minus sign"
    } else {
        "at most 18446744073709551615"
    }
}

/// What is said of a value that is to be a whole number and is none.
pub fn number_fault(
    alloc: Global,
    text: &[u8],
    place: Option<usize>,
    name: &str,
    value: &Value,
) -> Result<Help, AllocError> {
    let (before, reason) = match (value, place) {
        (Value::Number(_), Some(place)) => ("", number_reason(token(text, place))),
        _ => ("and this is ", json_kind(value)),
    };
    let what = format!(in alloc; "{name} is a whole number, {before}{reason}")?;
    Ok(Help::new(alloc, place, what))
}

/// With what steps look like.
fn hint_form(alloc: Global, help: Help, form: &str) -> Result<Help, AllocError> {
    let hint = format!(in alloc; "expected {form}")?;
    help.hint(hint)
}

/// What is said of the transaction's number.
fn transaction_fault(
    alloc: Global,
    text: &[u8],
    place: Option<usize>,
    value: &Value,
) -> Result<Help, AllocError> {
    if value.as_u64().is_none() {
        return number_fault(alloc, text, place, "a transaction's number", value);
    }
    Help::of(alloc, place, "a transaction's number is at most 4294967295")
}

/// What is said of a step of format 2 in a script of format 1.
fn later_fault(alloc: Global, place: Option<usize>, word: &str) -> Result<Help, AllocError> {
    let what = format!(in alloc; "\"{word}\" needs format 2")?;
    Help::new(alloc, place, what).hint_of(alloc, "write \"format\":2")
}

/// What is said of a step's keys and values.
fn parts_fault(
    alloc: Global,
    text: &[u8],
    place: Option<usize>,
    word: &str,
    form: &str,
    list: &[Value],
) -> Result<Help, AllocError> {
    for (i, part) in list.iter().enumerate() {
        if i >= 2 && part.as_u64().is_none() {
            let at = element(text, place, i);
            let name = if i == 2 || word == "scan" {
                "a key"
            } else {
                "a value"
            };
            let help = number_fault(alloc, text, at, name, part)?;
            return hint_form(alloc, help, form);
        }
    }
    Help::of(alloc, place, "this step is at fault")
}

/// What is said of a step with a number and a word in front.
fn form_fault(
    alloc: Global,
    text: &[u8],
    place: Option<usize>,
    is_later: bool,
    word: &str,
    list: &[Value],
) -> Result<Help, AllocError> {
    let at = element(text, place, 1);
    let Some((form, count)) = form_of(word) else {
        return no_such(alloc, at, "operation", word, &OPERATIONS);
    };
    if !is_later && (word == "update" || word == "back") {
        return later_fault(alloc, at, word);
    }
    if list.len() != count {
        return count_fault(alloc, place, word, (form, count), list.len());
    }
    parts_fault(alloc, text, place, word, form, list)
}

/// What is said of a step that has more or fewer elements than its form.
fn count_fault(
    alloc: Global,
    place: Option<usize>,
    word: &str,
    (form, count): (&str, usize),
    has: usize,
) -> Result<Help, AllocError> {
    let what = format!(in alloc; "a step \"{word}\" has {count} elements, and this has {has}")?;
    hint_form(alloc, Help::new(alloc, place, what), form)
}

/// What is said of a step, which stands at the place, in a script of format 2 or else of format 1.
pub fn step_fault(
    alloc: Global,
    text: &[u8],
    place: Option<usize>,
    is_later: bool,
    step: Option<&Value>,
) -> Result<Help, AllocError> {
    let list = elements(step);
    let Some(first) = list.first() else {
        let help = Help::of(alloc, place, "a step is an array")?;
        return hint_form(alloc, help, "a step, as [1,\"fetch\",10]");
    };
    if !matches!(first.as_u64(), Some(number) if number < 1 << 32) {
        let at = element(text, place, 0);
        return transaction_fault(alloc, text, at, first);
    }
    match list.get(1) {
        Some(Value::String(word)) => form_fault(alloc, text, place, is_later, word.as_str(), list),
        _ => no_word(alloc, text, place),
    }
}

/// What is said of a step without a word behind its number.
fn no_word(alloc: Global, text: &[u8], place: Option<usize>) -> Result<Help, AllocError> {
    let at = element(text, place, 1);
    let what = "behind the transaction's number stands an operation";
    Help::of(alloc, at.or(place), what)?.name(alloc, "", &OPERATIONS)
}
