//! What is said of a name that nothing has, and of a member.

use crate::help::Help;
use std::alloc::{AllocError, Global};

/// What is said of a word at a place where one of these names was expected.
pub fn no_such(
    alloc: Global,
    place: Option<usize>,
    kind: &str,
    word: &str,
    names: &[&str],
) -> Result<Help, AllocError> {
    let what = format!(in alloc; "there is no {kind} \"{word}\"")?;
    Help::new(alloc, place, what).name(alloc, word, names)
}

/// What is said of a name that none of the members of a table, a script or a clause has.
pub fn no_member(
    alloc: Global,
    place: Option<usize>,
    whole: &str,
    name: &str,
    members: &[&str],
) -> Result<Help, AllocError> {
    let what = format!(in alloc; "{whole} has no member \"{name}\"")?;
    Help::new(alloc, place, what).name(alloc, name, members)
}

/// What is said of a member that is to be of a kind, and is of another or missing.
pub fn wrong_member(
    alloc: Global,
    place: Option<usize>,
    name: &str,
    kind: &str,
    is: Option<&str>,
) -> Result<Help, AllocError> {
    let what = match is {
        Some(is) => format!(in alloc; "\"{name}\" is to be {kind}, and is {is}")?,
        None => format!(in alloc; "the member \"{name}\" is missing: {kind}")?,
    };
    Ok(Help::new(alloc, place, what))
}
