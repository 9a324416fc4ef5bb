//! The steps of a fault's path.

use std::alloc::{AllocError, Global};
use toml::{Table, Value};

/// What stands behind a name with which the path begins as a step.
fn behind<'a>(name: &str, path: &'a str) -> Option<&'a str> {
    let rest = path.strip_prefix(name)?;
    if rest.is_empty() {
        Some(rest)
    } else {
        rest.strip_prefix('.')
    }
}

/// The members of which the path begins with one, and the path behind it.
fn split_member<'a>(table: &'a Table, path: &'a str) -> (&'a str, &'a str) {
    for (name, _) in table.iter() {
        let name = name.as_str();
        if let Some(rest) = behind(name, path) {
            return (name, rest);
        }
    }
    (path, "")
}

/// The first step of a path into a value, and the rest of the path.
fn split_step<'a>(value: &'a Value, path: &'a str) -> (&'a str, &'a str) {
    match value {
        Value::Table(table) => split_member(table, path),
        _ => path.split_once('.').unwrap_or((path, "")),
    }
}

/// The number that a step is.
fn index_of(step: &str) -> Option<usize> {
    step.parse::<usize>().ok()
}

/// What stands at a step of a path.
fn at_step<'a>(value: &'a Value, step: &str) -> Option<&'a Value> {
    match value {
        Value::Array(list) => list.get(index_of(step)?),
        _ => value.get(step),
    }
}

/// What stands at the end of a path.
pub fn at_path<'a>(value: &'a Value, path: &[&str]) -> Option<&'a Value> {
    let mut value = value;
    for step in path {
        value = at_step(value, step)?;
    }
    Some(value)
}

/// A path with a step more.
pub fn with_step<'a>(
    alloc: Global,
    path: &[&'a str],
    step: &'a str,
) -> Result<Vec<&'a str>, AllocError> {
    let mut whole = path.to_vec(alloc)?;
    whole.push(step)?;
    Ok(whole)
}

/// The steps of a path into a document, four at most. A name may have points of its own: a step is the name of a member
/// where one leads on, and else all that is left.
pub fn steps_of<'a>(
    alloc: Global,
    document: &'a Value,
    path: &'a str,
) -> Result<Vec<&'a str>, AllocError> {
    let mut steps = Vec::new(alloc);
    let mut value = document;
    let mut rest = path;
    for _ in 0..4 {
        if rest.is_empty() {
            break;
        }
        let (step, others) = split_step(value, rest);
        steps.push(step)?;
        rest = others;
        match at_step(value, step) {
            Some(next) => value = next,
            None => break,
        }
    }
    Ok(steps)
}
