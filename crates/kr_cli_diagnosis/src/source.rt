//! Scripts that read as JSON.

use crate::json_places::{element, members_of};
use serde_json::Value;
use std::alloc::{AllocError, Global};

/// The members of a script.
pub const MEMBERS: [&str; 3] = ["format", "opening", "steps"];

/// A script that reads as JSON: its text, and its value.
#[derive(Drop)]
pub struct Source<'a> {
    pub text: &'a [u8],
    pub value: Value,
}

impl Source<'_> {
    /// Where the value of a member stands.
    pub fn value_of(&self, alloc: Global, name: &str) -> Result<Option<usize>, AllocError> {
        match members_of(alloc, self.text, name)? {
            Some(found) => Ok(Some(found.value)),
            None => Ok(None),
        }
    }

    /// Where the name of a member stands.
    pub fn key_of(&self, alloc: Global, name: &str) -> Result<Option<usize>, AllocError> {
        match members_of(alloc, self.text, name)? {
            Some(found) => Ok(Some(found.key)),
            None => Ok(None),
        }
    }

    /// Where an element of a member stands.
    pub fn element_of(
        &self,
        alloc: Global,
        name: &str,
        index: usize,
    ) -> Result<Option<usize>, AllocError> {
        let array = self.value_of(alloc, name)?;
        Ok(element(self.text, array, index))
    }

    /// The element of a member.
    pub fn element(&self, name: &str, index: usize) -> Option<&Value> {
        self.value.get(name)?.get(index)
    }

    /// Whether the format is 2.
    pub fn is_later(&self) -> bool {
        match self.value.get("format") {
            Some(format) => format.as_u64() == Some(2),
            None => false,
        }
    }
}

/// The elements of an array: none where this is no array.
pub fn elements(value: Option<&Value>) -> &[Value] {
    match value {
        Some(Value::Array(list)) => list.as_slice(),
        _ => &[],
    }
}
