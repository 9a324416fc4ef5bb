//! Tables that read as TOML.

use crate::toml_places::{Found, find};
use std::alloc::{AllocError, Global};
use toml::Value;

/// A table that reads as TOML: its text, and the document.
#[derive(Drop)]
pub struct Document<'a> {
    pub text: &'a [u8],
    pub value: Value,
}

impl Document<'_> {
    /// Where a path leads.
    pub fn find(&self, alloc: Global, path: &[&str]) -> Result<Found, AllocError> {
        find(alloc, self.text, path)
    }

    /// The key or the element at a path, where the path leads all the way.
    pub fn key(&self, alloc: Global, path: &[&str]) -> Result<Option<usize>, AllocError> {
        let found = self.find(alloc, path)?;
        Ok(if found.depth == path.len() {
            Some(found.key)
        } else {
            None
        })
    }

    /// The value at a path, or the key where the value has no place of its own.
    pub fn place(&self, alloc: Global, path: &[&str]) -> Result<Option<usize>, AllocError> {
        let found = self.find(alloc, path)?;
        Ok(if found.depth == path.len() {
            Some(found.value.unwrap_or(found.key))
        } else {
            None
        })
    }

    /// The last key or element on a path.
    pub fn nearby(&self, alloc: Global, path: &[&str]) -> Result<Option<usize>, AllocError> {
        let found = self.find(alloc, path)?;
        Ok(if found.depth > 0 {
            Some(found.key)
        } else {
            None
        })
    }

    /// The value of a member.
    pub fn member(&self, alloc: Global, name: &str) -> Result<Option<usize>, AllocError> {
        self.place(alloc, &[name])
    }

    /// The elements of `modes`: none where it is no array.
    pub fn mode_list(&self) -> &[Value] {
        match self.value.get("modes") {
            Some(Value::Array(list)) => list.as_slice(),
            _ => &[],
        }
    }

    /// Whether a mode has this name.
    pub fn has_mode(&self, name: &str) -> bool {
        for item in self.mode_list() {
            if item.as_str() == Some(name) {
                return true;
            }
        }
        false
    }

    /// The names of the modes, as far as they are texts, and "none" behind them where that may stand there too.
    pub fn modes(&self, alloc: Global, or_none: bool) -> Result<Vec<&str>, AllocError> {
        let mut names = Vec::new(alloc);
        for item in self.mode_list() {
            if let Some(name) = item.as_str() {
                names.push(name)?;
            }
        }
        if or_none {
            names.push("none")?;
        }
        Ok(names)
    }
}
