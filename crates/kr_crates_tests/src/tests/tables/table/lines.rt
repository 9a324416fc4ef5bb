//! A table as text, line by line.

use std::alloc::{AllocError, Global};

/// The five members of a table, as lines of its text.
#[derive(Clone, Copy)]
pub struct Table<'a> {
    pub format: &'a str,
    pub modes: &'a str,
    pub compatible: &'a str,
    pub convert: &'a str,
    pub rules: &'a str,
}

/// A table of one mode that requests nothing.
pub const PLAIN: Table = Table {
    format: "format = 1",
    modes: r#"modes = ["A"]"#,
    compatible: "compatible = { A = [] }",
    convert: r#"convert = { A = { A = "A" } }"#,
    rules: "rules = {}",
};

impl Table<'_> {
    /// The text of those lines.
    pub fn text(self, alloc: Global) -> Result<String, AllocError> {
        let Table {
            format,
            modes,
            compatible,
            convert,
            rules,
        } = self;
        format!(in alloc; "{format}\n{modes}\n{compatible}\n{convert}\n{rules}\n")
    }
}
