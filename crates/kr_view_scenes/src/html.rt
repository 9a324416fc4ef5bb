//! A writer of pages.
ghost use Rattle.std.specs.Prelude.{◌≡◌, ◌++◌, [], OnOk, OnErr, decimal};
ghost use Rattle.kr_view_scenes.specs.Escape.{escaped};
ghost use Rattle.kr_view_scenes.specs.Marks.{mark_bytes};
ghost use Rattle.kr_view_scenes.specs.Parts.{part_bytes, parts_bytes, IsMadeOfParts};

use crate::mark::Mark;
use crate::part::Part;
use crate::text::escape;
use std::alloc::{AllocError, Global};
use std::marker::Model;

/// A page, or a piece of one, that is made of parts: marks, numbers, and texts, each of which is escaped. So no text can be
/// markup. Contracts see the bytes that were written.
#[derive(Drop)]
pub struct Html {
    text: String,
}

impl Model for Html {
    ghost use Rattle.std.specs.Prelude.{ℕ, List, string_bytes};
    ghost use Rattle.kr_view_scenes.specs.Parts.{IsMadeOfParts};

    ghost Value = { List ℕ };

    ghost view = { λ html. string_bytes html.text };

    ghost invariant = { λ html. IsMadeOfParts (string_bytes html.text) };
}

impl Html {
    /// One of no parts.
    pub fn new(alloc: Global) -> Html
        ensures { result ≡ [] }
    {
        Html {
            text: String::new(alloc),
        }
    }

    /// What was written.
    pub fn as_str(&self) -> &str
        ensures written { result.now ≡ self.now }
        ensures parts { IsMadeOfParts result.now }
    {
        self.text.as_str()
    }

    /// Writes parts. The only error is that a growth was refused, and then the first of them are written.
    pub fn put(&mut self, parts: &[Part<'_>]) -> Result<(), AllocError>
        ensures { OnOk result (self.new ≡ self.old ++ parts_bytes parts.now) }
    {
        for part in parts {
            self.part(*part)?;
        }
        Ok(())
    }

    /// Writes a part, or nothing where a growth was refused.
    fn part(&mut self, part: Part<'_>) -> Result<(), AllocError>
        ensures { OnOk result (self.new ≡ self.old ++ part_bytes part.entry) }
    {
        match part {
            Part::Mark(mark) => self.mark(mark),
            Part::Number(number) => self.number(number),
            Part::Text(text) => self.text(text),
        }
    }

    /// Writes a mark, or nothing where a growth was refused.
    pub fn mark(&mut self, mark: Mark) -> Result<(), AllocError>
        ensures ok { OnOk result (self.new ≡ self.old ++ mark_bytes mark) }
        ensures err { OnErr result (self.new ≡ self.old) }
    {
        self.text.push_str(mark.as_str())
    }

    /// Writes a number in decimal digits, or nothing where a growth was refused.
    pub fn number(&mut self, number: u64) -> Result<(), AllocError>
        ensures ok { OnOk result (self.new ≡ self.old ++ decimal number) }
        ensures err { OnErr result (self.new ≡ self.old) }
    {
        let digits = format!(in *self.text.allocator(); "{number}")?;
        self.text.push_str(digits.as_str())
    }

    /// Writes a text, which may be of a table or a script, or nothing where a growth was refused.
    pub fn text(&mut self, text: &str) -> Result<(), AllocError>
        ensures ok { OnOk result (self.new ≡ self.old ++ escaped text.now) }
        ensures err { OnErr result (self.new ≡ self.old) }
    {
        let page = escape(*self.text.allocator(), text)?;
        self.text.push_str(page.as_str())
    }
}
