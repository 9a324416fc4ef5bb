//! Files that a test gives a program.

use kr_cli::{FileFault, Files, first_bytes};
use kr_trace_parts::{ReadLines, Traces};
use std::alloc::Global;

/// Texts by their names. To read `big` takes more memory than there is, and nothing else can be read.
#[derive(Clone, Copy)]
pub struct Shelf<'a>(pub &'a [(&'a str, &'a str)]);

impl Files for Shelf<'_> {
    ghost may_give = { λ _ _ _. Unit {0} };

    fn whole(&self, alloc: Global, word: &str, most: usize) -> Result<Vec<u8>, FileFault> {
        if word == "big" {
            return Err(FileFault::Memory);
        }
        for (name, text) in self.0 {
            if *name == word {
                let mut text = text.as_bytes();
                return Ok(first_bytes(alloc, &mut text, most)?);
            }
        }
        Err(FileFault::Unreadable)
    }
}

impl<'a> Traces for Shelf<'a> {
    type Lines = ReadLines<&'a [u8]>;

    ghost may_name = { λ _ _ _. Unit {0} };

    fn open(&self, alloc: Global, word: &str) -> Result<ReadLines<&'a [u8]>, FileFault> {
        if word == "big" {
            return Err(FileFault::Memory);
        }
        for (name, text) in self.0 {
            if *name == word {
                return Ok(ReadLines::new(alloc, text.as_bytes()));
            }
        }
        Err(FileFault::Unreadable)
    }
}
