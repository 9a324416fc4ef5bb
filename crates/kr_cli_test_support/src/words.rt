//! The words that a test gives a program.

use std::alloc::{AllocError, Global};

/// The words, each as a text of its own. What a program makes of them is compared, and nothing is promised of them.
pub fn owned(alloc: Global, words: &[&str]) -> Result<Vec<String>, AllocError> {
    let mut all = Vec::new(alloc);
    for word in words {
        all.push(String::from_str(alloc, *word)?)?;
    }
    Ok(all)
}
