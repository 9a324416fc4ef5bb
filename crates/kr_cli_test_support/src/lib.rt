//! What the tests of programs share: words, files on a shelf, a sink that takes nothing, and what a program leaves.
#![tactic(auto)]

mod full;
mod left;
mod shelf;
mod words;

pub use full::Full;
pub use left::Left;
pub use shelf::Shelf;
pub use words::owned;
