//! For each table that differs from one in one entry, a short script whose last step is granted under one of the two and
//! blocked under the other, and a small set of such scripts that tells all of them apart.
//!
//! The search goes by a light machine, which does a few steps on a handful of keys under a table that is kept as arrays
//! (`Flat`), so that one entry of it is changed in place. It purges no ghosts.
//!
//! Proved is that the search is safe and ends. No contract says what the light machine answers or what the search finds: not
//! that a script is found, nor that it is the shortest. So whoever shows a script tries it first by `tells_apart`,
//! which runs it under both tables, and whose answer is exact.
#![tactic(auto)]

mod choice;
mod closure;
mod entry;
mod flags;
mod flat;
mod keys;
mod light;
mod looking;
mod moves;
mod naming;
mod node;
mod open;
mod pair;
mod pairs;
mod part;
mod replay;
mod search;
mod seat;
mod seen;
mod sight;
mod signature;
mod steps;
mod tables;
mod tells;
mod trail;

pub use flat::Flat;
pub use kr_change::Change;
pub use part::Part;
pub use search::parts;
pub use tells::{replies_are_of_the_run, tells_apart};
