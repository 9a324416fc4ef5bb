//! Tests of a machine and its parts.

mod ghosts;
mod index;
mod locks;
mod machine;
mod plan;
mod txn;
