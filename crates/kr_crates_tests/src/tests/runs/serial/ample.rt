//! Runs with ample memory, none of which answers out of memory.
mod clashes;
mod crowds;
mod inputs;
mod random;
mod story;
