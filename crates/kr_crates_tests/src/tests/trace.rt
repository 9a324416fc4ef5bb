//! Tests of traces of an engine.

mod follow;
mod given;
mod judge;
mod lines;
mod observed;
mod text;
