//! Tests of definitions and protocols.

mod alike;
mod cases;
mod causes;
mod copies;
mod decide;
mod ghosts;
mod model;
mod modes;
mod ordered;
mod protocol;
mod relax;
mod table;
