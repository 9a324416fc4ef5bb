//! Printing on a sink, which may take less than it is offered.
#![tactic(auto)]

mod sink;

pub use sink::{Failed, Io, PrintFault, Sink, print, put_all};
