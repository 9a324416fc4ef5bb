//! Stories of a few steps, told on machines, with replies, index, locks and transactions worked out by hand; and sweeps
//! whose replies are told by a list of the changes beside the machine.

mod ample;
mod at_once;
mod beside;
mod changes;
mod machines;
mod refused_memory;
mod scans;
mod steps;
mod story;
mod sweep;
mod telling;
