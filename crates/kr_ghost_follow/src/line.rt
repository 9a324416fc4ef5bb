//! A line of a trace.

use kr_model::Event;
use kr_trace_lines::Observed;

/// A step that an engine logged, with its reply and the number of its line.
#[derive(Clone, Copy)]
pub(crate) struct Logged<'a> {
    pub(crate) number: u64,
    pub(crate) event: Event,
    pub(crate) observed: &'a Observed,
}
