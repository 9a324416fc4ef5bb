//! Traces of engines, line by line: replies as an engine gives them, and which of a table's they agree with; lines read from JSON,
//! and the line that is printed for a part.
#![tactic(auto)]

mod deviation;
mod deviation_writing;
mod faults;
mod fitting;
mod line;
mod line_writing;
mod observed;
mod observed_writing;
mod parts;
mod reading;
mod replies;
mod report;
mod verdict;

pub use deviation::{Conflict, Deviation, DeviationKind};
pub use faults::LineFault;
pub use fitting::fits;
pub use line::Line;
pub use line_writing::write_line;
pub use observed::Observed;
pub use observed_writing::write_observed;
pub use parts::PartLines;
pub use reading::read_line;
pub use report::{write_judged, write_part, write_texts};
pub use verdict::TraceVerdict;
