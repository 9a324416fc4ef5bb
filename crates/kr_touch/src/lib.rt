//! What a step looks at and changes: in an index, and in how its transaction stands.
#![tactic(auto)]

pub mod change;
pub mod effects;
pub mod granted;
pub mod parts;
pub mod replies;
pub mod scans;
pub mod sights;
pub mod standings;
