//! What a table of either kind of index blocks needlessly: changes of one entry that let more run at once, and keep the table
//! safe; what any other change does; and which entries no schedule comes to.
#![tactic(auto)]

mod differs;
mod finder;
mod gone;
mod leaving;
mod outcome;
mod place;
mod relax;
mod safe;
mod spots;
mod twins;
mod unused;

pub use kr_change::{Change, Changed};
pub use kr_model::{Memory, Mode, Row, Side, Span};
pub use outcome::{Judged, Outcome, outcomes_of};
pub use place::{Place, Request, Spot};
pub use relax::{Relaxed, relaxations};
pub use safe::is_safe_index;
pub use spots::spots_of;
pub use twins::{Twin, twins_of};
pub use unused::{Entry, unused_entries};
