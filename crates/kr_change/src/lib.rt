//! Changes of one entry of a table: a pair of modes that is compatible or not, a conversion, a request, or what is inherited
//! where a ghost is purged. A protocol of either kind of index with one of them made, and all of them; and a change in words, and
//! as an edit of the table's file.
#![tactic(auto)]

mod allowed;
mod change;
mod changed;
mod edits;
mod entries;
mod every;
mod ghost_every;
mod names;

pub use change::{Change, GhostRow, ghost_row_word};
pub use changed::{Changed, is_same_place};
pub use edits::edit_text;
pub use entries::{conversion_text, entry_text, pair_text, place_text};
pub use every::{changes_of, is_same_request};
pub use ghost_every::index_changes_of;
pub use kr_model::{Memory, Mode, Row, Side, Span};
pub use names::change_text;
