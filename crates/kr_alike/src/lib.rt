//! Two tables that give the same replies in every schedule, though they differ: a finite test of the modes that two
//! transactions can hold on one name, and the theorem that it suffices for any number of keys, transactions and steps. Where one
//! of the tables is safe, only the requests are followed that may come under it.
#![tactic(auto)]

mod alone;
mod answer;
mod asked;
mod coming;
mod decision;
mod found;
mod if_safe;
mod laws;
mod left;
mod modes;
mod safe_laws;

pub use coming::{ASKED, Coming, by_next};
pub use decision::{alike, alike_where};
pub use if_safe::alike_if_safe;
pub use kr_model::{Memory, Mode};
pub use laws::{alike_are_serial, closed_is_alike};
pub use modes::Modes;
pub use safe_laws::{alike_if_safe_are_serial, closed_is_alike_if_safe};
