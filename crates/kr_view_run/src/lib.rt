//! A run of a script as a page of HTML that stands alone, with its pictures as SVG.
#![tactic(auto)]

mod band;
mod bands;
mod drawing;
mod frame;
mod lanes;
mod page;
mod svg;

pub use bands::bands_of_run;
pub use frame::{END, LOOK, page_head};
pub use kr_locks::Memory;
pub use kr_view_scenes::escape;
pub use page::{page_of_run, picture};
