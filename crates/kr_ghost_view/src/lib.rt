//! The page of a run with ghosts: a scene for each move that is drawn, by the machine with ghosts, and the page of them.
#![tactic(auto)]

mod asked;
mod columns;
mod page;
mod scenes;

pub use kr_model::Memory;
pub use page::ghost_picture;
pub use scenes::ghost_scenes_of;
