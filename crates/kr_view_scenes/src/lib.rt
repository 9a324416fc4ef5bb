//! What is shown of a run: a scene for each step, with the bars of its locks, the columns of its keys and the lengths of its
//! drawing; and in words the steps, the answers and the commits. And pages of HTML that are made of parts: of fixed marks, and of
//! numbers and texts, which can't be markup.
#![tactic(auto)]

mod act;
mod asked;
mod bar;
mod columns;
mod commits;
mod html;
mod layout;
mod mark;
mod part;
mod run;
mod scene;
mod scenes;
mod summary;
mod text;
mod words;

pub use act::Act;
pub use asked::{Asked, Scans};
pub use bar::{Bar, BarKind, BarLine, colour_of};
pub use columns::{Columns, key_of};
pub use commits::write_commits;
pub use html::Html;
pub use kr_locks::Memory;
pub use layout::{Layout, bar_width, digits, text_width};
pub use mark::Mark;
pub use part::Part;
pub use run::{Difference, Run, STEPS_DRAWN};
pub use scene::{KeyState, Keys, Scene, Shown, Standing, shown_of};
pub use scenes::{Drawn, scenes_of};
pub use summary::write_summary;
pub use text::escape;
pub use words::{kind_of, letter_of, write_name, write_numbers, write_op, write_reply};
