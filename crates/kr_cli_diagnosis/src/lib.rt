//! Tables and scripts that words name, and what helps where they name none: where a fault is, the line there with a caret, what
//! was expected, and the nearest name. `toml` and `serde_json` say where they couldn't go on, and keep no places of what they read:
//! so a small walk over the text finds the place of a fault. Where it finds none, or memory is refused, no place is printed.
#![tactic(auto)]

mod bundled;
mod document;
mod encoding;
mod finding;
mod ghost_scripts;
mod help;
mod json_faults;
mod json_places;
mod kinds;
mod lines;
mod named;
mod names;
mod nearest;
mod place;
mod repeated;
mod script_members;
mod script_steps;
mod scripts;
mod source;
mod table_matrices;
mod table_members;
mod table_rules;
mod tables;
mod toml_faults;
mod toml_paths;
mod toml_places;
mod toml_tokens;
mod unreadable;

pub use bundled::{Bundled, bundled_help};
pub use finding::{script_at, table_at};
pub use ghost_scripts::ghost_script_with_help;
pub use named::named_with_help;
pub use repeated::repeated_help;
pub use scripts::script_help;
pub use tables::table_help;
pub use unreadable::file_help;
