//! A script that goes wrong under a table, made from a case of it that fails. Nothing is searched for among
//! interleavings: a script is what one transaction does to come to the modes of the case, the step that the case is about,
//! and an ending from a table. Where none of these goes wrong, the steps are a way to lock states that two transactions have,
//! found by the lock states alone. Each script is run and judged before it is shown.
#![tactic(auto)]

mod access;
mod closure;
mod counterexample;
mod deed;
mod draft;
mod ending;
mod entrances;
mod find;
mod finder;
mod fit;
mod footing;
mod judging;
mod keys;
mod last_steps;
mod leading;
mod marks;
mod moment;
mod moves;
mod numbers;
mod own_steps;
mod reached;
mod readied;
mod ready;
mod request;
mod scene;
mod scenes;
mod scripts;
mod staged;
mod staging;
mod state;
mod step;
mod table;
mod turns;
mod within;

pub use closure::Closure;
pub use counterexample::Counterexample;
pub use ending::Ending;
pub use fit::Fit;
pub use scenes::Scenes;
pub use within::Sought;
