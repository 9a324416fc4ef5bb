//! Why cases of a protocol table fail: what is to blame, why it is harmless or a schedule that goes wrong by it, and its fixes;
//! as a text, and each schedule as a script.
#![tactic(auto)]

mod effort;
mod explaining;
mod explanation;
mod harmless;
mod run;
mod scripts;
mod text;
mod told_run;
mod verdict;

pub use explaining::explain;
pub use explanation::{Explained, Explanation, Failures};
pub use harmless::Harmless;
pub use kr_cases::Memory;
pub use run::Run;
pub use text::{prose_text, title_text};
pub use verdict::verdict_text;
