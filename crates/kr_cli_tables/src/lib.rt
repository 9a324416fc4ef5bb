//! `kr explain`, `kr suite`, `kr relax` and `kr view`: their words, and from the table that they name to a text on a sink: why it
//! is rejected, the tests of an engine, what it blocks needlessly, and its page or that of a run under it.
#![tactic(auto)]

mod explanations;
mod pages;
mod relaxations;
mod suites;

pub use explanations::{
    Asked as ExplainAsked, Wanted as ExplainWanted, explain, read_words as read_explain_words,
    write_explanation, write_ghost_explanation, write_ghost_script, write_script,
};
pub use pages::{
    Asked as ViewAsked, read_words as read_view_words, view, write_ghost_page,
    write_ghost_table_page, write_page, write_table_page,
};
pub use relaxations::{
    Asked as RelaxAsked, Wanted as RelaxWanted, read_words as read_relax_words, relax,
    write_relaxed,
};
pub use suites::{
    Asked as SuiteAsked, Wanted as SuiteWanted, read_words as read_suite_words, suite, write_suite,
};
