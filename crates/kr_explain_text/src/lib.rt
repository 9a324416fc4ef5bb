//! The words and sentences that say why a protocol table is rejected: each part of the text of a cause.
#![tactic(auto)]

mod anomalies;
mod body;
mod cells;
mod edits;
mod granted;
mod groups;
mod harmless;
mod lists;
mod locks;
mod mending;
mod orders;
mod owns;
mod programs;
mod requested;
mod requests;
mod rows;
mod runs;
mod seen;
mod spoken;
mod steps;
mod title;
mod verdict;
mod whole;
mod words;
mod wrap;

pub use anomalies::anomaly;
pub use body::write_body;
pub use groups::{cases_word, counted, is_none_yet};
pub use harmless::{write_never_held, write_never_let_in};
pub use kr_cases::Memory;
pub use lists::{joined, modes_listed};
pub use mending::fixes_text;
pub use programs::{committed, operation_of, operation_words};
pub use requested::{early_sentence, nothing_sentence, weak_sentence};
pub use rows::write_rows;
pub use runs::{Tries, run_end, run_head, write_case, write_no_run, write_run};
pub use spoken::{answer_text, lock_name, op_text, pairs_text, rows_text, txns_text};
pub use title::write_title;
pub use whole::{accepted_words, causes_words, command_text, rejected_words};
pub use words::{cover_words, deed_words};
