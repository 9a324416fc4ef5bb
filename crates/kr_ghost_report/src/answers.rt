//! Answers to moves, and ghosts, each written behind what a text has.
ghost use Rattle.std.specs.Prelude.{◌≡◌, ◌++◌, OnOk, string_bytes};
ghost use Rattle.serde_json.specs.Written.{compact_text};
ghost use Rattle.kr_script.specs.Replies.{numbers_data};
ghost use Rattle.kr_ghost_report.specs.RunReport.{answer_data, answers_data};

use kr_ghost_run::Answer;
use kr_script::{separator, write_number, write_reply};
use std::alloc::AllocError;

/// Writes an array of ghosts, each as its key.
pub fn write_ghosts(out: &mut String, ghosts: &[u64]) -> Result<(), AllocError>
    ensures { OnOk result (string_bytes out.new ≡ string_bytes out.old ++ compact_text (numbers_data ghosts.now)) }
{
    out.push_str("[")?;
    let mut later = false;
    for key in ghosts {
        out.push_str(separator(later))?;
        write_number(out, *key)?;
        later = true;
    }
    out.push_str("]")
}

/// Writes the answer to a move.
#[tactic(auto, unfolding(serde_json::proofs::OnLiterals::serde_json_on_literals))]
pub fn write_answer(out: &mut String, answer: &Answer) -> Result<(), AllocError>
    ensures { OnOk result (string_bytes out.new ≡ string_bytes out.old ++ compact_text (answer_data answer.now)) }
{
    match answer {
        Answer::Step(reply) => write_reply(out, reply),
        Answer::Purge(true) => out.push_str(r#"["purged"]"#),
        Answer::Purge(false) => out.push_str(r#"["kept"]"#),
    }
}

/// Writes an array of answers.
pub fn write_answers(out: &mut String, answers: &[Answer]) -> Result<(), AllocError>
    ensures { OnOk result (string_bytes out.new ≡ string_bytes out.old ++ compact_text (answers_data answers.now)) }
{
    out.push_str("[")?;
    let mut later = false;
    for answer in answers {
        out.push_str(separator(later))?;
        write_answer(out, answer)?;
        later = true;
    }
    out.push_str("]")
}
