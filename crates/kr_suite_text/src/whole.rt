//! The text of a suite: a trace with a table's replies.
ghost use Rattle.std.specs.Prelude.{◌≡◌, ◌∷◌, [], IfOk, map, string_bytes};
ghost use Rattle.kr_model.specs.Map.{IsMap};
ghost use Rattle.kr_change.specs.ChangeNames.{change_words};
ghost use Rattle.kr_kinds.specs.Kinds.{table_of};
ghost use Rattle.kr_suite_text.specs.Habits.{habit_words, opening};
ghost use Rattle.kr_suite_text.specs.Whole.{all_tested, all_tried, habit_text, suite_text, tested_text, tried_text};

use crate::either::{name_of, offers_updates};
use crate::habits::{Habit, all_habits, habit_words, is_tried, opening};
use crate::parts::part_text;
use crate::scripts::habit_steps;
use kr_change::Change;
use kr_kinds::IndexProtocol;
use kr_model::Memory;
use kr_stepping::play_any;
use kr_suite_core::{Suite, Tested};
use std::alloc::Global;

/// The names of changes.
fn names_of<P: IndexProtocol>(
    alloc: Global,
    protocol: &P,
    changes: &[Change],
) -> Result<Vec<String>, Memory>
    ensures { IfOk result (λ names. map string_bytes names.items ≡ map (change_words (table_of (P.index protocol.now)) (P.names protocol.now)) changes.now) }
{
    let mut names = Vec::new(alloc);
    for change in changes {
        let name = name_of(alloc, protocol, *change)?;
        names.push(name)?;
    }
    Ok(names)
}

/// A part that tells changes apart, which it names.
fn tested_text<P: IndexProtocol>(
    alloc: Global,
    protocol: &P,
    tested: &Tested,
) -> Result<String, Memory>
    ensures { IfOk result (λ text. string_bytes text ≡ tested_text (table_of (P.index protocol.now)) (P.names protocol.now) tested.now) }
{
    let names = names_of(alloc, protocol, tested.tells.as_slice())?;
    part_text(
        alloc,
        tested.opening.as_slice(),
        names.as_slice(),
        tested.events.as_slice(),
        tested.replies.as_slice(),
    )
}

/// The parts that tell changes apart.
fn all_tested<P: IndexProtocol>(
    alloc: Global,
    protocol: &P,
    parts: &[Tested],
) -> Result<String, Memory>
    ensures { IfOk result (λ text. string_bytes text ≡ all_tested (table_of (P.index protocol.now)) (P.names protocol.now) parts.now) }
{
    let mut out = String::new(alloc);
    for part in parts {
        let text = tested_text(alloc, protocol, part)?;
        out.push_str(text.as_str())?;
    }
    Ok(out)
}

/// What a script is for, as the texts of a head.
fn tests_of(alloc: Global, habit: Habit) -> Result<Vec<String>, Memory>
    ensures { IfOk result (λ tests. map string_bytes tests.items ≡ habit_words habit ∷ []) }
{
    let words = String::from_str(alloc, habit_words(habit))?;
    let mut tests = Vec::new(alloc);
    tests.push(words)?;
    Ok(tests)
}

/// Does nothing: the keys of the opening rise.
fn opens_a_map()
    ensures { IsMap opening }
{}

/// The script of a habit, run under the table.
fn habit_text<P: IndexProtocol>(alloc: Global, protocol: &P, habit: Habit) -> Result<String, Memory>
    ensures { IfOk result (λ text. string_bytes text ≡ habit_text (P.index protocol.now) habit) }
{
    opens_a_map();
    let tests = tests_of(alloc, habit)?;
    let steps = habit_steps(habit);
    let replies = play_any(alloc, protocol, opening(), steps)?;
    part_text(
        alloc,
        opening(),
        tests.as_slice(),
        steps,
        replies.as_slice(),
    )
}

/// The same, where the script is tried.
fn tried_text<P: IndexProtocol>(alloc: Global, protocol: &P, habit: Habit) -> Result<String, Memory>
    ensures { IfOk result (λ text. string_bytes text ≡ tried_text (P.index protocol.now) habit) }
{
    if is_tried(habit, offers_updates(protocol), protocol.leaves_ghosts()) {
        habit_text(alloc, protocol, habit)
    } else {
        Ok(String::new(alloc))
    }
}

/// The scripts of habits that are tried.
fn all_tried<P: IndexProtocol>(alloc: Global, protocol: &P) -> Result<String, Memory>
    ensures { IfOk result (λ text. string_bytes text ≡ all_tried (P.index protocol.now)) }
{
    let mut out = String::new(alloc);
    for habit in all_habits() {
        let text = tried_text(alloc, protocol, *habit)?;
        out.push_str(text.as_str())?;
    }
    Ok(out)
}

/// The suite of a table of either kind as a trace: each part that tells changes apart, and then each script of a habit, all with the
/// table's replies, with no purge between the steps. Each line is ended by a line feed. The error is memory alone.
pub fn suite_text<P: IndexProtocol>(
    alloc: Global,
    protocol: &P,
    suite: &Suite,
) -> Result<String, Memory>
    ensures { IfOk result (λ text. string_bytes text ≡ suite_text (P.index protocol.now) (P.names protocol.now) suite.now) }
{
    let tested = all_tested(alloc, protocol, suite.parts.as_slice())?;
    let tried = all_tried(alloc, protocol)?;
    format!(in alloc; "{tested}{tried}")
}
