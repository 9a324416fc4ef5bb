//! What the words ask.
ghost use Rattle.std.specs.Prelude.{◌≡◌, IfOk, IfErr, OnErr, map, string_bytes};
ghost use Rattle.kr_cli.specs.declared.endings.Ending.TheVariants as ending;
ghost use Rattle.kr_cli_tables.specs.ViewWords.{AskNoPage, IsAsked, words_of};

use kr_cli::{Ending, is_plain};

/// What is asked.
#[derive(Clone, Copy, PartialEq, Eq)]
pub enum Asked<'a> {
    /// The page of the table that this word names.
    Table(&'a str),
    /// The page of the run of the script that the second word names, under the table that the first names.
    Run(&'a str, &'a str),
}

/// What the words ask, the program's name left out: `TABLE`, or `TABLE SCRIPT`. Neither begins with a hyphen.
pub fn read_words<'a>(words: &'a [String]) -> Result<Asked<'a>, Ending>
    ensures words { IfOk result (λ a. map string_bytes words.now ≡ words_of a) }
    ensures asked { IfOk result IsAsked }
    ensures err { IfErr result (λ e. e ≡ ending.NotUnderstood) }
    ensures form { OnErr result (AskNoPage (map string_bytes words.now)) }
{
    match words {
        [table] if is_plain(table.as_str()) => Ok(Asked::Table(table.as_str())),
        [table, script] if is_plain(table.as_str()) && is_plain(script.as_str()) => {
            Ok(Asked::Run(table.as_str(), script.as_str()))
        }
        _ => Err(Ending::NotUnderstood),
    }
}
