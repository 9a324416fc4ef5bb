//! What the words ask.
ghost use Rattle.std.specs.Prelude.{◌≡◌, IfOk, IfErr, OnErr, map, string_bytes};
ghost use Rattle.kr_cli.specs.Words.{IsPlain};
ghost use Rattle.kr_cli.specs.declared.endings.Ending.TheVariants as ending;
ghost use Rattle.kr_cli_tables.specs.RelaxWords.{words_of, AskNothingOfTables};
ghost use Rattle.kr_cli_tables.specs.declared.relaxations.words.Wanted.{Wanted};

use kr_cli::{Ending, is_plain};

/// What is asked.
#[derive(Clone, Copy, PartialEq, Eq)]
pub struct Asked<'a> {
    /// The word that names the table.
    pub table: &'a str,
    /// What is printed of it.
    pub wanted: Wanted<'a>,
}

/// What is printed of a table.
#[derive(Clone, Copy, PartialEq, Eq)]
pub enum Wanted<'a> {
    /// Its relaxations, or that there are none.
    Relaxations,
    /// The table that is left where one relaxation after another is taken.
    Tightest,
    /// What each change of the entry of this name does.
    Why(&'a str),
}

/// What the words ask, the program's name left out: `TABLE`, `TABLE --write`, or `TABLE --why ENTRY`. TABLE doesn't begin with a
/// hyphen. Other words aren't understood.
pub fn read_words<'a>(words: &'a [String]) -> Result<Asked<'a>, Ending>
    ensures words { IfOk result (λ a. map string_bytes words.now ≡ words_of a.table.now a.wanted) }
    ensures asked { IfOk result (λ a. IsPlain a.table.now) }
    ensures none { OnErr result (AskNothingOfTables (map string_bytes words.now)) }
    ensures err { IfErr result (λ e. e ≡ ending.NotUnderstood) }
{
    match words {
        [table] if is_plain(table.as_str()) => Ok(Asked {
            table: table.as_str(),
            wanted: Wanted::Relaxations,
        }),
        [table, option] if is_plain(table.as_str()) && option.as_str() == "--write" => Ok(Asked {
            table: table.as_str(),
            wanted: Wanted::Tightest,
        }),
        [table, option, entry] if is_plain(table.as_str()) && option.as_str() == "--why" => {
            Ok(Asked {
                table: table.as_str(),
                wanted: Wanted::Why(entry.as_str()),
            })
        }
        _ => Err(Ending::NotUnderstood),
    }
}
