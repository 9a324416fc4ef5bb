//! What the words ask.
ghost use Rattle.std.specs.Prelude.{◌≡◌, IfOk, IfErr, OnErr, map, string_bytes};
ghost use Rattle.kr_cli.specs.declared.endings.Ending.TheVariants as ending;
ghost use Rattle.kr_cli_tables.specs.ExplainWords.{words_of, AskNothingOfTables, IsAsked};
ghost use Rattle.kr_cli_tables.specs.declared.explanations.words.Wanted.{Wanted};

use kr_cli::{Ending, is_plain, number_of};

/// What is asked.
#[derive(Clone, Copy, PartialEq, Eq)]
pub struct Asked<'a> {
    /// The word that names the table.
    pub table: &'a str,
    /// What is printed of it.
    pub wanted: Wanted,
}

/// What is printed of a table.
#[derive(Clone, Copy, PartialEq, Eq)]
pub enum Wanted {
    /// The explanation: status 0 where the table is safe, accepted or not, and else 1.
    Explanation,
    /// The script of the cause that has this number, from 1: status 1.
    Script(usize),
}

/// What the words ask, the program's name left out: `TABLE`, or `TABLE --script N`. TABLE doesn't begin with a hyphen. N is
/// from 1 to `2^64 - 1`, in decimal digits without a leading zero. Other words aren't understood.
pub fn read_words<'a>(words: &'a [String]) -> Result<Asked<'a>, Ending>
    ensures words { IfOk result (λ a. map string_bytes words.now ≡ words_of a.table.now a.wanted) }
    ensures asked { IfOk result (λ a. IsAsked a.table.now a.wanted) }
    ensures none { OnErr result (AskNothingOfTables (map string_bytes words.now)) }
    ensures err { IfErr result (λ e. e ≡ ending.NotUnderstood) }
{
    match words {
        [table] if is_plain(table.as_str()) => Ok(Asked {
            table: table.as_str(),
            wanted: Wanted::Explanation,
        }),
        [table, option, number] if is_plain(table.as_str()) && option.as_str() == "--script" => {
            match number_of(number.as_str()) {
                Some(number) => Ok(Asked {
                    table: table.as_str(),
                    wanted: Wanted::Script(number),
                }),
                None => Err(Ending::NotUnderstood),
            }
        }
        _ => Err(Ending::NotUnderstood),
    }
}
