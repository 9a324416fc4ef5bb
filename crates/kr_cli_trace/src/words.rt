//! What the words ask.
ghost use Rattle.std.specs.Prelude.{◌≡◌, ◌∷◌, [], IfOk, IfErr, OnErr, map, string_bytes};
ghost use Rattle.kr_cli.specs.declared.endings.Ending.TheVariants as ending;
ghost use Rattle.kr_cli_trace.specs.Words.{AskNoTrace, IsAsked, words_of};

use kr_cli::{Ending, is_plain, number_of};

/// What is asked of the trace that a word names.
#[derive(Clone, Copy, PartialEq, Eq)]
pub enum Asked<'a> {
    /// Whether its replies are those of the table that the first word names, and whether its committed answers are serializable
    /// in commit order.
    Both(&'a str, &'a str),
    /// The same of the part that has this number, from 1, as a text.
    OnePart(&'a str, &'a str, usize),
    /// Whether its committed answers are serializable in commit order.
    Serial(&'a str),
    /// Whether its committed answers are serializable in some order.
    SomeOrder(&'a str),
}

/// What the words ask, the program's name left out: `TABLE TRACE`, `TABLE TRACE --tell N`, `--serial TRACE` or `--some-order
/// TRACE`. Neither TABLE nor TRACE begins with a hyphen. N is from 1 to `2^64 - 1`, in decimal digits without a leading zero.
/// Other words aren't understood.
pub fn read_words<'a>(words: &'a [String]) -> Result<Asked<'a>, Ending>
    ensures words { IfOk result (λ a. map string_bytes words.now ≡ words_of a) }
    ensures asked { IfOk result IsAsked }
    ensures err { IfErr result (λ e. e ≡ ending.NotUnderstood) }
    ensures form { OnErr result (AskNoTrace (map string_bytes words.now)) }
{
    match words {
        [first, trace] => read_two(first.as_str(), trace.as_str()),
        [table, trace, option, number] => read_four(
            table.as_str(),
            trace.as_str(),
            option.as_str(),
            number.as_str(),
        ),
        _ => Err(Ending::NotUnderstood),
    }
}

/// What two words ask: a table or an option, and a trace.
fn read_two<'a>(first: &'a str, trace: &'a str) -> Result<Asked<'a>, Ending>
    ensures words { IfOk result (λ a. first.now ∷ trace.now ∷ [] ≡ words_of a) }
    ensures asked { IfOk result IsAsked }
    ensures err { IfErr result (λ e. e ≡ ending.NotUnderstood) }
    ensures form { OnErr result (AskNoTrace (first.now ∷ trace.now ∷ [])) }
{
    if !is_plain(trace) {
        return Err(Ending::NotUnderstood);
    }
    match first {
        "--serial" => Ok(Asked::Serial(trace)),
        "--some-order" => Ok(Asked::SomeOrder(trace)),
        table if is_plain(table) => Ok(Asked::Both(table, trace)),
        _ => Err(Ending::NotUnderstood),
    }
}

/// What four words ask: a table, a trace, `--tell` and the number of a part.
fn read_four<'a>(
    table: &'a str,
    trace: &'a str,
    option: &'a str,
    number: &'a str,
) -> Result<Asked<'a>, Ending>
    ensures words { IfOk result (λ a. table.now ∷ trace.now ∷ option.now ∷ number.now ∷ [] ≡ words_of a) }
    ensures asked { IfOk result IsAsked }
    ensures err { IfErr result (λ e. e ≡ ending.NotUnderstood) }
    ensures form { OnErr result (AskNoTrace (table.now ∷ trace.now ∷ option.now ∷ number.now ∷ [])) }
{
    if !is_plain(table) || !is_plain(trace) || option != "--tell" {
        return Err(Ending::NotUnderstood);
    }
    match number_of(number) {
        Some(number) => Ok(Asked::OnePart(table, trace, number)),
        None => Err(Ending::NotUnderstood),
    }
}
