//! What the words ask.
ghost use Rattle.std.specs.Prelude.{◌≡◌, ◌⊎◌, ◌∷◌, All, IfOk, IfErr, IfSome, IsTrue, map, string_bytes};
ghost use Rattle.kr_cli.specs.Words.{IsPlain};
ghost use Rattle.kr_cli.specs.declared.endings.Ending.TheVariants as ending;
ghost use Rattle.kr_cli_tasks.specs.Words.{AreLeft, AreWords, HasWorkers, LeavesWords, count_of};

use crate::asked::{Asked, Form, Task, Workers};
use crate::forms::command;
use clap::ArgMatches;
use clap::error::ErrorKind;
use kr_cli::{Ending, is_plain};
use std::alloc::Global;

/// Whether the words are these names, in their order.
fn are_same(words: &[String], names: &[&str]) -> bool
    ensures { IsTrue result → map string_bytes words.now ≡ map (λ name. name.now) names.now }
{
    words.len() == names.len()
        && words
            .iter()
            .zip(names.iter())
            .all(|(word, name)| word.as_str() == *name)
}

/// Whether the words are the first word of a form, and behind it those of a table and of scripts.
fn is_form(words: &[String], first: &str, table: &str, scripts: &[&str]) -> bool
    ensures { IsTrue result → map string_bytes words.now ≡ first.now ∷ table.now ∷ map (λ script. script.now) scripts.now }
{
    match words {
        [name, word, rest @ ..] if name.as_str() == first && word.as_str() == table => {
            are_same(rest, scripts)
        }
        _ => false,
    }
}

impl Asked<'_> {
    /// Whether these words ask for this, but for how many workers there are.
    fn is_of(&self, words: &[String]) -> bool
        ensures { IsTrue result → AreLeft (map string_bytes words.now) self.now.table.now self.now.form }
    {
        match &self.form {
            Form::Plain(Task::Check) => is_form(words, "check", self.table, &[]),
            Form::Plain(Task::Run(script)) => is_form(words, "run", self.table, &[*script]),
            Form::Plain(Task::Judge(scripts)) => {
                !scripts.is_empty() && is_form(words, "judge", self.table, scripts.as_slice())
            }
            Form::Threads(script, _) => is_form(words, "threads", self.table, &[*script]),
        }
    }
}

/// The words that are left where `--workers` and its number, which stand last in a form that has them, are taken away; and
/// how many workers there are. Nothing where that word is no such number.
fn without_workers(words: &[String]) -> Option<(&[String], Workers)>
    ensures { IfSome result (λ r. LeavesWords (map string_bytes words.now) (map string_bytes r.0.now) (count_of r.1)) }
{
    if words.len() == 5 && words[0].as_str() == "threads" && words[3].as_str() == "--workers" {
        let workers = Workers::of(words[4].as_str())?;
        return Some((&words[..3], workers));
    }
    Some((words, Workers::USUAL))
}

/// Whether no word begins with a hyphen: but for `--workers`, none of the forms has such a word.
fn are_plain(words: &[String]) -> bool
    ensures { IsTrue result → All (λ word. IsPlain (string_bytes word)) words.now }
{
    words.iter().all(|word| is_plain(word.as_str()))
}

/// What `clap` makes of words.
fn matches_of<'a>(alloc: Global, words: &'a [String]) -> Result<ArgMatches<'a>, Ending>
    ensures { IfErr result (λ e. (e ≡ ending.Memory) ⊎ (e ≡ ending.NotUnderstood)) }
{
    match command(alloc)?.try_get_matches_from(words) {
        Ok(matches) => Ok(matches),
        Err(e) if e.kind() == ErrorKind::OutOfMemory => Err(Ending::Memory),
        Err(_) => Err(Ending::NotUnderstood),
    }
}

/// What is asked by a form of this name; where it is one by several threads, it has these workers.
fn asked_of<'a>(
    alloc: Global,
    name: &str,
    given: &ArgMatches<'a>,
    workers: Workers,
) -> Result<Asked<'a>, Ending>
    ensures workers { IfOk result (λ a. HasWorkers workers a.form) }
    ensures err { IfErr result (λ e. (e ≡ ending.Memory) ⊎ (e ≡ ending.NotUnderstood)) }
{
    let Some(table) = given.get_str("table") else {
        return Err(Ending::NotUnderstood);
    };
    let form = match (name, given.get_str("script"), given.get_strs("scripts")) {
        ("check", _, _) => Form::Plain(Task::Check),
        ("run", Some(script), _) => Form::Plain(Task::Run(script)),
        ("judge", _, Some(scripts)) => Form::Plain(Task::Judge(scripts.to_vec(alloc)?)),
        ("threads", Some(script), _) => Form::Threads(script, workers),
        _ => return Err(Ending::NotUnderstood),
    };
    Ok(Asked { table, form })
}

/// What `clap` takes words for, where `--workers` and its number have been taken away.
fn parsed<'a>(alloc: Global, words: &'a [String], workers: Workers) -> Result<Asked<'a>, Ending>
    ensures workers { IfOk result (λ a. HasWorkers workers a.form) }
    ensures err { IfErr result (λ e. (e ≡ ending.Memory) ⊎ (e ≡ ending.NotUnderstood)) }
{
    let matches = matches_of(alloc, words)?;
    match matches.subcommand() {
        Some((name, given)) => asked_of(alloc, name, given, workers),
        None => Err(Ending::NotUnderstood),
    }
}

/// What the words ask, the program's name left out: `check TABLE`, `run TABLE SCRIPT`, `judge TABLE SCRIPT..` with one script
/// or more, or `threads TABLE SCRIPT --workers N` with N from 1 to 64, where the last two words may be left out, and N is
/// then 4. Other words aren't understood.
pub fn read_words<'a>(alloc: Global, words: &'a [String]) -> Result<Asked<'a>, Ending>
    ensures words { IfOk result (λ a. AreWords (map string_bytes words.now) a.table.now a.form) }
    ensures err { IfErr result (λ e. (e ≡ ending.Memory) ⊎ (e ≡ ending.NotUnderstood)) }
{
    let Some((left, workers)) = without_workers(words) else {
        return Err(Ending::NotUnderstood);
    };
    if !are_plain(left) {
        return Err(Ending::NotUnderstood);
    }
    let asked = parsed(alloc, left, workers)?;
    // `clap` never takes words for others: that its answer is of these words is tested here, and so it can be proved.
    if !asked.is_of(left) {
        return Err(Ending::NotUnderstood);
    }
    Ok(asked)
}
