//! The program over its words, files and streams: the first word names the command, and the others are its words.
ghost use Rattle.std.specs.Prelude.{◌≡◌, ◌⊎◌, ◌≤◌, ◌∷◌, [], ℕ, List, codes, map, string_bytes};
ghost use Rattle.kr_sink.specs.Puts.{HasCause};
ghost use Rattle.std.specs.Io.KnownBytes.{Appends};
ghost use Rattle.kr_cli.specs.declared.endings.Ending.TheVariants as ending;
ghost use Rattle.kr_cli.specs.Endings.{IsTold, TellsOneLine, ending_text};
ghost use Rattle.kr_cli_tables.specs.View.{NameNoMemberTwice};
ghost use Rattle.kr_program.specs.Answers.{Answers, AskNothing, IsAskable, answer_of, stream};
ghost use Rattle.kr_program.specs.Commands.{word_of};
ghost use Rattle.kr_program.specs.Manual.{usage_told};
ghost use Rattle.kr_program.specs.Questions.{IsNoQuestion, IsQuestion};
ghost use Rattle.kr_program.specs.declared.questions.Question.{Question};
ghost use Rattle.kr_program.specs.declared.commands.Command.{Command};
ghost use Rattle.kr_program.specs.declared.commands.Command.TheVariants.{Trace, View};
ghost use Rattle.kr_program.specs.Serial.{AreSerialUnder, NamesSerial};

use crate::answering::answered;
use crate::commands::Command;
use kr_cli::{Ending, Files, finish};
use kr_sink::Sink;
use kr_trace_parts::Traces;
use std::alloc::Global;
use std::sync::Wait;
use std::thread::Threads;

/// Runs one command on its words: all of them, and those behind the first.
fn run_command<T: Threads + Wait + Sync, F: Files + Traces + Sync, W: Sink, E: Sink>(
    threads: &T,
    alloc: Global,
    command: Command,
    words: (&[String], &[String]),
    files: &F,
    out: &mut W,
    err: &mut E,
) -> u8
    requires begins { map string_bytes words.0.now ≡ word_of command ∷ map string_bytes words.1.now }
    ensures answers { Answers (F.may_give files.now) (F.may_name files.now) (map string_bytes words.entry.0.now)
        (stream (W.taken out.old) (W.taken out.new) (W.failures out.old) (W.failures out.new))
        (stream (E.taken err.old) (E.taken err.new) (E.failures err.old) (E.failures err.new)) result }
    ensures question { (q : Question) → IsAskable command → IsQuestion (map string_bytes words.entry.1.now) q
        → ((result ≡ 0) × Appends (W.taken out.old) (W.taken out.new) (answer_of command q))
        ⊎ ((result ≡ 2) × HasCause (W.failures out.old) (W.failures out.new)) }
    ensures unknown { AskNothing command (map string_bytes words.entry.1.now)
        → (result ≡ 2) × ((out.new ≡ out.old) × IsTold (E.taken err.old) (E.taken err.new) (E.failures err.old) (E.failures err.new)
        (ending_text (usage_told command) ending.NotUnderstood)) }
    ensures fault { result ≡ 2 → (command ≡ Trace) ⊎ (HasCause (W.failures out.old) (W.failures out.new) ⊎ (out.new ≡ out.old)) }
    ensures silent { (command ≡ View → NameNoMemberTwice (F.may_give files.now) (map string_bytes words.entry.1.now))
        → (err.new ≡ err.old) ⊎ (result ≡ 2) }
{
    let mut help = String::new(alloc);
    let done = answered(threads, alloc, command, words, files, out, &mut help);
    finish(&done, command.usage_told(), help.as_str(), err)
}

/// Runs the command that the first word names, if it names one.
fn run_words<T: Threads + Wait + Sync, F: Files + Traces + Sync, W: Sink, E: Sink>(
    threads: &T,
    alloc: Global,
    words: &[String],
    files: &F,
    out: &mut W,
    err: &mut E,
) -> u8
    ensures answers { Answers (F.may_give files.now) (F.may_name files.now) (map string_bytes words.now)
        (stream (W.taken out.old) (W.taken out.new) (W.failures out.old) (W.failures out.new))
        (stream (E.taken err.old) (E.taken err.new) (E.failures err.old) (E.failures err.new)) result }
    ensures question { (c : Command) (rest : List (List ℕ)) (q : Question) → map string_bytes words.now ≡ word_of c ∷ rest → IsAskable c → IsQuestion rest q
        → ((result ≡ 0) × Appends (W.taken out.old) (W.taken out.new) (answer_of c q))
        ⊎ ((result ≡ 2) × HasCause (W.failures out.old) (W.failures out.new)) }
    ensures unknown { (c : Command) (rest : List (List ℕ)) → map string_bytes words.now ≡ word_of c ∷ rest → AskNothing c rest
        → (result ≡ 2) × ((out.new ≡ out.old) × IsTold (E.taken err.old) (E.taken err.new) (E.failures err.old) (E.failures err.new)
        (ending_text (usage_told c) ending.NotUnderstood)) }
    ensures fault { result ≡ 2 → ((rest : List (List ℕ)) × (map string_bytes words.now ≡ codes "trace" ∷ rest))
        ⊎ (HasCause (W.failures out.old) (W.failures out.new) ⊎ (out.new ≡ out.old)) }
    ensures silent { (c : Command) (rest : List (List ℕ)) → map string_bytes words.now ≡ word_of c ∷ rest
        → (c ≡ View → NameNoMemberTwice (F.may_give files.now) rest) → (err.new ≡ err.old) ⊎ (result ≡ 2) }
{
    match words {
        [first, rest @ ..] => match Command::of(first.as_str()) {
            Some(command) => {
                run_command(threads, alloc, command, (words, rest), files, out, err)
            }
            None => finish(&Err(Ending::NotUnderstood), "", "", err),
        },
        [] => finish(&Err(Ending::NotUnderstood), "", "", err),
    }
}

/// Runs the program on words without its own name, and answers its status: 0 or 1 where what the words ask is on `out`, as all is
/// well or isn't, and 2 where `err` says why not. `Answers` says for each command what that is. Only `check`, `run`, `judge` and
/// `threads` run threads, and nothing writes files.
///
/// A question about a command (`--help`, `-h`, `--version`) is answered with 0, and words of no form end with 2, as not understood.
/// At 2 nothing is on `out`, unless output failed or `trace` told of parts before a fault; at 0 and 1 nothing is on `err`, but for
/// warnings of what the script of a page has twice. The theorems speak of the status: where `check TABLE`, `threads TABLE ..` or `explain TABLE` ends with 0, every run under the table
/// that the word names is serializable in commit order; where `run` or `judge` does, each run of the scripts that words name is. The
/// faults of the four are one line.
pub fn execute<T: Threads + Wait + Sync, F: Files + Traces + Sync, W: Sink, E: Sink>(
    threads: &T,
    alloc: Global,
    words: &[String],
    files: &F,
    out: &mut W,
    err: &mut E,
) -> u8
    ensures answers { Answers (F.may_give files.now) (F.may_name files.now) (map string_bytes words.now)
        (stream (W.taken out.old) (W.taken out.new) (W.failures out.old) (W.failures out.new))
        (stream (E.taken err.old) (E.taken err.new) (E.failures err.old) (E.failures err.new)) result }
    ensures question { (c : Command) (rest : List (List ℕ)) (q : Question) → map string_bytes words.now ≡ word_of c ∷ rest → IsAskable c → IsQuestion rest q
        → ((result ≡ 0) × Appends (W.taken out.old) (W.taken out.new) (answer_of c q))
        ⊎ ((result ≡ 2) × HasCause (W.failures out.old) (W.failures out.new)) }
    ensures unknown { (c : Command) (rest : List (List ℕ)) → map string_bytes words.now ≡ word_of c ∷ rest → AskNothing c rest
        → (result ≡ 2) × ((out.new ≡ out.old) × IsTold (E.taken err.old) (E.taken err.new) (E.failures err.old) (E.failures err.new)
        (ending_text (usage_told c) ending.NotUnderstood)) }
    ensures fault { result ≡ 2 → ((rest : List (List ℕ)) × (map string_bytes words.now ≡ codes "trace" ∷ rest))
        ⊎ (HasCause (W.failures out.old) (W.failures out.new) ⊎ (out.new ≡ out.old)) }
    ensures silent { (c : Command) (rest : List (List ℕ)) → map string_bytes words.now ≡ word_of c ∷ rest
        → (c ≡ View → NameNoMemberTwice (F.may_give files.now) rest) → (err.new ≡ err.old) ⊎ (result ≡ 2) }
    ensures within { result ≤ 2 }
    ensures check { (table : List ℕ) → map string_bytes words.now ≡ codes "check" ∷ table ∷ [] → result ≡ 0
        → NamesSerial (F.may_give files.now) table }
    ensures run { (table script : List ℕ) → map string_bytes words.now ≡ codes "run" ∷ table ∷ script ∷ [] → result ≡ 0
        → AreSerialUnder (F.may_give files.now) table (script ∷ []) }
    ensures judge { (table : List ℕ) (scripts : List (List ℕ)) → map string_bytes words.now ≡ codes "judge" ∷ table ∷ scripts → result ≡ 0
        → AreSerialUnder (F.may_give files.now) table scripts }
    ensures threads { (table : List ℕ) (rest : List (List ℕ)) → map string_bytes words.now ≡ codes "threads" ∷ table ∷ rest → result ≡ 0
        → NamesSerial (F.may_give files.now) table }
    ensures explain { (table : List ℕ) (rest : List (List ℕ)) → map string_bytes words.now ≡ codes "explain" ∷ table ∷ rest
        → IsNoQuestion (table ∷ rest) → result ≡ 0 → NamesSerial (F.may_give files.now) table }
    ensures one_line { (rest : List (List ℕ)) → (map string_bytes words.now ≡ codes "check" ∷ rest) ⊎ ((map string_bytes words.now ≡ codes "run" ∷ rest)
        ⊎ ((map string_bytes words.now ≡ codes "judge" ∷ rest) ⊎ (map string_bytes words.now ≡ codes "threads" ∷ rest)))
        → result ≡ 2 → TellsOneLine (E.taken err.old) (E.taken err.new) }
{
    run_words(threads, alloc, words, files, out, err)
}
