//! What one command answers.
ghost use Rattle.std.specs.Prelude.{◌≡◌, ◌≢◌, ◌⊎◌, ◌∷◌, [], true, false, Ok, Err, IfErr, IfNone, IfOk, IfSome, IsTrue, OnErr, OnOk, map, string_bytes};
ghost use Rattle.std.specs.Io.KnownBytes.{Appends};
ghost use Rattle.kr_sink.specs.Puts.{HasCause};
ghost use Rattle.kr_cli.specs.declared.endings.Ending.TheVariants as ending;
ghost use Rattle.kr_cli.specs.Endings.{is_output};
ghost use Rattle.kr_cli_diagnosis.specs.Finding.{AddsLines};
ghost use Rattle.kr_cli_tables.specs.View.{NameNoMemberTwice};
ghost use Rattle.kr_program.specs.Answers.{AskNothing, Ends, EndsHelp, EndsVersion, Helps, IsAskable, IsTask, IsUnasked, Writes, answer_of};
ghost use Rattle.kr_program.specs.Commands.{word_of};
ghost use Rattle.kr_program.specs.Manual.{version_text};
ghost use Rattle.kr_program.specs.Questions.{IsNoQuestion, IsQuestion};
ghost use Rattle.kr_program.specs.declared.questions.Question.{Question};
ghost use Rattle.kr_program.specs.declared.commands.Command.TheVariants.{Help, Trace, Version, View};

use crate::commands::Command;
use crate::manual::{LISTING, print_page, print_version};
use crate::questions::{Question, question_in};
use kr_cli::{Ending, Files};
use kr_cli_tables::{explain, relax, suite, view};
use kr_cli_tasks::task;
use kr_cli_trace::trace;
use kr_sink::{PrintFault, Sink, put_all};
use kr_trace_parts::Traces;
use std::alloc::Global;
use std::sync::Wait;
use std::thread::Threads;

/// The question about a command that stands behind its word. Behind `check`, `run`, `judge`, `threads`, `help` and `version` none
/// does.
fn question_of(command: Command, rest: &[String]) -> Option<Question>
    ensures some { IfSome result (λ q. IsAskable command × IsQuestion (map string_bytes rest.now) q) }
    ensures none { IfNone result (IsAskable command → IsNoQuestion (map string_bytes rest.now)) }
{
    match command {
        Command::Explain => question_in(rest),
        Command::View => question_in(rest),
        Command::Trace => question_in(rest),
        Command::Suite => question_in(rest),
        Command::Relax => question_in(rest),
        _ => None,
    }
}

/// Prints the answer to a question about a command.
fn answer<W: Sink>(command: Command, question: Question, out: &mut W) -> Result<(), PrintFault>
    ensures ok { OnOk result (Appends (W.taken out.old) (W.taken out.new) (answer_of command question)) }
    ensures cause { OnErr result (HasCause (W.failures out.old) (W.failures out.new)) }
{
    match question {
        Question::Help => print_page(command, out),
        Question::Version => print_version(out),
    }
}

/// Prints the commands, or what the one that the only word names takes and answers.
fn help_on<W: Sink>(rest: &[String], out: &mut W) -> Result<bool, Ending>
    ensures helps { IfOk result (λ well. IsTrue well × Helps (map string_bytes rest.now) (W.taken out.old) (W.taken out.new)) }
    ensures err { IfErr result (EndsHelp (map string_bytes rest.now)) }
    ensures unknown { AskNothing Help (map string_bytes rest.now) → (result ≡ Err ending.NotUnderstood) × (out.new ≡ out.old) }
    ensures nothing { IfErr result (λ e. IsTrue (is_output e) ⊎ (out.new ≡ out.old)) }
    ensures cause { IfErr result (λ e. IsTrue (is_output e) → HasCause (W.failures out.old) (W.failures out.new)) }
{
    match rest {
        [] => put_all(out, LISTING.as_bytes())?,
        [word] => match Command::of(word.as_str()) {
            Some(command) => print_page(command, out)?,
            None => return Err(Ending::NotUnderstood),
        },
        _ => return Err(Ending::NotUnderstood),
    }
    Ok(true)
}

/// Prints the version; no word stands behind `version`.
fn version<W: Sink>(rest: &[String], out: &mut W) -> Result<bool, Ending>
    ensures tells { IfOk result (λ well. IsTrue well × ((map string_bytes rest.now ≡ []) × Appends (W.taken out.old) (W.taken out.new) version_text)) }
    ensures err { IfErr result (EndsVersion (map string_bytes rest.now)) }
    ensures unknown { AskNothing Version (map string_bytes rest.now) → (result ≡ Err ending.NotUnderstood) × (out.new ≡ out.old) }
    ensures nothing { IfErr result (λ e. IsTrue (is_output e) ⊎ (out.new ≡ out.old)) }
    ensures cause { IfErr result (λ e. IsTrue (is_output e) → HasCause (W.failures out.old) (W.failures out.new)) }
{
    if !rest.is_empty() {
        return Err(Ending::NotUnderstood);
    }
    print_version(out)?;
    Ok(true)
}

/// Does what the words ask, which are that of a command and those behind it, and answers whether all is well. Where they name no
/// table or no script, `help` gets what helps, and of a page warnings.
pub(crate) fn answered<T: Threads + Wait + Sync, F: Files + Traces + Sync, W: Sink>(
    threads: &T,
    alloc: Global,
    command: Command,
    words: (&[String], &[String]),
    files: &F,
    out: &mut W,
    help: &mut String,
) -> Result<bool, Ending>
    requires begins { map string_bytes words.0.now ≡ word_of command ∷ map string_bytes words.1.now }
    ensures writes { IfOk result (Writes (F.may_give files.now) (F.may_name files.now) command (map string_bytes words.entry.1.now) (W.taken out.old) (W.taken out.new)) }
    ensures ends { IfErr result (Ends (F.may_give files.now) (F.may_name files.now) command (map string_bytes words.entry.1.now) (W.taken out.old) (W.taken out.new)) }
    ensures question { (q : Question) → IsAskable command → IsQuestion (map string_bytes words.entry.1.now) q
        → ((result ≡ Ok true) × Appends (W.taken out.old) (W.taken out.new) (answer_of command q))
        ⊎ ((result ≡ Err ending.Output) × HasCause (W.failures out.old) (W.failures out.new)) }
    ensures unknown { AskNothing command (map string_bytes words.entry.1.now)
        → (result ≡ Err ending.NotUnderstood) × ((out.new ≡ out.old) × (string_bytes help.new ≡ string_bytes help.old)) }
    ensures unasked { IfErr result (IsUnasked command (map string_bytes words.entry.1.now)) }
    ensures nothing { IfErr result (λ e. (command ≡ Trace) ⊎ (IsTrue (is_output e) ⊎ (out.new ≡ out.old))) }
    ensures cause { IfErr result (λ e. IsTrue (is_output e) → HasCause (W.failures out.old) (W.failures out.new)) }
    ensures unhelped { OnOk result (command ≢ View → string_bytes help.new ≡ string_bytes help.old) }
    ensures unwarned { NameNoMemberTwice (F.may_give files.now) (map string_bytes words.entry.1.now)
        → OnOk result (string_bytes help.new ≡ string_bytes help.old) }
    ensures alone { IsTask command → string_bytes help.new ≡ string_bytes help.old }
    ensures help { AddsLines (string_bytes help.old) (string_bytes help.new) }
{
    let (all, rest) = words;
    if let Some(question) = question_of(command, rest) {
        answer(command, question, out)?;
        return Ok(true);
    }
    match command {
        Command::Check => task(threads, alloc, all, files, out),
        Command::Run => task(threads, alloc, all, files, out),
        Command::Judge => task(threads, alloc, all, files, out),
        Command::Threads => task(threads, alloc, all, files, out),
        Command::Explain => explain(alloc, rest, files, out, help),
        Command::View => view(alloc, rest, files, out, help),
        Command::Trace => trace(alloc, rest, files, out, help),
        Command::Suite => suite(alloc, rest, files, out, help),
        Command::Relax => relax(alloc, rest, files, out, help),
        Command::Help => help_on(rest, out),
        Command::Version => version(rest, out),
    }
}
