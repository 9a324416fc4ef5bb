//! What the program says of itself: the version, and what each command takes and answers.
ghost use Rattle.std.specs.Prelude.{◌≡◌, OnOk, OnErr};
ghost use Rattle.std.specs.Io.KnownBytes.{Appends};
ghost use Rattle.kr_sink.specs.Puts.{HasCause};
ghost use Rattle.kr_program.specs.Manual.{meanings_of, page_of, usage_of, usage_told, version_text};

use crate::commands::Command;
use kr_sink::{PrintFault, Sink, print, put_all};

/// The version of the repository, as its file VERSION has it.
pub const VERSION: &str = "0.9.0";

/// The commands, with a line for each.
pub const LISTING: &str = r#"usage: kr COMMAND ..
  check TABLE                        is every schedule under TABLE serializable in commit order?
  run TABLE SCRIPT                   what does this schedule do?
  judge TABLE SCRIPT..               are these schedules serializable in commit order?
  threads TABLE SCRIPT [--workers N] run a script by several threads
  explain TABLE [--script N]         why is TABLE rejected, and what mends it?
  view TABLE [SCRIPT]                the same, or a run, as an HTML page
  trace TABLE TRACE [--tell N]       does the log of an engine fit TABLE? (kr help trace has more)
  suite TABLE [--left]               make tests of an engine
  relax TABLE [--write|--why ENTRY]  what does TABLE block needlessly?
  help [COMMAND]                     what a command takes and answers
  version                            the version
"#;

pub const CHECK_USAGE: &str = "usage: kr check TABLE\n";

pub const CHECK_WORDS: &str =
    r#"  TABLE       @kvl, @kvl-update, @im, @range-key, @record-gap, @range-ghost,
              @next-key-ghost, or a file in TOML
status: 0 accepted: every schedule under TABLE is serializable in commit order;
        1 rejected; 2 a fault
"#;

pub const RUN_USAGE: &str = "usage: kr run TABLE SCRIPT\n";

pub const RUN_WORDS: &str =
    r#"  TABLE       @kvl, @kvl-update, @im, @range-key, @record-gap, @range-ghost,
              @next-key-ghost, or a file in TOML
  SCRIPT      a file in JSON: an opening map, and steps of transactions
status: 0 the run is serializable in commit order; 1 it isn't; 2 a fault
"#;

pub const JUDGE_USAGE: &str = "usage: kr judge TABLE SCRIPT..\n";

pub const JUDGE_WORDS: &str =
    r#"  TABLE       @kvl, @kvl-update, @im, @range-key, @record-gap, @range-ghost,
              @next-key-ghost, or a file in TOML
  SCRIPT..    files in JSON, as of kr run; a line is printed for each
status: 0 each run is serializable in commit order; 1 one isn't; 2 a fault
"#;

pub const THREADS_USAGE: &str = "usage: kr threads TABLE SCRIPT [--workers N]\n";

pub const THREADS_WORDS: &str =
    r#"  TABLE       @kvl, @kvl-update, @im, @range-key, @record-gap, @range-ghost,
              @next-key-ghost, or a file in TOML
  SCRIPT      a file in JSON, as of kr run
  --workers N run its transactions by N threads, 1 to 64; 4 are usual
status: 0 the run is serializable in commit order; 1 TABLE is rejected; 2 a fault
"#;

pub const EXPLAIN_USAGE: &str = "usage: kr explain TABLE [--script N]\n";

pub const EXPLAIN_WORDS: &str =
    r#"  TABLE       @kvl, @kvl-update, @im, @range-key, @record-gap, @range-ghost,
              @next-key-ghost, or a file in TOML
  --script N  print the script of the schedule of cause N, for kr run
  -h, --help  print this text
  --version   print the version
status: 0 accepted or safe; 1 rejected, not known to be safe, or a script printed; 2 a fault
"#;

pub const VIEW_USAGE: &str = "usage: kr view TABLE [SCRIPT]\n";

pub const VIEW_WORDS: &str =
    r#"  TABLE       @kvl, @kvl-update, @im, @range-key, @record-gap, @range-ghost,
              @next-key-ghost, or a file in TOML;
              without SCRIPT, TABLE itself is printed as a page of HTML
  SCRIPT      a file in JSON; its run under TABLE is printed as a page of HTML
  -h, --help  print this text
  --version   print the version
status of a table: 0 accepted or safe; 1 rejected, or not known to be safe; 2 a fault
status of a run: 0 serializable in commit order; 1 not serializable in commit order; 2 a fault
"#;

pub const TRACE_USAGE: &str =
    "usage: kr trace TABLE TRACE [--tell N] | --serial TRACE | --some-order TRACE\n";

pub const TRACE_WORDS: &str =
    r#"  TABLE         @kvl, @kvl-update, @im, @range-key, @record-gap, @range-ghost,
                @next-key-ghost, or a file in TOML
  TRACE         a file, or /dev/stdin: a JSON value on each line, each step with
                the engine's reply; a line is printed for each part
  --tell N      no lines: part N, from 1, as a text, with the line that differs
  --serial      no table: whether the committed answers are serializable in
                commit order
  --some-order  no table: whether they are in some order
  -h, --help    print this text
  --version     print the version
status: 0 all is well with each part; 1 it isn't; 2 a fault
"#;

pub const SUITE_USAGE: &str = "usage: kr suite TABLE [--left]\n";

pub const SUITE_WORDS: &str =
    r#"  TABLE       @kvl, @kvl-update, @im, @range-key, @record-gap, @range-ghost,
              @next-key-ghost, or a file in TOML
  --left      print the entries that no part tells apart, and how many
  -h, --help  print this text
  --version   print the version
status: 0 no entry is left; 1 some are; 2 a fault
"#;

pub const RELAX_USAGE: &str = "usage: kr relax TABLE [--write | --why ENTRY]\n";

pub const RELAX_WORDS: &str =
    r#"  TABLE       @kvl, @kvl-update, @im, @range-key, @record-gap, @range-ghost,
              @next-key-ghost, or a file in TOML
  --write     print the table with one relaxation after another, as long as a script shows one
  --why ENTRY print what each change of this entry does, as of 'fetch-hit current' or 'X beside S'
  -h, --help  print this text
  --version   print the version
status: 0 tight, or ENTRY is; 1 something can be relaxed; 2 a fault
"#;

pub const HELP_USAGE: &str = "usage: kr help [COMMAND]\n";

pub const HELP_WORDS: &str =
    r#"  COMMAND  print what this command takes and answers; without it, a line for each
status: 0; 2 a fault
"#;

pub const VERSION_USAGE: &str = "usage: kr version\n";

pub const VERSION_WORDS: &str = r#"status: 0; 2 a fault
"#;

impl Command {
    /// The line that says which words the command takes.
    fn usage(self) -> &'static str
        ensures { result.now ≡ usage_of self }
    {
        match self {
            Command::Check => CHECK_USAGE,
            Command::Run => RUN_USAGE,
            Command::Judge => JUDGE_USAGE,
            Command::Threads => THREADS_USAGE,
            Command::Explain => EXPLAIN_USAGE,
            Command::View => VIEW_USAGE,
            Command::Trace => TRACE_USAGE,
            Command::Suite => SUITE_USAGE,
            Command::Relax => RELAX_USAGE,
            Command::Help => HELP_USAGE,
            Command::Version => VERSION_USAGE,
        }
    }

    /// What these words mean, and the statuses.
    fn meanings(self) -> &'static str
        ensures { result.now ≡ meanings_of self }
    {
        match self {
            Command::Check => CHECK_WORDS,
            Command::Run => RUN_WORDS,
            Command::Judge => JUDGE_WORDS,
            Command::Threads => THREADS_WORDS,
            Command::Explain => EXPLAIN_WORDS,
            Command::View => VIEW_WORDS,
            Command::Trace => TRACE_WORDS,
            Command::Suite => SUITE_WORDS,
            Command::Relax => RELAX_WORDS,
            Command::Help => HELP_WORDS,
            Command::Version => VERSION_WORDS,
        }
    }

    /// What stands below the line of words that aren't understood: nothing for `check`, `run`, `judge` and `threads`, whose faults
    /// are one line.
    pub(crate) fn usage_told(self) -> &'static str
        ensures { result.now ≡ usage_told self }
    {
        match self {
            Command::Check => "",
            Command::Run => "",
            Command::Judge => "",
            Command::Threads => "",
            _ => self.usage(),
        }
    }
}

/// Prints what a command takes and answers.
pub fn print_page<W: Sink>(command: Command, out: &mut W) -> Result<(), PrintFault>
    ensures ok { OnOk result (Appends (W.taken out.old) (W.taken out.new) (page_of command)) }
    ensures cause { OnErr result (HasCause (W.failures out.old) (W.failures out.new)) }
{
    put_all(out, command.usage().as_bytes())?;
    put_all(out, command.meanings().as_bytes())
}

/// Prints the program's name and its version.
pub fn print_version<W: Sink>(out: &mut W) -> Result<(), PrintFault>
    ensures ok { OnOk result (Appends (W.taken out.old) (W.taken out.new) version_text) }
    ensures cause { OnErr result (HasCause (W.failures out.old) (W.failures out.new)) }
{
    put_all(out, b"kr ")?;
    print(out, VERSION)
}
