//! The commands of the program.
ghost use Rattle.std.specs.Prelude.{◌≡◌, IfNone, IfSome};
ghost use Rattle.kr_program.specs.Commands.{IsNoCommand, word_of};

/// What the program is asked to do: the first of its words says it.
#[derive(Clone, Copy, PartialEq, Eq)]
pub enum Command {
    /// Whether every schedule under a table is serializable in commit order.
    Check,
    /// A script is run under a table.
    Run,
    /// The runs of scripts are judged.
    Judge,
    /// A script is run by several threads.
    Threads,
    /// Why a table is rejected.
    Explain,
    /// The page of a table or of a run.
    View,
    /// What an engine logged is held against a table.
    Trace,
    /// The tests of an engine are made from its table.
    Suite,
    /// What a table blocks needlessly.
    Relax,
    /// What a command takes and answers.
    Help,
    /// Which version the program is of.
    Version,
}

impl Command {
    /// The command of a word, if it is that of one.
    pub fn of(word: &str) -> Option<Command>
        ensures some { IfSome result (λ c. word.now ≡ word_of c) }
        ensures none { IfNone result (IsNoCommand word.now) }
    {
        match word {
            "check" => Some(Command::Check),
            "run" => Some(Command::Run),
            "judge" => Some(Command::Judge),
            "threads" => Some(Command::Threads),
            "explain" => Some(Command::Explain),
            "view" => Some(Command::View),
            "trace" => Some(Command::Trace),
            "suite" => Some(Command::Suite),
            "relax" => Some(Command::Relax),
            "help" => Some(Command::Help),
            "version" => Some(Command::Version),
            _ => None,
        }
    }
}
