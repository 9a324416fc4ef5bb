//! What a program may be asked about itself.
ghost use Rattle.std.specs.Prelude.{◌≡◌, IfSome, IfNone, map, string_bytes};
ghost use Rattle.kr_program.specs.Questions.{IsQuestion, IsNoQuestion};

/// What a program may be asked about itself.
#[derive(Clone, Copy, PartialEq, Eq)]
pub enum Question {
    /// How it is used.
    Help,
    /// Which version it is of.
    Version,
}

/// What the words ask about the program: one word, `--help` or `-h`, or `--version`. Other words ask nothing of that.
pub fn question_in(words: &[String]) -> Option<Question>
    ensures some { IfSome result (λ q. IsQuestion (map string_bytes words.now) q) }
    ensures none { IfNone result (IsNoQuestion (map string_bytes words.now)) }
{
    match words {
        [word] => match word.as_str() {
            "--help" | "-h" => Some(Question::Help),
            "--version" => Some(Question::Version),
            _ => None,
        },
        _ => None,
    }
}
