//! The names of the bundled tables.
ghost use Rattle.std.specs.Prelude.{◌≡◌, [], IfOk, string_bytes};
ghost use Rattle.kr_cli.specs.Words.{is_bundled};
ghost use Rattle.kr_cli_diagnosis.specs.Help.{IsHelp};

use crate::help::Help;
use std::alloc::{AllocError, Global};

/// Which bundled tables a command takes.
#[derive(Clone, Copy)]
pub enum Bundled {
    /// Those without ghosts, as `kr relax` does.
    WithoutGhosts,
    /// All, as explain, view, trace and suite do.
    All,
}

/// The arguments of the bundled tables without ghosts.
const WITHOUT_GHOSTS: [&str; 4] = ["@kvl", "@kvl-update", "@im", "@range-key"];

/// The arguments of all bundled tables.
const ALL: [&str; 7] = [
    "@kvl",
    "@kvl-update",
    "@im",
    "@range-key",
    "@record-gap",
    "@range-ghost",
    "@next-key-ghost",
];

/// Whether an argument is that of a bundled table without ghosts.
pub fn is_bundled(word: &str) -> bool
    ensures { result ≡ is_bundled word.now }
{
    word == "@kvl" || word == "@kvl-update" || word == "@im" || word == "@range-key"
}

/// Whether an argument is that of a bundled table with ghosts.
pub fn is_bundled_with_ghosts(word: &str) -> bool {
    word == "@record-gap" || word == "@range-ghost" || word == "@next-key-ghost"
}

/// What helps at an argument that begins with `@` and names none of these bundled tables: their names, and the nearest.
pub fn bundled_help(alloc: Global, word: &str, tables: Bundled) -> Result<String, AllocError>
    ensures { IfOk result (λ text. IsHelp word.now [] (string_bytes text)) }
{
    let what = match tables {
        Bundled::WithoutGhosts =>
            "the bundled tables without ghosts are @kvl, @kvl-update, @im and @range-key",
        Bundled::All => {
            "the bundled tables are @kvl, @kvl-update, @im, @range-key, @record-gap, @range-ghost and @next-key-ghost"
        }
    };
    near_help(alloc, word, what, tables)
}

/// What helps at an argument that names no table, of which this is said: the one of these bundled tables whose name is near.
pub fn near_help(
    alloc: Global,
    word: &str,
    what: &str,
    tables: Bundled,
) -> Result<String, AllocError>
    ensures { IfOk result (λ text. IsHelp word.now [] (string_bytes text)) }
{
    let help = Help::of(alloc, None, what)?;
    let help = match tables {
        Bundled::WithoutGhosts => help.near(alloc, word, &WITHOUT_GHOSTS)?,
        Bundled::All => help.near(alloc, word, &ALL)?,
    };
    help.print(alloc, word, &[])
}
