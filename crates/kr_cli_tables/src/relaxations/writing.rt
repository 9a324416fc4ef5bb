//! From a locking protocol to its relaxations, to the tightest table, or to what the changes of an entry do, on a sink.
ghost use Rattle.std.specs.Prelude.{◌≡◌, ◌⊎◌, false, IfErr, IfOk, IsTrue};
ghost use Rattle.kr_kinds.specs.Kinds.{IsSafeIndex};
ghost use Rattle.kr_cli.specs.Endings.{MemoryOrTold, is_output};
ghost use Rattle.kr_cli.specs.Lines.{told_line};
ghost use Rattle.kr_sink.specs.Puts.{HasCause};
ghost use Rattle.kr_cli_tables.specs.Relax.{EndsWriting, Writes, unmade_words, unsafe_words};

use crate::relaxations::making::make;
use crate::relaxations::words::Wanted;
use kr_cli::Ending;
use kr_kinds::IndexProtocol;
use kr_relax_core::is_safe_index;
use kr_sink::{Sink, put_all};
use std::alloc::Global;

/// How the program ends at a table that isn't safe.
fn unsafe_ending(alloc: Global, word: &str) -> Ending
    ensures line { MemoryOrTold result (λ line. line ≡ told_line word.now (unsafe_words word.now)) }
    ensures other { is_output result ≡ false }
{
    match format!(in alloc; "not safe; see kr explain {word}") {
        Ok(what) => Ending::told(alloc, word, what.as_str()),
        Err(_) => Ending::Memory,
    }
}

/// How the program ends where what is wanted can't be made.
fn unmade_ending(alloc: Global, word: &str, wanted: Wanted<'_>) -> Ending
    ensures line { MemoryOrTold result (λ line. line ≡ told_line word.now (unmade_words wanted.entry)) }
    ensures other { is_output result ≡ false }
{
    match wanted {
        Wanted::Relaxations => Ending::told(alloc, word, ""),
        Wanted::Tightest => Ending::told(alloc, word, "the tightest table cannot be written"),
        Wanted::Why(entry) => match format!(in alloc; "no entry {entry}") {
            Ok(what) => Ending::told(alloc, word, what.as_str()),
            Err(_) => Ending::Memory,
        },
    }
}

/// Writes what is wanted of a safe protocol.
fn write_safe<P: IndexProtocol, W: Sink>(
    alloc: Global,
    word: &str,
    protocol: &P,
    wanted: Wanted<'_>,
    out: &mut W,
) -> Result<bool, Ending>
    requires { IsSafeIndex (P.index protocol.now) }
    ensures writes { IfOk result (Writes (P.index protocol.now) (P.names protocol.now) wanted.entry (W.taken out.old) (W.taken out.new)) }
    ensures err { IfErr result (EndsWriting (P.index protocol.now) (P.names protocol.now) word.now wanted.entry) }
    ensures nothing { IfErr result (λ e. IsTrue (is_output e) ⊎ (out.new ≡ out.old)) }
    ensures cause { IfErr result (λ e. IsTrue (is_output e) → HasCause (W.failures out.old) (W.failures out.new)) }
{
    let Some(made) = make(alloc, protocol, wanted)? else {
        return Err(unmade_ending(alloc, word, wanted));
    };
    put_all(out, made.text.as_bytes())?;
    Ok(made.is_tight)
}

/// Writes the relaxations of the protocol that a word names, or that it is tight; the tightest table; or what each change of an
/// entry does; and answers whether it is tight, or none of the changes is a relaxation. One that isn't safe is told, and so is a
/// name that no entry has. Where a growth was refused, nothing is written; where printing fails, a prefix of the
/// text was.
#[tactic(auto, using(crate::proofs::RelaxEnded::unsafe_ends))]
pub fn write_relaxed<P: IndexProtocol, W: Sink>(
    alloc: Global,
    word: &str,
    protocol: &P,
    wanted: Wanted<'_>,
    out: &mut W,
) -> Result<bool, Ending>
    ensures writes { IfOk result (Writes (P.index protocol.now) (P.names protocol.now) wanted.entry (W.taken out.old) (W.taken out.new)) }
    ensures err { IfErr result (EndsWriting (P.index protocol.now) (P.names protocol.now) word.now wanted.entry) }
    ensures nothing { IfErr result (λ e. IsTrue (is_output e) ⊎ (out.new ≡ out.old)) }
    ensures cause { IfErr result (λ e. IsTrue (is_output e) → HasCause (W.failures out.old) (W.failures out.new)) }
{
    if !is_safe_index(alloc, protocol)? {
        return Err(unsafe_ending(alloc, word));
    }
    write_safe(alloc, word, protocol, wanted, out)
}
