//! What the program tells where it ends, and its status.
ghost use Rattle.std.specs.Prelude.{◌≡◌, ◌≤◌, ◌↔◌, ◌++◌, [], true, false, Ok, OnOk, OnErr, IfErr};
ghost use Rattle.std.specs.Io.KnownBytes.{Appends};
ghost use Rattle.kr_sink.specs.Puts.{AppendsFront, HasCause};
ghost use Rattle.kr_cli.specs.Endings.{IsTold, ending_text};

use crate::endings::{Ending, status_of, tell};
use kr_sink::{PrintFault, Sink, put_all};

/// Tells on `err` how the program ended and what helps, and answers its status: 0 where all was well, 1 where it wasn't, and 2
/// where it ended without its output, which is told on a line. Behind the line of words that aren't understood stands `usage`,
/// and behind that `help`; each is whole lines, or nothing. Where the program ended with 0 or 1, `help` alone is told.
pub fn finish<E: Sink>(done: &Result<bool, Ending>, usage: &str, help: &str, err: &mut E) -> u8
    ensures within { result ≤ 2 }
    ensures well { (result ≡ 0) ↔ (done.now ≡ Ok true) }
    ensures not_well { (result ≡ 1) ↔ (done.now ≡ Ok false) }
    ensures told { IfErr done.now (λ e. IsTold (E.taken err.old) (E.taken err.new) (E.failures err.old) (E.failures err.new)
        (ending_text usage.now e ++ help.now)) }
    ensures warned { OnOk done.now (IsTold (E.taken err.old) (E.taken err.new) (E.failures err.old) (E.failures err.new) help.now) }
    ensures silent { OnOk done.now (help.now ≡ [] → err.new ≡ err.old) }
{
    let _ = match done {
        Err(ending) => tell_all(ending, usage, help, err),
        Ok(_) if help.is_empty() => Ok(()),
        Ok(_) => put_all(err, help.as_bytes()),
    };
    status_of(done)
}

/// Prints what is told at an ending, and behind it what helps.
#[tactic(auto, using(kr_sink::proofs::Grows::front_of_more, kr_sink::proofs::Grows::front_behind, kr_sink::proofs::Grows::appends_more))]
fn tell_all<E: Sink>(
    ending: &Ending,
    usage: &str,
    help: &str,
    err: &mut E,
) -> Result<(), PrintFault>
    ensures ok { OnOk result (Appends (E.taken err.old) (E.taken err.new) (ending_text usage.now ending.now ++ help.now)) }
    ensures err { OnErr result (AppendsFront (E.taken err.old) (E.taken err.new) (ending_text usage.now ending.now ++ help.now)) }
    ensures cause { OnErr result (HasCause (E.failures err.old) (E.failures err.new)) }
{
    tell_used(ending, usage, err)?;
    put_all(err, help.as_bytes())?;
    Ok(())
}

/// Prints the line of an ending, and behind it the usage where the words aren't understood.
#[tactic(auto, using(crate::proofs::Told::line_in_front, crate::proofs::Told::usage_behind))]
fn tell_used<E: Sink>(ending: &Ending, usage: &str, err: &mut E) -> Result<(), PrintFault>
    ensures ok { OnOk result (Appends (E.taken err.old) (E.taken err.new) (ending_text usage.now ending.now)) }
    ensures err { OnErr result (AppendsFront (E.taken err.old) (E.taken err.new) (ending_text usage.now ending.now)) }
    ensures count { OnOk result (E.failures err.new ≡ E.failures err.old) }
    ensures cause { OnErr result (HasCause (E.failures err.old) (E.failures err.new)) }
{
    tell(ending, err)?;
    match ending {
        Ending::NotUnderstood => put_all(err, usage.as_bytes()),
        _ => Ok(()),
    }
}
