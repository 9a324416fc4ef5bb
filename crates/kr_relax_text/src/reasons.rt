//! What each change of an entry does to a table, and where the table with it isn't safe, a script that goes wrong.
ghost use Rattle.std.specs.Prelude.{◌≡◌, ◌<◌, ◌↔◌, All, IfOk, IfSome, IsTrue, string_bytes};
ghost use Rattle.std.specs.List.{Any};
ghost use Rattle.kr_explain_core.specs.Explained.{IsExplained};
ghost use Rattle.kr_kinds.specs.Kinds as kind;
ghost use Rattle.kr_relax_text.specs.Reasons.{AreReasons, HasWrong, IsRelaxing, IsWrong, IsWrongLine, IsWrongOnly, changes_of_entry, judged_in, of_entry};

use kr_change::{Change, Changed, entry_text, index_changes_of};
use kr_explain_core::{Explanation, explain};
use kr_ghost_explain::explain_ghosts;
use kr_ghost_protocol::GhostProtocol;
use kr_kinds::IndexProtocol;
use kr_model::Memory;
use kr_protocol::Protocol;
use kr_relax_core::{Judged, Outcome, outcomes_of};
use std::alloc::Global;

/// What a change does to a table, and where the table with it isn't safe a script that goes wrong under it, if one is known.
#[derive(Drop)]
pub struct Reason {
    pub judged: Judged,
    /// The script, as a line of JSON with no line feed.
    pub wrong: Option<String>,
}

/// Those of some changes that are of the entry of a name.
fn of_entry<P: Protocol>(
    alloc: Global,
    protocol: &P,
    name: &str,
    all: &[Change],
) -> Result<Vec<Change>, Memory>
    ensures { IfOk result (λ list. list.items ≡ of_entry (P.table protocol.now) (P.names protocol.now) name.now all.now) }
{
    let mut list = Vec::new(alloc);
    for change in all {
        let entry = entry_text(alloc, protocol, *change)?;
        if entry.as_str() == name {
            list.push(*change)?;
        }
    }
    Ok(list)
}

/// The changes of the entry of a name, which is what comes before the colon in their own names, in the order of
/// `index_changes_of`; none
/// where no entry has the name. The error is memory alone.
pub fn changes_of_entry<P: IndexProtocol>(
    alloc: Global,
    protocol: &P,
    name: &str,
) -> Result<Vec<Change>, Memory>
    ensures { IfOk result (λ list. list.items ≡ changes_of_entry (P.index protocol.now) (P.names protocol.now) name.now) }
{
    let all = index_changes_of(alloc, protocol)?;
    of_entry(alloc, protocol, name, &all)
}

/// The first script that an explanation of a protocol has, if it has one.
#[tactic(auto, using(crate::proofs::Wrong::wrong_line))]
fn first_wrong<P: Protocol>(
    alloc: Global,
    protocol: &P,
    explanation: &Explanation,
) -> Result<Option<String>, Memory>
    requires { IsExplained (P.table protocol.now) explanation.now }
    ensures { IfOk result (λ line. IfSome line (λ it. IsWrongLine (kind.Gone (P.table protocol.now)) (string_bytes it))) }
{
    let _ = protocol;
    for number in 0..causes_in(explanation) {
        if let Some(line) = explanation.script(alloc, number + 1)? {
            return Ok(Some(line));
        }
    }
    Ok(None)
}

/// How many causes an explanation has.
fn causes_in(explanation: &Explanation) -> usize
    ensures { result < usize.MAX }
{
    match explanation {
        Explanation::Rejected(failures) => failures.causes.len(),
        _ => 0,
    }
}

/// A script that goes wrong under a protocol without ghosts, as a line of JSON, if one is known.
fn wrong_gone<P: Protocol>(alloc: Global, protocol: &P) -> Result<Option<String>, Memory>
    ensures { IfOk result (λ line. IfSome line (λ it. IsWrongLine (kind.Gone (P.table protocol.now)) (string_bytes it))) }
{
    let explanation = explain(alloc, protocol)?;
    first_wrong(alloc, protocol, &explanation)
}

/// The same with ghosts.
fn wrong_leaving<P: GhostProtocol>(alloc: Global, protocol: &P) -> Result<Option<String>, Memory>
    ensures { IfOk result (λ line. IfSome line (λ it. IsWrongLine (kind.Leaves (P.ghosts protocol.now)) (string_bytes it))) }
{
    let explanation = explain_ghosts(alloc, protocol)?;
    let line = explanation.script(alloc, 1)?;
    Ok(line)
}

/// A script that goes wrong under a protocol, as a line of JSON, if one is known.
fn wrong_under<P: IndexProtocol>(alloc: Global, protocol: &P) -> Result<Option<String>, Memory>
    ensures { IfOk result (λ line. IfSome line (λ it. IsWrongLine (P.index protocol.now) (string_bytes it))) }
{
    if protocol.leaves_ghosts() {
        wrong_leaving(alloc, protocol)
    } else {
        wrong_gone(alloc, protocol)
    }
}

/// A script that goes wrong with a change, if one is known.
fn wrong_with<P: IndexProtocol>(
    alloc: Global,
    protocol: &P,
    change: Change,
) -> Result<Option<String>, Memory>
    ensures { IfOk result (λ line. HasWrong (P.index protocol.now) change line) }
{
    match Changed::new(protocol, change) {
        Some(changed) => wrong_under(alloc, &changed),
        None => Ok(None),
    }
}

/// What a change does, with a script that goes wrong where the table with it isn't safe.
fn reason_of<P: IndexProtocol>(
    alloc: Global,
    protocol: &P,
    judged: Judged,
) -> Result<Reason, Memory>
    ensures judged { IfOk result (λ r. r.judged ≡ judged) }
    ensures wrong { IfOk result (IsWrong (P.index protocol.now)) }
    ensures only { IfOk result IsWrongOnly }
{
    let wrong = match judged.outcome {
        Outcome::Unsafe => wrong_with(alloc, protocol, judged.change)?,
        _ => None,
    };
    Ok(Reason { judged, wrong })
}

/// What each of some changes does, with a script that goes wrong where the table with it isn't safe.
fn reasons_of<P: IndexProtocol>(
    alloc: Global,
    protocol: &P,
    judged: &[Judged],
) -> Result<Vec<Reason>, Memory>
    ensures judged { IfOk result (λ list. judged_in list.items ≡ judged.now) }
    ensures wrong { IfOk result (λ list. All (IsWrong (P.index protocol.now)) list.items) }
    ensures only { IfOk result (λ list. All IsWrongOnly list.items) }
{
    let mut list = Vec::new(alloc);
    for one in judged {
        let reason = reason_of(alloc, protocol, *one)?;
        list.push(reason)?;
    }
    Ok(list)
}

/// What each of some changes does to a table, in their order, with a script that goes wrong where the table with the change isn't
/// safe, if one is known. The error is memory alone.
pub fn reasons_for<P: IndexProtocol>(
    alloc: Global,
    protocol: &P,
    changes: &[Change],
) -> Result<Vec<Reason>, Memory>
    ensures { IfOk result (λ list. AreReasons (P.index protocol.now) changes.now list.items) }
{
    let judged = outcomes_of(alloc, protocol, changes)?;
    let list = reasons_of(alloc, protocol, &judged)?;
    Ok(list)
}

/// Whether the change of a reason is a relaxation.
fn is_relaxing(reason: &Reason) -> bool
    ensures { IsTrue result ↔ IsRelaxing reason.now }
{
    matches!(reason.judged.outcome, Outcome::Relaxes(_))
}

/// Whether one of the changes is a relaxation.
pub fn one_relaxes(list: &[Reason]) -> bool
    ensures { IsTrue result ↔ Any IsRelaxing list.now }
{
    list.iter().any(|reason| is_relaxing(reason))
}
