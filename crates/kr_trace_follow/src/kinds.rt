//! Of which kind a line is that differs from what the table answers.
ghost use Rattle.std.specs.Prelude.{◌≡◌, IfOk, option_map};
ghost use Rattle.kr_model.specs.Run.{is_granted};
ghost use Rattle.kr_trace_follow.specs.Following.{counted};
ghost use Rattle.kr_trace_follow.specs.Deviates.{misnamed, kind_where_misnamed, kind_where_queued, kind_where_granted, is_queued};

use kr_index::Memory;
use kr_model::{Reply, Txn, Txns};
use kr_trace_lines::{Deviation, DeviationKind, Observed, fits};
use std::alloc::Global;

/// The transactions that are named as blockers, and neither are blockers nor wait ahead, in the order in which they are
/// named.
fn misnamed(
    alloc: Global,
    named: &[Txn],
    blockers: &[Txn],
    ahead: &[Txn],
) -> Result<Vec<Txn>, Memory>
    ensures { IfOk result (λ list. list.items ≡ misnamed named.now blockers.now ahead.now) }
{
    let mut list = Vec::new(alloc);
    for i in 0..named.len() {
        if !blockers.contains(&named[i]) && !ahead.contains(&named[i]) {
            list.push(named[i])?;
        }
    }
    Ok(list)
}

/// How the blockers that an engine names differ from the table's and from those who wait ahead, if they do.
pub fn kind_of_blockers(
    alloc: Global,
    named: &Txns,
    blockers: Txns,
    ahead: &[Txn],
) -> Result<Option<DeviationKind>, Memory>
    ensures { IfOk result (λ kind. kind ≡ kind_where_misnamed (misnamed named.now blockers ahead.now) blockers) }
{
    let misnamed = misnamed(alloc, named.as_slice(), blockers.as_slice(), ahead)?;
    if misnamed.is_empty() {
        return Ok(None);
    }
    Ok(Some(DeviationKind::Blockers {
        misnamed: Txns::from_vec(misnamed),
        blockers,
    }))
}

/// How a step that the engine blocks differs where the table grants it, if it does.
fn kind_where_queued(
    alloc: Global,
    reply: Reply,
    named: &Txns,
    ahead: &[Txn],
) -> Result<Option<DeviationKind>, Memory>
    ensures { IfOk result (λ kind. kind ≡ kind_where_queued reply named.now ahead.now) }
{
    if ahead.is_empty() {
        return Ok(Some(DeviationKind::Blocked(reply)));
    }
    let blockers = Txns::from_vec(Vec::new(alloc));
    kind_of_blockers(alloc, named, blockers, ahead)
}

/// How what was observed differs from the reply of a step that the table grants, if it does.
pub fn kind_where_granted(
    alloc: Global,
    reply: Reply,
    ahead: &[Txn],
    observed: &Observed,
) -> Result<Option<DeviationKind>, Memory>
    ensures { IfOk result (λ kind. kind ≡ kind_where_granted reply ahead.now observed.now) }
{
    match observed {
        Observed::Blocked(named) => kind_where_queued(alloc, reply, named, ahead),
        _ => {
            if fits(&reply, observed) {
                return Ok(None);
            }
            Ok(Some(DeviationKind::Answer(reply)))
        }
    }
}

/// Whether a step waits behind others alone: the table grants it.
pub fn is_queued(ahead: &[Txn], reply: &Reply) -> bool
    ensures { result ≡ is_queued ahead.now reply.now }
{
    !ahead.is_empty() && is_granted(reply)
}

/// Whether a reply is neither blocked nor refused.
fn is_granted(reply: &Reply) -> bool
    ensures { result ≡ is_granted reply.now }
{
    match reply {
        Reply::Blocked(_) | Reply::Refused(_) => false,
        _ => true,
    }
}

/// The deviation of a line with this number, if it differs.
pub fn deviation_at(line: u64, kind: Option<DeviationKind>) -> Option<Deviation>
    ensures { result ≡ option_map (λ k. record { line = line; kind = k }) kind }
{
    match kind {
        Some(kind) => Some(Deviation { line, kind }),
        None => None,
    }
}

/// A copy of what was found.
pub fn copy_of(alloc: Global, found: &Option<Deviation>) -> Result<Option<Deviation>, Memory>
    ensures { IfOk result (λ copy. copy ≡ found.now) }
{
    match found {
        Some(deviation) => Ok(Some(deviation.try_copy(alloc)?)),
        None => Ok(None),
    }
}

/// The count with one line more that is queued, or none.
pub fn counted(count: u64, is_queued: bool) -> u64
    ensures { result ≡ counted count is_queued }
{
    if is_queued {
        return count.saturating_add(1);
    }
    count
}
