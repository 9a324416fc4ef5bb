//! Locks that conflict with requests.
ghost use Rattle.std.specs.Prelude.{◌≡◌, ◌≤◌, ◌++◌, All, IfOk, OnOk};
ghost use Rattle.std.specs.List.{flat_map};
ghost use Rattle.kr_trace_follow.specs.Conflicts.{is_in_the_way, conflict, conflicts_with, waits_ahead, waits_for_conflicts};
ghost use Rattle.kr_trace_follow.specs.Since.{last_noted};

use crate::since::{Notes, since};
use kr_index::Memory;
use kr_model::{Mode, Name, Txn};
use kr_protocol::Protocol;
use kr_trace_lines::Conflict;
use std::alloc::Global;

/// A lock that is held or waited for: its name, its transaction, and the mode.
pub type Lock = ((Name, Txn), Mode);

/// A lock that is requested, with the mode that the transaction holds there and the converted mode in which it is tested.
#[derive(Clone, Copy)]
pub struct Tested {
    pub txn: Txn,
    pub name: Name,
    pub own: Mode,
    pub asked: Mode,
    pub tested: Mode,
}

/// Whether a lock is another transaction's on the name, and conflicts with the mode in which the request is tested.
fn is_in_the_way<P: Protocol>(protocol: &P, request: Tested, lock: Lock) -> bool
    requires tested { request.tested ≤ (P.table protocol.now).count }
    requires held { lock.1 ≤ (P.table protocol.now).count }
    ensures { result ≡ is_in_the_way (P.table protocol.now) request lock }
{
    let ((name, holder), held) = lock;
    name == request.name && holder != request.txn && !protocol.ok(request.tested, held)
}

/// A lock that conflicts with a request, with the line since which it is held.
fn conflict(notes: &Notes, request: Tested, lock: Lock) -> Conflict
    ensures { result ≡ conflict (last_noted notes.now) request lock }
{
    let ((name, holder), held) = lock;
    Conflict {
        name,
        holder,
        held,
        since: since(notes, holder, name),
        asked: request.asked,
        tested: request.tested,
    }
}

/// Adds the held locks that conflict with a request, in their order.
fn push_conflicts<P: Protocol>(
    protocol: &P,
    notes: &Notes,
    locks: &[Lock],
    request: Tested,
    list: &mut Vec<Conflict>,
) -> Result<(), Memory>
    requires tested { request.tested ≤ (P.table protocol.now).count }
    requires held { All (λ l. l.1 ≤ (P.table protocol.now).count) locks.now }
    ensures { OnOk result (list.new.items ≡ list.old.items ++ conflicts_with (P.table protocol.now) (last_noted notes.now) locks.now request) }
{
    for i in 0..locks.len() {
        let lock = locks[i];
        if is_in_the_way(protocol, request, lock) {
            list.push(conflict(notes, request, lock))?;
        }
    }
    Ok(())
}

/// The held locks that conflict with any of the requests, those with the first request first.
pub fn conflicts_with_all<P: Protocol>(
    alloc: Global,
    protocol: &P,
    notes: &Notes,
    locks: &[Lock],
    requests: &[Tested],
) -> Result<Vec<Conflict>, Memory>
    requires tested { All (λ q. q.tested ≤ (P.table protocol.now).count) requests.now }
    requires held { All (λ l. l.1 ≤ (P.table protocol.now).count) locks.now }
    ensures { IfOk result (λ list. list.items ≡ flat_map (conflicts_with (P.table protocol.now) (last_noted notes.now) locks.now) requests.now) }
{
    let mut list = Vec::new(alloc);
    for i in 0..requests.len() {
        push_conflicts(protocol, notes, locks, requests[i], &mut list)?;
    }
    Ok(list)
}

/// Adds who waits for a lock that conflicts with a request, in their order.
fn push_ahead<P: Protocol>(
    protocol: &P,
    waiting: &[Lock],
    request: Tested,
    list: &mut Vec<Txn>,
) -> Result<(), Memory>
    requires tested { request.tested ≤ (P.table protocol.now).count }
    requires modes { All (λ l. l.1 ≤ (P.table protocol.now).count) waiting.now }
    ensures { OnOk result (list.new.items ≡ list.old.items ++ waits_for_conflicts (P.table protocol.now) waiting.now request) }
{
    for i in 0..waiting.len() {
        let wanted = waiting[i];
        if is_in_the_way(protocol, request, wanted) {
            list.push(wanted.0.1)?;
        }
    }
    Ok(())
}

/// Who waits ahead of any of the requests, those ahead of the first request first.
pub fn ahead_of_all<P: Protocol>(
    alloc: Global,
    protocol: &P,
    waiting: &[Lock],
    requests: &[Tested],
) -> Result<Vec<Txn>, Memory>
    requires tested { All (λ q. q.tested ≤ (P.table protocol.now).count) requests.now }
    requires modes { All (λ l. l.1 ≤ (P.table protocol.now).count) waiting.now }
    ensures { IfOk result (λ list. list.items ≡ flat_map (waits_ahead (P.table protocol.now) waiting.now) requests.now) }
{
    let mut list = Vec::new(alloc);
    for i in 0..requests.len() {
        let request = requests[i];
        if request.tested != request.own {
            push_ahead(protocol, waiting, request, &mut list)?;
        }
    }
    Ok(list)
}
