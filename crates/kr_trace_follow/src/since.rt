//! The lines since which locks are held in their modes.
ghost use Rattle.std.specs.Prelude.{◌≡◌, true, false, None, IfOk, OnOk, if◌then◌else◌};
ghost use Rattle.std.specs.BTreeMap.{get};
ghost use Rattle.std.specs.Ordering.{nat_cmp, eq_by_cmp};
ghost use Rattle.kr_model.specs.Locks.{name_cmp};
ghost use Rattle.kr_trace_follow.specs.Since.{last_or, last_noted, without_notes, with_note, with_change, own_at, own_at_both, plan_at};

use kr_index::{Memory, Ordered};
use kr_locks::Holdings;
use kr_machine::Stepper;
use kr_model::{Mode, Name, Op, Span, Txn};
use kr_protocol::Protocol;
use std::alloc::Global;
use std::collections::BTreeMap;

/// Notes of each transaction that holds locks: the name of a lock with the number of the line at which it came to hold it
/// in another mode, in the order of lines.
pub type Notes = BTreeMap<Txn, Vec<(Name, u64)>>;

/// The line of a note for this name, and else the one that is given.
fn later(line: u64, note: (Name, u64), name: Name) -> u64
    ensures { result ≡ (if eq_by_cmp name_cmp note.0 name then note.1 else line) }
{
    if note.0 == name {
        return note.1;
    }
    line
}

/// Of notes the last for a name, or 0 where there is none.
fn last_for(notes: &[(Name, u64)], name: Name) -> u64
    ensures { result ≡ last_or 0 notes.now name }
{
    let mut line = 0;
    for i in 0..notes.len() {
        line = later(line, notes[i], name);
    }
    line
}

/// The line since which a transaction holds a lock on a name in its mode, or 0 where none is noted. It looks at each note
/// of the transaction.
pub fn since(notes: &Notes, txn: Txn, name: Name) -> u64
    ensures { result ≡ last_noted notes.now txn name }
{
    match notes.get(&txn) {
        Some(list) => last_for(list.as_slice(), name),
        None => 0,
    }
}

/// Takes away the notes of a transaction.
pub fn forget(notes: &mut Notes, txn: Txn)
    ensures { last_noted notes.new ≡ without_notes (last_noted notes.old) txn }
{
    notes.remove(&txn);
}

/// Adds a note of a transaction, and answers whether it has any by now: it has none where it had none before.
fn add_again(notes: &mut Notes, txn: Txn, name: Name, line: u64) -> Result<bool, Memory>
    ensures added { IfOk result (λ there. there ≡ true → last_noted notes.new ≡ with_note (last_noted notes.old) txn name line) }
    ensures absent { IfOk result (λ there. there ≡ false → get nat_cmp notes.new txn ≡ None) }
    ensures same { IfOk result (λ there. there ≡ false → last_noted notes.new ≡ last_noted notes.old) }
{
    if let Some(list) = notes.get_mut(&txn) {
        list.push((name, line))?;
        return Ok(true);
    }
    Ok(false)
}

/// Adds a note of a transaction.
pub fn add(alloc: Global, notes: &mut Notes, txn: Txn, name: Name, line: u64) -> Result<(), Memory>
    ensures { OnOk result (last_noted notes.new ≡ with_note (last_noted notes.old) txn name line) }
{
    if add_again(notes, txn, name, line)? {
        return Ok(());
    }
    let mut list = Vec::new(alloc);
    list.push((name, line))?;
    notes.insert(txn, list)?;
    Ok(())
}

/// Notes a line for a name, where the transaction has another mode there than before.
pub(crate) fn note_change<P: Protocol, I: Ordered, L: Holdings>(
    stepper: &Stepper<P, I, L>,
    notes: &mut Notes,
    line: u64,
    txn: Txn,
    before: Option<(Name, Mode)>,
) -> Result<(), Memory>
    requires { stepper.now.pending ≡ None }
    ensures { OnOk result (last_noted notes.new ≡ with_change line stepper.now.state.locks txn before (last_noted notes.old)) }
{
    if let Some((name, was)) = before {
        if stepper.own(txn, name) != was {
            add(stepper.alloc(), notes, txn, name, line)?;
        }
    }
    Ok(())
}

/// The name of a request, with the mode that the transaction has there.
fn own_at<P: Protocol, I: Ordered, L: Holdings>(
    stepper: &Stepper<P, I, L>,
    txn: Txn,
    request: Option<(Name, Mode, Span)>,
) -> Option<(Name, Mode)>
    requires { stepper.now.pending ≡ None }
    ensures { result ≡ own_at stepper.now.state.locks txn request }
{
    match request {
        Some((name, _, _)) => Some((name, stepper.own(txn, name))),
        None => None,
    }
}

/// The names that a step requests locks on, each with the mode that the transaction has there. It takes no memory.
pub(crate) fn own_before<P: Protocol, I: Ordered, L: Holdings>(
    stepper: &Stepper<P, I, L>,
    txn: Txn,
    op: Op,
) -> (Option<(Name, Mode)>, Option<(Name, Mode)>)
    requires { stepper.now.pending ≡ None }
    ensures { result ≡ own_at_both stepper.now.state.locks txn (plan_at (P.table stepper.now.protocol) stepper.now.state txn op) }
{
    match stepper.plan(txn, op) {
        Some(plan) => (
            own_at(stepper, txn, plan.current),
            own_at(stepper, txn, plan.next),
        ),
        None => (None, None),
    }
}
