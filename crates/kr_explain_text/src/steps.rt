//! The table of a run: its steps, each in the column of its transaction, with the answer, and who holds what afterwards.
ghost use Rattle.std.specs.Prelude.{◌≡◌, ◌+◌, ◌++◌, None, IfOk, OnOk, length, string_bytes};
ghost use Rattle.kr_model.specs.State.{start};
ghost use Rattle.kr_model.specs.Step.{step};
ghost use Rattle.kr_explain_text.specs.Steps.{rows_of, schedule_rows, schedule_text, step_row, texts};

use crate::cells::{head_cells, mark, step_cells, txns_of};
use crate::locks::locks_text;
use crate::rows::write_rows;
use kr_cases::Memory;
use kr_explain_runs::Counterexample;
use kr_index::Tree;
use kr_locks::Buckets;
use kr_machine::Machine;
use kr_model::{Event, Refusal, Reply, Txn};
use kr_protocol::Protocol;
use std::alloc::{AllocError, Global};

/// Attempts a step. The only fault is that a growth was refused, the machine's too.
fn attempt<P: Protocol>(
    machine: &mut Machine<&P, Tree, Buckets>,
    event: Event,
) -> Result<Reply, Memory>
    requires { machine.old.pending ≡ None }
    ensures at_rest { machine.new.pending ≡ None }
    ensures protocol { machine.new.protocol ≡ machine.old.protocol }
    ensures state { OnOk result (machine.new.state ≡ (step (P.table machine.old.protocol.now) machine.old.state event.txn event.op).1) }
    ensures reply { IfOk result (λ reply. reply ≡ (step (P.table machine.old.protocol.now) machine.old.state event.txn event.op).0) }
{
    let reply = machine.step(event.txn, event.op);
    if matches!(reply, Reply::Refused(Refusal::Memory)) {
        return Err(AllocError);
    }
    Ok(reply)
}

/// Attempts a step, and answers its row, of this number and with this mark.
fn step_line<P: Protocol>(
    alloc: Global,
    machine: &mut Machine<&P, Tree, Buckets>,
    protocol: &P,
    txns: &[Txn],
    number: usize,
    event: Event,
    mark: &str,
) -> Result<Vec<String>, Memory>
    requires { machine.old.pending ≡ None }
    ensures at_rest { machine.new.pending ≡ None }
    ensures protocol { machine.new.protocol ≡ machine.old.protocol }
    ensures state { OnOk result (machine.new.state ≡ (step (P.table machine.old.protocol.now) machine.old.state event.txn event.op).1) }
    ensures row { IfOk result (λ row. texts row.items ≡ step_row (P.table machine.old.protocol.now) (P.names protocol.now) txns.now mark.now number machine.old.state event) }
{
    let reply = attempt(machine, event)?;
    let held = machine.locks()?;
    let locks = locks_text(alloc, protocol, held.as_slice())?;
    let row = step_cells(alloc, txns, number, event, &reply, locks, mark)?;
    Ok(row)
}

/// The rows of the table of a run by a machine that is at rest, the first of them above the steps; `weak` and `let_in` are the
/// places, from 0, of the steps that have a mark.
fn lines_by<P: Protocol>(
    alloc: Global,
    protocol: &P,
    machine: &mut Machine<&P, Tree, Buckets>,
    txns: &[Txn],
    events: &[Event],
    weak: usize,
    let_in: usize,
) -> Result<Vec<Vec<String>>, Memory>
    requires { machine.old.pending ≡ None }
    ensures { IfOk result (λ lines. rows_of lines.items
        ≡ schedule_rows (P.table machine.old.protocol.now) (P.names protocol.now) txns.now machine.old.state events.now weak let_in) }
{
    let mut lines = Vec::new(alloc);
    let head = head_cells(alloc, txns)?;
    lines.push(head)?;
    for at in 0..events.len() {
        let mark = mark(weak, let_in, at);
        let line = step_line(alloc, machine, protocol, txns, at + 1, events[at], mark)?;
        lines.push(line)?;
    }
    Ok(lines)
}

/// The rows of the table of a script's run, the first of them above the steps.
fn lines_of<P: Protocol>(
    alloc: Global,
    protocol: &P,
    script: &Counterexample,
    txns: &[Txn],
) -> Result<Vec<Vec<String>>, Memory>
    ensures { IfOk result (λ lines. rows_of lines.items
        ≡ schedule_rows (P.table protocol.now) (P.names protocol.now) txns.now (start script.now.opening.items) script.now.events.items script.now.weak script.now.let_in) }
{
    let index = Tree::from_pairs(alloc, script.opening.as_slice())?;
    let mut machine = Machine::new(alloc, protocol, index, Buckets::new(alloc));
    let events = script.events.as_slice();
    lines_by(
        alloc,
        protocol,
        &mut machine,
        txns,
        events,
        script.weak,
        script.let_in,
    )
}

/// How many columns a table with these transactions has: one for the numbers, one for each transaction, and those for the
/// answers, the locks afterwards and the marks.
fn columns_of(txns: &[Txn]) -> usize
    ensures { result ≡ length txns.now + 4 }
{
    txns.len() + 4
}

/// Writes the table of a script's run. The only fault is that a growth was refused.
pub fn write_steps<P: Protocol>(
    alloc: Global,
    protocol: &P,
    out: &mut String,
    script: &Counterexample,
) -> Result<(), Memory>
    ensures { OnOk result (string_bytes out.new ≡ string_bytes out.old ++ schedule_text (P.table protocol.now) (P.names protocol.now) script.now) }
{
    let txns = txns_of(alloc, script.events.as_slice())?;
    let lines = lines_of(alloc, protocol, script, txns.as_slice())?;
    let columns = columns_of(txns.as_slice());
    write_rows(alloc, out, lines.as_slice(), columns)
}
