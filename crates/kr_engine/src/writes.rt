//! One step of the machine with the write of its place.
ghost use Rattle.std.specs.Prelude.{◌≡◌, ◌≢◌, ◌+◌, ◌<◌, ◌≤◌, true, false, length, None, Some, Err, IfOk, IfErr, OnOk, OnErr, IsTrue, slice_index_or};
ghost use Rattle.kr_model.specs.Step.{step, is_end as ends, may_lack_memory};
ghost use Rattle.kr_model.specs.Run.{is_granted};
ghost use Rattle.kr_touch.specs.Parts.{end_reply as the_end_reply};
ghost use Rattle.kr_records.specs.declared.faults.EngineFault.TheVariants as fault;
ghost use Rattle.kr_records.specs.Faults.{TellsReply, is_of_attempt};
ghost use Rattle.kr_records.specs.Histories.{entry, event};
ghost use Rattle.kr_records.specs.Numbers.{begun_by, was_begun, ends_kept, HaveEnds};
ghost use Rattle.kr_records.specs.Cores.{freed};

use kr_index::Tree;
use kr_locks::Buckets;
use kr_machine::{NotDone, Stepper};
use kr_model::{Event, Op, Reply, Txn, is_end};
use kr_protocol::Covered;
use kr_records::{EngineFault, Entry, Known, Numbers, PlaceRow, fault_of, written};
use std::alloc::Global;

/// What an operation answers that ends its transaction.
fn end_reply(op: Op) -> Reply
    ensures { result ≡ the_end_reply op }
{
    match op {
        Op::Abort => Reply::Aborted,
        Op::Commit
        | Op::Fetch(_)
        | Op::Scan(_, _)
        | Op::Go
        | Op::Insert(_, _)
        | Op::Delete(_)
        | Op::Update(_, _)
        | Op::Back => Reply::Committed,
    }
}

/// Does a step that doesn't end its transaction, and writes its place; or leaves the machine as it was.
pub(crate) fn write_step<P: Covered>(
    machine: &mut Stepper<P, Tree, Buckets>,
    alloc: Global,
    row: &PlaceRow,
    place: usize,
    seat: usize,
    txn: Txn,
    op: Op,
) -> Result<(Reply, Known<Entry>), EngineFault>
    requires at_rest { machine.old.pending ≡ None }
    requires place { place < length row.now }
    ensures protocol { machine.new.protocol ≡ machine.old.protocol }
    ensures at_rest { machine.new.pending ≡ None }
    ensures state { OnOk result (machine.new.state ≡ (step (P.table machine.old.protocol) machine.old.state txn op).1) }
    ensures reply { IfOk result (λ r. (r.0 ≡ (step (P.table machine.old.protocol) machine.old.state txn op).0) × (is_granted r.0 ≡ true)) }
    ensures note { IfOk result (λ r. (r.1.cell ≡ slice_index_or row.now place 0) × (r.1.known ≡ Some (entry seat (event txn op) r.0))) }
    ensures err { OnErr result (machine.new ≡ machine.old) }
    ensures refused { IfErr result (λ f. TellsReply f (step (P.table machine.old.protocol) machine.old.state txn op).0) }
    ensures faults { IfErr result (λ f. is_of_attempt f ≡ true) }
    ensures taken { result ≡ Err fault.PlaceTaken → is_granted (step (P.table machine.old.protocol) machine.old.state txn op).0 ≡ true }
    ensures full { result ≢ Err fault.RowFull }
{
    let event = Event { txn, op };
    match machine.step_if(
        txn,
        op,
        |reply| written(alloc, row, place, seat, event, reply),
    ) {
        Ok(done) => Ok(done),
        Err(NotDone::NotGranted(reply)) => Err(fault_of(reply)),
        Err(NotDone::Declined(fault)) => Err(fault),
    }
}

/// Does a step that ends a transaction which was begun, and writes its place; or leaves the machine as it was. It takes
/// no memory for the entry.
pub(crate) fn write_end<P: Covered>(
    machine: &mut Stepper<P, Tree, Buckets>,
    row: &PlaceRow,
    numbers: &mut Numbers,
    place: usize,
    seat: usize,
    txn: Txn,
    op: Op,
) -> Result<(Reply, Known<Entry>), EngineFault>
    requires at_rest { machine.old.pending ≡ None }
    requires is_end { ends op ≡ true }
    requires begun { was_begun (begun_by numbers.old) txn ≡ true }
    requires ends { HaveEnds machine.old.state numbers.old }
    requires room { place + ends_kept numbers.old ≤ length row.now }
    ensures protocol { machine.new.protocol ≡ machine.old.protocol }
    ensures at_rest { machine.new.pending ≡ None }
    ensures state { OnOk result (machine.new.state ≡ (step (P.table machine.old.protocol) machine.old.state txn op).1) }
    ensures reply { IfOk result (λ r. (r.0 ≡ (step (P.table machine.old.protocol) machine.old.state txn op).0) × (is_granted r.0 ≡ true)) }
    ensures note { IfOk result (λ r. (r.1.cell ≡ slice_index_or row.now place 0) × (r.1.known ≡ Some (entry seat (event txn op) r.0))) }
    ensures err { OnErr result (machine.new ≡ machine.old) }
    ensures refused { IfErr result (λ f. TellsReply f (step (P.table machine.old.protocol) machine.old.state txn op).0) }
    ensures faults { IfErr result (λ f. is_of_attempt f ≡ true) }
    ensures taken { result ≡ Err fault.PlaceTaken → is_granted (step (P.table machine.old.protocol) machine.old.state txn op).0 ≡ true }
    ensures full { result ≢ Err fault.RowFull }
    ensures memory { result ≡ Err fault.Memory → IsTrue (may_lack_memory (P.table machine.old.protocol) machine.old.state txn op) }
    ensures begun { begun_by numbers.new ≡ begun_by numbers.old }
    ensures ends { HaveEnds machine.new.state numbers.new }
    ensures room { OnOk result (place < length row.now) }
    ensures freed { OnOk result (ends_kept numbers.old ≡ ends_kept numbers.new + 1) }
    ensures kept { OnErr result (ends_kept numbers.new ≡ ends_kept numbers.old) }
{
    let ready = match machine.ready(txn, op) {
        Ok(ready) => ready,
        Err(reply) => return Err(fault_of(reply)),
    };
    let at = numbers.place(txn);
    let made = numbers.take_end(at);
    let mut made = made;
    *made = Entry {
        seat,
        event: Event { txn, op },
        reply: end_reply(op),
    };
    let cell = row.cell(place);
    let mut note = cell.note();
    match cell.set_as(made, &mut note) {
        Ok(()) => Ok((machine.finish(ready), Known::of(&mut note))),
        Err(made) => {
            numbers.put_end(at, made);
            machine.cancel(ready);
            Err(EngineFault::PlaceTaken)
        }
    }
}

/// Does a step and writes its place, or leaves the machine as it was. A step that doesn't end its transaction needs a
/// place that isn't kept; `left` places aren't used.
pub(crate) fn write<P: Covered>(
    machine: &mut Stepper<P, Tree, Buckets>,
    alloc: Global,
    row: &PlaceRow,
    numbers: &mut Numbers,
    kept: usize,
    left: usize,
    place: usize,
    seat: usize,
    txn: Txn,
    op: Op,
) -> Result<(Reply, Known<Entry>), EngineFault>
    requires at_rest { machine.old.pending ≡ None }
    requires begun { was_begun (begun_by numbers.old) txn ≡ true }
    requires ends { HaveEnds machine.old.state numbers.old }
    requires kept { kept ≡ ends_kept numbers.old }
    requires left { place + left ≡ length row.now }
    requires room { place + kept ≤ length row.now }
    ensures protocol { machine.new.protocol ≡ machine.old.protocol }
    ensures at_rest { machine.new.pending ≡ None }
    ensures state { OnOk result (machine.new.state ≡ (step (P.table machine.old.protocol) machine.old.state txn op).1) }
    ensures reply { IfOk result (λ r. (r.0 ≡ (step (P.table machine.old.protocol) machine.old.state txn op).0) × (is_granted r.0 ≡ true)) }
    ensures note { IfOk result (λ r. (r.1.cell ≡ slice_index_or row.now place 0) × (r.1.known ≡ Some (entry seat (event txn op) r.0))) }
    ensures err { OnErr result (machine.new ≡ machine.old) }
    ensures refused { IfErr result (λ f. TellsReply f (step (P.table machine.old.protocol) machine.old.state txn op).0) }
    ensures faults { IfErr result (λ f. is_of_attempt f ≡ true) }
    ensures taken { result ≡ Err fault.PlaceTaken → is_granted (step (P.table machine.old.protocol) machine.old.state txn op).0 ≡ true }
    ensures full { place + kept ≡ length row.now → ends op ≡ false → result ≡ Err fault.RowFull }
    ensures only_full { result ≡ Err fault.RowFull → (place + kept ≡ length row.now) × (ends op ≡ false) }
    ensures memory { result ≡ Err fault.Memory → ends op ≡ true → IsTrue (may_lack_memory (P.table machine.old.protocol) machine.old.state txn op) }
    ensures begun { begun_by numbers.new ≡ begun_by numbers.old }
    ensures ends { HaveEnds machine.new.state numbers.new }
    ensures room { OnOk result (place < length row.now) }
    ensures freed { OnOk result ((ends_kept numbers.old ≡ ends_kept numbers.new + freed op) × (place + 1 + ends_kept numbers.new ≤ length row.now)) }
    ensures kept { OnErr result (ends_kept numbers.new ≡ ends_kept numbers.old) }
{
    if is_end(op) {
        return write_end(machine, row, numbers, place, seat, txn, op);
    }
    if kept >= left {
        return Err(EngineFault::RowFull);
    }
    write_step(machine, alloc, row, place, seat, txn, op)
}
