//! Programs so far of transactions that haven't ended, in a list that rises by number.
ghost use Rattle.std.specs.Prelude.{◌≡◌, ℕ, ◌+◌, ◌<◌, ◌≤◌, ◌⊎◌, [], ◌∷◌, ◌++◌, IfSome, IfNone, IfOk, OnOk, true, is_some, unwrap_or, vec_len, vec_capacity, slice_index_or};
ghost use Rattle.std.specs.Option.{option_map};
ghost use Rattle.std.specs.Ordering.{nat_cmp};
ghost use Rattle.std.specs.FinMap.{find, put};
ghost use Rattle.kr_model.specs.declared.Op.TheVariants as op_is;
ghost use Rattle.kr_model.specs.Log.{with_step, last_answered};
ghost use Rattle.kr_txn.specs.Numbered.{IsPosition, IsPlace, AreOthers, without_txn};
ghost use Rattle.kr_txn.specs.Logs.{number_of, operations_of, entries, txn_of, HasRoomForOne, HasRoomAt, HasMemory, IsInOrder};

use crate::numbered::{Numbered, place, position};
use kr_model::{Answers, Op, Program, Reply, Txn};
use std::alloc::{AllocError, Global};

/// What a transaction that hasn't ended has done so far.
#[derive(Drop)]
pub struct Unfinished {
    /// The transaction.
    pub txn: Txn,
    /// Its operations in order, with their answers.
    pub operations: Vec<(Op, Reply)>,
}

/// An unfinished transaction whose next operation has its memory.
#[derive(Drop)]
pub enum Ready {
    /// This one, which is at this place of the list.
    Listed(Txn, usize),
    /// One that isn't in the list yet, and has done nothing.
    New(Unfinished),
}

impl Unfinished {
    /// A transaction that has done nothing. Takes no memory.
    pub fn new(alloc: Global, txn: Txn) -> Unfinished
        ensures txn { result.txn ≡ txn }
        ensures operations { result.operations.items ≡ [] }
    {
        Unfinished {
            txn,
            operations: Vec::new(alloc),
        }
    }
}

/// Adds a step that was granted to what a transaction has done. There is room for one more operation, so it takes no
/// memory.
fn add_step(unfinished: &mut Unfinished, op: Op, reply: Reply)
    requires { HasRoomForOne unfinished.old }
    ensures txn { unfinished.new.txn ≡ unfinished.old.txn }
    ensures operations { unfinished.new.operations.items ≡ with_step unfinished.old.operations.items op reply }
{
    match op {
        Op::Go => go_on(&mut unfinished.operations, reply),
        Op::Fetch(_)
        | Op::Scan(_, _)
        | Op::Insert(_, _)
        | Op::Delete(_)
        | Op::Update(_, _)
        | Op::Commit
        | Op::Abort
        | Op::Back => unfinished.operations.push_reserved((op, reply)),
    }
}

/// Goes on with the last of the operations, a scan. Takes no memory.
fn go_on(operations: &mut Vec<(Op, Reply)>, reply: Reply)
    ensures { operations.new.items ≡ with_step operations.old.items op_is.Go reply }
{
    match reply {
        Reply::Rows(rows) => answer_last(operations, Reply::Rows(rows)),
        _ => {}
    }
}

/// Gives the last of the operations this answer. Takes no memory.
fn answer_last(operations: &mut Vec<(Op, Reply)>, reply: Reply)
    ensures { operations.new.items ≡ last_answered reply operations.old.items }
{
    if let Some((op, _)) = operations.pop() {
        operations.push_reserved((op, reply));
    }
}

impl Numbered for Unfinished {
    ghost number = { number_of };

    fn number(&self) -> Txn {
        self.txn
    }
}

/// Takes a transaction out of the list and gives it back; `None` where it isn't there, and then the list stays. The
/// others keep their order, and the list keeps its memory.
pub fn take_out(list: &mut Vec<Unfinished>, txn: Txn) -> Option<Unfinished>
    requires { IsInOrder list.old.items }
    ensures found { option_map operations_of result ≡ find nat_cmp txn (entries list.old.items) }
    ensures txn { IfSome result (λ u. u.txn ≡ txn) }
    ensures rest { entries list.new.items ≡ without_txn txn (entries list.old.items) }
    ensures some { IfSome result (λ u. vec_len list.new + 1 ≡ vec_len list.old) }
    ensures same { IfNone result (entries list.new.items ≡ entries list.old.items) }
    ensures none { IfNone result (vec_len list.new ≡ vec_len list.old) }
    ensures capacity { vec_capacity list.new ≡ vec_capacity list.old }
    ensures in_order { IsInOrder list.new.items }
    ensures gone { find nat_cmp txn (entries list.new.items) ≡ None }
{
    match position(list, txn) {
        Some(i) => Some(list.remove(i)),
        None => None,
    }
}

/// Puts a transaction that isn't in the list before the first with a greater number. The list has room, so it takes no
/// memory.
pub fn put_in(list: &mut Vec<Unfinished>, unfinished: Unfinished)
    requires in_order { IsInOrder list.old.items }
    requires others { find nat_cmp unfinished.txn (entries list.old.items) ≡ None }
    requires room { vec_len list.old < vec_capacity list.old }
    ensures items { entries list.new.items ≡ put nat_cmp unfinished.txn unfinished.operations.items (entries list.old.items) }
    ensures len { vec_len list.new ≡ vec_len list.old + 1 }
    ensures capacity { vec_capacity list.old ≤ vec_capacity list.new }
    ensures in_order { IsInOrder list.new.items }
{
    let i = place(list, unfinished.txn);
    let _ = list.insert(i, unfinished);
}

/// Takes the memory of one more operation.
fn make_room_in(unfinished: &mut Unfinished) -> Result<(), AllocError>
    ensures txn { unfinished.new.txn ≡ unfinished.old.txn }
    ensures operations { unfinished.new.operations.items ≡ unfinished.old.operations.items }
    ensures room { OnOk result (HasRoomForOne unfinished.new) }
{
    unfinished.operations.reserve(1)?;
    Ok(())
}

/// Takes the memory of one more operation of the transaction at this place.
fn make_room_at(list: &mut Vec<Unfinished>, place: usize) -> Result<(), AllocError>
    requires { place < vec_len list.old }
    ensures same { entries list.new.items ≡ entries list.old.items }
    ensures len { vec_len list.new ≡ vec_len list.old }
    ensures room { OnOk result ((d : Unfinished) → HasRoomForOne (slice_index_or list.new.items place d)) }
{
    make_room_in(&mut list[place])
}

/// Takes the memory of one more operation of a transaction, where it is in the list, or for a new one. The list keeps its
/// transactions, also where a growth is refused.
pub fn get_ready(alloc: Global, list: &mut Vec<Unfinished>, txn: Txn) -> Result<Ready, AllocError>
    requires in_order { IsInOrder list.old.items }
    ensures items { entries list.new.items ≡ entries list.old.items }
    ensures len { vec_len list.new ≡ vec_len list.old }
    ensures txn { IfOk result (λ r. txn_of r ≡ txn) }
    ensures memory { IfOk result (HasMemory list.new) }
{
    match position(list, txn) {
        Some(place) => {
            make_room_at(list, place)?;
            Ok(Ready::Listed(txn, place))
        }
        None => {
            list.reserve(1)?;
            let mut unfinished = Unfinished::new(alloc, txn);
            make_room_in(&mut unfinished)?;
            Ok(Ready::New(unfinished))
        }
    }
}

/// Does a step that was granted to the transaction at this place, which has room for it. Takes no memory.
fn do_step_at(list: &mut Vec<Unfinished>, txn: Txn, place: usize, op: Op, reply: Reply)
    requires in_order { IsInOrder list.old.items }
    requires memory { HasRoomAt list.old.items txn place }
    ensures items { entries list.new.items ≡ put nat_cmp txn (with_step (unwrap_or (find nat_cmp txn (entries list.old.items)) []) op reply) (entries list.old.items) }
    ensures len { vec_len list.new ≡ vec_len list.old }
{
    add_step(&mut list[place], op, reply);
}

/// Does a step that was granted to a transaction that has its memory: it is then in the list. Takes no memory.
pub fn do_step(list: &mut Vec<Unfinished>, ready: Ready, op: Op, reply: Reply)
    requires in_order { IsInOrder list.old.items }
    requires memory { HasMemory list.old ready }
    ensures items { entries list.new.items ≡ put nat_cmp (txn_of ready) (with_step (unwrap_or (find nat_cmp (txn_of ready) (entries list.old.items)) []) op reply) (entries list.old.items) }
    ensures in_order { IsInOrder list.new.items }
    ensures len { vec_len list.new ≤ vec_len list.old + 1 }
{
    match ready {
        Ready::Listed(txn, place) => do_step_at(list, txn, place, op, reply),
        Ready::New(unfinished) => {
            let mut unfinished = unfinished;
            add_step(&mut unfinished, op, reply);
            put_in(list, unfinished);
        }
    }
}

/// Takes a transaction out of the list, and gives its operations: none where it isn't there. Takes no memory.
pub fn take_operations(alloc: Global, list: &mut Vec<Unfinished>, txn: Txn) -> Vec<(Op, Reply)>
    requires { IsInOrder list.old.items }
    ensures in_order { IsInOrder list.new.items }
    ensures items { result.items ≡ unwrap_or (find nat_cmp txn (entries list.old.items)) [] }
    ensures rest { entries list.new.items ≡ without_txn txn (entries list.old.items) }
    ensures len { vec_len list.new ≤ vec_len list.old }
    ensures there { is_some (find nat_cmp txn (entries list.old.items)) ≡ true → vec_len list.new + 1 ≡ vec_len list.old }
{
    match take_out(list, txn) {
        Some(unfinished) => unfinished.operations,
        None => Vec::new(alloc),
    }
}

/// Notes the commit of a transaction: its program, which has no operations where it isn't in the list, is the last of the
/// committed ones. There is room, so it takes no memory.
pub fn commit(list: &mut Vec<Unfinished>, committed: &mut Vec<Program>, txn: Txn)
    requires in_order { IsInOrder list.old.items }
    requires programs { vec_len list.old + vec_len committed.old ≤ vec_capacity committed.old }
    requires room { (is_some (find nat_cmp txn (entries list.old.items)) ≡ true) ⊎ (vec_len list.old + vec_len committed.old + 1 ≤ vec_capacity committed.old) }
    ensures in_order { IsInOrder list.new.items }
    ensures rest { entries list.new.items ≡ without_txn txn (entries list.old.items) }
    ensures committed { committed.new.items ≡ committed.old.items ++ record { txn = txn; operations = unwrap_or (find nat_cmp txn (entries list.old.items)) [] } ∷ [] }
    ensures programs { vec_len list.new + vec_len committed.new ≤ vec_capacity committed.new }
{
    let alloc = *committed.allocator();
    let operations = take_operations(alloc, list, txn);
    push_program(committed, txn, operations);
}

/// Adds a program. There is room, so it takes no memory.
fn push_program(committed: &mut Vec<Program>, txn: Txn, operations: Vec<(Op, Reply)>)
    requires { vec_len committed.old < vec_capacity committed.old }
    ensures items { committed.new.items ≡ committed.old.items ++ record { txn = txn; operations = operations.items } ∷ [] }
    ensures len { vec_len committed.new ≡ vec_len committed.old + 1 }
    ensures capacity { vec_capacity committed.new ≡ vec_capacity committed.old }
{
    let operations = Answers::from_vec(operations);
    committed.push_reserved(Program { txn, operations });
}
