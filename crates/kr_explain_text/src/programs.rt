//! What is said of the programs of a run.
ghost use Rattle.std.specs.Prelude.{◌≡◌, ◌++◌, IfOk, codes, decimal, map, string_bytes};
ghost use Rattle.kr_explain_text.specs.Programs.{operation_at, operation_in};

use kr_cases::Memory;
use kr_model::{Op, Program, Reply, Txn};
use std::alloc::Global;

/// The operation of this number, from 1, of a transaction's program; a commit where there is none.
pub fn operation_of(programs: &[Program], txn: Txn, operation: u64) -> Op
    ensures { result ≡ operation_in programs.now txn operation }
{
    for program in programs {
        if program.txn == txn {
            return operation_at(program.operations.as_slice(), operation);
        }
    }
    Op::Commit
}

/// The operation of this number, from 1, of a program; a commit where there is none.
fn operation_at(operations: &[(Op, Reply)], operation: u64) -> Op
    ensures { result ≡ operation_at operations.now operation }
{
    if operation == 0 {
        return Op::Commit;
    }
    match operations.get(operation as usize - 1) {
        Some((op, _)) => *op,
        None => Op::Commit,
    }
}

/// The words for an operation, `op` in words, by its number and its transaction. The only fault is that a growth was refused.
pub fn operation_words(alloc: Global, txn: Txn, operation: u64, op: &str) -> Result<String, Memory>
    ensures { IfOk result (λ text. string_bytes text ≡ codes "operation " ++ (decimal operation ++ (codes " of T" ++ (decimal txn ++ (codes ", " ++ op.now))))) }
{
    format!(in alloc; "operation {operation} of T{txn}, {op}")
}

/// The transactions of programs, in their order: that of the commits, in a run. The only fault is that a growth was refused.
pub fn committed(alloc: Global, programs: &[Program]) -> Result<Vec<Txn>, Memory>
    ensures { IfOk result (λ txns. txns.items ≡ map (λ p. p.txn) programs.now) }
{
    let mut txns = Vec::new(alloc);
    for program in programs {
        txns.push(program.txn)?;
    }
    Ok(txns)
}
