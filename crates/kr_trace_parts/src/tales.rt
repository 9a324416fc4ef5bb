//! What each transaction that hasn't ended has done so far.
ghost use Rattle.std.specs.Prelude.{◌≡◌, ◌==◌, ℕ, IfOk, OnOk, if◌then◌else◌};
ghost use Rattle.std.specs.Option.{option_map};
ghost use Rattle.kr_trace_follow.specs.Programs as spec;
ghost use Rattle.kr_trace_follow.specs.Programs.{no_tale};
ghost use Rattle.kr_trace_follow.specs.Upwards as turned;
ghost use Rattle.kr_trace_parts.specs.Tales.{noted, program_committed, shown, told_of};

use kr_model::{Event, Memory, Op, Pairs, Txn};
use kr_trace_lines::Observed;
use std::alloc::Global;
use std::collections::BTreeMap;

/// An operation with the answer that was observed.
pub type Answered = (Op, Observed);

/// What a transaction has done so far.
#[derive(Drop)]
pub struct Tale {
    /// Its operations with their answers.
    pub done: Vec<Answered>,
    /// The range of its scan in progress, if there is one.
    pub scan: Option<(u64, u64)>,
}

/// A scan downwards as the scan upwards of its range.
fn upwards(op: Op) -> Op
    ensures { result ≡ turned.upwards op }
{
    match op {
        Op::Scan(first, last) => Op::Scan(first.min(last), first.max(last)),
        op => op,
    }
}

/// Its rows as those of the scan upwards.
fn rows_upwards(op: Op, rows: Pairs) -> Pairs
    ensures { result ≡ turned.rows_upwards op rows }
{
    match op {
        Op::Scan(first, last) if last < first => {
            let mut list = rows.into_vec();
            list.reverse();
            Pairs::from_vec(list)
        }
        _ => rows,
    }
}

/// Its answer as that of the scan upwards.
fn answer_upwards(op: Op, answer: Observed) -> Observed
    ensures { result ≡ turned.answer_upwards op answer }
{
    match answer {
        Observed::Rows(rows) => Observed::Rows(rows_upwards(op, rows)),
        answer => answer,
    }
}

/// Takes out what a transaction has done: nothing, where nothing is noted.
fn take_out(alloc: Global, tales: &mut BTreeMap<Txn, Tale>, txn: Txn) -> Tale
    ensures tale { shown result ≡ noted tales.old txn }
    ensures rest { (u : ℕ) → noted tales.new u ≡ (if u == txn then no_tale else noted tales.old u) }
{
    match tales.remove(&txn) {
        Some(tale) => tale,
        None => Tale {
            done: Vec::new(alloc),
            scan: None,
        },
    }
}

/// Puts in what a transaction has done of which nothing is noted.
fn put_in(tales: &mut BTreeMap<Txn, Tale>, txn: Txn, tale: Tale) -> Result<(), Memory>
    ensures { OnOk result ((u : ℕ) → noted tales.new u ≡ (if u == txn then shown tale else noted tales.old u)) }
{
    tales.insert(txn, tale)?;
    Ok(())
}

/// One more operation with its answer.
fn told(tale: Tale, op: Op, answer: Observed) -> Result<Tale, Memory>
    ensures { IfOk result (λ t. shown t ≡ spec.given (shown tale) (op, answer)) }
{
    let mut done = tale.done;
    done.push((op, answer))?;
    Ok(Tale { done, scan: None })
}

/// One more answer to a step of the scan in progress, if there is one.
fn scan_told(tale: Tale, answer: Observed) -> Result<Tale, Memory>
    ensures { IfOk result (λ t. shown t ≡ spec.scan_given (shown tale) tale.scan answer) }
{
    match tale.scan {
        Some((lo, hi)) => told(tale, Op::Scan(lo, hi), answer),
        None => Ok(tale),
    }
}

/// One more step that was granted. A scan is one operation, whose answer is the rows that it ends with.
fn tale_after(tale: Tale, op: Op, answer: Observed) -> Result<Tale, Memory>
    ensures { IfOk result (λ t. shown t ≡ spec.tale_after (shown tale) op answer) }
{
    match op {
        Op::Scan(lo, hi) => match answer {
            Observed::Going(_) => Ok(Tale {
                done: tale.done,
                scan: Some((lo, hi)),
            }),
            answer => told(tale, op, answer),
        },
        Op::Go => match answer {
            Observed::Going(_) => Ok(tale),
            answer => scan_told(tale, answer),
        },
        Op::Fetch(_) | Op::Insert(_, _) | Op::Delete(_) | Op::Update(_, _) => {
            told(tale, op, answer)
        }
        Op::Commit | Op::Abort | Op::Back => told(tale, op, answer),
    }
}

/// Notes one more step with its reply, a scan as one upwards, and answers with the program of the transaction where it commits.
pub fn note(
    alloc: Global,
    tales: &mut BTreeMap<Txn, Tale>,
    event: Event,
    observed: Observed,
) -> Result<Option<Vec<Answered>>, Memory>
    ensures told { OnOk result ((u : ℕ) → noted tales.new u ≡ told_of (noted tales.old) event observed u) }
    ensures program { IfOk result (λ p. option_map (λ v. v.items) p ≡ program_committed (noted tales.old event.txn) observed) }
{
    match observed {
        Observed::Blocked(_) | Observed::Undone(_) => Ok(None),
        Observed::Committed => Ok(Some(take_out(alloc, tales, event.txn).done)),
        Observed::Aborted => {
            let _ = take_out(alloc, tales, event.txn);
            Ok(None)
        }
        answer => {
            let tale = take_out(alloc, tales, event.txn);
            let answer = answer_upwards(event.op, answer);
            put_in(
                tales,
                event.txn,
                tale_after(tale, upwards(event.op), answer)?,
            )?;
            Ok(None)
        }
    }
}
