//! Reports of verdicts whose answer that was given has rows.
use super::lists::{Element, list_text};
use super::numbers::{key_at, txn_at};
use kr_model::{Pairs, Reply};
use kr_report::report_verdict;
use kr_serial::Verdict;
use std::alloc::{AllocError, Global};

/// Rows, each a pair of an index and a boundary value.
fn rows(alloc: Global, count: usize) -> Result<Reply, AllocError> {
    let mut pairs = Vec::new(alloc);
    for i in 0..count {
        pairs.push((i as u64, key_at(i)))?;
    }
    Ok(Reply::Rows(Pairs::from_vec(pairs)))
}

/// A verdict in which the answer that was given has so many rows.
fn verdict(alloc: Global, count: usize) -> Result<Verdict, AllocError> {
    let given = rows(alloc, count)?;
    Ok(Verdict::NotSerial {
        txn: txn_at(count),
        operation: count as u64,
        given,
        serial: Reply::Deleted(key_at(count)),
    })
}

/// The text of the report of that verdict on the script of this name.
fn report_text(alloc: Global, name: &str, count: usize) -> Result<String, AllocError> {
    let rows = list_text(alloc, Element::Row, count)?;
    let (txn, value) = (txn_at(count), key_at(count));
    format!(in alloc;
        "{{\"script\":\"{name}\",\"verdict\":[\"not-serial\",{txn},{count},[\"rows\",[{rows}]],[\"deleted\",{value}]]}}"
    )
}

/// Whether the report of that verdict is this.
fn is_told(alloc: Global, name: &str, count: usize) -> Result<bool, AllocError> {
    let report = report_verdict(alloc, name, &verdict(alloc, count)?)?;
    let text = report_text(alloc, name, count)?;
    Ok(report.as_str() == text.as_str())
}

/// Whether the report is this with no name, and with a long one.
pub fn are_told(alloc: Global, count: usize) -> Result<bool, AllocError> {
    Ok(is_told(alloc, "", count)? && is_told(alloc, "a long/name of a script.json", count)?)
}
