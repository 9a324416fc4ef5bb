//! Changes of one entry of the bundled tables: how many are rejected, and of how many of these a failed case gives a script.
//! tests/exact goes through all of them with the built programs.

ghost use Rattle.std.specs.Prelude.{◌<◌};

use super::entries::{Clause, edits, text_of};
use super::tables::failed;
use kr_explain_runs::Closure;
use kr_model::FailedCase;
use kr_protocol::{Im, Kvl, KvlUpdate, Protocol, RangeKey};
use kr_table::read;
use std::alloc::Global;
use std::process::Abort;
use std::test::Fail;

/// What the rows of a table request.
const IM: &[Clause] = &[
    ("fetch-hit", "current", &[], "S", "commit"),
    ("fetch-miss", "next", &[], "S", "commit"),
    ("scan-key", "current", &[], "S", "commit"),
    ("scan-stop", "next", &[], "S", "commit"),
    ("insert", "next", &[], "X", "instant"),
    ("insert", "current", &[], "X", "commit"),
    ("delete", "next", &[], "X", "commit"),
    ("delete", "current", &[], "X", "instant"),
];

const KVL: &[Clause] = &[
    ("fetch-hit", "current", &[], "S", "commit"),
    ("fetch-miss", "next", &[], "S", "commit"),
    ("scan-key", "current", &[], "S", "commit"),
    ("scan-stop", "next", &[], "S", "commit"),
    ("insert", "next", &[], "IX", "instant"),
    ("insert", "current", &["S", "SIX", "X"], "X", "commit"),
    ("insert", "current", &[], "IX", "commit"),
    ("delete", "next", &[], "X", "commit"),
    ("delete", "current", &[], "X", "instant"),
];

const KVL_UPDATE: &[Clause] = &[
    ("fetch-hit", "current", &[], "S", "commit"),
    ("fetch-miss", "next", &[], "S", "commit"),
    ("scan-key", "current", &[], "S", "commit"),
    ("scan-stop", "next", &[], "S", "commit"),
    ("insert", "next", &[], "IX", "instant"),
    ("insert", "current", &["S", "SIX", "X"], "X", "commit"),
    ("insert", "current", &[], "IX", "commit"),
    ("delete", "next", &[], "X", "commit"),
    ("delete", "current", &[], "X", "instant"),
    ("update", "current", &[], "X", "commit"),
];

const RANGE_KEY: &[Clause] = &[
    ("fetch-hit", "current", &[], "N-S", "commit"),
    ("fetch-miss", "next", &[], "S-N", "commit"),
    ("scan-key", "current", &[], "S-S", "commit"),
    ("scan-stop", "next", &[], "S-N", "commit"),
    ("insert", "next", &[], "I-N", "instant"),
    (
        "insert",
        "current",
        &["S-N", "S-S", "S-X", "X-N", "X-S", "X-X"],
        "X-X",
        "commit",
    ),
    ("insert", "current", &[], "I-X", "commit"),
    ("delete", "next", &[], "X-N", "commit"),
    ("delete", "current", &[], "X-X", "instant"),
];

/// The numbers of changes, of those by which the table is rejected, and of those of them with a script.
#[derive(Clone, Copy, Debug, Default, PartialEq, Eq)]
struct Numbers {
    changes: usize,
    rejected: usize,
    shown: usize,
}

/// Whether a failed case of the table gives a script.
fn is_shown<P: Protocol>(alloc: Global, table: &P, cases: &[FailedCase]) -> Result<bool, Fail> {
    let closure = Closure::of(alloc, table)?;
    for case in cases {
        if closure.find(alloc, table, case, None)?.is_some() {
            return Ok(true);
        }
    }
    Ok(false)
}

/// Counts the changes of a table with these clauses: the first of each so many.
fn counts<P: Protocol>(
    alloc: Global,
    protocol: &P,
    clauses: &[Clause],
    each: usize,
) -> Result<Numbers, Fail>
    requires { 0 < each }
{
    let mut counts = Numbers::default();
    for edit in edits(alloc, protocol, clauses)?.iter().step_by(each) {
        let text = text_of(alloc, protocol, clauses, *edit)?;
        let table = read(alloc, text.as_bytes()).map_err(|_| "no table")?;
        let cases = failed(alloc, &table)?;
        counts.changes = counts.changes.saturating_add(1);
        if !cases.is_empty() {
            counts.rejected = counts.rejected.saturating_add(1);
            if is_shown(alloc, &table, &cases)? {
                counts.shown = counts.shown.saturating_add(1);
            }
        }
    }
    Ok(counts)
}

/// Compares the numbers of changes and of rejected tables with those that are known, of the changes of a table with these
/// clauses, of which the first of each so many is taken. Those with a script may be more than are known.
fn are<P: Protocol>(
    rt: &impl Abort,
    alloc: Global,
    protocol: &P,
    clauses: &[Clause],
    each: usize,
    known: Numbers,
) -> Result<(), Fail>
    requires { 0 < each }
{
    let found = counts(alloc, protocol, clauses, each)?;
    assert_eq!(rt;
        (found.changes, found.rejected),
        (known.changes, known.rejected)
    );
    assert!(rt; found.shown >= known.shown, "{found:?}");
    Ok(())
}

#[rattlefmt::skip]
const TWO_MODES: Numbers = Numbers { changes: 8, rejected: 5, shown: 5 };

#[rattlefmt::skip]
const INTENTION_MODES: Numbers = Numbers { changes: 8, rejected: 6, shown: 4 };

#[rattlefmt::skip]
const INTENTION_MODES_AND_UPDATES: Numbers = Numbers { changes: 8, rejected: 7, shown: 4 };

#[rattlefmt::skip]
const TWO_PARTS: Numbers = Numbers { changes: 7, rejected: 4, shown: 2 };

/// Each fourth change of the table with two modes.
#[test]
fn of_two_modes(rt: HostRuntime) -> Result<(), Fail> {
    are(&rt, rt.alloc(), &Im, IM, 4, TWO_MODES)
}

/// Each twenty-fourth change of the table of key-value locking.
#[test]
fn of_intention_modes(rt: HostRuntime) -> Result<(), Fail> {
    are(&rt, rt.alloc(), &Kvl, KVL, 24, INTENTION_MODES)
}

/// Each twenty-fourth change of that which offers updates.
#[test]
fn of_intention_modes_and_updates(rt: HostRuntime) -> Result<(), Fail> {
    let known = INTENTION_MODES_AND_UPDATES;
    are(&rt, rt.alloc(), &KvlUpdate, KVL_UPDATE, 24, known)
}

/// Each two hundred and fortieth change of the table with range and key parts.
#[test]
fn of_two_parts(rt: HostRuntime) -> Result<(), Fail> {
    are(&rt, rt.alloc(), &RangeKey, RANGE_KEY, 240, TWO_PARTS)
}
