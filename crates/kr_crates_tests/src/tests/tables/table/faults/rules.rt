//! Faults of rules, and which is told first.

use super::super::lines::{PLAIN, Table};
use super::{Row, each_tells};
use std::alloc::AllocError;

/// A row, a side or a clause is unknown or of the wrong kind, or a clause lacks a word.
#[rattlefmt::skip]
const ROWS_AND_CLAUSES: &[Row] = &[
    Row { table: Table { rules: "rules = { update = {} }", ..PLAIN },                                  told: "fault 9 Rule at rules.update" },
    Row { table: Table { rules: "rules = { insert = [] }", ..PLAIN },                                  told: "fault 9 Rule at rules.insert" },
    Row { table: Table { rules: "rules = { scan-key = { next = [] } }", ..PLAIN },                     told: "fault 9 Rule at rules.scan-key.next" },
    Row { table: Table { rules: "rules = { insert = { after = [] } }", ..PLAIN },                      told: "fault 9 Rule at rules.insert.after" },
    Row { table: Table { rules: "rules = { insert = { next = {} } }", ..PLAIN },                       told: "fault 9 Rule at rules.insert.next" },
    Row { table: Table { rules: "rules = { insert = { next = [1] } }", ..PLAIN },                      told: "fault 9 Rule at rules.insert.next.0" },
    Row { table: Table { rules: r#"rules = { insert = { next = [{ mode = "A", span = "commit", zeta = 1 }] } }"#, ..PLAIN }, told: "fault 9 Rule at rules.insert.next.0" },
    Row { table: Table { rules: r#"rules = { insert = { next = [{ span = "commit" }] } }"#, ..PLAIN }, told: "fault 9 Rule at rules.insert.next.0" },
    Row { table: Table { rules: r#"rules = { insert = { next = [{ mode = "none", span = "commit" }] } }"#, ..PLAIN }, told: "fault 9 Rule at rules.insert.next.0" },
    Row { table: Table { rules: r#"rules = { insert = { next = [{ mode = "A" }] } }"#, ..PLAIN },      told: "fault 9 Rule at rules.insert.next.0" },
];

/// A span or an own mode is none, or an own mode stands where nothing is changed.
#[rattlefmt::skip]
const SPANS_AND_OWN_MODES: &[Row] = &[
    Row { table: Table { rules: r#"rules = { insert = { next = [{ mode = "A", span = "always" }] } }"#, ..PLAIN }, told: "fault 9 Rule at rules.insert.next.0" },
    Row { table: Table { rules: r#"rules = { insert = { next = [{ mode = "A", span = "commit" }, { own = "A", mode = "A", span = "commit" }] } }"#, ..PLAIN }, told: "fault 9 Rule at rules.insert.next.1" },
    Row { table: Table { rules: r#"rules = { delete = { current = [{ own = ["B"], mode = "A", span = "commit" }] } }"#, ..PLAIN }, told: "fault 9 Rule at rules.delete.current.0" },
    Row { table: Table { rules: r#"rules = { fetch-hit = { current = [{ own = ["A"], mode = "A", span = "commit" }] } }"#, ..PLAIN }, told: "fault 10 OwnNotAllowed at rules.fetch-hit.current.0" },
    Row { table: Table { rules: r#"rules = { scan-stop = { next = [{ own = [], mode = "A", span = "instant" }] } }"#, ..PLAIN }, told: "fault 10 OwnNotAllowed at rules.scan-stop.next.0" },
    Row { table: Table { rules: r#"rules = { insert = { next = [{ own = [], mode = "A", span = "commit" }, { own = ["none", "A", "A"], mode = "A", span = "instant" }] } }"#, ..PLAIN }, told: "none" },
];

/// The first of two faults is told.
#[rattlefmt::skip]
const TWO_FAULTS: &[Row] = &[
    Row { table: Table { rules: "rules = { insert = { current = [1], zeta = [] } }", ..PLAIN },   told: "fault 9 Rule at rules.insert.current.0" },
    Row { table: Table { rules: "rules = { insert = { current = [1] }, update = {} }", ..PLAIN }, told: "fault 9 Rule at rules.insert.current.0" },
    Row { table: Table { rules: "rules = { insert = { zeta = [] }, fetch-hit = { next = [] } }", ..PLAIN }, told: "fault 9 Rule at rules.fetch-hit.next" },
    Row { table: Table { rules: r#"rules = { fetch-hit = { current = [{ own = ["A"], mode = "A", span = "always" }] } }"#, ..PLAIN }, told: "fault 9 Rule at rules.fetch-hit.current.0" },
    Row { table: Table { rules: r#"rules = { fetch-hit = { current = [{ own = ["B"], mode = "A", span = "commit" }] } }"#, ..PLAIN }, told: "fault 10 OwnNotAllowed at rules.fetch-hit.current.0" },
    Row { table: Table { rules: r#"rules = { fetch-hit = { current = [{ own = ["A"], mode = "A", span = "commit" }, 1] } }"#, ..PLAIN }, told: "fault 10 OwnNotAllowed at rules.fetch-hit.current.0" },
];

#[test]
fn faults_of_rows_and_clauses(rt: HostRuntime) -> Result<(), AllocError> {
    each_tells(&rt, rt.alloc(), ROWS_AND_CLAUSES)
}

#[test]
fn faults_of_spans_and_own_modes(rt: HostRuntime) -> Result<(), AllocError> {
    each_tells(&rt, rt.alloc(), SPANS_AND_OWN_MODES)
}

#[test]
fn the_first_fault_of_rules(rt: HostRuntime) -> Result<(), AllocError> {
    each_tells(&rt, rt.alloc(), TWO_FAULTS)
}
