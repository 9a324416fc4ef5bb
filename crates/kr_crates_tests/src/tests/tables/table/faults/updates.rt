//! Faults of the row of updates, which format 2 offers.

use super::super::lines::{PLAIN, Table};
use super::{Row, each_tells};
use std::alloc::AllocError;

/// An update has no next name and no own mode, and stands in format 2 alone.
#[rattlefmt::skip]
const FAULTS: &[Row] = &[
    Row { table: Table { rules: r#"rules = { update = { current = [{ mode = "A", span = "commit" }] } }"#, ..PLAIN }, told: "fault 9 Rule at rules.update" },
    Row { table: Table { rules: "rules = { update = { next = [] } }", ..PLAIN },                       told: "fault 9 Rule at rules.update" },
    Row { table: Table { format: "format = 2", rules: r#"rules = { update = { current = [{ mode = "A", span = "commit" }] } }"#, ..PLAIN }, told: "none" },
    Row { table: Table { format: "format = 2", rules: "rules = { update = [] }", ..PLAIN },            told: "fault 9 Rule at rules.update" },
    Row { table: Table { format: "format = 2", rules: "rules = { update = { next = [] } }", ..PLAIN }, told: "fault 9 Rule at rules.update.next" },
    Row { table: Table { format: "format = 2", rules: "rules = { update = { current = {} } }", ..PLAIN }, told: "fault 9 Rule at rules.update.current" },
    Row { table: Table { format: "format = 2", rules: r#"rules = { update = { current = [{ mode = "B", span = "commit" }] } }"#, ..PLAIN }, told: "fault 9 Rule at rules.update.current.0" },
    Row { table: Table { format: "format = 2", rules: r#"rules = { update = { current = [{ own = [], mode = "A", span = "commit" }] } }"#, ..PLAIN }, told: "fault 10 OwnNotAllowed at rules.update.current.0" },
    Row { table: Table { format: "format = 2", rules: r#"rules = { update = { current = [{ mode = "A", span = "commit" }, { own = ["none"], mode = "A", span = "commit" }] } }"#, ..PLAIN }, told: "fault 10 OwnNotAllowed at rules.update.current.1" },
    Row { table: Table { format: "format = 2", rules: "rules = { scan-stop = { current = [] }, update = { next = [] } }", ..PLAIN }, told: "fault 9 Rule at rules.scan-stop.current" },
];

#[test]
fn faults_of_updates(rt: HostRuntime) -> Result<(), AllocError> {
    each_tells(&rt, rt.alloc(), FAULTS)
}
