//! Faults of a table's members as such, and which is told first.

use super::super::lines::{PLAIN, Table};
use super::{Row, each_tells};
use std::alloc::AllocError;

/// A member is unknown, missing or of the wrong kind, or the format is none.
#[rattlefmt::skip]
const FAULTS: &[Row] = &[
    Row { table: PLAIN,                                             told: "none" },
    Row { table: Table { format: "zeta = 1\nformat = 1", ..PLAIN }, told: "fault 4 Field at zeta" },
    Row { table: Table { format: "'' = 1\nformat = 1", ..PLAIN },   told: "fault 4 Field at " },
    Row { table: Table { format: r#"format = "1""#, ..PLAIN },      told: "fault 4 Field at format" },
    Row { table: Table { format: "format = 1.0", ..PLAIN },         told: "fault 4 Field at format" },
    Row { table: Table { format: "", ..PLAIN },                     told: "fault 4 Field at format" },
    Row { table: Table { format: "format = -1", ..PLAIN },          told: "fault 3 Format" },
    Row { table: Table { format: "format = 0", ..PLAIN },           told: "fault 3 Format" },
    Row { table: Table { format: "format = 2", ..PLAIN },           told: "none" },
    Row { table: Table { format: "format = 2.0", ..PLAIN },         told: "fault 4 Field at format" },
    Row { table: Table { format: "format = 3", ..PLAIN },           told: "fault 3 Format" },
    Row { table: Table { format: "zeta = 1\nformat = 2", ..PLAIN }, told: "fault 4 Field at zeta" },
    Row { table: Table { modes: r#"modes = "A""#, ..PLAIN },        told: "fault 4 Field at modes" },
    Row { table: Table { compatible: "compatible = []", ..PLAIN },  told: "fault 4 Field at compatible" },
    Row { table: Table { convert: "", ..PLAIN },                    told: "fault 4 Field at convert" },
    Row { table: Table { rules: "rules = []", ..PLAIN },            told: "fault 4 Field at rules" },
];

/// The first of two faults is told.
#[rattlefmt::skip]
const TWO_FAULTS: &[Row] = &[
    Row { table: Table { format: "format = 3", rules: "rules = [", ..PLAIN },             told: "fault 2 NotToml" },
    Row { table: Table { format: "format = 3\nzeta = 1", modes: "", ..PLAIN },            told: "fault 3 Format" },
    Row { table: Table { format: "zeta = 1\nformat = 1\neta = 1", modes: "", ..PLAIN },   told: "fault 4 Field at eta" },
    Row { table: Table { modes: "modes = 1", compatible: "compatible = 1", ..PLAIN },     told: "fault 4 Field at modes" },
    Row { table: Table { compatible: "compatible = 1", convert: "convert = 1", ..PLAIN }, told: "fault 4 Field at compatible" },
    Row { table: Table { convert: "convert = 1", rules: "rules = 1", ..PLAIN },           told: "fault 4 Field at convert" },
    Row { table: Table { modes: "modes = []", rules: "rules = 1", ..PLAIN },              told: "fault 4 Field at rules" },
];

#[test]
fn faults_of_the_document(rt: HostRuntime) -> Result<(), AllocError> {
    each_tells(&rt, rt.alloc(), FAULTS)
}

#[test]
fn the_first_fault_of_the_document(rt: HostRuntime) -> Result<(), AllocError> {
    each_tells(&rt, rt.alloc(), TWO_FAULTS)
}
