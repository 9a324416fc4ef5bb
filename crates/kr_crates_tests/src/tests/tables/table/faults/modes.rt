//! Faults of the names of modes.

use super::super::lines::{PLAIN, Table};
use super::{Row, each_tells};
use std::alloc::AllocError;

/// There are too few modes, or a name is none.
#[rattlefmt::skip]
const FAULTS: &[Row] = &[
    Row { table: Table { modes: "modes = []", ..PLAIN },                               told: "fault 5 ModeCount" },
    Row { table: Table { modes: r#"modes = ["A", "A"]"#, ..PLAIN },                    told: "fault 6 ModeName at 1" },
    Row { table: Table { modes: r#"modes = ["A", 1]"#, ..PLAIN },                      told: "fault 6 ModeName at 1" },
    Row { table: Table { modes: r#"modes = ["none"]"#, ..PLAIN },                      told: "fault 6 ModeName at 0" },
    Row { table: Table { modes: r#"modes = [""]"#, ..PLAIN },                          told: "fault 6 ModeName at 0" },
    Row { table: Table { modes: r#"modes = ["abcdefghijklmnopqrstuvwxy"]"#, ..PLAIN }, told: "fault 6 ModeName at 0" },
    Row { table: Table { modes: "modes = [\"\\u007f\"]", ..PLAIN },                    told: "fault 6 ModeName at 0" },
    Row { table: Table { modes: "modes = [\"\\t\"]", ..PLAIN },                        told: "fault 6 ModeName at 0" },
    Row { table: Table { modes: r#"modes = ["é"]"#, ..PLAIN },                         told: "fault 6 ModeName at 0" },
    Row { table: Table { modes: r#"modes = ["abcdefghijklmnopqrstuvwx"]"#, ..PLAIN },  told: "fault 7 Compatible at compatible.A" },
];

#[test]
fn faults_of_modes(rt: HostRuntime) -> Result<(), AllocError> {
    each_tells(&rt, rt.alloc(), FAULTS)
}
