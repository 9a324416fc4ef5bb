//! Faults of the two matrices, and which is told first.

use super::super::lines::{PLAIN, Table};
use super::{Row, each_tells};
use std::alloc::AllocError;

/// Which modes are compatible.
#[rattlefmt::skip]
const FAULTS_OF_COMPATIBLE: &[Row] = &[
    Row { table: Table { compatible: r#"compatible = { A = ["A", "A"] }"#, ..PLAIN }, told: "none" },
    Row { table: Table { compatible: "compatible = {}", ..PLAIN },                    told: "fault 7 Compatible at compatible.A" },
    Row { table: Table { compatible: r#"compatible = { A = ["B"] }"#, ..PLAIN },      told: "fault 7 Compatible at compatible.A" },
    Row { table: Table { compatible: r#"compatible = { A = ["none"] }"#, ..PLAIN },   told: "fault 7 Compatible at compatible.A" },
    Row { table: Table { compatible: "compatible = { A = [1] }", ..PLAIN },           told: "fault 7 Compatible at compatible.A" },
    Row { table: Table { compatible: r#"compatible = { A = "A" }"#, ..PLAIN },        told: "fault 7 Compatible at compatible.A" },
    Row { table: Table { compatible: "compatible = { A = [], B = [] }", ..PLAIN },    told: "fault 7 Compatible at compatible.B" },
];

/// What a mode is converted to.
#[rattlefmt::skip]
const FAULTS_OF_CONVERT: &[Row] = &[
    Row { table: Table { convert: "convert = { A = {} }", ..PLAIN },                      told: "fault 8 Convert at convert.A.A" },
    Row { table: Table { convert: "convert = {}", ..PLAIN },                              told: "fault 8 Convert at convert.A.A" },
    Row { table: Table { convert: r#"convert = { A = "A" }"#, ..PLAIN },                  told: "fault 8 Convert at convert.A" },
    Row { table: Table { convert: r#"convert = { A = { A = "B" } }"#, ..PLAIN },          told: "fault 8 Convert at convert.A.A" },
    Row { table: Table { convert: "convert = { A = { A = 1 } }", ..PLAIN },               told: "fault 8 Convert at convert.A.A" },
    Row { table: Table { convert: r#"convert = { A = { A = "A", B = "A" } }"#, ..PLAIN }, told: "fault 8 Convert at convert.A.B" },
    Row { table: Table { convert: r#"convert = { A = { A = "A" }, B = {} }"#, ..PLAIN },  told: "fault 8 Convert at convert.B" },
];

/// The first of two faults is told, of modes and matrices.
#[rattlefmt::skip]
const TWO_FAULTS: &[Row] = &[
    Row { table: Table { modes: r#"modes = ["A", "A"]"#, compatible: "compatible = {}", ..PLAIN },     told: "fault 6 ModeName at 1" },
    Row { table: Table { modes: r#"modes = ["A", "B"]"#, compatible: "compatible = { B = [], C = [] }", ..PLAIN }, told: "fault 7 Compatible at compatible.C" },
    Row { table: Table { compatible: "compatible = {}", convert: "convert = { A = {}, B = {} }", ..PLAIN }, told: "fault 7 Compatible at compatible.A" },
    Row { table: Table { convert: "convert = { B = {} }", rules: "rules = { update = {} }", ..PLAIN }, told: "fault 8 Convert at convert.B" },
    Row { table: Table { convert: "convert = {}", rules: "rules = { update = {} }", ..PLAIN },         told: "fault 8 Convert at convert.A.A" },
    Row { table: Table { convert: "convert = { A = { A = 1 }, B = 1 }", ..PLAIN },                     told: "fault 8 Convert at convert.A.A" },
    Row { table: Table { modes: r#"modes = ["A", "A", "A", "A", "A", "A", "A", "A", "A", "A", "A", "A", "A", "A", "A", "A"]"#, compatible: "compatible = {}", ..PLAIN }, told: "fault 5 ModeCount" },
];

#[test]
fn faults_of_compatible(rt: HostRuntime) -> Result<(), AllocError> {
    each_tells(&rt, rt.alloc(), FAULTS_OF_COMPATIBLE)
}

#[test]
fn faults_of_convert(rt: HostRuntime) -> Result<(), AllocError> {
    each_tells(&rt, rt.alloc(), FAULTS_OF_CONVERT)
}

#[test]
fn the_first_fault_of_modes_and_matrices(rt: HostRuntime) -> Result<(), AllocError> {
    each_tells(&rt, rt.alloc(), TWO_FAULTS)
}
