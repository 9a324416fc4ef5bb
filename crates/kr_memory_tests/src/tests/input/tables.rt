//! Odd tables, and tables that are cut.

use super::{Kind, fault_of, tells};
use kr_table::bundled::KVL;
use std::alloc::AllocError;
use std::test::Fail;

/// A text, and what is told of it as a table.
const TABLES: &[(&str, &str)] = &[
    ("format = 2", "fault 4 Field at modes"),
    ("format = 0x2", "fault 4 Field at modes"),
    ("format = 3", "fault 3 Format"),
    ("format = 1\nformat = 1", "fault 2 NotToml"),
    ("format = 1\n[modes]\n[modes]", "fault 2 NotToml"),
    ("format = 0x1", "fault 4 Field at modes"),
    ("format = 1e0", "fault 4 Field at format"),
    ("format = -0", "fault 3 Format"),
    ("format = 9223372036854775807", "fault 3 Format"),
    ("format = 9223372036854775808", "fault 2 NotToml"),
    ("format = 18446744073709551616", "fault 2 NotToml"),
    ("format = 1\n\"\\u0000\" = 1", "fault 4 Field at \u{0}"),
    ("format = 1\n\"\\ud800\" = 1", "fault 2 NotToml"),
    ("format = 1\r\nmodes = 1\r\n", "fault 4 Field at modes"),
    ("format = 1\rmodes = []", "fault 2 NotToml"),
    ("format = 1\u{0}", "fault 2 NotToml"),
];

#[test]
fn odd_tables(rt: HostRuntime) -> Result<(), AllocError> {
    for (text, fault) in TABLES {
        tells(&rt, rt.alloc(), Kind::Table, *text, *fault)?;
    }
    Ok(())
}

/// Each beginning of a table has a fault, up to the name of its first rule.
#[test]
fn cut_tables(rt: HostRuntime) -> Result<(), Fail> {
    let rules = KVL.find("fetch-hit]").ok_or("no rules")?;
    for (len, _) in KVL.char_indices() {
        let front = KVL.get(..len).ok_or("no front")?;
        let fault = fault_of(rt.alloc(), Kind::Table, front)?;
        let is_fault = fault.as_str().starts_with("fault ");
        assert!(rt; len > rules + 9 || is_fault, "{len}: {fault}");
    }
    Ok(())
}
