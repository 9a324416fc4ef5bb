//! Input that is as deep as can be.

use super::{Kind, fault_of, tells_any};
use std::alloc::{AllocError, Global};

/// A text with parts that are repeated as often as one another.
#[derive(Clone, Copy)]
struct Deep<'a> {
    before: &'a str,
    part: &'a str,
    middle: &'a str,
    other: &'a str,
    count: u32,
}

/// A text after so many of the same part.
fn with_parts(text: String, part: &str, count: u32) -> Result<String, AllocError> {
    let mut text = text;
    for _ in 0..count {
        text.push_str(part)?;
    }
    Ok(text)
}

impl Deep<'_> {
    fn text(self, alloc: Global) -> Result<String, AllocError> {
        let text = String::from_str(alloc, self.before)?;
        let mut text = with_parts(text, self.part, self.count)?;
        text.push_str(self.middle)?;
        with_parts(text, self.other, self.count)
    }
}

/// 100,000 arrays in one another, closed and not, and as many members; the program has no more stack than this.
#[rattlefmt::skip]
const DEEP_SCRIPTS: &[Deep] = &[
    Deep { before: "", part: "[",       middle: "",  other: "]", count: 100_000 },
    Deep { before: "", part: "[",       middle: "",  other: "",  count: 100_000 },
    Deep { before: "", part: "{\"a\":", middle: "1", other: "}", count: 100_000 },
];

#[test]
fn deep_scripts(rt: HostRuntime) -> Result<(), AllocError> {
    for deep in DEEP_SCRIPTS {
        let text = deep.text(rt.alloc())?;
        let fault = fault_of(rt.alloc(), Kind::Script, text.as_str())?;
        assert_eq!(rt; fault.as_str(), "fault 2 NotJson", "{}", deep.part);
    }
    Ok(())
}

/// Arrays, tables and names in one another, as deep as a table's bytes go.
#[rattlefmt::skip]
const DEEP_TABLES: &[Deep] = &[
    Deep { before: "modes = ", part: "[",   middle: "",     other: "]", count: 32_000 },
    Deep { before: "modes = ", part: "[",   middle: "",     other: "",  count: 65_000 },
    Deep { before: "modes = ", part: "{a=", middle: "1",    other: "}", count: 16_000 },
    Deep { before: "a",        part: ".a",  middle: " = 1", other: "",  count: 32_000 },
    Deep { before: "[a",       part: ".a",  middle: "]",    other: "",  count: 32_000 },
    Deep { before: "[[a",      part: ".a",  middle: "]]",   other: "",  count: 32_000 },
];

#[test]
fn deep_tables(rt: HostRuntime) -> Result<(), AllocError> {
    for deep in DEEP_TABLES {
        let text = deep.text(rt.alloc())?;
        tells_any(&rt, rt.alloc(), Kind::Table, text.as_str(), deep.before)?;
    }
    Ok(())
}
