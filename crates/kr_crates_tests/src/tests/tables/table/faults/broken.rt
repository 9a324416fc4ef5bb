//! Texts that are no tables as a whole: cut, too long, or no text.

use super::{tells, told};
use kr_table::bundled::{IM, KVL, KVL_UPDATE, RANGE_KEY};
use std::alloc::{AllocError, Global};
use std::process::Abort;
use std::test::Fail;

/// A text, and what is told of it.
const TEXTS: &[(&str, &str)] = &[
    ("format = 1\nmodes = [\"IS\"", "fault 2 NotToml"),
    ("format = 1", "fault 4 Field at modes"),
    ("format = 2", "fault 4 Field at modes"),
    ("format = 3", "fault 3 Format"),
    ("", "fault 4 Field at format"),
];

#[test]
fn texts(rt: HostRuntime) -> Result<(), AllocError> {
    for (text, fault) in TEXTS {
        tells(&rt, rt.alloc(), *text, *fault)?;
    }
    Ok(())
}

/// The part that a bundled table is cut before, and what is told of what is left.
const CUTS: &[(&str, &str)] = &[
    ("format", "fault 4 Field at format"),
    ("modes", "fault 4 Field at modes"),
    ("[compatible]", "fault 4 Field at compatible"),
    ("[convert]", "fault 4 Field at convert"),
    ("[rules.fetch-hit]", "fault 4 Field at rules"),
    ("[rules.delete]", "none"),
];

/// Compares what is told of a text that is cut before each of those parts.
fn tells_of_cuts(rt: &impl Abort, alloc: Global, text: &str) -> Result<(), Fail> {
    for (part, fault) in CUTS {
        let (front, _) = text.split_once(*part).ok_or("no part")?;
        tells(rt, alloc, front, *fault)?;
    }
    Ok(())
}

#[test]
fn bundled_tables_cut(rt: HostRuntime) -> Result<(), Fail> {
    for text in [KVL, KVL_UPDATE, IM, RANGE_KEY] {
        tells_of_cuts(&rt, rt.alloc(), text)?;
    }
    Ok(())
}

/// Bytes that are no TOML: how often which byte stands there, and what is told of them.
const BYTES: &[(u32, u8, &str)] = &[
    (1, 255, "fault 2 NotToml"),
    (65_536, b'=', "fault 2 NotToml"),
    (65_537, b'=', "fault 1 TooLong"),
];

/// So many times the same byte.
fn repeated(alloc: Global, count: u32, byte: u8) -> Result<Vec<u8>, AllocError> {
    let mut bytes = Vec::new(alloc);
    for _ in 0..count {
        bytes.push(byte)?;
    }
    Ok(bytes)
}

#[test]
fn bytes(rt: HostRuntime) -> Result<(), AllocError> {
    for (count, byte, fault) in BYTES {
        let bytes = repeated(rt.alloc(), *count, *byte)?;
        let told = told(&rt, rt.alloc(), bytes.as_slice())?;
        same!(rt; told.as_str(), *fault, count);
    }
    Ok(())
}
