//! Reports of checks that found failed cases, each with other names as the index goes on.
use super::lists::{Element, list_text};
use kr_cases::FailedCase;
use kr_model::{Cover, Mode, Origin, Requester, Row, Rule, Side};
use kr_protocol::KvlUpdate;
use kr_report::report_check;
use std::alloc::{AllocError, Global};

/// The groups of cases, and how they are printed.
const RULES: [(Rule, &str); 9] = [
    (Rule::Conversion, "G1"),
    (Rule::FetchHit, "G2"),
    (Rule::FetchMiss, "G3"),
    (Rule::ScanKey, "G4"),
    (Rule::ScanStop, "G5"),
    (Rule::Insert, "G6"),
    (Rule::Split, "G7"),
    (Rule::Delete, "G8"),
    (Rule::Update, "G9"),
];

/// The covers, and how they are printed.
const COVERS: [(Cover, &str); 5] = [
    (Cover::ReadKey, "RK"),
    (Cover::ReadGap, "RG"),
    (Cover::InsertedKey, "IK"),
    (Cover::DeletedGap, "DG"),
    (Cover::UpdatedKey, "UK"),
];

/// Places, and how they are printed before the modes.
const PLACES: [(Row, Side, &str); 7] = [
    (Row::FetchHit, Side::Current, "\"fetch-hit\",\"current\""),
    (Row::FetchMiss, Side::Next, "\"fetch-miss\",\"next\""),
    (Row::ScanKey, Side::Current, "\"scan-key\",\"current\""),
    (Row::ScanStop, Side::Next, "\"scan-stop\",\"next\""),
    (Row::Insert, Side::Current, "\"insert\",\"current\""),
    (Row::Delete, Side::Next, "\"delete\",\"next\""),
    (Row::Update, Side::Current, "\"update\",\"current\""),
];

/// Modes of key-value locking with one number beyond them, and how they are printed.
const MODES: [(Mode, &str); 7] = [
    (0, "none"),
    (1, "IS"),
    (2, "IX"),
    (3, "S"),
    (4, "SIX"),
    (5, "X"),
    (6, ""),
];

/// The group of the case at an index.
fn rule_at(i: usize) -> (Rule, &'static str) {
    RULES[i % 9]
}

/// Its cover.
fn cover_at(i: usize) -> (Cover, &'static str) {
    COVERS[i % 5]
}

/// Its place.
fn place_at(i: usize) -> (Row, Side, &'static str) {
    PLACES[i % 7]
}

/// Its mode.
fn mode_at(i: usize) -> (Mode, &'static str) {
    MODES[i % 7]
}

/// What it comes from.
fn origin_at(i: usize) -> Origin {
    let (first, _) = mode_at(i / 7);
    let (second, _) = mode_at(i);
    match i % 4 {
        1 => Origin::Conversion {
            held: first,
            asked: second,
        },
        3 => Origin::Insert {
            own_next: first,
            own: second,
        },
        _ => Origin::Own(first),
    }
}

/// The place that is open in it.
fn hole_at(i: usize) -> Requester {
    let (row, side, _) = place_at(i / 49);
    let (own, _) = mode_at(i / 7);
    let (own_next, _) = mode_at(i);
    Requester {
        row,
        side,
        own,
        own_next,
    }
}

/// The case.
fn failed_at(i: usize) -> FailedCase {
    let (case, _) = rule_at(i);
    let (cover, _) = cover_at(i);
    let (mode, _) = mode_at(i);
    FailedCase {
        case,
        cover,
        from: origin_at(i),
        mode,
        hole: hole_at(i),
    }
}

/// The cases.
fn failed(alloc: Global, count: usize) -> Result<Vec<FailedCase>, AllocError> {
    let mut failed = Vec::new(alloc);
    for i in 0..count {
        failed.push(failed_at(i))?;
    }
    Ok(failed)
}

/// The text of what the case at an index comes from.
fn origin_text(alloc: Global, i: usize) -> Result<String, AllocError> {
    let (_, own) = mode_at(i / 7);
    if i % 2 == 0 {
        format!(in alloc; "\"{own}\"")
    } else {
        let (_, mode) = mode_at(i);
        format!(in alloc; "\"{own}\",\"{mode}\"")
    }
}

/// The text of the place that is open in it.
fn hole_text(alloc: Global, i: usize) -> Result<String, AllocError> {
    let (_, _, place) = place_at(i / 49);
    let (_, own) = mode_at(i / 7);
    let (_, mode) = mode_at(i);
    format!(in alloc; "{place},\"{own}\",\"{mode}\"")
}

/// The text of the case.
pub fn case_text(alloc: Global, i: usize) -> Result<String, AllocError> {
    let from = origin_text(alloc, i)?;
    let hole = hole_text(alloc, i)?;
    let (_, case) = rule_at(i);
    let (_, cover) = cover_at(i);
    let (_, mode) = mode_at(i);
    format!(in alloc;
        "{{\"case\":\"{case}\",\"cover\":\"{cover}\",\"from\":[{from}],\"mode\":\"{mode}\",\"open\":[{hole}]}}"
    )
}

/// The text of the report.
fn report_text(alloc: Global, count: usize) -> Result<String, AllocError> {
    let cases = list_text(alloc, Element::Case, count)?;
    format!(in alloc; "{{\"accepted\":false,\"cases\":275,\"failed\":[{cases}],\"modes\":5}}")
}

/// Whether the report of a check with so many failed cases is this.
pub fn is_reported(alloc: Global, count: usize) -> Result<bool, AllocError> {
    let failed = failed(alloc, count)?;
    let report = report_check(alloc, &KvlUpdate, failed.as_slice())?;
    let text = report_text(alloc, count)?;
    Ok(report.as_str() == text.as_str())
}
