//! Tables whose deletes leave ghosts: the bundled ones, as protocols and as texts that are read and written, and one that is read, with
//! their checks.

mod changes;
mod mends;
mod safe;
mod texts;

use self::texts::{NEXT_KEY_GHOST, RANGE_GHOST, RECORD_GAP};
use super::table::likeness::are_alike;
use kr_ghost::{
    Access, Cover, FailedCase, Requester, Rule, Vain, access_words, cover_code, rule_code,
};
use kr_ghost_check::{cases, failed_cases};
use kr_ghost_protocol::{GhostProtocol, NextKeyGhost, RangeGhost, RecordGap};
use kr_ghost_table::{GhostTable, GhostTableFault, has_ghosts, read, write};
use kr_model::Origin;
use kr_protocol::{Mode, Span};
use kr_report::report_ghost_check;
use std::alloc::Global;
use std::process::Abort;
use std::test::Fail;

/// One mode, which conflicts with itself; the rows but that of an insert of a ghost stand below it.
const ONE: &str = r#"format = 3
deletes = "ghosts"
modes = ["A"]
compatible = { A = [] }
convert = { A = { A = "A" } }
purge = { A = "A" }

[rules]
fetch-hit = { current = [{ mode = "A", span = "commit" }] }
fetch-miss = { next = [{ mode = "A", span = "commit" }] }
scan-key = { current = [{ mode = "A", span = "commit" }] }
scan-stop = { next = [{ mode = "A", span = "commit" }] }
insert = { current = [{ mode = "A", span = "commit" }], next = [{ mode = "A", span = "instant" }] }
delete = { current = [{ mode = "A", span = "commit" }] }
update = { current = [{ mode = "A", span = "commit" }] }
"#;

const REVIVE: &str = "revive = { current = [{ mode = \"A\", span = \"commit\" }] }\n";

/// A protocol of which no case fails, with so many modes and cases; each row of its modes says what `ok` says.
fn is_accepted<P: GhostProtocol>(
    rt: &impl Abort,
    alloc: Global,
    protocol: &P,
    count: Mode,
    number: usize,
    report: &str,
) -> Result<(), Fail> {
    same!(rt; protocol.count(), count);
    same!(rt; cases(protocol), number);
    let failed = failed_cases(alloc, protocol)?;
    same!(rt; failed.len(), 0);
    same!(rt; report_ghost_check(alloc, protocol, failed.as_slice())?.as_str(), report);
    for requested in 0..count + 1 {
        for held in 1..count + 1 {
            let conflicts = protocol.row(requested) >> held & 1 == 1;
            same!(rt; conflicts, !protocol.ok(requested, held));
        }
    }
    Ok(())
}

#[test]
fn bundled_tables_are_accepted(rt: HostRuntime) -> Result<(), Fail> {
    let alloc = rt.alloc();
    let record_gap = r#"{"accepted":true,"cases":615,"modes":11}"#;
    is_accepted(&rt, alloc, &RecordGap, 11, 615, record_gap)?;
    let range_ghost = r#"{"accepted":true,"cases":483,"modes":11}"#;
    is_accepted(&rt, alloc, &RangeGhost, 11, 483, range_ghost)?;
    let next_key_ghost = r#"{"accepted":true,"cases":135,"modes":5}"#;
    is_accepted(&rt, alloc, &NextKeyGhost, 5, 135, next_key_ghost)?;
    is_accepted(&rt, alloc, &&NextKeyGhost, 5, 135, next_key_ghost)
}

#[test]
fn what_becomes_of_ghosts(rt: HostRuntime) -> Result<(), Fail> {
    same!(rt; RecordGap.revive(), Some((2, Span::Commit)));
    same!(rt; RangeGhost.revive(), Some((2, Span::Commit)));
    same!(rt; NextKeyGhost.revive(), Some((5, Span::Commit)));
    assert!(rt; RecordGap.inherits() && !RangeGhost.inherits() && !NextKeyGhost.inherits());
    same!(rt; RecordGap.heir(0), 0);
    same!(rt; RecordGap.heir(11), 3);
    same!(rt; RangeGhost.heir(11), 0);
    same!(rt; NextKeyGhost.heir(5), 0);
    Ok(())
}

/// The table of these texts, one behind the other.
fn table_of(rt: &impl Abort, alloc: Global, texts: &[&str]) -> Result<GhostTable, Fail> {
    let text = texts.concat(alloc)?;
    same!(rt; has_ghosts(alloc, text.as_bytes())?, true);
    match read(alloc, text.as_bytes()) {
        Ok(table) => Ok(table),
        Err(fault) => panic!(rt; "{fault}"),
    }
}

/// Whether two protocols say the same of ghosts.
pub(super) fn have_ghosts_alike<P: GhostProtocol, Q: GhostProtocol>(one: &P, other: &Q) -> bool {
    for mode in 0..one.count() + 1 {
        if mode > other.count() || one.heir(mode) != other.heir(mode) {
            return false;
        }
    }
    for vain in [Vain::InsertHit, Vain::DeleteMiss, Vain::UpdateMiss] {
        if one.vain(vain) != other.vain(vain) {
            return false;
        }
    }
    one.revive() == other.revive()
        && one.revive_next() == other.revive_next()
        && one.insert_hit_next() == other.insert_hit_next()
        && one.inherits() == other.inherits()
}

/// Reads the table that a text is, which is this protocol, writes it, and reads that back.
fn is_read_back<P: GhostProtocol>(
    rt: &impl Abort,
    alloc: Global,
    text: &str,
    protocol: &P,
) -> Result<(), Fail> {
    let table = table_of(rt, alloc, &[text])?;
    holds!(rt; are_alike(&table, protocol) && have_ghosts_alike(&table, protocol), text);
    let written = write(alloc, &table)?;
    let again = table_of(rt, alloc, &[written.as_str()])?;
    holds!(rt; are_alike(&table, &again) && have_ghosts_alike(&table, &again), text);
    Ok(())
}

#[test]
fn bundled_tables_are_read_back(rt: HostRuntime) -> Result<(), Fail> {
    let alloc = rt.alloc();
    is_read_back(&rt, alloc, RECORD_GAP, &RecordGap)?;
    is_read_back(&rt, alloc, RANGE_GHOST, &RangeGhost)?;
    is_read_back(&rt, alloc, NEXT_KEY_GHOST, &NextKeyGhost)
}

#[test]
fn a_table_is_read(rt: HostRuntime) -> Result<(), Fail> {
    let table = table_of(&rt, rt.alloc(), &[ONE, REVIVE])?;
    let report = r#"{"accepted":true,"cases":25,"modes":1}"#;
    is_accepted(&rt, rt.alloc(), &table, 1, 25, report)?;
    same!(rt; table.revive(), Some((1, Span::Commit)));
    same!(rt; table.heir(0), 0);
    same!(rt; table.heir(1), 1);
    assert!(rt; table.inherits());
    Ok(())
}

/// An insert of a ghost that requests on the next name too, and two rows of vain steps, one without a clause.
const VAIN: &str =
    r#"revive = { current = [{ mode = "A", span = "commit" }], next = [{ mode = "A", span = "instant" }] }
insert-hit = { current = [{ mode = "A", span = "instant" }] }
delete-miss = {}
"#;

#[test]
fn rows_of_vain_steps_are_read_back(rt: HostRuntime) -> Result<(), Fail> {
    let alloc = rt.alloc();
    let plain = table_of(&rt, alloc, &[ONE, REVIVE])?;
    same!(rt; plain.revive_next(), None);
    same!(rt; plain.vain(Vain::InsertHit), None);
    same!(rt; plain.vain(Vain::DeleteMiss), None);
    let table = table_of(&rt, alloc, &[ONE, VAIN])?;
    same!(rt; table.revive_next(), Some((1, Span::Instant)));
    same!(rt; table.vain(Vain::InsertHit), Some(Some((1, Span::Instant))));
    same!(rt; table.vain(Vain::DeleteMiss), Some(None));
    same!(rt; table.vain(Vain::UpdateMiss), None);
    let text = [ONE, VAIN].concat(alloc)?;
    is_read_back(&rt, alloc, text.as_str(), &table)
}

#[test]
fn an_insert_of_a_ghost_that_requests_nothing(rt: HostRuntime) -> Result<(), Fail> {
    let alloc = rt.alloc();
    let table = table_of(&rt, alloc, &[ONE])?;
    let failed = failed_cases(alloc, &table)?;
    let first = FailedCase {
        case: Rule::FetchHit,
        cover: Cover::ReadKey,
        from: Origin::Own(0),
        mode: 1,
        hole: Requester {
            access: Access::Revive,
            own: 0,
        },
    };
    same!(rt; failed.len(), 12);
    same!(rt; failed[0], first);
    same!(rt; rule_code(first.case), "G2");
    same!(rt; cover_code(first.cover), "RK");
    same!(rt; access_words(first.hole.access), ("revive", "current"));
    Ok(())
}

#[test]
fn other_texts_are_no_tables_with_ghosts(rt: HostRuntime) -> Result<(), Fail> {
    let alloc = rt.alloc();
    same!(rt; has_ghosts(alloc, b"format = 2")?, false);
    same!(rt; has_ghosts(alloc, b"format = 3")?, true);
    let text = ONE.replace(alloc, "purge = { A = \"A\" }", "purge = { A = \"B\" }")?;
    match read(alloc, text.as_bytes()) {
        Err(GhostTableFault::Purge(path)) => same!(rt; path.as_str(), "purge.A"),
        _ => panic!(rt; "another answer"),
    }
    match read(alloc, b"format = 2") {
        Err(fault) => same!(rt; format!(in alloc; "{fault}")?.as_str(), "fault 3 Format"),
        Ok(_) => panic!(rt; "another answer"),
    }
    Ok(())
}
