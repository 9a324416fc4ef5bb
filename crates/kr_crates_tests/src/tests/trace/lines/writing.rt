//! The line of a step, and the lines that are printed.
use crate::tests::trace::lines::reading::{LINES, given};
use kr_model::{Event, Items, Name, Op, Reply};
use kr_protocol::Kvl;
use kr_trace_lines::{
    Conflict, Deviation, DeviationKind, Line, Observed, TraceVerdict, read_line, write_judged,
    write_line, write_part,
};
use std::alloc::{AllocError, Global};
use std::test::Fail;

/// What the lines that are steps read as is written so that it reads as the same.
#[test]
fn steps_read_back(rt: HostRuntime) -> Result<(), Fail> {
    let alloc = rt.alloc();
    for (line, expected) in LINES {
        let Ok(Line::Step(event, observed)) = read_line(alloc, line.as_bytes()) else {
            continue;
        };
        let written = write_line(alloc, event, &observed)?;
        let found = given(alloc, written.as_str())?;
        assert_eq!(rt; found.as_str(), *expected, "{line}");
    }
    Ok(())
}

#[test]
fn steps_are_written(rt: HostRuntime) -> Result<(), Fail> {
    let alloc = rt.alloc();
    let rows = Items::from_vec(vec![in alloc; (1, 2), (3, 4)]?);
    let scan = Event {
        txn: 7,
        op: Op::Scan(1, 9),
    };
    let line = write_line(alloc, scan, &Observed::Rows(rows))?;
    assert_eq!(rt; line.as_str(), r#"[[7,"scan",1,9],["rows",[[1,2],[3,4]]]]"#);
    Ok(())
}

/// A deviation with two locks in the way.
fn granted(alloc: Global) -> Result<Deviation, AllocError> {
    let conflict = Conflict {
        name: Name::Key(20),
        holder: 1,
        held: 2,
        since: 12,
        asked: 3,
        tested: 3,
    };
    let at_end = Conflict {
        name: Name::End,
        ..conflict
    };
    let kind = DeviationKind::Granted {
        blockers: Items::from_vec(vec![in alloc; 1]?),
        conflicts: Items::from_vec(vec![in alloc; conflict, at_end]?),
    };
    Ok(Deviation { line: 3, kind })
}

#[test]
fn a_part_that_differs_is_written(rt: HostRuntime) -> Result<(), Fail> {
    let alloc = rt.alloc();
    let deviation = granted(alloc)?;
    let tests = vec![in alloc; String::from_str(alloc, "a \"b\"")?]?;
    let verdict = TraceVerdict::NotSerial {
        txn: 1,
        operation: 1,
        given: Observed::None,
        serial: Reply::Found(5),
    };
    let differs = Some(&deviation);
    let line = write_part(alloc, &Kvl, 1, differs, 0, tests.as_slice(), &verdict)?;
    assert_eq!(rt;
        line.as_str(),
        r#"{"conforms":["granted",3,["blocked",[1]],[[20,1,"IX",12,"S","S"],["End",1,"IX",12,"S","S"]]],"part":1,"queued":0,"tests":["a \"b\""],"verdict":["not-serial",1,1,["none"],["found",5]]}"#
    );
    Ok(())
}

#[test]
fn a_part_that_conforms_is_written(rt: HostRuntime) -> Result<(), Fail> {
    let alloc = rt.alloc();
    let tests = vec![in alloc; String::from_str(alloc, "a")?]?;
    let verdict = TraceVerdict::Serial;
    let line = write_part(alloc, &Kvl, 2, None, 3, tests.as_slice(), &verdict)?;
    assert_eq!(rt;
        line.as_str(),
        r#"{"conforms":["yes"],"part":2,"queued":3,"verdict":["serial"]}"#
    );
    Ok(())
}

#[test]
fn a_judged_part_is_written(rt: HostRuntime) -> Result<(), Fail> {
    let alloc = rt.alloc();
    let order = TraceVerdict::SerialInOrder(Items::from_vec(vec![in alloc; 2, 1]?));
    let line = write_judged(alloc, 7, &order)?;
    assert_eq!(rt; line.as_str(), r#"{"part":7,"verdict":["serial",[2,1]]}"#);
    Ok(())
}
