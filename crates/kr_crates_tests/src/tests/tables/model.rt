use kr_model::{
    Answers, Cover, Event, FailedCase, Name, Op, Origin, Pairs, Program, Programs, Refusal, Reply,
    Requester, Row, Rule, Side, Span, Step, Txns, cover_code, refusal_number, row_number, row_word,
    rule_code, rule_number, side_number, side_word, span_word,
};
use std::alloc::{AllocError, Global};

#[test]
fn lists_are_made_of_vectors_and_give_them_back(rt: HostRuntime) -> Result<(), AllocError> {
    let pairs = Pairs::from_vec(vec![in rt.alloc(); (10, 1), (20, 2)]?);
    assert_eq!(rt; pairs.as_slice().len(), 2);
    same!(rt; pairs.as_slice()[1], (20, 2));
    let list = pairs.into_vec();
    assert_eq!(rt; list.len(), 2);
    same!(rt; list[0], (10, 1));
    let txns = Txns::from_vec(vec![in rt.alloc(); 3, 7]?);
    assert_eq!(rt; txns.as_slice().len(), 2);
    same!(rt; txns.as_slice()[0], 3);
    let list = txns.into_vec();
    same!(rt; list[1], 7);
    Ok(())
}

#[test]
fn the_end_is_past_all_keys(rt: HostRuntime) {
    assert!(rt; Name::Key(u64::MAX) < Name::End);
    assert!(rt; Name::Key(10) < Name::Key(20));
}

#[test]
fn words_compare_by_their_parts(rt: HostRuntime) {
    let event = Event {
        txn: 1,
        op: Op::Insert(15, 5),
    };
    assert!(rt;
        event
            == Event {
                txn: 1,
                op: Op::Insert(15, 5)
            }
    );
    assert!(rt;
        event
            != Event {
                txn: 2,
                op: Op::Insert(15, 5)
            }
    );
    let hole = Requester {
        row: Row::Insert,
        side: Side::Next,
        own: 0,
        own_next: 0,
    };
    let failed = FailedCase {
        case: Rule::Split,
        cover: Cover::ReadGap,
        from: Origin::Insert {
            own_next: 3,
            own: 0,
        },
        mode: 2,
        hole,
    };
    assert!(rt;
        failed
            != FailedCase {
                from: Origin::Own(3),
                ..failed
            }
    );
}

#[test]
fn words_of_updates_and_rollback_are_told_apart(rt: HostRuntime) {
    assert!(rt; Op::Update(20, 9) == Op::Update(20, 9));
    assert!(rt; Op::Update(20, 9) != Op::Update(20, 8));
    assert!(rt; Op::Update(20, 9) != Op::Insert(20, 9));
    assert!(rt; Op::Back != Op::Abort);
    assert!(rt; Step::Update(20) != Step::Delete(20));
    assert!(rt; Row::Update != Row::Delete);
    assert!(rt; Cover::UpdatedKey != Cover::InsertedKey);
    assert!(rt; Rule::Update != Rule::Delete);
    assert!(rt; Refusal::NoUpdate != Refusal::RollingBack);
    assert!(rt; Refusal::RollingBack != Refusal::NothingLeft);
}

#[test]
fn words_of_updates_and_rollback_are_shown(rt: HostRuntime) -> Result<(), AllocError> {
    let event = Event {
        txn: 1,
        op: Op::Update(20, 9),
    };
    same!(rt;
        format!(in rt.alloc(); "{event:?}")?.as_str(),
        "Event { txn: 1, op: Update(20, 9) }"
    );
    same!(rt; format!(in rt.alloc(); "{:?}", Op::Back)?.as_str(), "Back");
    same!(rt;
        format!(in rt.alloc(); "{:?}", Step::Update(20))?.as_str(),
        "Update(20)"
    );
    same!(rt;
        format!(in rt.alloc(); "{:?}", Row::Update)?.as_str(),
        "Update"
    );
    same!(rt;
        format!(in rt.alloc(); "{:?}", Cover::UpdatedKey)?.as_str(),
        "UpdatedKey"
    );
    same!(rt;
        format!(in rt.alloc(); "{:?}", Reply::Updated(2))?.as_str(),
        "Updated(2)"
    );
    same!(rt;
        format!(in rt.alloc(); "{:?}", Reply::Undone(0))?.as_str(),
        "Undone(0)"
    );
    let refused = Reply::Refused(Refusal::RollingBack);
    same!(rt;
        format!(in rt.alloc(); "{refused:?}")?.as_str(),
        "Refused(RollingBack)"
    );
    Ok(())
}

/// Two programs: a fetch and a scan of transaction 3, and nothing of transaction 9.
fn two_programs(alloc: Global) -> Result<Programs, AllocError> {
    let rows = Pairs::from_vec(vec![in alloc; (10, 1), (20, 2)]?);
    let operations = vec![in alloc;
        (Op::Fetch(5), Reply::None),
        (Op::Scan(10, 20), Reply::Rows(rows)),
    ]?;
    let first = Program {
        txn: 3,
        operations: Answers::from_vec(operations),
    };
    let second = Program {
        txn: 9,
        operations: Answers::from_vec(Vec::new(alloc)),
    };
    Ok(Programs::from_vec(vec![in alloc; first, second]?))
}

#[test]
fn programs_are_copied_whole(rt: HostRuntime) -> Result<(), AllocError> {
    let programs = two_programs(rt.alloc())?;
    let copy = programs.try_copy(rt.alloc())?;
    same!(rt; programs.as_slice().len(), 2);
    let list = copy.into_vec();
    assert_eq!(rt; list.len(), 2);
    same!(rt; list[0].txn, 3);
    same!(rt; list[1].txn, 9);
    let first = list[0].try_copy(rt.alloc())?;
    let operations = first.operations.try_copy(rt.alloc())?;
    assert_eq!(rt; operations.as_slice().len(), 2);
    let answers = operations.into_vec();
    assert!(rt; answers[0].0 == Op::Fetch(5));
    assert!(rt; matches!(&answers[0].1, Reply::None));
    match &answers[1].1 {
        Reply::Rows(rows) => same!(rt; rows.as_slice(), [(10, 1), (20, 2)].as_slice()),
        _ => panic!(rt; "no rows"),
    }
    Ok(())
}

#[test]
fn replies_are_copied_whole(rt: HostRuntime) -> Result<(), AllocError> {
    let txns = Txns::from_vec(vec![in rt.alloc(); 3, 7]?);
    let copy = txns.try_copy(rt.alloc())?;
    same!(rt; copy.as_slice(), [3, 7].as_slice());
    let pairs = Pairs::from_vec(vec![in rt.alloc(); (1, 2)]?);
    same!(rt; pairs.try_copy(rt.alloc())?.as_slice(), [(1, 2)].as_slice());
    match Reply::Blocked(copy).try_copy(rt.alloc())? {
        Reply::Blocked(by) => same!(rt; by.as_slice(), [3, 7].as_slice()),
        _ => panic!(rt; "not blocked"),
    }
    assert!(rt; matches!(Reply::Updated(2).try_copy(rt.alloc())?, Reply::Updated(2)));
    assert!(rt; matches!(Reply::Undone(3).try_copy(rt.alloc())?, Reply::Undone(3)));
    Ok(())
}

#[test]
fn words_are_those_of_tables_and_reports(rt: HostRuntime) {
    assert_eq!(rt; row_word(Row::FetchHit), "fetch-hit");
    assert_eq!(rt; row_word(Row::FetchMiss), "fetch-miss");
    assert_eq!(rt; row_word(Row::ScanKey), "scan-key");
    assert_eq!(rt; row_word(Row::ScanStop), "scan-stop");
    assert_eq!(rt; row_word(Row::Insert), "insert");
    assert_eq!(rt; row_word(Row::Delete), "delete");
    assert_eq!(rt; row_word(Row::Update), "update");
    assert_eq!(rt; row_number(Row::FetchHit), 0);
    assert_eq!(rt; row_number(Row::Update), 6);
    assert_eq!(rt; side_number(Side::Current), 0);
    assert_eq!(rt; side_number(Side::Next), 1);
    assert_eq!(rt; side_word(Side::Current), "current");
    assert_eq!(rt; side_word(Side::Next), "next");
    assert_eq!(rt; span_word(Span::Instant), "instant");
    assert_eq!(rt; span_word(Span::Commit), "commit");
    assert_eq!(rt; rule_code(Rule::Conversion), "G1");
    assert_eq!(rt; rule_code(Rule::Update), "G9");
    assert_eq!(rt; rule_number(Rule::Split), 7);
    assert_eq!(rt; refusal_number(Refusal::Ended), 1);
    assert_eq!(rt; refusal_number(Refusal::NothingLeft), 9);
    assert_eq!(rt; cover_code(Cover::ReadKey), "RK");
    assert_eq!(rt; cover_code(Cover::UpdatedKey), "UK");
}
