//! Verdicts on programs, worked out by hand over an opening index of 10, 20 and 30, with the values 1, 2 and 3.

use super::runs::THREE_PAIRS;
use super::telling::{Did, Told, reply_of};
use kr_model::{Answers, Op, Program, Programs, Txns};
use kr_serial::{Index, Ran, Replies, Triples, judge};
use kr_test_support::Answer;
use std::alloc::{AllocError, Global};
use std::process::Abort;

/// Programs in the order of their commits, and the verdict on them.
#[derive(Clone, Copy)]
struct Row<'a> {
    name: &'a str,
    programs: &'a [Did<'a>],
    told: Told<'a>,
}

/// The program that a row tells.
fn program(alloc: Global, did: &Did) -> Result<Program, AllocError> {
    let mut operations = Vec::new(alloc);
    for (op, answer) in did.operations {
        let reply = reply_of(alloc, *answer)?;
        operations.push((*op, reply))?;
    }
    Ok(Program {
        txn: did.txn,
        operations: Answers::from_vec(operations),
    })
}

/// The programs that a row tells.
fn programs(alloc: Global, all: &[Did]) -> Result<Programs, AllocError> {
    let mut programs = Vec::new(alloc);
    for did in all {
        let program = program(alloc, did)?;
        programs.push(program)?;
    }
    Ok(Programs::from_vec(programs))
}

/// A run of which nothing is known but its opening and its programs.
fn ran_of(alloc: Global, programs: Programs) -> Result<Ran, AllocError> {
    Ok(Ran {
        opening: Index::copy_of(alloc, THREE_PAIRS)?,
        replies: Replies::from_vec(Vec::new(alloc)),
        programs,
        index: Index::copy_of(alloc, &[])?,
        locks: Triples::from_vec(Vec::new(alloc)),
        unfinished: Txns::from_vec(Vec::new(alloc)),
    })
}

/// Compares the verdict of a row.
fn is_judged(rt: &impl Abort, alloc: Global, row: &Row) -> Result<(), AllocError> {
    let programs = programs(alloc, row.programs)?;
    let ran = ran_of(alloc, programs)?;
    let verdict = judge(alloc, &ran)?;
    assert!(rt; row.told.is(&verdict), "{}: {verdict:?}", row.name);
    Ok(())
}

/// A transaction that deletes 20.
const DELETES_20: Did = Did {
    txn: 2,
    operations: &[(Op::Delete(20), Answer::Deleted(2))],
};

/// Inserts and deletes of absent and present keys.
const CHANGES: Did = Did {
    txn: 5,
    operations: &[
        (Op::Insert(15, 9), Answer::Done),
        (Op::Insert(10, 8), Answer::Duplicate),
        (Op::Delete(20), Answer::Deleted(2)),
        (Op::Delete(20), Answer::Absent),
    ],
};

/// Updates of a present and of an absent key.
const UPDATES: Did = Did {
    txn: 6,
    operations: &[
        (Op::Update(20, 9), Answer::Updated(2)),
        (Op::Update(25, 8), Answer::Absent),
    ],
};

const VERDICTS: &[Row] = &[
    Row {
        name: "no program",
        programs: &[],
        told: Told::Serial,
    },
    Row {
        name: "a key that the scan has read is deleted by one who commits first",
        programs: &[
            Did {
                txn: 2,
                operations: &[(Op::Delete(10), Answer::Deleted(1))],
            },
            Did {
                txn: 1,
                operations: &[
                    (Op::Fetch(30), Answer::Found(3)),
                    (Op::Scan(10, 20), Answer::Rows(&[(10, 1), (20, 2)])),
                ],
            },
        ],
        told: Told::NotSerial {
            txn: 1,
            operation: 2,
            given: Answer::Rows(&[(10, 1), (20, 2)]),
            serial: Answer::Rows(&[(20, 2)]),
        },
    },
    Row {
        name: "a key is found, and then isn't",
        programs: &[
            DELETES_20,
            Did {
                txn: 1,
                operations: &[
                    (Op::Fetch(20), Answer::Found(2)),
                    (Op::Fetch(20), Answer::None),
                ],
            },
        ],
        told: Told::NotSerial {
            txn: 1,
            operation: 1,
            given: Answer::Found(2),
            serial: Answer::None,
        },
    },
    Row {
        name: "a scan meets a deleted key only after the delete has committed",
        programs: &[
            DELETES_20,
            Did {
                txn: 1,
                operations: &[(Op::Scan(10, 30), Answer::Rows(&[(10, 1), (30, 3)]))],
            },
        ],
        told: Told::Serial,
    },
    Row {
        name: "the phantom gets into a gap that was read and split",
        programs: &[
            Did {
                txn: 2,
                operations: &[(Op::Insert(12, 7), Answer::Done)],
            },
            Did {
                txn: 1,
                operations: &[
                    (Op::Fetch(12), Answer::None),
                    (Op::Insert(15, 5), Answer::Done),
                ],
            },
        ],
        told: Told::NotSerial {
            txn: 1,
            operation: 1,
            given: Answer::None,
            serial: Answer::Found(7),
        },
    },
    Row {
        name: "what one program changes stands for the next",
        programs: &[
            CHANGES,
            Did {
                txn: 4,
                operations: &[
                    (
                        Op::Scan(0, u64::MAX),
                        Answer::Rows(&[(10, 1), (15, 9), (30, 3)]),
                    ),
                    (Op::Scan(16, 29), Answer::Rows(&[])),
                    (Op::Fetch(15), Answer::Found(9)),
                ],
            },
        ],
        told: Told::Serial,
    },
    Row {
        name: "the next finds the value of an update, and updates and deletes from there",
        programs: &[
            UPDATES,
            Did {
                txn: 4,
                operations: &[
                    (Op::Fetch(20), Answer::Found(9)),
                    (Op::Fetch(25), Answer::None),
                    (Op::Update(20, 9), Answer::Updated(9)),
                    (Op::Update(20, 7), Answer::Updated(9)),
                    (Op::Delete(20), Answer::Deleted(7)),
                    (Op::Update(20, 1), Answer::Absent),
                    (Op::Scan(0, 30), Answer::Rows(&[(10, 1), (30, 3)])),
                ],
            },
        ],
        told: Told::Serial,
    },
    Row {
        name: "two updates of one key, each told what stood there first",
        programs: &[
            UPDATES,
            Did {
                txn: 4,
                operations: &[(Op::Update(20, 7), Answer::Updated(2))],
            },
        ],
        told: Told::NotSerial {
            txn: 4,
            operation: 1,
            given: Answer::Updated(2),
            serial: Answer::Updated(9),
        },
    },
    Row {
        name: "an update of a key that another has deleted",
        programs: &[DELETES_20, UPDATES],
        told: Told::NotSerial {
            txn: 6,
            operation: 1,
            given: Answer::Updated(2),
            serial: Answer::Absent,
        },
    },
    Row {
        name: "an update that finds no key where another has brought it",
        programs: &[
            Did {
                txn: 2,
                operations: &[(Op::Insert(25, 5), Answer::Done)],
            },
            UPDATES,
        ],
        told: Told::NotSerial {
            txn: 6,
            operation: 2,
            given: Answer::Absent,
            serial: Answer::Updated(5),
        },
    },
];

#[test]
fn verdicts(rt: HostRuntime) -> Result<(), AllocError> {
    for row in VERDICTS {
        is_judged(&rt, rt.alloc(), row)?;
    }
    Ok(())
}
