//! Lines of traces, and where they deviate.
use crate::tests::trace::given::Given;
use kr_model::{Name, Op, Refusal, Txn};
use kr_trace_lines::{Conflict, DeviationKind};

/// How a line deviates.
#[derive(Clone, Copy, Debug)]
pub(super) enum Kind<'a> {
    Granted(&'a [Conflict]),
    Blocked,
    Blockers(&'a [Txn], &'a [Txn]),
    Answer,
    Refused(Refusal),
}

impl Kind<'_> {
    /// Whether a deviation is of this kind.
    pub(super) fn is(self, kind: &DeviationKind) -> bool {
        match (self, kind) {
            (Kind::Granted(wanted), DeviationKind::Granted { conflicts, .. }) => {
                conflicts.as_slice() == wanted
            }
            (Kind::Blocked, DeviationKind::Blocked(_)) => true,
            (Kind::Blockers(named, table), DeviationKind::Blockers { misnamed, blockers }) => {
                misnamed.as_slice() == named && blockers.as_slice() == table
            }
            (Kind::Answer, DeviationKind::Answer(_)) => true,
            (Kind::Refused(wanted), DeviationKind::Refused(refusal)) => *refusal == wanted,
            (_, _) => false,
        }
    }
}

/// Lines with the first that deviates, its number from 1, if one does, and with how many are queued.
pub(super) struct Row<'a> {
    pub(super) name: &'a str,
    pub(super) lines: &'a [(Txn, Op, Given<'a>)],
    pub(super) first: Option<(u64, Kind<'a>)>,
    pub(super) queued: u64,
}

pub(super) const S: u8 = 3;

pub(super) const IX: u8 = 2;

pub(super) const X: u8 = 5;

pub(super) const ROWS: &[Row] = &[
    Row {
        name: "an insert past a reader of the gap",
        lines: &[
            (1, Op::Fetch(17), Given::None),
            (2, Op::Insert(17, 5), Given::Done),
        ],
        first: Some((
            2,
            Kind::Granted(&[Conflict {
                name: Name::Key(20),
                holder: 1,
                held: S,
                since: 1,
                asked: IX,
                tested: IX,
            }]),
        )),
        queued: 0,
    },
    Row {
        name: "the same blocked, and granted later",
        lines: &[
            (1, Op::Fetch(17), Given::None),
            (2, Op::Insert(17, 5), Given::Blocked(&[1])),
            (1, Op::Commit, Given::Committed),
            (2, Op::Insert(17, 5), Given::Done),
            (2, Op::Commit, Given::Committed),
        ],
        first: None,
        queued: 0,
    },
    Row {
        name: "by one that doesn't stand in the way",
        lines: &[
            (1, Op::Fetch(17), Given::None),
            (2, Op::Insert(17, 5), Given::Blocked(&[1, 3])),
        ],
        first: Some((2, Kind::Blockers(&[3], &[1]))),
        queued: 0,
    },
    Row {
        name: "two readers",
        lines: &[
            (1, Op::Fetch(20), Given::Found(2)),
            (2, Op::Fetch(20), Given::Blocked(&[])),
            (2, Op::Fetch(20), Given::Done),
        ],
        first: Some((2, Kind::Blocked)),
        queued: 0,
    },
    Row {
        name: "another answer",
        lines: &[
            (1, Op::Delete(20), Given::Deleted(None)),
            (1, Op::Fetch(30), Given::Found(4)),
        ],
        first: Some((2, Kind::Answer)),
        queued: 0,
    },
    Row {
        name: "a victim of a deadlock",
        lines: &[
            (1, Op::Insert(17, 5), Given::Done),
            (1, Op::Fetch(20), Given::Aborted),
            (2, Op::Fetch(17), Given::None),
            (1, Op::Fetch(20), Given::Found(2)),
        ],
        first: Some((4, Kind::Refused(Refusal::Ended))),
        queued: 0,
    },
    Row {
        name: "a scan given step by step",
        lines: &[
            (1, Op::Scan(10, 20), Given::Going(10)),
            (2, Op::Delete(20), Given::Deleted(Some(2))),
            (1, Op::Go, Given::Rows(&[(10, 1)])),
        ],
        first: Some((
            3,
            Kind::Granted(&[Conflict {
                name: Name::Key(30),
                holder: 2,
                held: X,
                since: 2,
                asked: S,
                tested: S,
            }]),
        )),
        queued: 0,
    },
    Row {
        name: "a scan given whole",
        lines: &[
            (
                1,
                Op::Scan(10, 30),
                Given::Rows(&[(10, 1), (20, 2), (30, 3)]),
            ),
            (1, Op::Fetch(10), Given::Found(1)),
        ],
        first: None,
        queued: 0,
    },
    Row {
        name: "a scan blocked on its way, and attempted again",
        lines: &[
            (2, Op::Insert(25, 9), Given::Done),
            (1, Op::Scan(10, 30), Given::Blocked(&[2])),
            (2, Op::Insert(15, 9), Given::Done),
            (2, Op::Commit, Given::Committed),
            (
                1,
                Op::Scan(10, 30),
                Given::Rows(&[(10, 1), (20, 2), (25, 9), (30, 3)]),
            ),
        ],
        first: Some((
            3,
            Kind::Granted(&[Conflict {
                name: Name::Key(20),
                holder: 1,
                held: S,
                since: 2,
                asked: IX,
                tested: IX,
            }]),
        )),
        queued: 0,
    },
    Row {
        name: "the same, with nothing in between",
        lines: &[
            (2, Op::Insert(25, 9), Given::Done),
            (1, Op::Scan(10, 30), Given::Blocked(&[2])),
            (2, Op::Commit, Given::Committed),
            (
                1,
                Op::Scan(10, 30),
                Given::Rows(&[(10, 1), (20, 2), (25, 9), (30, 3)]),
            ),
            (1, Op::Commit, Given::Committed),
        ],
        first: None,
        queued: 0,
    },
    Row {
        name: "a reader behind a writer who waits",
        lines: &[
            (1, Op::Fetch(20), Given::Found(2)),
            (2, Op::Delete(20), Given::Blocked(&[1])),
            (3, Op::Fetch(20), Given::Blocked(&[2])),
            (1, Op::Commit, Given::Committed),
            (2, Op::Delete(20), Given::Deleted(Some(2))),
            (2, Op::Commit, Given::Committed),
            (3, Op::Fetch(20), Given::None),
        ],
        first: None,
        queued: 1,
    },
    Row {
        name: "a reader that passes a writer who waits",
        lines: &[
            (1, Op::Fetch(20), Given::Found(2)),
            (2, Op::Delete(20), Given::Blocked(&[1])),
            (3, Op::Fetch(20), Given::Found(2)),
        ],
        first: None,
        queued: 0,
    },
    Row {
        name: "a reader behind one who doesn't wait",
        lines: &[
            (1, Op::Fetch(20), Given::Found(2)),
            (2, Op::Delete(20), Given::Blocked(&[1])),
            (3, Op::Fetch(20), Given::Blocked(&[2, 7])),
        ],
        first: Some((3, Kind::Blockers(&[7], &[]))),
        queued: 1,
    },
    Row {
        name: "a writer blocked by a reader, and behind a writer",
        lines: &[
            (1, Op::Fetch(20), Given::Found(2)),
            (2, Op::Delete(20), Given::Blocked(&[1])),
            (3, Op::Delete(20), Given::Blocked(&[1, 2])),
        ],
        first: None,
        queued: 0,
    },
    Row {
        name: "a reader behind a writer who has given up",
        lines: &[
            (1, Op::Fetch(20), Given::Found(2)),
            (2, Op::Delete(20), Given::Blocked(&[1])),
            (2, Op::Delete(20), Given::Aborted),
            (3, Op::Fetch(20), Given::Blocked(&[2])),
        ],
        first: Some((4, Kind::Blocked)),
        queued: 0,
    },
    Row {
        name: "a reader behind a writer who goes on with something else",
        lines: &[
            (1, Op::Fetch(20), Given::Found(2)),
            (2, Op::Delete(20), Given::Blocked(&[1])),
            (2, Op::Fetch(10), Given::Found(1)),
            (3, Op::Fetch(20), Given::Blocked(&[])),
        ],
        first: Some((4, Kind::Blocked)),
        queued: 0,
    },
    Row {
        name: "a scan that comes to wait behind a writer",
        lines: &[
            (1, Op::Fetch(20), Given::Found(2)),
            (2, Op::Delete(20), Given::Blocked(&[1])),
            (3, Op::Scan(10, 20), Given::Blocked(&[2])),
            (4, Op::Delete(10), Given::Done),
        ],
        first: Some((
            4,
            Kind::Granted(&[
                Conflict {
                    name: Name::Key(10),
                    holder: 3,
                    held: S,
                    since: 3,
                    asked: X,
                    tested: X,
                },
                Conflict {
                    name: Name::Key(20),
                    holder: 1,
                    held: S,
                    since: 1,
                    asked: X,
                    tested: X,
                },
            ]),
        )),
        queued: 1,
    },
];
