//! Lines of traces that deviate, and since which line the lock in the way is held.
use super::rows::{IX, Kind, Row, S, X};
use crate::tests::trace::given::Given;
use kr_model::{Name, Op};
use kr_trace_lines::Conflict;

pub(super) const SINCE_ROWS: &[Row] = &[
    Row {
        name: "a lock taken and converted later",
        lines: &[
            (1, Op::Fetch(20), Given::Found(2)),
            (1, Op::Fetch(10), Given::Found(1)),
            (1, Op::Delete(10), Given::Deleted(Some(1))),
            (2, Op::Fetch(20), Given::Found(2)),
        ],
        first: Some((
            4,
            Kind::Granted(&[Conflict {
                name: Name::Key(20),
                holder: 1,
                held: X,
                since: 3,
                asked: S,
                tested: S,
            }]),
        )),
        queued: 0,
    },
    Row {
        name: "a lock kept through other steps, and asked for again",
        lines: &[
            (1, Op::Fetch(20), Given::Found(2)),
            (1, Op::Fetch(30), Given::Found(3)),
            (1, Op::Fetch(20), Given::Found(2)),
            (2, Op::Insert(17, 5), Given::Done),
        ],
        first: Some((
            4,
            Kind::Granted(&[Conflict {
                name: Name::Key(20),
                holder: 1,
                held: S,
                since: 1,
                asked: IX,
                tested: IX,
            }]),
        )),
        queued: 0,
    },
    Row {
        name: "a lock of a scan that goes on",
        lines: &[
            (1, Op::Scan(10, 30), Given::Going(10)),
            (1, Op::Go, Given::Going(20)),
            (2, Op::Insert(17, 5), Given::Done),
        ],
        first: Some((
            3,
            Kind::Granted(&[Conflict {
                name: Name::Key(20),
                holder: 1,
                held: S,
                since: 2,
                asked: IX,
                tested: IX,
            }]),
        )),
        queued: 0,
    },
];
