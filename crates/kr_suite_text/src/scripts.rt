//! The scripts of habits.
ghost use Rattle.std.specs.Prelude.{◌≡◌};
ghost use Rattle.kr_suite_text.specs.Habits.{habit_steps};

use crate::habits::Habit;
use kr_model::{Event, Op};

/// The steps of a script.
pub(crate) fn habit_steps(habit: Habit) -> &'static [Event]
    ensures { result.now ≡ habit_steps habit }
{
    match habit {
        Habit::InsertPresent => &[
            Event {
                txn: 1,
                op: Op::Insert(20, 9),
            },
            Event {
                txn: 2,
                op: Op::Delete(20),
            },
        ],
        Habit::InsertBesideReader => &[
            Event {
                txn: 1,
                op: Op::Fetch(20),
            },
            Event {
                txn: 2,
                op: Op::Insert(20, 9),
            },
        ],
        Habit::DeleteAbsent => &[
            Event {
                txn: 1,
                op: Op::Delete(15),
            },
            Event {
                txn: 2,
                op: Op::Insert(15, 9),
            },
        ],
        Habit::UpdateAbsent => &[
            Event {
                txn: 1,
                op: Op::Update(15, 9),
            },
            Event {
                txn: 2,
                op: Op::Insert(15, 9),
            },
        ],
        Habit::ScanToUpper => &[
            Event {
                txn: 1,
                op: Op::Scan(10, 20),
            },
            Event { txn: 1, op: Op::Go },
            Event {
                txn: 2,
                op: Op::Insert(15, 9),
            },
        ],
        Habit::ScanPastLast => &[
            Event {
                txn: 1,
                op: Op::Scan(20, 25),
            },
            Event { txn: 1, op: Op::Go },
            Event {
                txn: 2,
                op: Op::Insert(25, 9),
            },
        ],
        Habit::ScanToEnd => &[
            Event {
                txn: 1,
                op: Op::Scan(30, 40),
            },
            Event { txn: 1, op: Op::Go },
            Event {
                txn: 2,
                op: Op::Insert(35, 9),
            },
        ],
        Habit::DeletedStays => &[
            Event {
                txn: 1,
                op: Op::Delete(30),
            },
            Event {
                txn: 2,
                op: Op::Delete(25),
            },
        ],
        Habit::ScanLocksOn => &[
            Event {
                txn: 1,
                op: Op::Insert(15, 9),
            },
            Event {
                txn: 2,
                op: Op::Scan(10, 10),
            },
        ],
        Habit::KeyInherits => &[
            Event {
                txn: 1,
                op: Op::Insert(27, 9),
            },
            Event {
                txn: 2,
                op: Op::Insert(25, 9),
            },
            Event {
                txn: 2,
                op: Op::Fetch(25),
            },
        ],
        Habit::HolderUntested => &[
            Event {
                txn: 1,
                op: Op::Fetch(20),
            },
            Event {
                txn: 2,
                op: Op::Fetch(20),
            },
            Event {
                txn: 1,
                op: Op::Delete(20),
            },
        ],
        Habit::EndUnlocked => &[
            Event {
                txn: 1,
                op: Op::Fetch(35),
            },
            Event {
                txn: 2,
                op: Op::Insert(35, 9),
            },
        ],
        Habit::LostAtSplit => &[
            Event {
                txn: 1,
                op: Op::Insert(40, 9),
            },
            Event {
                txn: 1,
                op: Op::Insert(50, 9),
            },
            Event {
                txn: 1,
                op: Op::Insert(60, 9),
            },
            Event {
                txn: 1,
                op: Op::Insert(70, 9),
            },
            Event {
                txn: 2,
                op: Op::Fetch(40),
            },
        ],
        Habit::EndedHolds => &[
            Event {
                txn: 1,
                op: Op::Fetch(20),
            },
            Event {
                txn: 1,
                op: Op::Insert(25, 9),
            },
            Event {
                txn: 1,
                op: Op::Commit,
            },
            Event {
                txn: 2,
                op: Op::Fetch(25),
            },
            Event {
                txn: 2,
                op: Op::Delete(20),
            },
        ],
        Habit::AbortKeeps => &[
            Event {
                txn: 1,
                op: Op::Insert(25, 9),
            },
            Event {
                txn: 1,
                op: Op::Delete(20),
            },
            Event {
                txn: 1,
                op: Op::Abort,
            },
            Event {
                txn: 2,
                op: Op::Fetch(20),
            },
            Event {
                txn: 2,
                op: Op::Fetch(25),
            },
        ],
        Habit::BlindToOwn => &[
            Event {
                txn: 1,
                op: Op::Insert(25, 9),
            },
            Event {
                txn: 1,
                op: Op::Fetch(25),
            },
            Event {
                txn: 1,
                op: Op::Delete(25),
            },
            Event {
                txn: 1,
                op: Op::Fetch(25),
            },
        ],
        Habit::BackReleases => &[
            Event {
                txn: 1,
                op: Op::Insert(25, 9),
            },
            Event {
                txn: 1,
                op: Op::Back,
            },
            Event {
                txn: 2,
                op: Op::Insert(25, 9),
            },
            Event {
                txn: 2,
                op: Op::Fetch(25),
            },
        ],
        Habit::InstantReleases => &[
            Event {
                txn: 1,
                op: Op::Fetch(20),
            },
            Event {
                txn: 1,
                op: Op::Delete(20),
            },
            Event {
                txn: 1,
                op: Op::Back,
            },
            Event {
                txn: 2,
                op: Op::Update(20, 9),
            },
        ],
    }
}
