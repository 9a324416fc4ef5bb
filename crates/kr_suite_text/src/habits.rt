//! What an engine decides beside the entries of a table, each with a script by which it shows.
//!
//! The scripts begin with the keys 10, 20 and 30. The engines of tests/suite/wrong.py, each with one of these habits, answer
//! one of its steps otherwise under some bundled table.
ghost use Rattle.std.specs.Prelude.{◌≡◌};
ghost use Rattle.kr_suite_text.specs.Habits.{all_habits, habit_words, is_tried, opening};

/// A line of a table that an engine may have otherwise, or a habit that it may have.
#[derive(Clone, Copy)]
pub(crate) enum Habit {
    InsertPresent,
    InsertBesideReader,
    DeleteAbsent,
    UpdateAbsent,
    ScanToUpper,
    ScanPastLast,
    ScanToEnd,
    DeletedStays,
    ScanLocksOn,
    KeyInherits,
    HolderUntested,
    EndUnlocked,
    LostAtSplit,
    EndedHolds,
    AbortKeeps,
    BlindToOwn,
    BackReleases,
    InstantReleases,
}

/// All of them. Those whose scripts take changes back come last.
pub(crate) fn all_habits() -> &'static [Habit]
    ensures { result.now ≡ all_habits }
{
    &[
        Habit::InsertPresent,
        Habit::InsertBesideReader,
        Habit::DeleteAbsent,
        Habit::UpdateAbsent,
        Habit::ScanToUpper,
        Habit::ScanPastLast,
        Habit::ScanToEnd,
        Habit::DeletedStays,
        Habit::ScanLocksOn,
        Habit::KeyInherits,
        Habit::HolderUntested,
        Habit::EndUnlocked,
        Habit::LostAtSplit,
        Habit::EndedHolds,
        Habit::AbortKeeps,
        Habit::BlindToOwn,
        Habit::BackReleases,
        Habit::InstantReleases,
    ]
}

/// The index with which each of the scripts begins.
pub(crate) fn opening() -> &'static [(u64, u64)]
    ensures { result.now ≡ opening }
{
    &[(10, 1), (20, 2), (30, 3)]
}

/// Whether a script is tried under a table that offers updates, or offers none, and whose deleted keys stay as ghosts, or go at once.
pub(crate) fn is_tried(habit: Habit, updates: bool, leaves_ghosts: bool) -> bool
    ensures { result ≡ is_tried habit updates leaves_ghosts }
{
    match habit {
        Habit::UpdateAbsent => updates,
        Habit::InstantReleases => updates && !leaves_ghosts,
        Habit::DeletedStays => !leaves_ghosts,
        _ => true,
    }
}

/// What a script is for.
pub(crate) fn habit_words(habit: Habit) -> &'static str
    ensures { result.now ≡ habit_words habit }
{
    match habit {
        Habit::InsertPresent => "line: insert of a present key",
        Habit::InsertBesideReader => "line: insert of a present key beside a reader of it",
        Habit::DeleteAbsent => "line: delete of an absent key",
        Habit::UpdateAbsent => "line: update of an absent key",
        Habit::ScanToUpper => "line: scan that goes on to its upper key",
        Habit::ScanPastLast => "line: scan that goes on past its last key",
        Habit::ScanToEnd => "line: scan that goes on past all keys",
        Habit::DeletedStays => "habit: a deleted key stays as a name until its transaction ends",
        Habit::ScanLocksOn => "habit: a scan that ends on its upper key locks the next key too",
        Habit::KeyInherits => "habit: a new key inherits the locks on the next key",
        Habit::HolderUntested => "habit: who holds a lock on a key is tested no more there",
        Habit::EndUnlocked => "habit: no lock is taken past the greatest key",
        Habit::LostAtSplit => "habit: a lock is lost where a page splits",
        Habit::EndedHolds => "habit: a transaction that has ended holds its locks",
        Habit::AbortKeeps => "habit: an abort leaves changes",
        Habit::BlindToOwn => "habit: a transaction does not see its own changes",
        Habit::BackReleases => "habit: taking an insert back releases the lock on its key",
        Habit::InstantReleases => "habit: a lock for an instant releases the one that was held",
    }
}
