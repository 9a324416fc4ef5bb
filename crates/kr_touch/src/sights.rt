//! What an attempt finds in the index: the row and the names that it goes by, and the value of its key.
ghost use Rattle.std.specs.Prelude.{◌≡◌, Option, None, Some, IfSome, IfNone, option_map, option_copied};
ghost use Rattle.kr_model.specs.Map.{Map, get, at};
ghost use Rattle.kr_model.specs.State as model;
ghost use Rattle.kr_model.specs.Step.{name_to_look};
ghost use Rattle.kr_model.specs.declared.Name.{Name};
ghost use Rattle.kr_model.specs.declared.Name.TheVariants as name_is;
ghost use Rattle.kr_model.specs.declared.Row.TheVariants as row_is;
ghost use Rattle.kr_model.specs.declared.Step.TheVariants as attempt_is;
ghost use Rattle.kr_txn.specs.Standings.{scan_of};
ghost use Rattle.kr_touch.specs.Parts.{op_of_key, op_of_touch};
ghost use Rattle.kr_touch.specs.Attempts.{attempt_of};
ghost use Rattle.kr_touch.specs.Sights.{IsPairAt, IsSight};

use crate::parts::{KeyTouch, Touch};
use kr_model::{Row, Step};
use kr_parts::{Name, Ordered};
use kr_txn::Scan;

/// An attempt, with what it finds in the index.
#[derive(Clone, Copy)]
pub struct Sight {
    /// What is attempted.
    pub attempt: Step,
    /// The row that it goes by.
    pub row: Row,
    /// The name at its current side.
    pub current: Option<Name>,
    /// The name at its next side.
    pub next: Option<Name>,
    /// The value of its key, if that is present.
    pub value: Option<u64>,
}

/// The value of a key, if it is present, and the name at it.
fn look<I: Ordered>(index: &I, key: u64) -> (Option<u64>, Name)
    ensures value { result.0 ≡ get (I.map index.now) key }
    ensures name { result.1 ≡ at (I.map index.now) key }
{
    match index.pair_from(key) {
        Some((found, value)) => {
            if found == key {
                (Some(value), Name::Key(found))
            } else {
                (None, Name::Key(found))
            }
        }
        None => (None, Name::End),
    }
}

/// What an attempt finds at a key that is present, by a row that speaks of the key alone.
fn at_key(attempt: Step, row: Row, key: u64, value: u64) -> Sight
    ensures { result ≡ record { attempt = attempt; row = row; current = Some (name_is.Key key); next = None; value = Some value } }
{
    Sight {
        attempt,
        row,
        current: Some(Name::Key(key)),
        next: None,
        value: Some(value),
    }
}

/// What an attempt finds in the gap below a name, by the row fetch miss.
fn in_gap(attempt: Step, next: Name) -> Sight
    ensures { result ≡ record { attempt = attempt; row = row_is.FetchMiss; current = None; next = Some next; value = None } }
{
    Sight {
        attempt,
        row: Row::FetchMiss,
        current: None,
        next: Some(next),
        value: None,
    }
}

/// What is found where one key is read or changed.
fn of_key<I: Ordered>(index: &I, touch: KeyTouch) -> Sight
    ensures attempt { (c : Option model.Scan) → attempt_of (I.map index.now) c (op_of_key touch) ≡ Some result.attempt }
    ensures sight { IsSight (I.map index.now) result }
{
    match touch {
        KeyTouch::Fetch(key) => match look(index, key) {
            (Some(value), _) => at_key(Step::Fetch(key), Row::FetchHit, key, value),
            (None, next) => in_gap(Step::Fetch(key), next),
        },
        KeyTouch::Insert(key, _) => match look(index, key) {
            (Some(value), _) => at_key(Step::Insert(key), Row::FetchHit, key, value),
            (None, next) => Sight {
                attempt: Step::Insert(key),
                row: Row::Insert,
                current: Some(Name::Key(key)),
                next: Some(next),
                value: None,
            },
        },
        KeyTouch::Delete(key) => match look(index, key) {
            (Some(value), _) => Sight {
                attempt: Step::Delete(key),
                row: Row::Delete,
                current: Some(Name::Key(key)),
                next: Some(index.after(key)),
                value: Some(value),
            },
            (None, next) => in_gap(Step::Delete(key), next),
        },
        KeyTouch::Update(key, _) => match look(index, key) {
            (Some(value), _) => at_key(Step::Update(key), Row::Update, key, value),
            (None, next) => in_gap(Step::Update(key), next),
        },
    }
}

/// What a scan's step finds, by the pair that stands at its name and the upper end of the scan.
fn of_look(pair: Option<(u64, u64)>, hi: u64) -> Sight
    ensures attempt { (m : Map) (n : Name) → IsPairAt m n pair → result.attempt ≡ attempt_is.Look n hi }
    ensures sight { (m : Map) (n : Name) → IsPairAt m n pair → IsSight m result }
{
    match pair {
        Some((key, value)) => {
            let name = Name::Key(key);
            let attempt = Step::Look(name, hi);
            if key <= hi {
                return at_key(attempt, Row::ScanKey, key, value);
            }
            Sight {
                attempt,
                row: Row::ScanStop,
                current: None,
                next: Some(name),
                value: Some(value),
            }
        }
        None => Sight {
            attempt: Step::Look(Name::End, hi),
            row: Row::ScanStop,
            current: None,
            next: Some(Name::End),
            value: None,
        },
    }
}

/// The pair at the first name from a scan's lower end.
fn first_pair<I: Ordered>(index: &I, lo: u64) -> Option<(u64, u64)>
    ensures { IsPairAt (I.map index.now) (at (I.map index.now) lo) result }
{
    index.pair_from(lo)
}

/// The pair at the name that a scan in progress looks at next.
fn next_pair<I: Ordered>(index: &I, scan: &Scan) -> Option<(u64, u64)>
    ensures { IsPairAt (I.map index.now) (name_to_look (I.map index.now) (scan_of scan.now)) result }
{
    match scan.rows.last() {
        Some(row) => index.pair_after(row.0),
        None => index.pair_from(scan.lo),
    }
}

/// What is found, by the scan in progress; `None` where it is to go on with a scan and none is in progress.
#[inline(always)]
pub fn sight_of<I: Ordered>(index: &I, scan: Option<&Scan>, touch: Touch) -> Option<Sight>
    ensures none { IfNone result (attempt_of (I.map index.now) (option_map scan_of (option_copied scan.entry)) (op_of_touch touch) ≡ None) }
    ensures attempt { IfSome result (λ s. attempt_of (I.map index.now) (option_map scan_of (option_copied scan.entry)) (op_of_touch touch) ≡ Some s.attempt) }
    ensures sight { IfSome result (IsSight (I.map index.now)) }
{
    match touch {
        Touch::Key(touch) => Some(of_key(index, touch)),
        Touch::Scan(lo, hi) => Some(of_look(first_pair(index, lo), hi)),
        Touch::Go => match scan {
            Some(scan) => Some(of_look(next_pair(index, scan), scan.hi)),
            None => None,
        },
    }
}
