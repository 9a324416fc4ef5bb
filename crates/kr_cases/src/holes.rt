//! The first requester that each mode lets through, of those that a cover must keep out.
ghost use Rattle.std.specs.Prelude.{◌≡◌, ◌≤◌, filter, map};
ghost use Rattle.kr_model.specs.declared.Side.TheVariants as side;
ghost use Rattle.kr_model.specs.Covers.{must_conflict, requester, requesters_at, modes_or_none, is_open};
ghost use Rattle.kr_model.specs.Firsts.{first};
ghost use Rattle.kr_cases.specs.Holes.{first_open, AreFirst, AreHoles};

use kr_model::{Cover, Mode, Requester, Row, Side};
use kr_protocol::{Protocol, is_open};

/// What a lock that has the cover must conflict with, in order: no other transaction may be granted it. What an update asks
/// for is there exactly where the protocol offers updates.
pub fn must_conflict<P: Protocol>(protocol: &P, cover: Cover) -> &'static [(Row, Side)]
    ensures { result.now ≡ must_conflict (P.table protocol.now) cover }
{
    let updates = protocol.updates();
    match cover {
        Cover::ReadKey if updates => &[(Row::Delete, Side::Current), (Row::Update, Side::Current)],
        Cover::ReadKey => &[(Row::Delete, Side::Current)],
        Cover::ReadGap => &[(Row::Insert, Side::Next), (Row::Delete, Side::Current)],
        Cover::InsertedKey if updates => &[
            (Row::FetchHit, Side::Current),
            (Row::FetchMiss, Side::Next),
            (Row::ScanKey, Side::Current),
            (Row::ScanStop, Side::Next),
            (Row::Delete, Side::Current),
            (Row::Delete, Side::Next),
            (Row::Update, Side::Current),
        ],
        Cover::InsertedKey => &[
            (Row::FetchHit, Side::Current),
            (Row::FetchMiss, Side::Next),
            (Row::ScanKey, Side::Current),
            (Row::ScanStop, Side::Next),
            (Row::Delete, Side::Current),
            (Row::Delete, Side::Next),
        ],
        Cover::DeletedGap => &[
            (Row::FetchMiss, Side::Next),
            (Row::ScanKey, Side::Current),
            (Row::ScanStop, Side::Next),
            (Row::Insert, Side::Next),
            (Row::Delete, Side::Current),
            (Row::Delete, Side::Next),
        ],
        Cover::UpdatedKey if updates => &[
            (Row::FetchHit, Side::Current),
            (Row::ScanKey, Side::Current),
            (Row::Delete, Side::Current),
            (Row::Update, Side::Current),
        ],
        Cover::UpdatedKey => &[],
    }
}

/// The first requester on the next name that gets through, by its own mode there.
fn first_next<P: Protocol>(protocol: &P, held: Mode, row: Row) -> Option<Requester>
    requires { held ≤ (P.table protocol.now).count }
    ensures { result ≡ first (filter (is_open (P.table protocol.now) held) (requesters_at (P.table protocol.now) (row, side.Next))) }
{
    for own in 0..protocol.count() + 1 {
        let requester = Requester {
            row,
            side: Side::Next,
            own,
            own_next: own,
        };
        if is_open(protocol, held, requester) {
            return Some(requester);
        }
    }
    None
}

/// The first requester on the current name with `own` there that gets through, by its own mode on the next name.
fn first_holding<P: Protocol>(protocol: &P, held: Mode, row: Row, own: Mode) -> Option<Requester>
    requires held { held ≤ (P.table protocol.now).count }
    requires own { own ≤ (P.table protocol.now).count }
    ensures { result ≡ first (filter (is_open (P.table protocol.now) held)
        (map (λ n. requester (row, side.Current) own n) (modes_or_none (P.table protocol.now)))) }
{
    for own_next in 0..protocol.count() + 1 {
        let requester = Requester {
            row,
            side: Side::Current,
            own,
            own_next,
        };
        if is_open(protocol, held, requester) {
            return Some(requester);
        }
    }
    None
}

/// The first requester on the current name that gets through, by its own modes there and on the next name.
fn first_current<P: Protocol>(protocol: &P, held: Mode, row: Row) -> Option<Requester>
    requires { held ≤ (P.table protocol.now).count }
    ensures { result ≡ first (filter (is_open (P.table protocol.now) held) (requesters_at (P.table protocol.now) (row, side.Current))) }
{
    for own in 0..protocol.count() + 1 {
        if let Some(requester) = first_holding(protocol, held, row, own) {
            return Some(requester);
        }
    }
    None
}

/// The first requester at a row and side that gets through, by its own modes.
fn first_at<P: Protocol>(protocol: &P, held: Mode, ask: (Row, Side)) -> Option<Requester>
    requires { held ≤ (P.table protocol.now).count }
    ensures { result ≡ first (filter (is_open (P.table protocol.now) held) (requesters_at (P.table protocol.now) ask)) }
{
    match ask {
        (row, Side::Current) => first_current(protocol, held, row),
        (row, Side::Next) => first_next(protocol, held, row),
    }
}

/// The first requester that a lock in mode `held` lets through, of those that the cover must conflict with, in the order of
/// `must_conflict`, by the requester's own modes. `held` is 0, for no lock, to the number of modes. Takes no memory.
pub fn first_open<P: Protocol>(protocol: &P, cover: Cover, held: Mode) -> Option<Requester>
    requires { held ≤ (P.table protocol.now).count }
    ensures { result ≡ first_open (P.table protocol.now) cover held }
{
    for ask in must_conflict(protocol, cover) {
        if let Some(requester) = first_at(protocol, held, *ask) {
            return Some(requester);
        }
    }
    None
}

/// The first requester that each mode lets through, of those that a cover must conflict with; by mode, from 0 on.
fn row_of<P: Protocol>(protocol: &P, cover: Cover) -> [Option<Requester>; 16]
    ensures { AreFirst (P.table protocol.now) cover result }
{
    let mut row = [None; 16];
    for held in 0..protocol.count() + 1 {
        row[held as usize] = first_open(protocol, cover, held);
    }
    row
}

/// The same of each cover.
#[derive(Drop)]
pub(crate) struct Holes {
    pub(crate) read_key: [Option<Requester>; 16],
    pub(crate) read_gap: [Option<Requester>; 16],
    pub(crate) inserted_key: [Option<Requester>; 16],
    pub(crate) deleted_gap: [Option<Requester>; 16],
    pub(crate) updated_key: [Option<Requester>; 16],
}

/// What the modes of a protocol leave open. Takes no memory.
pub(crate) fn holes_of<P: Protocol>(protocol: &P) -> Holes
    ensures { AreHoles (P.table protocol.now) result }
{
    Holes {
        read_key: row_of(protocol, Cover::ReadKey),
        read_gap: row_of(protocol, Cover::ReadGap),
        inserted_key: row_of(protocol, Cover::InsertedKey),
        deleted_gap: row_of(protocol, Cover::DeletedGap),
        updated_key: row_of(protocol, Cover::UpdatedKey),
    }
}
