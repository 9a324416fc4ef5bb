//! What schedules reach under a protocol, and where a lock doesn't block what it has to keep out.
ghost use Rattle.std.specs.Prelude.{◌≡◌, ◌+◌, ◌≤◌, ◌↔◌, IsTrue, IfOk, IfSome, IfNone, length, slice_index_or, false};
ghost use Rattle.std.specs.List.{Any};
ghost use Rattle.kr_decide.specs.Findings.{IsFound, IsGoing};
ghost use Rattle.kr_decide.specs.Opens.{IsHeldBy, IsHoledIn, AreHeld, AreHoled, IsOpenedAt, NoneOpens};
ghost use Rattle.kr_decide.specs.Survey.{IsHole, IsSurvey, AreHoles, of_cover, told, is_held, has_hole, is_tested, is_asked, is_safe};

use crate::finding::Found;
use crate::met::Met;
use crate::opening::{Opening, protects};
use crate::pair::{Hole, Pair};
use kr_model::{Cover, Memory, Mode};
use kr_protocol::Protocol;
use std::alloc::Global;

/// What schedules reach under a protocol: with which modes a transaction can protect what it has done, and where its lock
/// lets in what it has to keep out.
#[derive(Drop)]
pub struct Survey {
    held: ByCover,
    holed: ByCover,
    met: Met,
    hole: Option<Hole>,
}

/// Of each mode, 0 for no lock among them, whether something is so of it, by the cover.
#[derive(Drop)]
struct ByCover {
    read_key: Vec<bool>,
    read_gap: Vec<bool>,
    inserted_key: Vec<bool>,
    deleted_gap: Vec<bool>,
    updated_key: Vec<bool>,
}

impl ByCover {
    /// Of the modes, by a cover.
    fn of(&self, cover: Cover) -> &[bool]
        ensures { result.now ≡ of_cover self.now cover }
    {
        match cover {
            Cover::ReadKey => self.read_key.as_slice(),
            Cover::ReadGap => self.read_gap.as_slice(),
            Cover::InsertedKey => self.inserted_key.as_slice(),
            Cover::DeletedGap => self.deleted_gap.as_slice(),
            Cover::UpdatedKey => self.updated_key.as_slice(),
        }
    }

    /// Of a mode. A number past the modes is none.
    fn tells(&self, cover: Cover, mode: Mode) -> bool
        ensures { result ≡ told self.now cover mode }
    {
        let modes = self.of(cover);
        let mode = mode as usize;
        if mode < modes.len() {
            modes[mode]
        } else {
            false
        }
    }
}

impl Survey {
    /// Finds what schedules reach under a protocol: all pairs of lock states that two transactions can have on one name, from
    /// nothing held, and of each whether the lock of one blocks what it has to keep out of what the other can come to
    /// request. The only fault is that a growth was refused.
    pub fn of<P: Protocol>(alloc: Global, protocol: &P) -> Result<Survey, Memory>
        ensures { IfOk result (IsSurvey (P.table protocol.now)) }
    {
        let found = Found::all(alloc, protocol)?;
        let count = protocol.count();
        let held = held(alloc, &found.pairs, count)?;
        let holed = holed(alloc, protocol, &found, count)?;
        let met = Met::of(alloc, protocol, &found)?;
        let hole = first_hole(protocol, found);
        Ok(Survey {
            held,
            holed,
            met,
            hole,
        })
    }

    /// Whether the protocol is safe: no lock lets in what it has to keep out, and so every run under the protocol is
    /// serializable in commit order. Where it isn't, some run may still not go wrong: the lock states that two transactions
    /// can have are found from one name and the next one, and no more.
    pub fn is_safe(&self) -> bool
        ensures { result ≡ is_safe self.now }
    {
        let hole = &self.hole;
        hole.is_none()
    }

    /// Whether some transaction can hold the mode on a name while its lock there has the cover to protect.
    pub fn is_held(&self, cover: Cover, mode: Mode) -> bool
        ensures { result ≡ is_held self.now cover mode }
    {
        self.held.tells(cover, mode)
    }

    /// Whether another transaction can be granted there what the lock has to keep out for the sake of the cover.
    pub fn has_hole(&self, cover: Cover, mode: Mode) -> bool
        ensures { result ≡ has_hole self.now cover mode }
    {
        self.holed.tells(cover, mode)
    }

    /// Whether some schedule may bring a request that is tested in the converted mode beside another transaction's lock in
    /// the held mode, on the same name.
    pub fn is_tested(&self, converted: Mode, held: Mode) -> bool
        ensures { result ≡ is_tested self.now converted held }
    {
        self.met.is_tested(converted, held)
    }

    /// Whether some transaction that holds a mode on a name, 0 for no lock, may come to request another there.
    pub fn is_asked(&self, held: Mode, asked: Mode) -> bool
        ensures { result ≡ is_asked self.now held asked }
    {
        self.met.is_asked(held, asked)
    }

    /// The first hole that was found; or `None` exactly where the protocol is safe.
    pub fn into_hole(self) -> Option<Hole>
        ensures { result ≡ self.hole }
    {
        self.hole
    }
}

/// Whether the second of a pair holds the mode, and has the cover to protect.
fn is_held_by(pair: &Pair, cover: Cover, mode: Mode) -> bool
    ensures { IsTrue result ↔ IsHeldBy cover mode pair.now }
{
    pair.other.mode == mode && protects(pair.other, cover)
}

/// Whether the second of some pair does.
fn is_held_in(pairs: &[Pair], cover: Cover, mode: Mode) -> bool
    ensures { IsTrue result ↔ Any (IsHeldBy cover mode) pairs.now }
{
    pairs.iter().any(|pair| is_held_by(pair, cover, mode))
}

/// Whether the second of some pair that opens does.
fn is_holed_in(pairs: &[Pair], opens: &[bool], cover: Cover, mode: Mode) -> bool
    requires { length opens.now ≡ length pairs.now }
    ensures { IsTrue result ↔ IsHoledIn pairs.now opens.now cover mode }
{
    for at in 0..pairs.len() {
        if opens[at] && is_held_by(&pairs[at], cover, mode) {
            return true;
        }
    }
    false
}

/// Of each mode up to `count`, whether it can be held with a cover to protect.
fn held_of(alloc: Global, pairs: &[Pair], cover: Cover, count: Mode) -> Result<Vec<bool>, Memory>
    requires { count ≤ 15 }
    ensures { IfOk result (λ list. AreHeld pairs.now cover (count + 1) list.items) }
{
    let mut list = Vec::new(alloc);
    for mode in 0..count + 1 {
        list.push(is_held_in(pairs, cover, mode))?;
    }
    Ok(list)
}

/// Of each mode up to `count`, whether the second of some pair that opens holds it, and has the cover to protect.
fn holed_in(
    alloc: Global,
    pairs: &[Pair],
    opens: &[bool],
    cover: Cover,
    count: Mode,
) -> Result<Vec<bool>, Memory>
    requires count { count ≤ 15 }
    requires opens { length opens.now ≡ length pairs.now }
    ensures { IfOk result (λ list. AreHoled pairs.now opens.now cover (count + 1) list.items) }
{
    let mut list = Vec::new(alloc);
    for mode in 0..count + 1 {
        list.push(is_holed_in(pairs, opens, cover, mode))?;
    }
    Ok(list)
}

/// Of each mode up to `count`, whether its lock lets in what it has to keep out for the sake of a cover.
fn holed_of<P: Protocol>(
    alloc: Global,
    protocol: &P,
    found: &Found,
    cover: Cover,
    count: Mode,
) -> Result<Vec<bool>, Memory>
    requires count { count ≤ 15 }
    requires going { IsGoing (P.table protocol.now) found.now (length found.now.pairs.items) }
    ensures { IfOk result (λ list. AreHoles (P.table protocol.now) cover (count + 1) list.items) }
{
    let opens = found.openings(alloc, protocol, cover)?;
    let list = holed_in(alloc, &found.pairs, &opens, cover, count)?;
    Ok(list)
}

/// Of each cover and mode, whether it can be held.
fn held(alloc: Global, pairs: &[Pair], count: Mode) -> Result<ByCover, Memory>
    requires { count ≤ 15 }
    ensures { IfOk result (λ t. (c : Cover) → AreHeld pairs.now c (count + 1) (of_cover t c)) }
{
    Ok(ByCover {
        read_key: held_of(alloc, pairs, Cover::ReadKey, count)?,
        read_gap: held_of(alloc, pairs, Cover::ReadGap, count)?,
        inserted_key: held_of(alloc, pairs, Cover::InsertedKey, count)?,
        deleted_gap: held_of(alloc, pairs, Cover::DeletedGap, count)?,
        updated_key: held_of(alloc, pairs, Cover::UpdatedKey, count)?,
    })
}

/// Of each cover and mode, whether it lets in what it has to keep out for the sake of the cover.
fn holed<P: Protocol>(
    alloc: Global,
    protocol: &P,
    found: &Found,
    count: Mode,
) -> Result<ByCover, Memory>
    requires count { count ≤ 15 }
    requires going { IsGoing (P.table protocol.now) found.now (length found.now.pairs.items) }
    ensures { IfOk result (λ t. (c : Cover) → AreHoles (P.table protocol.now) c (count + 1) (of_cover t c)) }
{
    Ok(ByCover {
        read_key: holed_of(alloc, protocol, found, Cover::ReadKey, count)?,
        read_gap: holed_of(alloc, protocol, found, Cover::ReadGap, count)?,
        inserted_key: holed_of(alloc, protocol, found, Cover::InsertedKey, count)?,
        deleted_gap: holed_of(alloc, protocol, found, Cover::DeletedGap, count)?,
        updated_key: holed_of(alloc, protocol, found, Cover::UpdatedKey, count)?,
    })
}

/// The hole at a place, with the pairs that lead there.
pub(crate) fn hole_of<P: Protocol>(protocol: &P, found: Found, at: usize, opening: Opening) -> Hole
    requires found { IsFound (P.table protocol.now) found }
    requires opened { IsOpenedAt (P.table protocol.now) found.pairs.items at opening }
    ensures { IsHole (P.table protocol.now) result }
{
    let _ = protocol;
    let mut pairs = found.pairs;
    let pair = pairs[at];
    let at_next = opening.above.place;
    let last = at.max(at_next);
    pairs.truncate(last + 1);
    Hole {
        row: opening.row,
        side: opening.side,
        own: pair.own,
        other: pair.other,
        next: opening.above.state,
        pairs,
        at,
        at_next,
    }
}

/// The first hole of all, if there is one.
pub(crate) fn first_hole<P: Protocol>(protocol: &P, found: Found) -> Option<Hole>
    requires { IsGoing (P.table protocol.now) found (length found.pairs.items) }
    ensures some { IfSome result (IsHole (P.table protocol.now)) }
    ensures none { IfNone result (NoneOpens (P.table protocol.now) found.pairs.items (length found.pairs.items)) }
{
    match found.first_opening(protocol) {
        Some((at, opening)) => Some(hole_of(protocol, found, at, opening)),
        None => None,
    }
}
