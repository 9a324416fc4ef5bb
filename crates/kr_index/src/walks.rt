//! Walks through a tree's slots to the next key that has a value.
ghost use Rattle.std.specs.Prelude.{◌≡◌, ℕ, ◌≤◌, ◌<◌, ◌+◌, IfSome, IfNone, IsTrue, None, length, slice_index_or};
ghost use Rattle.std.specs.Ordering.{nat_cmp};
ghost use Rattle.std.specs.FinMap.{find};
ghost use Rattle.kr_model.specs.Map.{at, after};
ghost use Rattle.kr_model.specs.declared.Name.TheVariants.{Key};
ghost use Rattle.kr_index.specs.Slots.{pairs_of, IsInOrder};
ghost use Rattle.kr_index.specs.Stretches.{IsIn, IsRising, IsBare, AreMarked};

use crate::Memory;
use crate::slots::Slot;
use crate::stretches::{Stretch, cut, home, mark, tally};
use kr_model::Name;
use std::collections::BTreeMap;
use std::ops::Bound;

/// A stretch with as many slots as this is cut in two before it takes a further one.
const MOST: usize = 256;

/// The first key from `from` on that has a value. The absent keys before it are stepped over one by one.
fn first_from(slots: &BTreeMap<u64, Slot>, from: u64) -> Name
    ensures { result ≡ at (pairs_of slots.now.entries) from }
{
    for (key, slot) in slots.range(from..) {
        if slot.value.is_some() {
            return Name::Key(*key);
        }
    }
    Name::End
}

/// The first key past `key` that has a value. The absent keys before it are stepped over one by one.
pub fn first_past(slots: &BTreeMap<u64, Slot>, key: u64) -> Name
    ensures { result ≡ after (pairs_of slots.now.entries) key }
{
    for (key, slot) in slots.range((Bound::Excluded(key), Bound::Unbounded)) {
        if slot.value.is_some() {
            return Name::Key(*key);
        }
    }
    Name::End
}

/// The first key from `from` on that has a value, if it is below `end`.
fn first_between(slots: &BTreeMap<u64, Slot>, from: u64, end: u64) -> Option<u64>
    requires in_order { IsInOrder slots.now.entries }
    requires forward { from ≤ end }
    ensures found { IfSome result (λ key. at (pairs_of slots.now.entries) from ≡ Key key) }
    ensures none { IfNone result (at (pairs_of slots.now.entries) from ≡ at (pairs_of slots.now.entries) end) }
{
    for (key, slot) in slots.range(from..end) {
        if slot.value.is_some() {
            return Some(*key);
        }
    }
    None
}

/// The first key from `from` on that has a value, if it is in the stretch at `place`, which `from` is in and which
/// ends before `end`. One that is marked as bare is not looked at.
fn first_in(
    slots: &BTreeMap<u64, Slot>,
    stretches: &[Stretch],
    place: usize,
    from: u64,
    end: u64,
) -> Option<u64>
    requires in_order { IsInOrder slots.now.entries }
    requires marked { AreMarked stretches.now (pairs_of slots.now.entries) }
    requires home { IsIn stretches.now from place }
    requires end { (d : Stretch) → end ≡ (slice_index_or stretches.now (place + 1) d).from }
    requires next { place + 1 < length stretches.now }
    ensures found { IfSome result (λ key. at (pairs_of slots.now.entries) from ≡ Key key) }
    ensures none { IfNone result (at (pairs_of slots.now.entries) from ≡ at (pairs_of slots.now.entries) end) }
{
    if stretches[place].is_bare {
        return None;
    }
    first_between(slots, from, end)
}

/// The first key from `from` on that has a value, where `from` is in the stretch at `home`.
fn first_from_home(
    slots: &BTreeMap<u64, Slot>,
    stretches: &[Stretch],
    home: usize,
    from: u64,
) -> Name
    requires in_order { IsInOrder slots.now.entries }
    requires rising { IsRising stretches.now }
    requires marked { AreMarked stretches.now (pairs_of slots.now.entries) }
    requires home { IsIn stretches.now from home }
    ensures { result ≡ at (pairs_of slots.now.entries) from }
{
    let mut next = from;
    for place in home + 1..stretches.len() {
        let end = stretches[place].from;
        if let Some(key) = first_in(slots, stretches, place - 1, next, end) {
            return Name::Key(key);
        }
        next = end;
    }
    first_from(slots, next)
}

/// The first key from `from` on that has a value. Stretches that are bare are stepped over.
pub fn name_from(slots: &BTreeMap<u64, Slot>, stretches: &[Stretch], from: u64) -> Name
    requires in_order { IsInOrder slots.now.entries }
    requires rising { IsRising stretches.now }
    requires marked { AreMarked stretches.now (pairs_of slots.now.entries) }
    ensures { result ≡ at (pairs_of slots.now.entries) from }
{
    match home(stretches, from) {
        None => first_from(slots, from),
        Some(home) => first_from_home(slots, stretches, home, from),
    }
}

/// Whether `key` is above each key that has a slot. It takes no search.
pub fn is_past_all(slots: &BTreeMap<u64, Slot>, key: u64) -> bool
    ensures { IsTrue result → (q : ℕ) → key ≤ q → find nat_cmp q slots.now.entries ≡ None }
{
    match slots.last_key_value() {
        Some((last, _)) => *last < key,
        None => false,
    }
}

/// The first key from `from` on that has a value. Stretches are looked at only where the first key with a slot has none.
pub fn name_at(slots: &BTreeMap<u64, Slot>, stretches: &[Stretch], from: u64) -> Name
    requires in_order { IsInOrder slots.now.entries }
    requires rising { IsRising stretches.now }
    requires marked { AreMarked stretches.now (pairs_of slots.now.entries) }
    ensures { result ≡ at (pairs_of slots.now.entries) from }
{
    if is_past_all(slots, from) {
        return Name::End;
    }
    let mut items = slots.range(from..);
    match items.next() {
        Some((key, slot)) => {
            if slot.value.is_some() {
                return Name::Key(*key);
            }
            name_from(slots, stretches, from)
        }
        None => Name::End,
    }
}

/// Looks whether a stretch is bare.
fn is_bare(slots: &BTreeMap<u64, Slot>, stretches: &[Stretch], place: usize) -> bool
    requires in_order { IsInOrder slots.now.entries }
    requires rising { IsRising stretches.now }
    requires marked { AreMarked stretches.now (pairs_of slots.now.entries) }
    requires place { place < length stretches.now }
    ensures { IsTrue result → IsBare stretches.now (pairs_of slots.now.entries) place }
{
    match name_from(slots, stretches, stretches[place].from) {
        Name::End => true,
        Name::Key(key) => {
            if place + 1 == stretches.len() {
                return false;
            }
            stretches[place + 1].from <= key
        }
    }
}

/// Marks the stretch that a key is in as bare, if it is and nothing is counted there.
pub fn settle(slots: &BTreeMap<u64, Slot>, stretches: &mut [Stretch], key: u64)
    requires in_order { IsInOrder slots.now.entries }
    requires rising { IsRising stretches.old }
    requires marked { AreMarked stretches.old (pairs_of slots.now.entries) }
    ensures rising { IsRising stretches.new }
    ensures marked { AreMarked stretches.new (pairs_of slots.now.entries) }
{
    if let Some(place) = home(stretches, key) {
        let stretch = stretches[place];
        if stretch.present == 0 && !stretch.is_bare && is_bare(slots, stretches, place) {
            mark(stretches, place);
        }
    }
}

/// Where a stretch may be cut: a key in its midst, and how many keys before it have a value.
#[derive(Clone, Copy)]
struct Middle {
    key: u64,
    present: usize,
}

/// The key past half of the slots that a stretch may have, counted from `from` on.
fn middle_of(slots: &BTreeMap<u64, Slot>, from: u64) -> Option<Middle> {
    let mut count = 0;
    let mut present = 0_usize;
    for (key, slot) in slots.range(from..) {
        if count >= MOST / 2 {
            return Some(Middle { key: *key, present });
        }
        count += 1;
        if slot.value.is_some() {
            present = present.saturating_add(1);
        }
    }
    None
}

/// Cuts a stretch in two.
/// The answer is `Memory` where a growth is refused.
fn halve(
    slots: &BTreeMap<u64, Slot>,
    stretches: &mut Vec<Stretch>,
    whole: Stretch,
) -> Result<(), Memory>
    requires in_order { IsInOrder slots.now.entries }
    requires rising { IsRising stretches.old.items }
    requires marked { AreMarked stretches.old.items (pairs_of slots.now.entries) }
    ensures rising { IsRising stretches.new.items }
    ensures marked { AreMarked stretches.new.items (pairs_of slots.now.entries) }
{
    if let Some(middle) = middle_of(slots, whole.from) {
        cut(stretches, middle.key)?;
        let slots_past = whole.slots.saturating_sub(MOST / 2);
        let present_past = whole.present.saturating_sub(middle.present);
        tally(stretches, whole.from, MOST / 2, middle.present);
        tally(stretches, middle.key, slots_past, present_past);
        settle(slots, stretches, whole.from);
        settle(slots, stretches, middle.key);
    }
    Ok(())
}

/// Sees that the stretch of a key may take a further slot: one that is full is cut in two.
/// The answer is `Memory` where a growth is refused.
pub fn make_room(
    slots: &BTreeMap<u64, Slot>,
    stretches: &mut Vec<Stretch>,
    key: u64,
) -> Result<(), Memory>
    requires in_order { IsInOrder slots.now.entries }
    requires rising { IsRising stretches.old.items }
    requires marked { AreMarked stretches.old.items (pairs_of slots.now.entries) }
    ensures rising { IsRising stretches.new.items }
    ensures marked { AreMarked stretches.new.items (pairs_of slots.now.entries) }
{
    match home(stretches, key) {
        None => cut(stretches, 0),
        Some(place) => {
            let stretch = stretches[place];
            if stretch.slots < MOST {
                return Ok(());
            }
            halve(slots, stretches, stretch)
        }
    }
}
