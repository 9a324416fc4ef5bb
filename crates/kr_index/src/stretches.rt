//! Stretches of keys, which tell where many absent keys can be stepped over at once.
ghost use Rattle.std.specs.Prelude.{◌≡◌, ℕ, ◌<◌, IfSome, IfNone, OnErr, length, slice_index_or, nat_le};
ghost use Rattle.kr_model.specs.Map.{Map, set};
ghost use Rattle.kr_index.specs.Stretches.{IsIn, IsRising, IsBare, AreMarked};

use crate::Memory;

/// The keys from `from` up to the first key of the next stretch.
///
/// A mark as bare is a fact. The counts tell when a look is worth its time, and nothing else rests on them.
#[derive(Clone, Copy)]
pub struct Stretch {
    pub from: u64,
    /// Whether it is known that no key in it has a value.
    pub is_bare: bool,
    /// How many keys in it have a slot.
    pub slots: usize,
    /// How many keys in it have a value.
    pub present: usize,
}

/// The place of the stretch that a key is in, or `None` where all begin above the key. Found by bisection, and
/// at once where it is the last one.
pub fn home(stretches: &[Stretch], key: u64) -> Option<usize>
    requires { IsRising stretches.now }
    ensures place { IfSome result (IsIn stretches.now key) }
    ensures none { IfNone result ((i : ℕ) (d : Stretch) → i < length stretches.now → key < (slice_index_or stretches.now i d).from) }
{
    let count = stretches.len();
    if count > 0 && stretches[count - 1].from <= key {
        return Some(count - 1);
    }
    let above = stretches.partition_point(
        |stretch: &Stretch| -> bool
            ensures { result ≡ nat_le stretch.now.from key }
        { stretch.from <= key },
    );
    if above == 0 {
        return None;
    }
    Some(above - 1)
}

/// Makes a stretch begin at `key` where none does: the one that `key` is in is cut there.
/// The answer is `Memory` where a growth is refused, and no stretch changes.
pub fn cut(stretches: &mut Vec<Stretch>, key: u64) -> Result<(), Memory>
    requires { IsRising stretches.old.items }
    ensures rising { IsRising stretches.new.items }
    ensures marked { (m : Map) → AreMarked stretches.old.items m → AreMarked stretches.new.items m }
    ensures err { OnErr result (stretches.new.items ≡ stretches.old.items) }
{
    let begun = Stretch {
        from: key,
        is_bare: false,
        slots: 0,
        present: 0,
    };
    match home(stretches, key) {
        None => stretches.insert(0, begun)?,
        Some(place) => {
            if stretches[place].from < key {
                stretches.insert(place + 1, begun)?;
            }
        }
    }
    Ok(())
}

/// Writes the counts of a stretch.
fn count(stretches: &mut [Stretch], place: usize, slots: usize, present: usize)
    requires place { place < length stretches.old }
    requires rising { IsRising stretches.old }
    ensures rising { IsRising stretches.new }
    ensures marked { (m : Map) → AreMarked stretches.old m → AreMarked stretches.new m }
{
    let stretch = stretches[place];
    stretches[place] = Stretch {
        slots,
        present,
        ..stretch
    };
}

/// Writes the counts of the stretch that a key is in.
pub fn tally(stretches: &mut [Stretch], key: u64, slots: usize, present: usize)
    requires { IsRising stretches.old }
    ensures rising { IsRising stretches.new }
    ensures marked { (m : Map) → AreMarked stretches.old m → AreMarked stretches.new m }
{
    if let Some(place) = home(stretches, key) {
        count(stretches, place, slots, present);
    }
}

/// Counts a new slot, that of `key`.
pub fn grow(stretches: &mut [Stretch], key: u64)
    requires { IsRising stretches.old }
    ensures rising { IsRising stretches.new }
    ensures marked { (m : Map) → AreMarked stretches.old m → AreMarked stretches.new m }
{
    if let Some(place) = home(stretches, key) {
        let stretch = stretches[place];
        count(
            stretches,
            place,
            stretch.slots.saturating_add(1),
            stretch.present,
        );
    }
}

/// Counts the slot of `key` as dropped, and tells whether its stretch has none left.
pub fn shrink(stretches: &mut [Stretch], key: u64) -> bool
    requires { IsRising stretches.old }
    ensures rising { IsRising stretches.new }
    ensures marked { (m : Map) → AreMarked stretches.old m → AreMarked stretches.new m }
{
    if let Some(place) = home(stretches, key) {
        let stretch = stretches[place];
        let slots = stretch.slots.saturating_sub(1);
        count(stretches, place, slots, stretch.present);
        return slots == 0;
    }
    false
}

/// Counts the value of `key` as taken away.
pub fn leave(stretches: &mut [Stretch], key: u64)
    requires { IsRising stretches.old }
    ensures rising { IsRising stretches.new }
    ensures marked { (m : Map) → AreMarked stretches.old m → AreMarked stretches.new m }
{
    if let Some(place) = home(stretches, key) {
        let stretch = stretches[place];
        count(
            stretches,
            place,
            stretch.slots,
            stretch.present.saturating_sub(1),
        );
    }
}

/// Takes note that `key` has a value from here on. `is_new` tells whether it had none.
pub fn enter(stretches: &mut [Stretch], key: u64, is_new: bool)
    requires { IsRising stretches.old }
    ensures rising { IsRising stretches.new }
    ensures marked { (m : Map) (v : ℕ) → AreMarked stretches.old m → AreMarked stretches.new (set m key v) }
{
    match home(stretches, key) {
        None => {}
        Some(place) => {
            let stretch = stretches[place];
            let more = if is_new { 1 } else { 0 };
            stretches[place] = Stretch {
                is_bare: false,
                present: stretch.present.saturating_add(more),
                ..stretch
            };
        }
    }
}

/// Marks a stretch as bare.
pub fn mark(stretches: &mut [Stretch], place: usize)
    requires place { place < length stretches.old }
    requires rising { IsRising stretches.old }
    ensures rising { IsRising stretches.new }
    ensures marked { (m : Map) → IsBare stretches.old m place → AreMarked stretches.old m → AreMarked stretches.new m }
{
    let stretch = stretches[place];
    stretches[place] = Stretch {
        is_bare: true,
        ..stretch
    };
}

/// Joins the stretch that a key is in to the one before it, where there is one.
pub fn join(stretches: &mut Vec<Stretch>, key: u64)
    requires { IsRising stretches.old.items }
    ensures rising { IsRising stretches.new.items }
    ensures marked { (m : Map) → AreMarked stretches.old.items m → AreMarked stretches.new.items m }
{
    if let Some(place) = home(stretches, key) {
        if place > 0 {
            join_at(stretches, place);
        }
    }
}

/// Joins a stretch to the one before it.
fn join_at(stretches: &mut Vec<Stretch>, place: usize)
    requires place { 0 < place }
    requires in_range { place < length stretches.old.items }
    requires rising { IsRising stretches.old.items }
    ensures rising { IsRising stretches.new.items }
    ensures marked { (m : Map) → AreMarked stretches.old.items m → AreMarked stretches.new.items m }
{
    let before = stretches[place - 1];
    let joined = stretches[place];
    let _ = stretches.remove(place);
    stretches[place - 1] = Stretch {
        from: before.from,
        is_bare: before.is_bare && joined.is_bare,
        slots: before.slots.saturating_add(joined.slots),
        present: before.present.saturating_add(joined.present),
    };
}
