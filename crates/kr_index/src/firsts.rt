//! The first pair from a key on, in a tree's slots.
ghost use Rattle.std.specs.Prelude.{◌≡◌, Some, IfSome, IfNone};
ghost use Rattle.kr_model.specs.Map.{get, at};
ghost use Rattle.kr_model.specs.declared.Name.TheVariants.{Key, End};
ghost use Rattle.kr_index.specs.Slots.{pairs_of, IsInOrder};
ghost use Rattle.kr_index.specs.Stretches.{IsRising, AreMarked};

use crate::slots::Slot;
use crate::stretches::Stretch;
use crate::walks::{is_past_all, name_from};
use kr_model::Name;
use std::collections::BTreeMap;

/// The value of a key.
pub fn value_at(slots: &BTreeMap<u64, Slot>, key: u64) -> Option<u64>
    requires { IsInOrder slots.now.entries }
    ensures { result ≡ get (pairs_of slots.now.entries) key }
{
    match slots.get(&key) {
        Some(slot) => slot.value,
        None => None,
    }
}

/// The first pair from `from` on, where the first key with a slot has no value.
fn pair_past(slots: &BTreeMap<u64, Slot>, stretches: &[Stretch], from: u64) -> Option<(u64, u64)>
    requires in_order { IsInOrder slots.now.entries }
    requires rising { IsRising stretches.now }
    requires marked { AreMarked stretches.now (pairs_of slots.now.entries) }
    ensures none { IfNone result (at (pairs_of slots.now.entries) from ≡ End) }
    ensures name { IfSome result (λ p. at (pairs_of slots.now.entries) from ≡ Key p.0) }
    ensures value { IfSome result (λ p. get (pairs_of slots.now.entries) p.0 ≡ Some p.1) }
{
    match name_from(slots, stretches, from) {
        Name::Key(key) => match value_at(slots, key) {
            Some(value) => Some((key, value)),
            None => unreachable!(),
        },
        Name::End => None,
    }
}

/// The first key from `from` on that has a value, with the value. Stretches are looked at only where the first key with a
/// slot has none.
pub fn pair_from(
    slots: &BTreeMap<u64, Slot>,
    stretches: &[Stretch],
    from: u64,
) -> Option<(u64, u64)>
    requires in_order { IsInOrder slots.now.entries }
    requires rising { IsRising stretches.now }
    requires marked { AreMarked stretches.now (pairs_of slots.now.entries) }
    ensures none { IfNone result (at (pairs_of slots.now.entries) from ≡ End) }
    ensures name { IfSome result (λ p. at (pairs_of slots.now.entries) from ≡ Key p.0) }
    ensures value { IfSome result (λ p. get (pairs_of slots.now.entries) p.0 ≡ Some p.1) }
{
    if is_past_all(slots, from) {
        return None;
    }
    let mut items = slots.range(from..);
    match items.next() {
        Some((key, slot)) => match slot.value {
            Some(value) => Some((*key, value)),
            None => pair_past(slots, stretches, from),
        },
        None => None,
    }
}
