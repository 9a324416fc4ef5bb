//! An ordered index as a machine sees it: a map from keys to values, and pins that keep places for keys.
//!
//! A pinned key has its place, so writing it or taking it away needs no memory and cannot fail.
//! A caller that has to finish what it began pins the key first, while it may still give up.
ghost use Rattle.std.specs.Prelude.{◌≡◌, ℕ, ◌+◌, ◌-◌, ◌<◌, ◌==◌, if◌then◌else◌, is_some, Some, IfSome, IfNone, OnOk, OnErr, IfOk};
ghost use Rattle.kr_model.specs.declared.Name.TheVariants.{Key, End};
ghost use Rattle.kr_model.specs.Map.{Map, IsMap, get, set, without, at, after};

use kr_model::{Memory, Name, Pairs};
use std::alloc::Global;

/// A map from keys to values in the order of the keys, with a count of pins for each key.
///
/// A pinned key has its place in the index, whether it is present or absent.
/// Only `pin` and `copy` take memory, so they are the only calls that can fail.
pub trait Ordered: Drop {
    /// The pairs of the present keys, keys rising.
    ghost map: { Self → Map };

    /// How many pins a key has.
    ghost pins: { Self → ℕ → ℕ };

    /// The value of `key`, or `None` if `key` is absent.
    fn get(&self, key: u64) -> Option<u64>
        ensures { result ≡ get (map self.now) key };

    /// The least present key not below `from`, or `End` if there is none.
    fn at(&self, from: u64) -> Name
        ensures { result ≡ at (map self.now) from };

    /// The least present key above `key`, or `End` if there is none.
    fn after(&self, key: u64) -> Name
        ensures { result ≡ after (map self.now) key };

    /// Whether `key` is present, and what `at` answers for it.
    fn look(&self, key: u64) -> (bool, Name)
        ensures { result ≡ (is_some (get (map self.now) key), at (map self.now) key) }
    {
        (self.get(key).is_some(), self.at(key))
    }

    /// The least present key not below `from`, with its value, or `None` if there is none.
    fn pair_from(&self, from: u64) -> Option<(u64, u64)>
        ensures none { IfNone result (at (map self.now) from ≡ End) }
        ensures name { IfSome result (λ p. at (map self.now) from ≡ Key p.0) }
        ensures value { IfSome result (λ p. get (map self.now) p.0 ≡ Some p.1) }
    {
        match self.at(from) {
            Name::Key(key) => match self.get(key) {
                Some(value) => Some((key, value)),
                None => unreachable!(),
            },
            Name::End => None,
        }
    }

    /// The least present key above `key`, with its value, or `None` if there is none.
    fn pair_after(&self, key: u64) -> Option<(u64, u64)>
        ensures none { IfNone result (after (map self.now) key ≡ End) }
        ensures name { IfSome result (λ p. after (map self.now) key ≡ Key p.0) }
        ensures value { IfSome result (λ p. get (map self.now) p.0 ≡ Some p.1) }
    {
        match key.checked_add(1) {
            Some(past) => self.pair_from(past),
            None => match self.after(key) {
                Name::Key(next) => match self.get(next) {
                    Some(value) => Some((next, value)),
                    None => unreachable!(),
                },
                Name::End => None,
            },
        }
    }

    /// Adds a pin to `key`, which may be present or absent. No value changes.
    ///
    /// A key has at most 4,294,967,295 pins.
    /// Where it has as many, or a growth is refused, the answer is `Memory`, and no pin changes either.
    fn pin(&mut self, key: u64) -> Result<(), Memory>
        ensures map { map self.new ≡ map self.old }
        ensures ok { OnOk result ((q : ℕ) → pins self.new q ≡ (if q == key then pins self.old q + 1 else pins self.old q)) }
        ensures err { OnErr result ((q : ℕ) → pins self.new q ≡ pins self.old q) };

    /// Gives up a pin of `key`, which has one. No value changes, not even at the last pin.
    fn unpin(&mut self, key: u64)
        requires { 0 < pins self.old key }
        ensures map { map self.new ≡ map self.old }
        ensures pins { (q : ℕ) → pins self.new q ≡ (if q == key then pins self.old q - 1 else pins self.old q) };

    /// Writes `value` at the pinned `key`, over an old value if there is one. Pins and other keys stay.
    fn put(&mut self, key: u64, value: u64)
        requires { 0 < pins self.old key }
        ensures map { map self.new ≡ set (map self.old) key value }
        ensures pins { (q : ℕ) → pins self.new q ≡ pins self.old q };

    /// Takes the value of the pinned `key` away and returns it, or returns `None` if `key` is absent.
    /// Pins and other keys stay.
    fn take(&mut self, key: u64) -> Option<u64>
        requires { 0 < pins self.old key }
        ensures value { result ≡ get (map self.old) key }
        ensures map { map self.new ≡ without (map self.old) key }
        ensures pins { (q : ℕ) → pins self.new q ≡ pins self.old q };

    /// A copy of all pairs, keys rising, or `Memory` where a growth is refused.
    fn copy(&self, alloc: Global) -> Result<Pairs, Memory>
        ensures { IfOk result (λ pairs. pairs ≡ map self.now) };

    /// The keys of the pairs rise.
    ghost in_order: { (o : Self) → IsMap (map o) };
}
