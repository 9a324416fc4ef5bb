ghost use Rattle.std.specs.Prelude.{◌≡◌, ◌≤◌, ◌<◌, ◌∷◌, ◌++◌, [], length, IfSome, IsSome, slice_index_or, slice_get};
ghost use mathlib.Core.List.{IsPrefix};

use crate::known::Known;
use crate::known_cells::KnownCells;
use crate::name::{EngineName, Entry};
use crate::row::PlaceRow;
use std::marker::{Model, PhantomData};

/// What is known of the first places of one engine's row. Contracts see the entries, in order of place. It takes no
/// memory, and no call goes over the places: each costs the same, however long the history is.
#[derive(Drop)]
pub struct Seen<K: EngineName> {
    /// How many places are known.
    places: usize,
    known: KnownCells<Entry>,
    of: PhantomData<K>,
}

impl<K: EngineName> Model for Seen<K> {
    ghost use Rattle.std.specs.Prelude.{◌≡◌, ◌≤◌, List, length, map, take};
    ghost use Rattle.kr_records.specs.declared.name.Entry.{Entry};
    ghost use Rattle.kr_records.specs.Owned.{name_in, value_in};

    ghost Value = { List Entry };

    ghost view = { λ s. map value_in s.known.known };

    ghost invariant = { λ s. (length K.places ≤ 1000000) × (s.places ≤ length K.places) × (map name_in s.known.known ≡ take s.places K.places) };
}

impl<K: EngineName> Seen<K> {
    /// Knows nothing yet.
    pub fn new(row: &PlaceRow) -> Seen<K>
        requires { row.now ≡ K.places }
        ensures { result ≡ [] }
    {
        // A row is short, so the count stays in range.
        let _places = row.len();
        Seen {
            places: 0,
            known: KnownCells::none(),
            of: PhantomData,
        }
    }

    /// How many places are known.
    pub fn len(&self) -> usize
        ensures length { result ≡ length self.now }
        ensures within { result ≤ length K.places }
    {
        self.places
    }

    /// Adds the entry of the next place.
    pub fn add(&mut self, note: Known<Entry>)
        requires room { length self.old < length K.places }
        requires cell { note.cell ≡ slice_index_or K.places (length self.old) 0 }
        requires known { IsSome note.known }
        ensures { IfSome note.known (λ e. self.new ≡ self.old ++ e ∷ []) }
    {
        self.known = self.known.more(&note);
        self.places += 1;
    }

    /// What is known of one place.
    pub fn at(&self, place: usize) -> Known<Entry>
        requires { place < length self.now }
        ensures cell { result.cell ≡ slice_index_or K.places place 0 }
        ensures known { result.known ≡ slice_get self.now place }
    {
        self.known.at(place)
    }

    /// What this knows is where the other begins, if it is no longer.
    pub fn lemma_is_prefix_of(&self, other: &Seen<K>)
        requires { length self.now ≤ length other.now }
        ensures { IsPrefix self.now other.now }
    {
        self.known.lemma_agree(&other.known);
    }

    /// Learns what the other knows, which is no less.
    pub fn learn(&mut self, other: &Seen<K>)
        requires { length self.old ≤ length other.now }
        ensures begins { IsPrefix self.old self.new }
        ensures all { self.new ≡ other.now }
    {
        self.lemma_is_prefix_of(other);
        self.known = other.known.again();
        self.places = other.places;
    }
}
