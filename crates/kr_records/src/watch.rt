ghost use Rattle.std.specs.Prelude.{◌≡◌, ◌<◌, ◌≤◌, ℕ, length, None, Some, MatchOption, IfSome, IfOk, slice_set, slice_index_or};
ghost use Rattle.once_cell.specs.Once.{Agrees};
ghost use Rattle.kr_records.specs.Notes.{AgreeAt, KnowsAll, KnowsNoneFrom};

use crate::known::Known;
use crate::name::{EngineName, Entry};
use crate::row::PlaceRow;
use crate::seen::Seen;
use std::alloc::{AllocError, Global};
use std::marker::{Model, PhantomData};

/// Reads places, and takes no lock. Contracts see what it knows of each place, in order.
#[derive(Drop)]
pub struct Watch<'a, K: EngineName> {
    row: &'a PlaceRow,
    known: Vec<Known<Entry>>,
    of: PhantomData<K>,
}

impl<'a, K: EngineName> Model for Watch<'a, K> {
    ghost use Rattle.std.specs.Prelude.{◌≡◌, List, Option, map};
    ghost use Rattle.kr_records.specs.declared.name.Entry.{Entry};
    ghost use Rattle.kr_records.specs.Notes.{name_of, what_of};

    ghost Value = { List (Option Entry) };

    ghost view = { λ w. map what_of w.known.items };

    ghost invariant = { λ w. (w.row.now ≡ K.places) × (map name_of w.known.items ≡ K.places) };
}

impl<'a, K: EngineName> Watch<'a, K> {
    /// A watch that knows nothing yet.
    pub fn new(alloc: Global, row: &'a PlaceRow) -> Result<Watch<'a, K>, AllocError>
        requires { row.now ≡ K.places }
        ensures length { IfOk result (λ w. length w ≡ length K.places) }
        ensures none { IfOk result (λ w. KnowsNoneFrom w 0) }
    {
        let mut known = Vec::new(alloc);
        for place in 0..row.len() {
            let mut note = row.cell(place).note();
            known.push(Known::of(&mut note))?;
        }
        Ok(Watch {
            row,
            known,
            of: PhantomData,
        })
    }

    /// A watch that knows these entries, and no others. It goes over the places once.
    pub fn of(alloc: Global, row: &'a PlaceRow, view: &Seen<K>) -> Result<Watch<'a, K>, AllocError>
        requires { row.now ≡ K.places }
        ensures all { IfOk result (λ w. KnowsAll w view.now) }
        ensures others { IfOk result (λ w. KnowsNoneFrom w (length view.now)) }
    {
        let mut watch = Watch::new(alloc, row)?;
        for place in 0..view.len() {
            watch.told(place, &view.at(place));
        }
        Ok(watch)
    }

    /// Learns what another knows of a place.
    fn told(&mut self, place: usize, known: &Known<Entry>)
        requires place { place < length K.places }
        requires cell { known.now.cell ≡ slice_index_or K.places place 0 }
        ensures { self.new ≡ slice_set self.old place known.now.known }
    {
        self.known[place] = known.again();
    }

    /// What stands at a place, or nothing: past the row, and where nothing was written yet. It waits for nobody and takes
    /// no memory, and what was seen once is seen again.
    pub fn entry(&mut self, place: usize) -> Option<&'a Entry>
        ensures past { length K.places ≤ place → result ≡ None }
        ensures unseen { result ≡ None → self.new ≡ self.old }
        ensures seen { IfSome result (λ r. self.new ≡ slice_set self.old place (Some r.now)) }
        ensures known { MatchOption result (slice_index_or self.old place None ≡ None) (λ r. Agrees (slice_index_or self.old place None) r.now) }
    {
        if place >= self.row.len() {
            return None;
        }
        let row = self.row;
        let cell = row.cell(place);
        let mut note = cell.note();
        Known::inform(&mut note, &self.known[place]);
        let found = cell.get_as(&mut note);
        self.known[place] = Known::of(&mut note);
        found
    }

    /// Two watches of one engine agree at each place that both know. It waits for nobody and takes no memory.
    pub fn meet(&self, other: &Watch<'_, K>)
        ensures { (place : ℕ) → AgreeAt self.now other.now place }
    {
        let places = self.row.len();
        for place in 0..places {
            self.meet_at(other, place);
        }
    }

    /// They agree at one place.
    fn meet_at(&self, other: &Watch<'_, K>, place: usize)
        requires { place < length K.places }
        ensures { AgreeAt self.now other.now place }
    {
        self.known[place].lemma_agree(&other.known[place]);
    }
}
