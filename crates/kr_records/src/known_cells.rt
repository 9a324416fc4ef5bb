ghost use Rattle.std.specs.Prelude.{◌≡◌, ◌++◌, [], ℕ, List, map, slice_get, slice_index_or};
ghost use Rattle.std.specs.Coded.{coded_list, coded×, coded_ℕ};
ghost use mathlib.Core.List.{IsPrefix};
ghost use denote.Sharing.{said};
ghost use Rattle.kr_records.specs.Owned.{all_noted, name_in, value_in, told};

use crate::known::Known;
use std::marker::{Model, PhantomData};

/// What is known of several cells, in order: the name of each, with its value. It takes no bytes, however many they are,
/// and is copied and compared at once: no call goes over them.
pub struct KnownCells<T> {
    marker: PhantomData<T>,
    pub ghost known: { List (ℕ × T) } by { coded_list (coded× coded_ℕ T.code) },
}

impl<T> Model for KnownCells<T> {
    ghost also_owns = { λ n. all_noted T.row n.known };

    ghost also_shares = { λ n _ κ. said (all_noted T.row n.known) κ };
}

impl<T> KnownCells<T> {
    /// Knows nothing.
    pub fn none() -> KnownCells<T>
        ensures { result.known ≡ [] }
    {
        KnownCells {
            marker: PhantomData,
        }
    }

    /// A copy.
    pub fn again(&self) -> KnownCells<T>
        ensures { result ≡ self.now }
    {
        KnownCells {
            marker: PhantomData,
        }
    }

    /// The same with one cell more, if its value is known.
    pub fn more(&self, next: &Known<T>) -> KnownCells<T>
        ensures { result.known ≡ self.now.known ++ told next.now.cell next.now.known }
    {
        KnownCells {
            marker: PhantomData,
        }
    }

    /// What is known of the cell at this place, or nothing past the last.
    pub fn at(&self, place: usize) -> Known<T>
        ensures { (result.cell ≡ slice_index_or (map name_in self.now.known) place 0) × (result.known ≡ slice_get (map value_in self.now.known) place) }
    {
        Known {
            marker: PhantomData,
        }
    }

    /// Where the other's cells begin with these, the other's values do too.
    pub fn lemma_agree(&self, other: &KnownCells<T>)
        requires { IsPrefix (map name_in self.now.known) (map name_in other.now.known) }
        ensures { IsPrefix self.now.known other.now.known }
    {}
}

impl<T> Drop for KnownCells<T> {
    fn drop(self) {
        let KnownCells { marker: _ } = self;
    }
}

unsafe impl<T> Send for KnownCells<T> {}

unsafe impl<T> Sync for KnownCells<T> {}
