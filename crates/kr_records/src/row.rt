ghost use Rattle.std.specs.Prelude.{◌≡◌, ◌≤◌, ◌<◌, false, length, vec_len, IfOk, Err, slice_index_or};
ghost use Rattle.once_cell.specs.Once.{cell_name};
ghost use Rattle.kr_records.specs.Rows.{has_size};
ghost use Rattle.kr_records.specs.declared.row.NewFault.TheVariants as fault;

use crate::name::Entry;
use once_cell::race::OnceBox;
use std::alloc::{AllocError, Global};
use std::marker::Model;

/// A row of places, each written at most once, by whoever comes first, and read without a lock. Contracts see the names
/// of its cells.
#[derive(Drop)]
pub struct PlaceRow {
    cells: Vec<OnceBox<Entry>>,
}

impl Model for PlaceRow {
    ghost use Rattle.std.specs.Prelude.{ℕ, List, map, length, ◌≤◌};
    ghost use Rattle.once_cell.specs.Once.{cell_name};

    ghost Value = { List ℕ };

    ghost view = { λ r. map cell_name r.cells.items };

    ghost invariant = { λ r. length r.cells.items ≤ 1000000 };
}

/// Why a row can't be made.
#[derive(Debug, Drop)]
pub enum NewFault {
    /// The number of places isn't from 1 to 1,000,000.
    Places,
    /// A growth was refused.
    Memory,
}

impl PlaceRow {
    /// A row of so many places, from 1 to 1,000,000, none of them written.
    pub fn new(alloc: Global, places: u64) -> Result<PlaceRow, NewFault>
        ensures ok { IfOk result (λ r. length r ≡ places) }
        ensures places { has_size places ≡ false → result ≡ Err fault.Places }
        ensures only_places { result ≡ Err fault.Places → has_size places ≡ false }
    {
        if places == 0 || places > 1_000_000 {
            return Err(NewFault::Places);
        }
        match make(alloc, places) {
            Ok(cells) => Ok(PlaceRow { cells }),
            Err(_) => Err(NewFault::Memory),
        }
    }

    /// How many places it has.
    pub fn len(&self) -> usize
        ensures length { result ≡ length self.now }
        ensures small { result ≤ 1000000 }
    {
        self.cells.len()
    }

    /// The cell of a place.
    pub fn cell<'a>(&'a self, place: usize) -> &'a OnceBox<Entry>
        requires { place < length self.now }
        ensures { cell_name result.now ≡ slice_index_or self.now place 0 }
    {
        &self.cells[place]
    }
}

/// So many cells.
fn make(alloc: Global, places: u64) -> Result<Vec<OnceBox<Entry>>, AllocError>
    requires { places ≤ 1000000 }
    ensures { IfOk result (λ v. vec_len v ≡ places) }
{
    let mut cells = Vec::new(alloc);
    for i in 0..places {
        let _at = i;
        cells.push(OnceBox::new(alloc))?;
    }
    Ok(cells)
}
