ghost use Rattle.std.specs.Prelude.{◌≡◌, ℕ, IfSome};
ghost use Rattle.std.specs.declared.option.Option.{Option};
ghost use Rattle.std.specs.Coded.{coded_option};
ghost use Rattle.once_cell.specs.Once.{noted, Agrees};
ghost use denote.Sharing.{said};

use once_cell::race::Note;
use std::marker::{Model, PhantomData};

/// What is known of one cell: its name, and its value once that was seen. It takes no bytes, and can be copied and
/// compared through a `&`, as a note of the cell can't.
pub struct Known<T> {
    pub(crate) marker: PhantomData<T>,
    pub ghost cell: { ℕ },
    pub ghost known: { Option T } by { coded_option T.code },
}

impl<T> Model for Known<T> {
    ghost also_owns = { λ n. noted T.row n.cell n.known };

    ghost also_shares = { λ n _ κ. said (noted T.row n.cell n.known) κ };
}

impl<T> Known<T> {
    /// What a note knows, which stays as it is.
    pub fn of(note: &mut Note<T>) -> Known<T>
        ensures { (note.new ≡ note.old) × (result.cell ≡ note.old.cell) × (result.known ≡ note.old.known) }
    {
        Known {
            marker: PhantomData,
        }
    }

    /// Lets a note of the cell know what this knows.
    pub fn inform(note: &mut Note<T>, known: &Known<T>)
        requires { known.now.cell ≡ note.old.cell }
        ensures { (note.new.cell ≡ note.old.cell) × (note.new.known ≡ known.now.known) }
    {}

    /// A copy.
    pub fn again(&self) -> Known<T>
        ensures { result ≡ self.now }
    {
        Known {
            marker: PhantomData,
        }
    }

    /// Two of one cell that know its value know the same one.
    pub fn lemma_agree(&self, other: &Known<T>)
        requires { other.now.cell ≡ self.now.cell }
        ensures { IfSome other.now.known (Agrees self.now.known) }
    {}
}

impl<T> Drop for Known<T> {
    fn drop(self) {
        let Known { marker: _ } = self;
    }
}

unsafe impl<T> Send for Known<T> {}

unsafe impl<T> Sync for Known<T> {}
