//! The index before a run, and after it.
ghost use Rattle.std.specs.Prelude.{◌≡◌, IfOk};
ghost use Rattle.kr_model.specs.Map.{IsMap};

use crate::Pairs;
use std::alloc::{AllocError, Global};
use std::marker::Model;

/// An index as its pairs of a key and its value, whose keys rise strictly: what a run begins with, and what it leaves. So
/// the index that one run leaves can open the next. Contracts see the list of the pairs.
#[derive(Debug, Drop)]
pub struct Index {
    pairs: Pairs,
}

impl Model for Index {
    ghost use Rattle.kr_model.specs.Map.{Map, IsMap};

    ghost Value = { Map };

    ghost view = { λ index. index.pairs };

    ghost invariant = { λ index. IsMap index.pairs };
}

impl Index {
    /// The index of these pairs, whose keys rise strictly. Takes no memory.
    pub fn from_pairs(pairs: Pairs) -> Index
        requires { IsMap pairs }
        ensures { result ≡ pairs }
    {
        Index { pairs }
    }

    /// A copy of these pairs, whose keys rise strictly. The only fault is that a growth was refused.
    pub fn copy_of(alloc: Global, pairs: &[(u64, u64)]) -> Result<Index, AllocError>
        requires { IsMap pairs.now }
        ensures { IfOk result (λ index. index ≡ pairs.now) }
    {
        let pairs = Pairs::from_vec(pairs.to_vec(alloc)?);
        Ok(Index { pairs })
    }

    /// The pairs as a slice, keys rising.
    pub fn as_slice(&self) -> &[(u64, u64)]
        ensures pairs { result.now ≡ self.now }
        ensures kept { IsMap self.now }
    {
        self.pairs.as_slice()
    }
}
