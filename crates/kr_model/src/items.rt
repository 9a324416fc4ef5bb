//! A list in what the machine answers and keeps: contracts see it as the list of its elements.

ghost use Rattle.std.specs.Prelude.{◌≡◌};

use crate::{Op, Program, Reply, Txn};
use std::marker::Model;

/// Elements in an order, seen as the list of them.
#[derive(Debug, Drop)]
pub struct Items<T> {
    items: Vec<T>,
}

impl<T> Model for Items<T> {
    ghost use Rattle.std.specs.Prelude.{List};

    ghost Value = { List T };

    ghost view = { λ l. l.items.items };
}

impl<T> Items<T> {
    /// The elements of the vector, in its order. Takes no memory.
    pub fn from_vec(items: Vec<T>) -> Items<T>
        ensures { result ≡ items.items }
    {
        Items { items }
    }

    /// The elements as a slice.
    pub fn as_slice(&self) -> &[T]
        ensures { result.now ≡ self.now }
    {
        &self.items
    }

    /// Gives the vector back. Takes no memory.
    pub fn into_vec(self) -> Vec<T>
        ensures { result.items ≡ self }
    {
        self.items
    }
}

/// Pairs of a key and its value.
pub type Pairs = Items<(u64, u64)>;

/// Numbers of transactions.
pub type Txns = Items<Txn>;

/// Operations of a transaction in their order, each with its answer.
pub type Answers = Items<(Op, Reply)>;

/// Programs in the order in which they committed.
pub type Programs = Items<Program>;
