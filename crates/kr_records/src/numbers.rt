//! The numbers of transactions that were begun.
ghost use Rattle.std.specs.Prelude.{◌≡◌, ◌+◌, ◌<◌, ◌++◌, ◌∷◌, [], true, false, length, None, Some, OnOk, OnErr, slice_set, is_some};
ghost use Rattle.kr_records.specs.Numbers.{begun_by, was_begun, is_begun, ends_kept, number_at, AreDistinct, IsPlace};

use crate::name::Entry;
use kr_model::Txn;
use std::alloc::{AllocError, Global};
use std::collections::HashMap;
use std::marker::Model;

/// A number that was begun: by which seat, and the memory of its end's entry until its transaction has ended.
#[derive(Debug, Drop)]
pub struct Number {
    pub txn: Txn,
    pub seat: usize,
    pub end: Option<Box<Entry>>,
}

/// The numbers that were begun, in that order, no number twice. A look at one is by hash.
#[derive(Drop)]
pub struct Numbers {
    list: Vec<Number>,
    /// The place of each number in the list.
    places: HashMap<Txn, usize>,
}

impl Model for Numbers {
    ghost use Rattle.std.specs.Prelude.{List};
    ghost use Rattle.kr_records.specs.declared.numbers.Number.{Number};
    ghost use Rattle.kr_records.specs.Numbers.{ArePlaces};

    ghost Value = { List Number };

    ghost view = { λ n. n.list.items };

    ghost invariant = { λ n. ArePlaces n.places n.list.items };
}

impl Numbers {
    /// No number was begun. Takes no memory.
    pub fn new(alloc: Global) -> Numbers
        ensures { result ≡ [] }
    {
        Numbers {
            list: Vec::new(alloc),
            places: HashMap::new(alloc),
        }
    }

    /// No number stands at two places.
    pub fn lemma_distinct(&self)
        ensures { AreDistinct self.now }
    {
        let _ = &self.list;
    }

    /// Whether a number was begun.
    pub fn has(&self, txn: Txn) -> bool
        ensures { result ≡ was_begun (begun_by self.now) txn }
    {
        self.places.contains_key(&txn)
    }

    /// Whether a number was begun by this seat.
    pub fn is_of(&self, txn: Txn, seat: usize) -> bool
        ensures { result ≡ is_begun (begun_by self.now) txn seat }
    {
        match self.places.get(&txn) {
            Some(&place) => self.list[place].seat == seat,
            None => false,
        }
    }

    /// Where a number that was begun stands.
    pub fn place(&self, txn: Txn) -> usize
        requires { was_begun (begun_by self.now) txn ≡ true }
        ensures { IsPlace self.now txn result }
    {
        *self.places.get(&txn).unwrap()
    }

    /// Adds a number with the memory of its end's entry, or answers an error where a growth is refused; then nothing has
    /// changed.
    pub fn add(&mut self, txn: Txn, seat: usize, end: Box<Entry>) -> Result<(), AllocError>
        requires { was_begun (begun_by self.old) txn ≡ false }
        ensures ok { OnOk result (self.new ≡ self.old ++ record { txn = txn; seat = seat; end = Some end } ∷ []) }
        ensures err { OnErr result (self.new ≡ self.old) }
    {
        self.list.reserve(1)?;
        self.places.insert(txn, self.list.len())?;
        self.list.push_reserved(Number {
            txn,
            seat,
            end: Some(end),
        });
        Ok(())
    }

    /// Takes the memory of an end's entry away from the number that stands here.
    pub fn take_end(&mut self, place: usize) -> Box<Entry>
        requires within { place < length self.old }
        requires there { is_some (number_at self.old place).end ≡ true }
        ensures list { self.new ≡ slice_set self.old place (record { txn = (number_at self.old place).txn; seat = (number_at self.old place).seat; end = None }) }
        ensures begun { begun_by self.new ≡ begun_by self.old }
        ensures kept { ends_kept self.old ≡ ends_kept self.new + 1 }
        ensures none { (number_at self.new place).end ≡ None }
        ensures len { length self.new ≡ length self.old }
    {
        self.list[place].end.take().unwrap()
    }

    /// Gives the number that stands here the memory of its end's entry.
    pub fn put_end(&mut self, place: usize, end: Box<Entry>)
        requires within { place < length self.old }
        requires none { (number_at self.old place).end ≡ None }
        ensures list { self.new ≡ slice_set self.old place (record { txn = (number_at self.old place).txn; seat = (number_at self.old place).seat; end = Some end }) }
        ensures begun { begun_by self.new ≡ begun_by self.old }
        ensures kept { ends_kept self.new ≡ ends_kept self.old + 1 }
    {
        self.list[place].end = Some(end);
    }
}
