//! Answers given to operations on one key, compared with the operations' own.
ghost use Rattle.std.specs.Prelude.{◌≡◌, ℕ};
ghost use Rattle.kr_model.specs.Map.{Map};
ghost use Rattle.kr_model.specs.Serial.{found_or_none, whole_insert, whole_delete, whole_update};
ghost use Rattle.kr_judge.specs.Changed.{own_unless_same};

use crate::whole::{
    deleted, found, inserted, is_deleted, is_fetched, is_inserted, is_updated, updated,
};
use kr_model::Reply;

/// A fetch's own answer, by the value at the key, where it isn't the one given.
pub(crate) fn own_fetch(given: &Reply, value: Option<u64>) -> Option<Reply>
    ensures { result ≡ own_unless_same given.now (found_or_none value) }
{
    if is_fetched(given, value) {
        return None;
    }
    Some(found(value))
}

/// An insert's own answer, by the value at the key, where it isn't the one given.
pub(crate) fn own_insert(given: &Reply, value: Option<u64>) -> Option<Reply>
    ensures { (m : Map) (k v : ℕ) → result ≡ own_unless_same given.now (whole_insert m k v value).0 }
{
    if is_inserted(given, value) {
        return None;
    }
    Some(inserted(value))
}

/// A delete's own answer, by the value at the key, where it isn't the one given.
pub(crate) fn own_delete(given: &Reply, value: Option<u64>) -> Option<Reply>
    ensures { (m : Map) (k : ℕ) → result ≡ own_unless_same given.now (whole_delete m k value).0 }
{
    if is_deleted(given, value) {
        return None;
    }
    Some(deleted(value))
}

/// An update's own answer, by the value at the key, where it isn't the one given.
pub(crate) fn own_update(given: &Reply, value: Option<u64>) -> Option<Reply>
    ensures { (m : Map) (k v : ℕ) → result ≡ own_unless_same given.now (whole_update m k v value).0 }
{
    if is_updated(given, value) {
        return None;
    }
    Some(updated(value))
}
