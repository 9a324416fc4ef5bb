//! What a move is: a step of a transaction, or a purge.
ghost use Rattle.std.specs.Prelude.{◌≡◌};
ghost use Rattle.serde_json.specs.View.{view};
ghost use Rattle.kr_script.specs.Moves as spec;

use crate::parts::{length_of, number_at, word_at};
use crate::steps::event_of;
use kr_ghost::Move;
use serde_json::Value;

/// The key of a purge, if the value is an array of just the word and the key.
fn purge_of(value: &Value) -> Option<u64>
    ensures { result ≡ spec.purge_of (view value.now) }
{
    let len = length_of(value)?;
    let word = word_at(value, 0)?;
    if len == 2 && word == "purge" {
        number_at(value, 1)
    } else {
        None
    }
}

/// The move of a step, if the value has the form of one in this format, 1, 2 or 3.
pub fn move_of(format: u64, value: &Value) -> Option<Move>
    ensures { result ≡ spec.move_of format (view value.now) }
{
    if format != 3 {
        return event_of(format == 2, value).map(Move::Attempt);
    }
    match purge_of(value) {
        Some(key) => Some(Move::Purge(key)),
        None => event_of(true, value).map(Move::Attempt),
    }
}
