//! Scripts that may have purges, in the plain form of `plain.rt`, read token by token.
ghost use Rattle.std.specs.Prelude.{◌≡◌, ◌≤◌, [], IfSome, Ok, Some, map, vec_len};
ghost use Rattle.json.specs.Json.{Json, value};
ghost use Rattle.serde_json.specs.Data.{array};
ghost use Rattle.serde_json.specs.Read.{of_json};
ghost use Rattle.serde_json.specs.View.{items_of};
ghost use Rattle.kr_script.specs.Json.{whole};
ghost use Rattle.kr_script.specs.GhostReading.{format_faults, reading_of};
ghost use Rattle.kr_script.specs.Moves.{move_of};
ghost use Rattle.kr_script.specs.Reading.{document};
ghost use Rattle.kr_script.specs.Tokens.{AreNext, IsNext, step_of_move, values_of_move};

use crate::GhostScript;
use crate::plain::{
    close_document, open_array, open_object, pass_name, read_number, read_pairs, read_step,
    whole_number,
};
use crate::reading::MAX_ELEMENTS;
use json::{Reader, Scratch, Token};
use kr_ghost::Move;
use std::alloc::Global;
use std::str;

/// The move of a step in this format, 1, 2 or 3, from behind the opening bracket up to the closing one.
fn read_values(format: u64, reader: &mut Reader<'_>) -> Option<Move>
    ensures next { IfSome result (λ m. AreNext 124 reader.old (values_of_move m) reader.new) }
    ensures back { IfSome result (λ m. move_of format (step_of_move m) ≡ Some m) }
{
    let token = reader.next()?;
    match token {
        Token::Number(text) => {
            let txn = whole_number(text)?;
            let event = read_step(format == 2 || format == 3, reader, txn)?;
            Some(Move::Attempt(event))
        }
        Token::String(word) if format == 3 && word == "purge" => {
            let key = read_number(reader)?;
            Some(Move::Purge(key))
        }
        _ => None,
    }
}

fn read_move(format: u64, reader: &mut Reader<'_>) -> Option<Move>
    ensures next { IfSome result (λ m. IsNext 125 reader.old (step_of_move m) reader.new) }
    ensures back { IfSome result (λ m. move_of format (step_of_move m) ≡ Some m) }
{
    open_array(reader)?;
    let next = read_values(format, reader)?;
    if reader.take_end_array() {
        Some(next)
    } else {
        None
    }
}

/// The moves of an array of steps in this format.
fn read_moves(alloc: Global, format: u64, reader: &mut Reader<'_>) -> Option<Vec<Move>>
    ensures next { IfSome result (λ moves. IsNext 126 reader.old (array (items_of (map step_of_move moves.items))) reader.new) }
    ensures back { IfSome result (λ moves. map (λ m. move_of format (step_of_move m)) moves.items ≡ map Some moves.items) }
    ensures few { IfSome result (λ moves. vec_len moves ≤ 100000) }
{
    open_array(reader)?;
    let mut moves = Vec::new(alloc);
    'moves: while !reader.take_end_array() {
        let next = read_move(format, reader)?;
        if moves.len() == MAX_ELEMENTS {
            return None;
        }
        moves.push(next).ok()?;
    }
    Some(moves)
}

/// The format, where it is 1, 2 or 3.
fn read_format(reader: &mut Reader<'_>) -> Option<u64>
    ensures next { IfSome result (λ n. IsNext 126 reader.old (whole n) reader.new) }
    ensures known { IfSome result (λ n. format_faults (Some n) ≡ []) }
{
    let format = read_number(reader)?;
    match format {
        1 | 2 | 3 => Some(format),
        _ => None,
    }
}

fn read_members(alloc: Global, reader: &mut Reader<'_>) -> Option<GhostScript>
    ensures { IfSome result (λ script. (j : Json) × (value 127 reader.old ≡ Some (j, [])) × (reading_of (of_json j) ≡ Ok script)) }
{
    open_object(reader)?;
    pass_name(reader, "format")?;
    let format = read_format(reader)?;
    pass_name(reader, "opening")?;
    let opening = read_pairs(alloc, reader)?;
    pass_name(reader, "steps")?;
    let moves = read_moves(alloc, format, reader)?;
    close_document(reader)?;
    Some(GhostScript::new(opening, moves))
}

/// The script that the bytes are, of format 1, 2 or 3, where they have the plain form. Nothing is told of other bytes, nor where a
/// growth was refused: these may be a script all the same.
pub fn read_plain_moves(alloc: Global, bytes: &[u8]) -> Option<GhostScript>
    ensures { IfSome result (λ script. reading_of (document bytes.now) ≡ Ok script) }
{
    let Ok(text) = str::from_utf8(bytes) else {
        return None;
    };
    let mut scratch = Scratch::new(alloc);
    let Ok(mut reader) = Reader::new(text, &mut scratch) else {
        return None;
    };
    read_members(alloc, &mut reader)
}
