//! Scripts in their plain form, read token by token with no value made of the document: the members `format`, `opening`
//! and `steps` in this order, and no fault.
ghost use Rattle.std.specs.Prelude.{◌≡◌, ◌∷◌, ◌≤◌, ◌<◌, [], ℕ, IfSome, OnSome, None, Ok, Some, length, map, true, vec_len};
ghost use Rattle.std.specs.Option.{SomeIff};
ghost use Rattle.std.specs.Str.Parse.{IsNumeral, digits_value};
ghost use Rattle.json.specs.Token.{begin_array, begin_object};
ghost use Rattle.json.specs.Json.{Json, read_key, value};
ghost use Rattle.serde_json.specs.Data.{array, string, unsigned};
ghost use Rattle.serde_json.specs.Read.{number_of, of_json};
ghost use Rattle.serde_json.specs.View.{items_of};
ghost use Rattle.kr_script.specs.Json.{whole};
ghost use Rattle.kr_script.specs.Line.{format_number};
ghost use Rattle.kr_script.specs.Pairs.{pair_data, pairs_data};
ghost use Rattle.kr_script.specs.Steps.{event_of, is_later, step_of};
ghost use Rattle.kr_script.specs.Faults.{opening_faults};
ghost use Rattle.kr_script.specs.Reading.{document, reading_of};
ghost use Rattle.kr_script.specs.Tokens.{AreNext, IsNext, behind_word, word_of};

use crate::Script;
use crate::reading::{MAX_ELEMENTS, is_above};
use fast_float::Numeral;
use json::{Reader, Scratch, Token};
use kr_model::{Event, Op};
use std::alloc::Global;
use std::str;

/// The number that the bytes write, where these are 1 to 19 decimal digits: so it is below 10^19, and fits.
fn decimal(bytes: &[u8]) -> Option<u64>
    ensures { SomeIff result (IsNumeral 10 bytes.now × (length bytes.now ≤ 19)) (digits_value 10 bytes.now) }
{
    if bytes.is_empty() || bytes.len() > 19 {
        return None;
    }
    let mut n = 0;
    for &byte in bytes {
        if !byte.is_ascii_digit() {
            return None;
        }
        n = n * 10 + u64::from(byte - b'0');
    }
    Some(n)
}

/// The whole number that a number's text is.
#[inline(always)]
pub(crate) fn whole_number(text: &str) -> Option<u64>
    ensures { IfSome result (λ n. number_of text.now ≡ Some (unsigned n)) }
{
    let bytes = text.as_bytes();
    if let Some(n) = decimal(bytes) {
        return Some(n);
    }
    if bytes.is_empty() || bytes[0] == b'-' {
        return None;
    }
    let numeral = Numeral::scan(bytes);
    numeral.to_u64()
}

pub(crate) fn read_number(reader: &mut Reader<'_>) -> Option<u64>
    ensures { IfSome result (λ n. (depth : ℕ) → IsNext depth reader.old (whole n) reader.new) }
{
    let token = reader.next()?;
    match token {
        Token::Number(text) => whole_number(text),
        _ => None,
    }
}

#[inline(always)]
fn read_word<'a>(reader: &mut Reader<'a>) -> Option<&'a str>
    ensures { IfSome result (λ word. (depth : ℕ) → IsNext depth reader.old (string word.now) reader.new) }
{
    let token = reader.next()?;
    match token {
        Token::String(text) => Some(text),
        _ => None,
    }
}

/// Passes the bracket that opens an array.
pub(crate) fn open_array(reader: &mut Reader<'_>) -> Option<()>
    ensures { OnSome result (reader.old ≡ begin_array ∷ reader.new) }
{
    let token = reader.next()?;
    match token {
        Token::BeginArray => Some(()),
        _ => None,
    }
}

/// Passes the brace that opens an object.
pub(crate) fn open_object(reader: &mut Reader<'_>) -> Option<()>
    ensures { OnSome result (reader.old ≡ begin_object ∷ reader.new) }
{
    let token = reader.next()?;
    match token {
        Token::BeginObject => Some(()),
        _ => None,
    }
}

/// Passes the name of a member.
pub(crate) fn pass_name(reader: &mut Reader<'_>, name: &str) -> Option<()>
    ensures { OnSome result (read_key reader.old ≡ Some (Some name.now, reader.new)) }
{
    match reader.next_key() {
        Ok(Some(key)) if key == name => Some(()),
        _ => None,
    }
}

/// Passes the brace that closes an object.
fn close_object(reader: &mut Reader<'_>) -> Option<()>
    ensures { OnSome result (read_key reader.old ≡ Some (None, reader.new)) }
{
    match reader.next_key() {
        Ok(None) => Some(()),
        _ => None,
    }
}

/// Passes the brace that closes the document: nothing comes behind it.
pub(crate) fn close_document(reader: &mut Reader<'_>) -> Option<()>
    ensures { OnSome result (read_key reader.old ≡ Some (None, [])) }
{
    close_object(reader)?;
    match reader.next() {
        None => Some(()),
        Some(_) => None,
    }
}

fn read_one(reader: &mut Reader<'_>) -> Option<u64>
    ensures { IfSome result (λ n. AreNext 124 reader.old (whole n ∷ []) reader.new) }
{
    let number = read_number(reader)?;
    Some(number)
}

fn read_two(reader: &mut Reader<'_>) -> Option<(u64, u64)>
    ensures { IfSome result (λ p. AreNext 124 reader.old (whole p.0 ∷ whole p.1 ∷ []) reader.new) }
{
    let first = read_number(reader)?;
    let second = read_number(reader)?;
    Some((first, second))
}

fn read_pair(reader: &mut Reader<'_>) -> Option<(u64, u64)>
    ensures { IfSome result (λ p. IsNext 125 reader.old (pair_data p) reader.new) }
{
    open_array(reader)?;
    let pair = read_two(reader)?;
    if reader.take_end_array() {
        Some(pair)
    } else {
        None
    }
}

/// The pairs of an array, if their keys rise.
pub(crate) fn read_pairs(alloc: Global, reader: &mut Reader<'_>) -> Option<Vec<(u64, u64)>>
    ensures next { IfSome result (λ pairs. IsNext 126 reader.old (pairs_data pairs.items) reader.new) }
    ensures rising { IfSome result (λ pairs. opening_faults 0 None (items_of (map pair_data pairs.items)) ≡ []) }
    ensures few { IfSome result (λ pairs. vec_len pairs ≤ 100000) }
{
    open_array(reader)?;
    let mut pairs = Vec::new(alloc);
    let mut before = None;
    'pairs: while !reader.take_end_array() {
        let pair = read_pair(reader)?;
        if !is_above(pair.0, before) || pairs.len() == MAX_ELEMENTS {
            return None;
        }
        pairs.push(pair).ok()?;
        before = Some(pair.0);
    }
    Some(pairs)
}

/// The operation of this word, in format 2 or in format 1, with its numbers.
fn read_op(two: bool, reader: &mut Reader<'_>, word: &str) -> Option<Op>
    ensures word { IfSome result (λ op. word.now ≡ word_of op) }
    ensures next { IfSome result (λ op. AreNext 124 reader.old (behind_word op) reader.new) }
    ensures later { IfSome result (λ op. is_later op ≡ true → two ≡ true) }
{
    match word {
        "fetch" => Some(Op::Fetch(read_one(reader)?)),
        "scan" => {
            let (lo, hi) = read_two(reader)?;
            Some(Op::Scan(lo, hi))
        }
        "go" => Some(Op::Go),
        "insert" => {
            let (key, value) = read_two(reader)?;
            Some(Op::Insert(key, value))
        }
        "delete" => Some(Op::Delete(read_one(reader)?)),
        "update" if two => {
            let (key, value) = read_two(reader)?;
            Some(Op::Update(key, value))
        }
        "commit" => Some(Op::Commit),
        "abort" => Some(Op::Abort),
        "back" if two => Some(Op::Back),
        _ => None,
    }
}

/// The event of a step, in format 2 or in format 1, from behind the number of its transaction up to the closing bracket.
#[inline(always)]
pub(crate) fn read_step(two: bool, reader: &mut Reader<'_>, txn: u64) -> Option<Event>
    ensures next { IfSome result (λ event. AreNext 124 reader.old (string (word_of event.op) ∷ behind_word event.op) reader.new) }
    ensures txn { IfSome result (λ event. event.txn ≡ txn) }
    ensures back { IfSome result (λ event. event_of two (step_of event) ≡ Some event) }
{
    let txn = u32::try_from(txn).ok()?;
    let word = read_word(reader)?;
    let op = read_op(two, reader, word)?;
    Some(Event { txn, op })
}

fn read_event(two: bool, reader: &mut Reader<'_>) -> Option<Event>
    ensures next { IfSome result (λ event. IsNext 125 reader.old (step_of event) reader.new) }
    ensures back { IfSome result (λ event. event_of two (step_of event) ≡ Some event) }
{
    open_array(reader)?;
    let txn = read_number(reader)?;
    let event = read_step(two, reader, txn)?;
    if reader.take_end_array() {
        Some(event)
    } else {
        None
    }
}

/// The events of an array of steps, in format 2 or in format 1.
fn read_events(alloc: Global, two: bool, reader: &mut Reader<'_>) -> Option<Vec<Event>>
    ensures next { IfSome result (λ events. IsNext 126 reader.old (array (items_of (map step_of events.items))) reader.new) }
    ensures back { IfSome result (λ events. map (λ e. event_of two (step_of e)) events.items ≡ map Some events.items) }
    ensures few { IfSome result (λ events. vec_len events ≤ 100000) }
{
    open_array(reader)?;
    let mut events = Vec::new(alloc);
    'events: while !reader.take_end_array() {
        let event = read_event(two, reader)?;
        if events.len() == MAX_ELEMENTS {
            return None;
        }
        events.push(event).ok()?;
    }
    Some(events)
}

/// Whether the format is 2, where it is 1 or 2.
fn read_format(reader: &mut Reader<'_>) -> Option<bool>
    ensures { IfSome result (λ two. IsNext 126 reader.old (whole (format_number two)) reader.new) }
{
    let format = read_number(reader)?;
    match format {
        1 => Some(false),
        2 => Some(true),
        _ => None,
    }
}

fn read_members(alloc: Global, reader: &mut Reader<'_>) -> Option<Script>
    ensures { IfSome result (λ script. (j : Json) × (value 127 reader.old ≡ Some (j, [])) × (reading_of (of_json j) ≡ Ok script)) }
{
    open_object(reader)?;
    pass_name(reader, "format")?;
    let two = read_format(reader)?;
    pass_name(reader, "opening")?;
    let opening = read_pairs(alloc, reader)?;
    pass_name(reader, "steps")?;
    let steps = read_events(alloc, two, reader)?;
    close_document(reader)?;
    Some(Script::new(opening, steps))
}

/// The script that the bytes are, where they have the plain form. Nothing is told of other bytes, nor where a growth was
/// refused: these may be a script all the same.
pub fn read_plain(alloc: Global, bytes: &[u8]) -> Option<Script>
    ensures { IfSome result (λ script. reading_of (document bytes.now) ≡ Ok script) }
{
    let Ok(text) = str::from_utf8(bytes) else {
        return None;
    };
    let mut scratch = Scratch::new(alloc);
    let Ok(mut reader) = Reader::new(text, &mut scratch) else {
        return None;
    };
    read_members(alloc, &mut reader)
}
