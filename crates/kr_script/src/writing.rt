//! Numbers, pairs and steps, each written behind what a text has.
ghost use Rattle.std.specs.Prelude.{◌≡◌, ◌++◌, true, codes, decimal, OnOk, string_bytes};
ghost use Rattle.serde_json.specs.Written.{comma_if, compact_text, items_text};
ghost use Rattle.kr_script.specs.Pairs.{pair_data, pairs_data};
ghost use Rattle.kr_script.specs.Steps.{items_of_op, step_of};

use itoa::Buffer;
use kr_model::{Event, Op};
use std::alloc::AllocError;

/// The comma before an element of an array that isn't the first, and no text before the first.
pub fn separator(later: bool) -> &'static str
    ensures { result.now ≡ comma_if later }
{
    if later { "," } else { "" }
}

/// Writes a number in decimal behind what the text has. At `Err` memory ran out, and the text may have a part of it.
pub fn write_number(out: &mut String, number: u64) -> Result<(), AllocError>
    ensures { OnOk result (string_bytes out.new ≡ string_bytes out.old ++ decimal number) }
{
    out.push_str(Buffer::new().format(number))
}

/// Writes the beginning of an array, a number and the closing bracket behind what the text has. At `Err` memory ran out, and
/// the text may have a part of it.
pub fn write_with_number(out: &mut String, beginning: &str, number: u64) -> Result<(), AllocError>
    ensures { OnOk result (string_bytes out.new ≡ string_bytes out.old ++ beginning.now ++ decimal number ++ codes "]") }
{
    out.push_str(beginning)?;
    write_number(out, number)?;
    out.push_str("]")
}

/// Writes a prefix of an array, two numbers with a comma between, and the closing bracket.
fn write_with_two_numbers(
    out: &mut String,
    beginning: &str,
    first: u64,
    second: u64,
) -> Result<(), AllocError>
    ensures { OnOk result (string_bytes out.new ≡ string_bytes out.old
        ++ beginning.now ++ decimal first ++ codes "," ++ decimal second ++ codes "]") }
{
    out.push_str(beginning)?;
    write_number(out, first)?;
    out.push_str(",")?;
    write_number(out, second)?;
    out.push_str("]")
}

fn write_pair(out: &mut String, pair: (u64, u64)) -> Result<(), AllocError>
    ensures { OnOk result (string_bytes out.new ≡ string_bytes out.old ++ compact_text (pair_data pair)) }
{
    out.push_str("[")?;
    write_number(out, pair.0)?;
    out.push_str(",")?;
    write_number(out, pair.1)?;
    out.push_str("]")
}

/// Writes an array of keys with their values, each pair as an array of two, behind what the text has. At `Err` memory ran
/// out, and the text may have a part of it.
pub fn write_pairs(out: &mut String, pairs: &[(u64, u64)]) -> Result<(), AllocError>
    ensures { OnOk result (string_bytes out.new ≡ string_bytes out.old ++ compact_text (pairs_data pairs.now)) }
{
    out.push_str("[")?;
    let mut later = false;
    for pair in pairs {
        out.push_str(separator(later))?;
        write_pair(out, *pair)?;
        later = true;
    }
    out.push_str("]")
}

/// Writes what stands behind the transaction in a step: the word and the numbers of the operation, and the closing bracket.
#[tactic(auto, unfolding(serde_json::proofs::OnLiterals::serde_json_on_literals))]
fn write_op(out: &mut String, op: Op) -> Result<(), AllocError>
    ensures { OnOk result (string_bytes out.new ≡ string_bytes out.old ++ items_text true (items_of_op op)) }
{
    match op {
        Op::Fetch(key) => write_with_number(out, r#","fetch","#, key),
        Op::Scan(lo, hi) => write_with_two_numbers(out, r#","scan","#, lo, hi),
        Op::Go => out.push_str(r#","go"]"#),
        Op::Insert(key, value) => write_with_two_numbers(out, r#","insert","#, key, value),
        Op::Delete(key) => write_with_number(out, r#","delete","#, key),
        Op::Update(key, value) => write_with_two_numbers(out, r#","update","#, key, value),
        Op::Commit => out.push_str(r#","commit"]"#),
        Op::Abort => out.push_str(r#","abort"]"#),
        Op::Back => out.push_str(r#","back"]"#),
    }
}

/// Writes a step as scripts have it behind what the text has. At `Err` memory ran out, and the text may have a part of it.
pub fn write_step(out: &mut String, step: Event) -> Result<(), AllocError>
    ensures { OnOk result (string_bytes out.new ≡ string_bytes out.old ++ compact_text (step_of step)) }
{
    out.push_str("[")?;
    write_number(out, u64::from(step.txn))?;
    write_op(out, step.op)
}
