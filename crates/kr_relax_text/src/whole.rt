//! The text of the relaxations of a table.
ghost use Rattle.std.specs.Prelude.{◌≡◌, IfOk, string_bytes};
ghost use Rattle.kr_relax_text.specs.Whole.{gain_words, named_edit, relaxation_text, relaxed_text, shown_words, text_from};

use crate::scripts::{Relaxation, Shown};
use crate::steps::last_text;
use kr_change::{Change, change_text, edit_text};
use kr_model::Memory;
use kr_protocol::Protocol;
use kr_script::write_script;
use std::alloc::Global;

/// What a script shows, and the script as a line of JSON; or that there is none.
fn shown_text(alloc: Global, script: &Option<Shown>) -> Result<String, Memory>
    ensures { IfOk result (λ text. string_bytes text ≡ shown_words script.now) }
{
    let Some(shown) = script else {
        return String::from_str(alloc, "; no script is known");
    };
    let last = last_text(alloc, &shown.events)?;
    let line = write_script(alloc, &shown.opening, &shown.events)?;
    format!(in alloc; ", among them {last}\n   {line}")
}

/// How many requests a relaxation grants that the table blocks, and a script.
#[tactic(auto, unfolding(crate::specs::Whole::gain_words))]
fn gain_text(alloc: Global, relaxation: &Relaxation) -> Result<String, Memory>
    ensures { IfOk result (λ text. string_bytes text ≡ gain_words relaxation.now) }
{
    let width = relaxation.relaxed.width;
    let shown = shown_text(alloc, &relaxation.script)?;
    format!(in alloc; "more granted: {width}{shown}")
}

/// The name of a change, and the edit that makes it.
#[tactic(auto, unfolding(crate::specs::Whole::named_edit))]
fn named_edit<P: Protocol>(alloc: Global, protocol: &P, change: Change) -> Result<String, Memory>
    ensures { IfOk result (λ text. string_bytes text ≡ named_edit (P.table protocol.now) (P.names protocol.now) change) }
{
    let name = change_text(alloc, protocol, change)?;
    let edit = edit_text(alloc, protocol, change)?;
    format!(in alloc; "{name}\n   {edit}")
}

/// The relaxation of a number: its name, the edit that makes it, what it grants more, and a script.
#[tactic(auto, unfolding(crate::specs::Whole::relaxation_text))]
fn relaxation_text<P: Protocol>(
    alloc: Global,
    protocol: &P,
    number: usize,
    relaxation: &Relaxation,
) -> Result<String, Memory>
    ensures { IfOk result (λ text. string_bytes text ≡ relaxation_text (P.table protocol.now) (P.names protocol.now) number relaxation.now) }
{
    let edit = named_edit(alloc, protocol, relaxation.relaxed.change)?;
    let gain = gain_text(alloc, relaxation)?;
    format!(in alloc; "{number}. {edit}\n   {gain}\n")
}

/// Relaxations, numbered from 1.
fn numbered_text<P: Protocol>(
    alloc: Global,
    protocol: &P,
    list: &[Relaxation],
) -> Result<String, Memory>
    ensures { IfOk result (λ text. string_bytes text ≡ text_from (P.table protocol.now) (P.names protocol.now) 1 list.now) }
{
    let mut out = String::new(alloc);
    for at in 0..list.len() {
        let text = relaxation_text(alloc, protocol, at + 1, &list[at])?;
        out.push_str(text.as_str())?;
    }
    Ok(out)
}

/// The relaxations of a table, numbered from 1, each with its name, the edit of the table's file that makes it, how many requests
/// beside locks it grants that the table blocks, the last step of its script, and the script as a line of JSON; or that there are
/// none. Each line is ended by a line feed. The error is memory alone.
pub fn relaxed_text<P: Protocol>(
    alloc: Global,
    protocol: &P,
    list: &[Relaxation],
) -> Result<String, Memory>
    ensures { IfOk result (λ text. string_bytes text ≡ relaxed_text (P.table protocol.now) (P.names protocol.now) list.now) }
{
    if list.is_empty() {
        String::from_str(alloc, "tight: no single entry can be relaxed\n")
    } else {
        numbered_text(alloc, protocol, list)
    }
}
