//! The fixes of a cause, as edits of the table's file.
ghost use Rattle.std.specs.Prelude.{◌≡◌, ◌++◌, ◌&&◌, IfOk, OnOk, string_bytes};
ghost use Rattle.kr_explain_text.specs.Lines.{Adds};
ghost use Rattle.kr_explain_text.specs.Edits.{AreChanges, AreFixes, IsFix, IsFixOf, IsMending, IsWish, IsWishOf, IsWished, fix_words, head_of, is_without, wish_words};

use crate::edits::edit_words;
use crate::wrap::{INDENT, paragraph};
use kr_cases::Memory;
use kr_change::Change;
use kr_explain_causes::{MOST_MENDED, Mend};
use kr_protocol::Protocol;
use std::alloc::Global;

/// The changes that fix a cause, which is harmless or isn't; or that none was tried, where they are tried for so many causes at
/// most. The only fault is that a growth was refused.
pub fn fixes_text<P: Protocol>(
    alloc: Global,
    protocol: &P,
    mend: &Option<Mend>,
    is_harmless: bool,
) -> Result<String, Memory>
    ensures { IfOk result (λ text. IsMending (P.names protocol.now) is_harmless mend.now (string_bytes text)) }
{
    let mut out = String::new(alloc);
    write_mend(alloc, protocol, &mut out, mend, is_harmless)?;
    Ok(out)
}

/// Writes the same.
fn write_mend<P: Protocol>(
    alloc: Global,
    protocol: &P,
    out: &mut String,
    mend: &Option<Mend>,
    is_harmless: bool,
) -> Result<(), Memory>
    ensures { OnOk result (Adds (IsMending (P.names protocol.now) is_harmless mend.now) (string_bytes out.old) (string_bytes out.new)) }
{
    let text = match mend {
        Some(mend) => changes(alloc, protocol, mend, is_harmless)?,
        None => untried(alloc)?,
    };
    out.push_str("\n")?;
    out.push_str(text.as_str())
}

/// That no change was tried.
fn untried(alloc: Global) -> Result<String, Memory> {
    let most = MOST_MENDED;
    let text = format!(in alloc; "No fix was tried: fixes are tried for the first {most} causes.")?;
    paragraph(alloc, text.as_str(), INDENT, INDENT)
}

/// The changes that fix a cause, which is harmless or isn't.
fn changes<P: Protocol>(
    alloc: Global,
    protocol: &P,
    mend: &Mend,
    is_harmless: bool,
) -> Result<String, Memory>
    ensures { IfOk result (λ text. AreChanges (P.names protocol.now) is_harmless mend.now (string_bytes text)) }
{
    if is_harmless {
        wished(alloc, protocol, mend)
    } else {
        fixes(alloc, protocol, mend)
    }
}

/// That a harmless cause needs no fix, and what makes its cases hold all the same.
fn wished<P: Protocol>(alloc: Global, protocol: &P, mend: &Mend) -> Result<String, Memory>
    ensures { IfOk result (λ text. IsWished (P.names protocol.now) mend.now (string_bytes text)) }
{
    if !mend.accepted.is_empty() {
        wish(
            alloc,
            protocol,
            "To have the table accepted",
            &mend.accepted,
        )
    } else if !mend.safe.is_empty() {
        wish(alloc, protocol, "To have the table safe", &mend.safe)
    } else {
        wish(alloc, protocol, "To have its cases hold", &mend.mended)
    }
}

/// The same, of changes to an end.
fn wish<P: Protocol>(
    alloc: Global,
    protocol: &P,
    aim: &str,
    changes: &[Change],
) -> Result<String, Memory>
    ensures { IfOk result (λ text. IsWish (P.names protocol.now) aim.now changes.now (string_bytes text)) }
{
    match changes.first() {
        Some(first) => wish_of(alloc, protocol, aim, *first, changes),
        None => paragraph(alloc, "No fix is needed.", INDENT, INDENT),
    }
}

/// The same, where this is one of the changes.
fn wish_of<P: Protocol>(
    alloc: Global,
    protocol: &P,
    aim: &str,
    first: Change,
    changes: &[Change],
) -> Result<String, Memory>
    ensures { IfOk result (λ text. IsWishOf (P.names protocol.now) aim.now first changes.now (string_bytes text)) }
{
    let edit = edit_words(alloc, protocol, first, changes)?;
    let words = wish_words(alloc, aim, edit.as_str())?;
    let text = paragraph(alloc, words.as_str(), INDENT, INDENT)?;
    Ok(text)
}

/// The words of a wish for an edit.
fn wish_words(alloc: Global, aim: &str, edit: &str) -> Result<String, Memory>
    ensures { IfOk result (λ text. string_bytes text ≡ wish_words aim.now edit.now) }
{
    format!(in alloc; "No fix is needed. {aim}: {edit}.")
}

/// The fixes of a cause that isn't harmless, each with what holds then.
fn fixes<P: Protocol>(alloc: Global, protocol: &P, mend: &Mend) -> Result<String, Memory>
    ensures { IfOk result (λ text. AreFixes (P.names protocol.now) mend.now.accepted.items mend.now.safe.items mend.now.mended.items (string_bytes text)) }
{
    fixes_of(alloc, protocol, &mend.accepted, &mend.safe, &mend.mended)
}

/// The fixes by these changes: with the first the table is accepted, with others safe, and with the last the cause's cases
/// hold.
fn fixes_of<P: Protocol>(
    alloc: Global,
    protocol: &P,
    accepted: &[Change],
    safe: &[Change],
    mended: &[Change],
) -> Result<String, Memory>
    ensures { IfOk result (λ text. AreFixes (P.names protocol.now) accepted.now safe.now mended.now (string_bytes text)) }
{
    let is_second = is_without(accepted);
    let is_third = are_both(is_second, is_without(safe));
    let first = fix(
        alloc,
        protocol,
        "Fix",
        accepted,
        "The table is then accepted.",
    )?;
    let head = head_of(is_second);
    let second = fix(alloc, protocol, head, safe, "The table is then safe.")?;
    let head = head_of(is_third);
    let third = fix(
        alloc,
        protocol,
        head,
        mended,
        "The cases of this cause then hold.",
    )?;
    let remark = remark(alloc, are_both(is_third, is_without(mended)))?;
    let text = joined(alloc, &first, &second, &third, &remark)?;
    Ok(text)
}

/// Whether there are no changes.
fn is_without(changes: &[Change]) -> bool
    ensures { result ≡ is_without changes.now }
{
    changes.is_empty()
}

/// Whether both are true.
fn are_both(one: bool, other: bool) -> bool
    ensures { result ≡ (one && other) }
{
    one && other
}

/// The remark where no change was found.
fn remark(alloc: Global, is_none: bool) -> Result<String, Memory> {
    if is_none {
        let text = "No fix by a change of this entry alone was found.";
        paragraph(alloc, text, INDENT, INDENT)
    } else {
        Ok(String::new(alloc))
    }
}

/// Four texts, one behind the other.
fn joined(
    alloc: Global,
    first: &str,
    second: &str,
    third: &str,
    fourth: &str,
) -> Result<String, Memory>
    ensures { IfOk result (λ text. string_bytes text ≡ first.now ++ (second.now ++ (third.now ++ fourth.now))) }
{
    format!(in alloc; "{first}{second}{third}{fourth}")
}

/// How a fix begins: the first one, or another.
fn head_of(is_first: bool) -> &'static str
    ensures { result.now ≡ head_of is_first }
{
    if is_first { "Fix" } else { "Or" }
}

/// A fix, with how it begins and what holds then; nothing where there are no changes.
fn fix<P: Protocol>(
    alloc: Global,
    protocol: &P,
    head: &str,
    changes: &[Change],
    then: &str,
) -> Result<String, Memory>
    ensures { IfOk result (λ text. IsFix (P.names protocol.now) head.now then.now changes.now (string_bytes text)) }
{
    match changes.first() {
        Some(first) => fix_of(alloc, protocol, head, *first, changes, then),
        None => Ok(String::new(alloc)),
    }
}

/// The same, where this is one of the changes.
fn fix_of<P: Protocol>(
    alloc: Global,
    protocol: &P,
    head: &str,
    first: Change,
    changes: &[Change],
    then: &str,
) -> Result<String, Memory>
    ensures { IfOk result (λ text. IsFixOf (P.names protocol.now) head.now then.now first changes.now (string_bytes text)) }
{
    let edit = edit_words(alloc, protocol, first, changes)?;
    let words = fix_words(alloc, head, edit.as_str(), then)?;
    let text = paragraph(alloc, words.as_str(), INDENT, INDENT)?;
    Ok(text)
}

/// The words of a fix by an edit.
fn fix_words(alloc: Global, head: &str, edit: &str, then: &str) -> Result<String, Memory>
    ensures { IfOk result (λ text. string_bytes text ≡ fix_words head.now edit.now then.now) }
{
    format!(in alloc; "{head}: {edit}. {then}")
}
