//! Why a cause is harmless.

use crate::body::protected;
use crate::lists::{held_listed, joined, write_between};
use crate::wrap::write_joined;
use kr_cases::Memory;
use kr_model::{FailedCase, Mode};
use kr_protocol::{Protocol, name_or_empty};
use std::alloc::Global;

/// Modes that have the same to protect in some cases.
#[derive(Drop)]
struct Group {
    /// What they have to protect.
    covers: String,
    modes: Vec<Mode>,
}

/// Writes that a cause of these cases is harmless, since no transaction can hold the mode of any of them where it has the
/// case's cover to protect. The only fault is that a growth was refused.
pub fn write_never_held<P: Protocol>(
    alloc: Global,
    protocol: &P,
    out: &mut String,
    cases: &[FailedCase],
) -> Result<(), Memory> {
    let groups = groups(alloc, protocol, cases)?;
    let held = groups_listed(alloc, protocol, &groups)?;
    write_harmless(
        alloc,
        out,
        "in no schedule does a transaction hold ",
        held.as_str(),
        ".",
    )
}

/// Writes that a cause of these cases is harmless, since no transaction can come to request what the mode of one of them,
/// `held`, has to block and doesn't. The only fault is that a growth was refused.
pub fn write_never_let_in<P: Protocol>(
    alloc: Global,
    protocol: &P,
    out: &mut String,
    cases: &[FailedCase],
    held: &FailedCase,
) -> Result<(), Memory> {
    let why = never_let_in(alloc, protocol, held)?;
    write_harmless(alloc, out, why.as_str(), "", others_words(cases, held))
}

/// That the same is true of the other cases, where some aren't of the mode and cover of one; else nothing.
fn others_words(cases: &[FailedCase], held: &FailedCase) -> &'static str {
    if cases.iter().all(|case| is_alike(case, held)) {
        ""
    } else {
        " The same is true of the other cases, or no schedule reaches their locks."
    }
}

/// Whether two cases are of the same mode and cover.
fn is_alike(case: &FailedCase, other: &FailedCase) -> bool {
    case.mode == other.mode && case.cover == other.cover
}

/// Writes why a cause is harmless: three texts, one behind another.
fn write_harmless(
    alloc: Global,
    out: &mut String,
    first: &str,
    second: &str,
    third: &str,
) -> Result<(), Memory> {
    out.push_str("\n")?;
    write_harmless_of(alloc, out, first, second, third)
}

/// The same, without the empty line before it.
fn write_harmless_of(
    alloc: Global,
    out: &mut String,
    first: &str,
    second: &str,
    third: &str,
) -> Result<(), Memory> {
    write_joined(alloc, out, &["Harmless: ", first, second, third])
}

/// That nobody comes to request what the mode of this case has to block and doesn't.
fn never_let_in<P: Protocol>(
    alloc: Global,
    protocol: &P,
    case: &FailedCase,
) -> Result<String, Memory> {
    let covers = protected(alloc, &[*case], "or")?;
    if case.mode == 0 {
        return nothing_let_in(alloc, covers.as_str());
    }
    mode_let_in(alloc, name_or_empty(protocol, case.mode), covers.as_str())
}

/// The same, where no lock protects these covers.
fn nothing_let_in(alloc: Global, covers: &str) -> Result<String, Memory> {
    joined(
        alloc,
        &[
            "a transaction can hold no lock where it must protect ",
            covers,
            ", but no schedule leads another transaction to a request there that has to be blocked.",
        ],
    )
}

/// The same, where a mode protects these covers.
fn mode_let_in(alloc: Global, mode: &str, covers: &str) -> Result<String, Memory> {
    joined(
        alloc,
        &[
            "a transaction can hold ",
            mode,
            " where it must protect ",
            covers,
            ", but no schedule leads another transaction to a request there that ",
            mode,
            " has to block and does not.",
        ],
    )
}

/// The modes of the groups, each with what they have to protect, of which none is held.
fn groups_listed<P: Protocol>(
    alloc: Global,
    protocol: &P,
    groups: &[Group],
) -> Result<String, Memory> {
    let mut out = String::new(alloc);
    for at in 0..groups.len() {
        write_between(&mut out, at, groups.len(), "nor")?;
        write_group(alloc, protocol, &mut out, &groups[at])?;
    }
    Ok(out)
}

/// Writes the modes of a group, with what they have to protect.
fn write_group<P: Protocol>(
    alloc: Global,
    protocol: &P,
    out: &mut String,
    group: &Group,
) -> Result<(), Memory> {
    let modes = held_listed(alloc, protocol, &group.modes)?;
    out.push_str(modes.as_str())?;
    out.push_str(" where it must protect ")?;
    out.push_str(group.covers.as_str())
}

/// The modes of the cases, put together by what they have to protect.
fn groups<P: Protocol>(
    alloc: Global,
    protocol: &P,
    cases: &[FailedCase],
) -> Result<Vec<Group>, Memory> {
    let mut groups = Vec::new(alloc);
    for mode in 0..=protocol.count() {
        put_cases(alloc, &mut groups, cases, mode)?;
    }
    Ok(groups)
}

/// Puts a mode into the group that has the same to protect in the cases of that mode, where there are such.
fn put_cases(
    alloc: Global,
    groups: &mut Vec<Group>,
    cases: &[FailedCase],
    mode: Mode,
) -> Result<(), Memory> {
    let same = of_mode(alloc, cases, mode)?;
    if same.is_empty() {
        return Ok(());
    }
    let covers = protected(alloc, &same, "or")?;
    put_mode(alloc, groups, covers, mode)
}

/// The cases of a mode.
fn of_mode(alloc: Global, cases: &[FailedCase], mode: Mode) -> Result<Vec<FailedCase>, Memory> {
    let mut same = Vec::new(alloc);
    for case in cases {
        if case.mode == mode {
            same.push(*case)?;
        }
    }
    Ok(same)
}

/// Puts a mode into the group that has the same to protect, which is new where there is none.
fn put_mode(
    alloc: Global,
    groups: &mut Vec<Group>,
    covers: String,
    mode: Mode,
) -> Result<(), Memory> {
    for group in groups.iter_mut() {
        if group.covers.as_str() == covers.as_str() {
            group.modes.push(mode)?;
            return Ok(());
        }
    }
    let modes = vec![in alloc; mode]?;
    groups.push(Group { covers, modes })?;
    Ok(())
}
