//! All failed cases of a protocol with ghosts, and how many cases there are.
//!
//! The functions go through cases in their order. Each puts those that fail behind the failed ones so far; it is refused
//! memory only where a case fails.
ghost use Rattle.std.specs.Prelude.{◌≡◌, ◌≢◌, ◌≤◌, ◌++◌, [], None, OnOk, OnErr, IfOk, length};
ghost use Rattle.std.specs.Option.{option_to_list};
ghost use Rattle.kr_ghost.specs.Covers.{cases, failed_cases, failure};
ghost use Rattle.kr_ghost_check.specs.Groups.{case_at, line, square, group, groups, failures, line_count};

use crate::requests::{count, has_row};
use crate::rules::{failure, first_own};
use kr_ghost::{Cover, FailedCase, Rule, Vain};
use kr_ghost_protocol::{GhostProtocol, Mode};
use kr_model::Memory;
use std::alloc::Global;

/// The groups of cases, in order.
fn groups() -> &'static [(Rule, Cover)]
    ensures { result.now ≡ groups }
{
    &[
        (Rule::Conversion, Cover::ReadKey),
        (Rule::Conversion, Cover::ReadGap),
        (Rule::Conversion, Cover::ChangedKey),
        (Rule::FetchHit, Cover::ReadKey),
        (Rule::FetchMiss, Cover::ReadGap),
        (Rule::ScanName, Cover::ReadKey),
        (Rule::ScanName, Cover::ReadGap),
        (Rule::ScanStop, Cover::ReadGap),
        (Rule::Insert, Cover::ChangedKey),
        (Rule::Split, Cover::ReadGap),
        (Rule::Delete, Cover::ChangedKey),
        (Rule::Update, Cover::ChangedKey),
        (Rule::Revive, Cover::ChangedKey),
        (Rule::Heir, Cover::ReadGap),
        (Rule::InsertHit, Cover::ReadKey),
        (Rule::DeleteMiss, Cover::ReadGap),
        (Rule::UpdateMiss, Cover::ReadGap),
    ]
}

/// One case.
fn test<P: GhostProtocol>(
    protocol: &P,
    failed: &mut Vec<FailedCase>,
    rule: Rule,
    cover: Cover,
    held: Mode,
    own: Mode,
) -> Result<(), Memory>
    requires held { held ≤ (P.ghosts protocol.now).table.count }
    requires own { own ≤ (P.ghosts protocol.now).table.count }
    ensures ok { OnOk result (failed.new.items ≡ failed.old.items
        ++ option_to_list (failure (P.ghosts protocol.now) (case_at (P.ghosts protocol.now) rule cover held own))) }
    ensures err { OnErr result (failure (P.ghosts protocol.now) (case_at (P.ghosts protocol.now) rule cover held own) ≢ None) }
{
    if let Some(failure) = failure(protocol, rule, cover, held, own) {
        failed.push(failure)?;
    }
    Ok(())
}

/// The cases of a rule and a cover at a held mode, by the own mode.
fn line<P: GhostProtocol>(
    protocol: &P,
    failed: &mut Vec<FailedCase>,
    rule: Rule,
    cover: Cover,
    held: Mode,
) -> Result<(), Memory>
    requires { held ≤ (P.ghosts protocol.now).table.count }
    ensures ok { OnOk result (failed.new.items ≡ failed.old.items
        ++ failures (P.ghosts protocol.now) (line (P.ghosts protocol.now) rule cover held)) }
    ensures err { OnErr result (failures (P.ghosts protocol.now) (line (P.ghosts protocol.now) rule cover held) ≢ []) }
{
    let first = first_own(rule);
    for own in first..count(protocol) + 1 {
        test(protocol, failed, rule, cover, held, own)?;
    }
    Ok(())
}

/// The same at each held mode.
fn square<P: GhostProtocol>(
    protocol: &P,
    failed: &mut Vec<FailedCase>,
    rule: Rule,
    cover: Cover,
) -> Result<(), Memory>
    ensures ok { OnOk result (failed.new.items ≡ failed.old.items
        ++ failures (P.ghosts protocol.now) (square (P.ghosts protocol.now) rule cover)) }
    ensures err { OnErr result (failures (P.ghosts protocol.now) (square (P.ghosts protocol.now) rule cover) ≢ []) }
{
    for held in 1..count(protocol) + 1 {
        line(protocol, failed, rule, cover, held)?;
    }
    Ok(())
}

/// The cases of a group: none of updates where none are offered, none of heirs where locks aren't inherited, and none of vain
/// steps of which the table has no row.
fn group<P: GhostProtocol>(
    protocol: &P,
    failed: &mut Vec<FailedCase>,
    pair: (Rule, Cover),
) -> Result<(), Memory>
    ensures ok { OnOk result (failed.new.items ≡ failed.old.items
        ++ failures (P.ghosts protocol.now) (group (P.ghosts protocol.now) pair)) }
    ensures err { OnErr result (failures (P.ghosts protocol.now) (group (P.ghosts protocol.now) pair) ≢ []) }
{
    let (rule, cover) = pair;
    match rule {
        Rule::Conversion => square(protocol, failed, rule, cover),
        Rule::Update | Rule::UpdateMiss if !protocol.updates() => Ok(()),
        Rule::InsertHit if !has_row(protocol, Vain::InsertHit) => Ok(()),
        Rule::DeleteMiss if !has_row(protocol, Vain::DeleteMiss) => Ok(()),
        Rule::UpdateMiss if !has_row(protocol, Vain::UpdateMiss) => Ok(()),
        Rule::Heir if protocol.inherits() => square(protocol, failed, rule, cover),
        Rule::Heir => Ok(()),
        _ => line(protocol, failed, rule, cover, 0),
    }
}

/// All cases of a protocol that don't hold, in order, each with the first requester that gets through. The list alone takes
/// memory, so it is refused only where a case fails.
pub fn failed_cases<P: GhostProtocol>(
    alloc: Global,
    protocol: &P,
) -> Result<Vec<FailedCase>, Memory>
    ensures ok { IfOk result (λ failed. failed.items ≡ failed_cases (P.ghosts protocol.now)) }
    ensures err { OnErr result (failed_cases (P.ghosts protocol.now) ≢ []) }
{
    let mut failed = Vec::new(alloc);
    for pair in groups() {
        group(protocol, &mut failed, *pair)?;
    }
    Ok(failed)
}

/// How many groups have a case for each own mode and for none: nine, and one for each row that not each table has.
fn lines<P: GhostProtocol>(protocol: &P) -> usize
    ensures lines { result ≡ line_count (P.ghosts protocol.now) }
    ensures few { result ≤ 13 }
{
    let updates = protocol.updates();
    let update_miss = updates && has_row(protocol, Vain::UpdateMiss);
    9 + usize::from(updates)
        + usize::from(has_row(protocol, Vain::InsertHit))
        + usize::from(has_row(protocol, Vain::DeleteMiss))
        + usize::from(update_miss)
}

/// The number of cases of a protocol.
pub fn cases<P: GhostProtocol>(protocol: &P) -> usize
    ensures { result ≡ length (cases (P.ghosts protocol.now)) }
{
    let modes = count(protocol) as usize;
    let heirs = if protocol.inherits() {
        modes * (modes + 1)
    } else {
        0
    };
    3 * (modes * modes) + lines(protocol) * (modes + 1) + heirs
}
