//! The report of a check of a table with ghosts, as JSON on one line.
ghost use Rattle.std.specs.Prelude.{◌≡◌, IfOk, string_bytes};
ghost use Rattle.serde_json.specs.View.{view};
ghost use Rattle.kr_report.specs.GhostCheckReport.{own_next, requester_data, failed_data, failed_list, check_data, check_text};

use crate::check_reports::from_value;
use crate::values::{accepted_value, case_value, rejected_value, request_value};
use kr_ghost::{Access, FailedCase, Requester, access_words, cover_code, rule_code};
use kr_ghost_check::cases;
use kr_ghost_protocol::GhostProtocol;
use kr_model::Mode;
use kr_protocol::{Protocol, name_or_empty};
use serde_json::Value;
use std::alloc::{AllocError, Global};

fn own_next(requester: Requester) -> Mode
    ensures { result ≡ own_next requester.access requester.own }
{
    match requester.access {
        Access::Insert => requester.own,
        Access::Fetch | Access::Scan | Access::Delete | Access::Update | Access::Revive => 0,
        Access::InsertHit => 0,
    }
}

fn requester_value<P: Protocol>(
    alloc: Global,
    protocol: &P,
    requester: Requester,
) -> Result<Value, AllocError>
    ensures { IfOk result (λ v. view v ≡ requester_data (P.names protocol.now) requester) }
{
    let (row, side) = access_words(requester.access);
    let own = name_or_empty(protocol, requester.own);
    let own_next = name_or_empty(protocol, own_next(requester));
    request_value(alloc, row, side, own, own_next)
}

fn failed_value<P: Protocol>(
    alloc: Global,
    protocol: &P,
    failed: FailedCase,
) -> Result<Value, AllocError>
    ensures { IfOk result (λ v. view v ≡ failed_data (P.names protocol.now) failed) }
{
    let case = rule_code(failed.case);
    let cover = cover_code(failed.cover);
    let from = from_value(alloc, protocol, failed.from)?;
    let mode = name_or_empty(protocol, failed.mode);
    let open = requester_value(alloc, protocol, failed.hole)?;
    case_value(alloc, case, cover, from, mode, open)
}

fn failed_values<P: Protocol>(
    alloc: Global,
    protocol: &P,
    failed: &[FailedCase],
) -> Result<Value, AllocError>
    ensures { IfOk result (λ v. view v ≡ failed_list (P.names protocol.now) failed.now) }
{
    let mut list = Vec::new(alloc);
    for case in failed {
        list.push(failed_value(alloc, protocol, *case)?)?;
    }
    Ok(Value::Array(list))
}

fn check_value<P: GhostProtocol>(
    alloc: Global,
    protocol: &P,
    failed: &[FailedCase],
) -> Result<Value, AllocError>
    ensures { IfOk result (λ v. view v ≡ check_data (P.ghosts protocol.now) (P.names protocol.now) failed.now) }
{
    let modes = protocol.count();
    let cases = cases(protocol);
    if failed.is_empty() {
        return accepted_value(alloc, cases, modes);
    }
    let failed = failed_values(alloc, protocol, failed)?;
    rejected_value(alloc, cases, failed, modes)
}

/// The report of a check that found these failed cases of a protocol with ghosts, in their order; none is the report of a
/// protocol that is accepted. Compact JSON on one line, with no line feed. The error is memory alone.
#[tactic(auto, using(crate::proofs::NoFloats::no_float_in_ghost_check))]
pub fn report_ghost_check<P: GhostProtocol>(
    alloc: Global,
    protocol: &P,
    failed: &[FailedCase],
) -> Result<String, AllocError>
    ensures text { IfOk result (λ text. string_bytes text
        ≡ check_text (P.ghosts protocol.now) (P.names protocol.now) failed.now) }
{
    check_value(alloc, protocol, failed)?.to_string(alloc)
}
