//! The report of a check, as JSON on one line.
ghost use Rattle.std.specs.Prelude.{◌≡◌, IfOk, string_bytes};
ghost use Rattle.serde_json.specs.View.{view};
ghost use Rattle.kr_report.specs.CheckReport.{from_data, place_data, failed_data, failed_list, check_data, check_text};

use crate::values::{
    accepted_value, case_value, one_value, rejected_value, request_value, two_value,
};
use kr_cases::{FailedCase, cases};
use kr_model::{Origin, Requester, cover_code, row_word, rule_code, side_word};
use kr_protocol::{Protocol, name_or_empty};
use serde_json::Value;
use std::alloc::{AllocError, Global};

/// The names of the modes that a case is taken at.
pub(crate) fn from_value<P: Protocol>(
    alloc: Global,
    protocol: &P,
    from: Origin,
) -> Result<Value, AllocError>
    ensures { IfOk result (λ v. view v ≡ from_data (P.names protocol.now) from) }
{
    match from {
        Origin::Own(own) => one_value(alloc, name_or_empty(protocol, own)),
        Origin::Conversion { held, asked } => {
            let held = name_or_empty(protocol, held);
            let asked = name_or_empty(protocol, asked);
            two_value(alloc, held, asked)
        }
        Origin::Insert { own_next, own } => {
            let own_next = name_or_empty(protocol, own_next);
            let own = name_or_empty(protocol, own);
            two_value(alloc, own_next, own)
        }
    }
}

fn place_value<P: Protocol>(
    alloc: Global,
    protocol: &P,
    place: Requester,
) -> Result<Value, AllocError>
    ensures { IfOk result (λ v. view v ≡ place_data (P.names protocol.now) place) }
{
    let row = row_word(place.row);
    let side = side_word(place.side);
    let own = name_or_empty(protocol, place.own);
    let own_next = name_or_empty(protocol, place.own_next);
    request_value(alloc, row, side, own, own_next)
}

fn failed_value<P: Protocol>(
    alloc: Global,
    protocol: &P,
    failed: FailedCase,
) -> Result<Value, AllocError>
    ensures { IfOk result (λ v. view v ≡ failed_data (P.names protocol.now) failed) }
{
    let case = rule_code(failed.case);
    let cover = cover_code(failed.cover);
    let from = from_value(alloc, protocol, failed.from)?;
    let mode = name_or_empty(protocol, failed.mode);
    let open = place_value(alloc, protocol, failed.hole)?;
    case_value(alloc, case, cover, from, mode, open)
}

fn failed_values<P: Protocol>(
    alloc: Global,
    protocol: &P,
    failed: &[FailedCase],
) -> Result<Value, AllocError>
    ensures { IfOk result (λ v. view v ≡ failed_list (P.names protocol.now) failed.now) }
{
    let mut list = Vec::new(alloc);
    for case in failed {
        list.push(failed_value(alloc, protocol, *case)?)?;
    }
    Ok(Value::Array(list))
}

fn check_value<P: Protocol>(
    alloc: Global,
    protocol: &P,
    failed: &[FailedCase],
) -> Result<Value, AllocError>
    ensures { IfOk result (λ v. view v ≡ check_data (P.table protocol.now) (P.names protocol.now) failed.now) }
{
    let modes = protocol.count();
    let cases = cases(modes, protocol.updates());
    if failed.is_empty() {
        return accepted_value(alloc, cases, modes);
    }
    let failed = failed_values(alloc, protocol, failed)?;
    rejected_value(alloc, cases, failed, modes)
}

/// The report of a check that found these failed cases of a protocol, in their order; none is the report of a protocol
/// that is accepted. Compact JSON on one line, with no line feed. The error is memory alone.
#[tactic(auto, using(crate::proofs::NoFloats::no_float_in_check))]
pub fn report_check<P: Protocol>(
    alloc: Global,
    protocol: &P,
    failed: &[FailedCase],
) -> Result<String, AllocError>
    ensures text { IfOk result (λ text. string_bytes text
        ≡ check_text (P.table protocol.now) (P.names protocol.now) failed.now) }
{
    check_value(alloc, protocol, failed)?.to_string(alloc)
}
