//! The values that the reports of both kinds of check are made of.
ghost use Rattle.std.specs.Prelude.{◌≡◌, IfOk};
ghost use Rattle.serde_json.specs.Data.{array, item, no_items, string};
ghost use Rattle.serde_json.specs.View.{view};
ghost use Rattle.kr_report.specs.CheckReport.{accepted_data, case_data, rejected_data, request_data};

use kr_model::Mode;
use serde_json::{Value, json};
use std::alloc::{AllocError, Global};

/// The report of a check of which all cases hold, so many, of a protocol with so many modes.
pub(crate) fn accepted_value(alloc: Global, cases: usize, modes: Mode) -> Result<Value, AllocError>
    ensures { IfOk result (λ v. view v ≡ accepted_data cases modes) }
{
    json!(in alloc; {"accepted": true, "cases": cases, "modes": modes})
}

/// The same where these of the cases fail.
pub(crate) fn rejected_value(
    alloc: Global,
    cases: usize,
    failed: Value,
    modes: Mode,
) -> Result<Value, AllocError>
    ensures { IfOk result (λ v. view v ≡ rejected_data cases (view failed) modes) }
{
    json!(in alloc; {"accepted": false, "cases": cases, "failed": failed, "modes": modes})
}

/// A case that fails, by the codes of its group and of what a lock has to protect, the modes that it is taken at, the mode that
/// lets a request through, and this request.
pub(crate) fn case_value(
    alloc: Global,
    case: &str,
    cover: &str,
    from: Value,
    mode: &str,
    let_in: Value,
) -> Result<Value, AllocError>
    ensures { IfOk result (λ v. view v ≡ case_data case.now cover.now (view from) mode.now (view let_in)) }
{
    json!(in alloc; {"case": case, "cover": cover, "from": from, "mode": mode, "open": let_in})
}

/// One name.
pub(crate) fn one_value(alloc: Global, name: &str) -> Result<Value, AllocError>
    ensures { IfOk result (λ v. view v ≡ array (item (string name.now) no_items)) }
{
    json!(in alloc; [name])
}

/// Two names.
pub(crate) fn two_value(alloc: Global, first: &str, second: &str) -> Result<Value, AllocError>
    ensures { IfOk result (λ v. view v ≡ array (item (string first.now) (item (string second.now) no_items))) }
{
    json!(in alloc; [first, second])
}

/// A request that is let through: its row and its side, and the requester's own modes on the name and on the next name.
pub(crate) fn request_value(
    alloc: Global,
    row: &str,
    side: &str,
    own: &str,
    own_next: &str,
) -> Result<Value, AllocError>
    ensures { IfOk result (λ v. view v ≡ request_data row.now side.now own.now own_next.now) }
{
    json!(in alloc; [row, side, own, own_next])
}
