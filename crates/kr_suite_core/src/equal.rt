//! Whether two changes are the same.
ghost use Rattle.std.specs.Prelude.{◌≡◌};
ghost use Rattle.kr_suite_core.specs.Equal.{is_equal, is_same_bool, is_same_own};

use kr_change::{Change, is_same_place, is_same_request};

/// Whether the own modes are the same.
fn is_same_own(own: Option<u16>, other: Option<u16>) -> bool
    ensures { result ≡ is_same_own own other }
{
    match (own, other) {
        (Some(modes), Some(other_modes)) => modes == other_modes,
        (None, None) => true,
        _ => false,
    }
}

/// Whether two changes are the same.
pub(crate) fn is_equal(one: Change, other: Change) -> bool
    ensures { result ≡ is_equal one other }
{
    match (one, other) {
        (
            Change::Request {
                row,
                side,
                own_next,
                request,
            },
            Change::Request {
                row: other_row,
                side: other_side,
                own_next: other_own,
                request: other_request,
            },
        ) => {
            is_same_place(row, side, other_row, other_side)
                && (is_same_own(own_next, other_own) && is_same_request(request, other_request))
        }
        (
            Change::GhostRequest { row, side, request },
            Change::GhostRequest {
                row: other_row,
                side: other_side,
                request: other_request,
            },
        ) => row == other_row && side == other_side && is_same_request(request, other_request),
        (
            Change::Convert {
                held,
                requested,
                mode,
            },
            Change::Convert {
                held: other_held,
                requested: other_requested,
                mode: other_mode,
            },
        ) => held == other_held && (requested == other_requested && mode == other_mode),
        (
            Change::Heir { held, mode },
            Change::Heir {
                held: other_held,
                mode: other_mode,
            },
        ) => held == other_held && mode == other_mode,
        (
            Change::Compatible {
                requested,
                held,
                is_compatible,
            },
            Change::Compatible {
                requested: other_requested,
                held: other_held,
                is_compatible: is_other,
            },
        ) => {
            requested == other_requested
                && (held == other_held && is_same_bool(is_compatible, is_other))
        }
        _ => false,
    }
}

/// Whether both hold, or neither.
fn is_same_bool(one: bool, other: bool) -> bool
    ensures { result ≡ is_same_bool one other }
{
    if one { other } else { !other }
}
