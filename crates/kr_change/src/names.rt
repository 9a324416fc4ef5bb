//! The name of a change: the entry of the table, with its other value.
ghost use Rattle.std.specs.Prelude.{◌≡◌, IfOk, string_bytes};
ghost use Rattle.kr_change.specs.ChangeNames.{change_words, heir_words, request_words, value_words, yes_or_no};

use crate::Change;
use crate::entries::entry_text;
use kr_model::{Memory, Mode, Span, span_word};
use kr_protocol::{Protocol, name_or_empty};
use std::alloc::Global;

/// The name of a change: which entry of the table it is of, and the value that the entry has then. The error is memory alone.
#[tactic(auto, unfolding(crate::specs::ChangeNames::change_words))]
pub fn change_text<P: Protocol>(
    alloc: Global,
    protocol: &P,
    change: Change,
) -> Result<String, Memory>
    ensures { IfOk result (λ text. string_bytes text ≡ change_words (P.table protocol.now) (P.names protocol.now) change) }
{
    let entry = entry_text(alloc, protocol, change)?;
    let value = value_text(alloc, protocol, change)?;
    format!(in alloc; "{entry}: {value}")
}

/// The value that the entry has with a change.
fn value_text<P: Protocol>(alloc: Global, protocol: &P, change: Change) -> Result<String, Memory>
    ensures { IfOk result (λ text. string_bytes text ≡ value_words (P.names protocol.now) change) }
{
    match change {
        Change::Compatible { is_compatible, .. } => {
            String::from_str(alloc, yes_or_no(is_compatible))
        }
        Change::Convert { mode, .. } => String::from_str(alloc, name_or_empty(protocol, mode)),
        Change::Request { request, .. } | Change::GhostRequest { request, .. } => {
            request_text(alloc, protocol, request)
        }
        Change::Heir { mode, .. } => String::from_str(alloc, heir_word(protocol, mode)),
    }
}

/// A mode that is inherited, or that none is.
#[tactic(auto, unfolding(crate::specs::ChangeNames::heir_words))]
pub(crate) fn heir_word<P: Protocol>(protocol: &P, mode: Mode) -> &str
    ensures { result.now ≡ heir_words (P.names protocol.now) mode }
{
    if mode == 0 {
        "none"
    } else {
        name_or_empty(protocol, mode)
    }
}

/// Whether two modes are compatible.
fn yes_or_no(is_so: bool) -> &'static str
    ensures { result.now ≡ yes_or_no is_so }
{
    if is_so { "yes" } else { "no" }
}

/// A request, or that nothing is requested.
#[tactic(auto, unfolding(crate::specs::ChangeNames::request_words))]
fn request_text<P: Protocol>(
    alloc: Global,
    protocol: &P,
    request: Option<(Mode, Span)>,
) -> Result<String, Memory>
    ensures { IfOk result (λ text. string_bytes text ≡ request_words (P.names protocol.now) request) }
{
    match request {
        None => String::from_str(alloc, "nothing"),
        Some((mode, span)) => {
            let mode = name_or_empty(protocol, mode);
            let span = span_word(span);
            format!(in alloc; "{mode} {span}")
        }
    }
}
