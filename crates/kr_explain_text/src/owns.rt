//! For which own modes on the next key an edit of a request is.

use crate::lists::modes_listed;
use kr_cases::Memory;
use kr_model::{Mode, Row, Side, Span};
use kr_protocol::{Protocol, asked, converted};
use std::alloc::Global;

/// For which own modes on the next key a request changes; nothing where it is for all, or makes no difference for the others.
pub(crate) fn owns_words<P: Protocol>(
    alloc: Global,
    protocol: &P,
    row: Row,
    side: Side,
    own_next: Option<u16>,
    modes: &[Mode],
    span: Span,
) -> Result<String, Memory> {
    let Some(changed) = own_next else {
        return Ok(String::new(alloc));
    };
    let owns = owns_in(alloc, protocol, changed)?;
    if is_for_all(protocol, row, side, changed, modes, span) {
        return Ok(String::new(alloc));
    }
    owns_listed(alloc, protocol, &owns)
}

/// For which own modes on the next key a request changes.
fn owns_listed<P: Protocol>(alloc: Global, protocol: &P, owns: &[Mode]) -> Result<String, Memory> {
    let owns = modes_listed(alloc, protocol, owns)?;
    format!(in alloc; " where the own mode on the next key is {owns}")
}

/// The own modes of a set, rising.
fn owns_in<P: Protocol>(alloc: Global, protocol: &P, set: u16) -> Result<Vec<Mode>, Memory> {
    let mut owns = Vec::new(alloc);
    for own in 0..=protocol.count() {
        if set >> own & 1 == 1 {
            owns.push(own)?;
        }
    }
    Ok(owns)
}

/// Whether a request of these modes makes no difference for the own modes that are not in a set.
fn is_for_all<P: Protocol>(
    protocol: &P,
    row: Row,
    side: Side,
    set: u16,
    modes: &[Mode],
    span: Span,
) -> bool {
    for own in 0..=protocol.count() {
        if set >> own & 1 == 0 && !are_same_requests(protocol, row, side, own, modes, span) {
            return false;
        }
    }
    true
}

/// Whether a request of each of these modes is tested and held as what the row requests with this own mode.
fn are_same_requests<P: Protocol>(
    protocol: &P,
    row: Row,
    side: Side,
    own: Mode,
    modes: &[Mode],
    span: Span,
) -> bool {
    for mode in modes {
        if !is_same_request(protocol, row, side, own, *mode, span) {
            return false;
        }
    }
    true
}

/// Whether a request of this mode and duration, in place of what a row requests with this own mode on the next key, is tested
/// and held in the same modes.
fn is_same_request<P: Protocol>(
    protocol: &P,
    row: Row,
    side: Side,
    own_next: Mode,
    mode: Mode,
    span: Span,
) -> bool {
    match asked(protocol, row, side, own_next) {
        None => false,
        Some(old) if old == (mode, span) => true,
        Some((old, old_span)) => {
            let tested = converted(protocol, own_next, mode);
            side == Side::Next
                && converted(protocol, own_next, old) == tested
                && held_after(own_next, tested, old_span) == held_after(own_next, tested, span)
        }
    }
}

/// The mode that is held after a request that was tested in a mode.
fn held_after(own: Mode, tested: Mode, span: Span) -> Mode {
    match span {
        Span::Instant => own,
        Span::Commit => tested,
    }
}
