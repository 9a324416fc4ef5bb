//! Whether a protocol of either kind is safe.
ghost use Rattle.std.specs.Prelude.{◌↔◌, IsTrue, IfOk};
ghost use Rattle.kr_model.specs.Safe.{IsSafe};
ghost use Rattle.kr_kinds.specs.Kinds.{IsSafeIndex};

use kr_decide::{Decision, decide};
use kr_ghost_decide::is_safe_ghost;
use kr_kinds::IndexProtocol;
use kr_model::Memory;
use kr_protocol::Protocol;
use std::alloc::Global;

/// Whether a protocol is safe, where a deleted key goes at once.
fn is_safe_gone<P: Protocol>(alloc: Global, protocol: &P) -> Result<bool, Memory>
    ensures { IfOk result (λ safe. IsTrue safe ↔ IsSafe (P.table protocol.now)) }
{
    match decide(alloc, protocol)? {
        Decision::Safe => Ok(true),
        Decision::Unsafe(_) => Ok(false),
    }
}

/// Whether a protocol is safe, of either kind: then every run under it is serializable in commit order. The error is memory alone.
pub fn is_safe_index<P: IndexProtocol>(alloc: Global, protocol: &P) -> Result<bool, Memory>
    ensures { IfOk result (λ safe. IsTrue safe ↔ IsSafeIndex (P.index protocol.now)) }
{
    if protocol.leaves_ghosts() {
        is_safe_ghost(alloc, protocol)
    } else {
        is_safe_gone(alloc, protocol)
    }
}
