//! The lock states that one transaction can have on a name.
ghost use Rattle.std.specs.Prelude.{◌≡◌, IfOk, IsTrue, ◌↔◌};
ghost use Rattle.kr_model.specs.Safe.{free};
ghost use Rattle.kr_alike.specs.Alone.{AreAlone};

use kr_decide::{FREE, pairs_of};
use kr_model::{LockState, Memory};
use kr_protocol::Protocol;
use std::alloc::Global;

/// Whether a transaction has nothing on the name.
fn is_free(state: LockState) -> bool
    ensures { IsTrue result ↔ (state ≡ free) }
{
    state == FREE
}

/// All lock states that a transaction can have on a name where no other has anything. The only fault is that a growth was
/// refused.
pub(crate) fn alone<P: Protocol>(alloc: Global, protocol: &P) -> Result<Vec<LockState>, Memory>
    ensures { IfOk result (λ states. AreAlone (P.table protocol.now) states.items) }
{
    let pairs = pairs_of(alloc, protocol)?;
    let mut states = Vec::new(alloc);
    for at in 0..pairs.len() {
        let pair = pairs[at];
        if is_free(pair.other) {
            states.push(pair.own)?;
        }
    }
    Ok(states)
}
