//! Whether a script goes wrong.
ghost use Rattle.std.specs.Prelude.{◌≡◌, ◌↔◌, IfOk, IsTrue, All};
ghost use Rattle.kr_model.specs.Run.{is_granted};
ghost use Rattle.kr_model.specs.Serial.{AreSerial};
ghost use Rattle.kr_theorem.specs.Wrong.{GoesWrong};

use kr_cases::Memory;
use kr_model::{Event, Reply};
use kr_protocol::Protocol;
use kr_serial::{Ran, is_map, judge, run_any};
use std::alloc::Global;

/// Whether the script goes wrong under the table. The only fault is that a growth was refused.
pub(crate) fn goes_wrong<P: Protocol>(
    alloc: Global,
    protocol: &P,
    opening: &[(u64, u64)],
    events: &[Event],
) -> Result<bool, Memory>
    ensures { IfOk result (λ wrong. IsTrue wrong → GoesWrong (P.table protocol.now) opening.now events.now) }
{
    if !is_map(opening) {
        return Ok(false);
    }
    let ran = run_any(alloc, protocol, opening, events)?;
    is_wrong(alloc, &ran)
}

/// Whether no step of a run is blocked or refused, and the transactions that commit aren't serializable in commit order. The
/// only fault is that a growth was refused.
fn is_wrong(alloc: Global, ran: &Ran) -> Result<bool, Memory>
    ensures granted { IfOk result (λ wrong. IsTrue wrong → All (λ r. IsTrue (is_granted r)) ran.now.replies) }
    ensures not_serial { IfOk result (λ wrong. IsTrue wrong → AreSerial ran.now.opening ran.now.programs → ⊥) }
{
    if !ran.replies.as_slice().iter().all(is_granted) {
        return Ok(false);
    }
    Ok(!judge(alloc, ran)?.is_serial())
}

/// Whether a reply is neither blocked nor refused.
pub(crate) fn is_granted(reply: &Reply) -> bool
    ensures { result ≡ is_granted reply.now }
{
    !matches!(reply, Reply::Blocked(_) | Reply::Refused(_))
}
