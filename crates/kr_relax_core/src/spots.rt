//! Which requests schedules bring beside which locks, by the modes alone.
ghost use Rattle.std.specs.Prelude.{IfOk};
ghost use Rattle.kr_relax_core.specs.Met.{AreApart, IsMetBy};

use crate::gone::gone_spots;
use crate::leaving::leaving_spots;
use crate::place::Spot;
use kr_kinds::{Gone, IndexProtocol, Leaves};
use kr_model::Memory;
use std::alloc::Global;

/// Finds which requests schedules bring beside which locks under a protocol of either kind, each once: those that one of two
/// transactions can come to make on a name while the other holds `held` there, told apart by place and modes alone; and with
/// ghosts, which locks are inherited on a name on which which are held. Each mode is at most the protocol's count, or 0 for no
/// lock. The lock may block the request or not, and the protocol may be unsafe. The only fault is that a growth was refused.
pub fn spots_of<P: IndexProtocol>(alloc: Global, protocol: &P) -> Result<Vec<Spot>, Memory>
    ensures met { IfOk result (λ spots. IsMetBy (P.index protocol.now) spots.items) }
    ensures apart { IfOk result (λ spots. AreApart spots.items) }
{
    if protocol.leaves_ghosts() {
        leaving_spots(alloc, &Leaves(protocol))
    } else {
        gone_spots(alloc, &Gone(protocol))
    }
}
