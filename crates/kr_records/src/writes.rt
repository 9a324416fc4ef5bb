//! The write of a place.
ghost use Rattle.std.specs.Prelude.{◌≡◌, ◌<◌, true, length, Some, IfOk, IfErr, slice_index_or};
ghost use Rattle.kr_records.specs.Faults.{is_of_write};
ghost use Rattle.kr_records.specs.Histories.{entry};

use crate::faults::EngineFault;
use crate::known::Known;
use crate::name::Entry;
use crate::row::PlaceRow;
use kr_model::{Event, Reply};
use std::alloc::Global;

/// Writes a place with an entry of this event and a copy of its reply. `PlaceTaken` where the place refuses it, and `Memory`
/// where a growth is refused.
pub fn written(
    alloc: Global,
    row: &PlaceRow,
    place: usize,
    seat: usize,
    event: Event,
    reply: &Reply,
) -> Result<Known<Entry>, EngineFault>
    requires { place < length row.now }
    ensures note { IfOk result (λ n. (n.cell ≡ slice_index_or row.now place 0) × (n.known ≡ Some (entry seat event reply.now))) }
    ensures faults { IfErr result (λ f. is_of_write f ≡ true) }
{
    let Ok(reply) = reply.try_copy(alloc) else {
        return Err(EngineFault::Memory);
    };
    let Ok(made) = Box::new(alloc, Entry { seat, event, reply }) else {
        return Err(EngineFault::Memory);
    };
    let cell = row.cell(place);
    let mut note = cell.note();
    match cell.set_as(made, &mut note) {
        Ok(()) => Ok(Known::of(&mut note)),
        Err(_) => Err(EngineFault::PlaceTaken),
    }
}
