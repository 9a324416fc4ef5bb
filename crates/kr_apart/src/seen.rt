//! What was seen before.

use crate::signature::Signature;
use kr_model::Memory;
use std::alloc::Global;

/// How many signatures there is room for: a power of 2.
const ROOM: usize = 65536;

/// How many places are looked at for one.
const MOST_LOOKS: usize = 256;

/// A set of signatures.
#[derive(Drop)]
pub(crate) struct Seen {
    places: Vec<Option<Signature>>,
}

impl Seen {
    /// None.
    pub(crate) fn new(alloc: Global) -> Result<Seen, Memory> {
        Ok(Seen {
            places: vec![in alloc; None; ROOM]?,
        })
    }

    /// Forgets all.
    pub(crate) fn clear(&mut self) {
        for place in self.places.iter_mut() {
            *place = None;
        }
    }

    /// Puts a signature in: whether it is new, and there was room for it.
    pub(crate) fn put(&mut self, signature: Signature) -> bool {
        let mut at = signature.hash();
        for _ in 0..MOST_LOOKS {
            let Some(place) = self.places.get_mut(at % ROOM) else {
                return false;
            };
            match *place {
                None => {
                    *place = Some(signature);
                    return true;
                }
                Some(other) => {
                    if other == signature {
                        return false;
                    }
                }
            }
            at = at.wrapping_add(1);
        }
        false
    }
}
