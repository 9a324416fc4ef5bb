//! The first requester that a lock lets through, of those that a cover must conflict with.
ghost use Rattle.std.specs.Prelude.{◌≡◌, ◌≤◌, filter};
ghost use Rattle.kr_model.specs.Firsts.{first};
ghost use Rattle.kr_ghost.specs.Covers.{accesses, requesters, is_open, open_requesters, serves};

use crate::requests::{count, has_row, is_open};
use kr_ghost::{Access, Cover, Requester, Vain};
use kr_ghost_protocol::{GhostProtocol, Mode};

/// What a lock that has the cover must conflict with, in order.
fn accesses<P: GhostProtocol>(protocol: &P, cover: Cover) -> &'static [Access]
    ensures { result.now ≡ accesses (P.ghosts protocol.now) cover }
{
    let updates = protocol.updates();
    match (cover, has_row(protocol, Vain::InsertHit)) {
        (Cover::ReadKey, _) if updates => &[Access::Delete, Access::Revive, Access::Update],
        (Cover::ReadKey, _) => &[Access::Delete, Access::Revive],
        (Cover::ReadGap, _) => &[Access::Insert],
        (Cover::ChangedKey, true) if updates => &[
            Access::Fetch,
            Access::Scan,
            Access::InsertHit,
            Access::Delete,
            Access::Revive,
            Access::Update,
        ],
        (Cover::ChangedKey, true) => &[
            Access::Fetch,
            Access::Scan,
            Access::InsertHit,
            Access::Delete,
            Access::Revive,
        ],
        (Cover::ChangedKey, false) if updates => &[
            Access::Fetch,
            Access::Scan,
            Access::Delete,
            Access::Revive,
            Access::Update,
        ],
        (Cover::ChangedKey, false) => {
            &[Access::Fetch, Access::Scan, Access::Delete, Access::Revive]
        }
    }
}

/// The first requester of an access that gets through, by its own mode.
fn first_at<P: GhostProtocol>(protocol: &P, held: Mode, access: Access) -> Option<Requester>
    requires { held ≤ (P.ghosts protocol.now).table.count }
    ensures { result ≡ first (filter (is_open (P.ghosts protocol.now) held) (requesters (P.ghosts protocol.now) access)) }
{
    for own in 0..count(protocol) + 1 {
        let requester = Requester { access, own };
        if is_open(protocol, held, requester) {
            return Some(requester);
        }
    }
    None
}

/// The first requester that a lock in mode `held` lets through, of those that the cover must conflict with.
pub fn first_open<P: GhostProtocol>(protocol: &P, cover: Cover, held: Mode) -> Option<Requester>
    requires { held ≤ (P.ghosts protocol.now).table.count }
    ensures { result ≡ first (open_requesters (P.ghosts protocol.now) cover held) }
{
    for access in accesses(protocol, cover) {
        if let Some(requester) = first_at(protocol, held, *access) {
            return Some(requester);
        }
    }
    None
}

/// Whether a lock in mode `held` serves the cover.
pub(crate) fn serves<P: GhostProtocol>(protocol: &P, cover: Cover, held: Mode) -> bool
    requires { held ≤ (P.ghosts protocol.now).table.count }
    ensures { result ≡ serves (P.ghosts protocol.now) cover held }
{
    first_open(protocol, cover, held).is_none()
}
