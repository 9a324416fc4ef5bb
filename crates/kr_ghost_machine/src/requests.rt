//! What an operation requests, as a plan whose two sides are its requests.
ghost use Rattle.std.specs.Prelude.{◌≡◌, ◌++◌, Some};
ghost use Rattle.kr_model.specs.Locks.{AreWithin, own};
ghost use Rattle.kr_model.specs.Map.{after};
ghost use Rattle.kr_model.specs.Plan.{requests, side_request};
ghost use Rattle.kr_model.specs.declared.Name.TheVariants.{Key};
ghost use Rattle.kr_ghost.specs.declared.vain.Vain.TheVariants.{InsertHit};
ghost use Rattle.kr_ghost.specs.State.{named, stand_by};
ghost use Rattle.kr_ghost.specs.Step.{insert_requests, keyed_requests, look_requests, missed, on, vain};
ghost use Rattle.kr_plan.specs.Modes.{ArePlanModes};

use kr_ghost_index::{GhostIndex, Look};
use kr_ghost_protocol::{GhostProtocol, Side, Vain, vain_request};
use kr_locks::Holdings;
use kr_model::{Mode, Name, Plan, Row, Span, Txn};
use kr_plan::plan_at;

/// What a fetch, a delete or an update of a key requests, by the row of one that is a name: that row's lock on the key where
/// it is present or a ghost, and else one on the next name.
pub(crate) fn keyed<P: GhostProtocol, L: Holdings>(
    protocol: &P,
    locks: &L,
    txn: Txn,
    row: Row,
    key: u64,
    look: Look,
) -> Plan
    requires { AreWithin (P.table protocol.now).count (L.locks locks.now) }
    ensures requests { requests result ≡ keyed_requests (P.ghosts protocol.now) row key look.name (stand_by look.value look.is_ghost) }
    ensures modes { ArePlanModes (P.table protocol.now).count result }
{
    if look.value.is_some() || look.is_ghost {
        plan_at(protocol, locks, txn, row, Some(Name::Key(key)), None)
    } else {
        miss(protocol, row, look.name)
    }
}

/// What a fetch, a delete or an update of a key that is no name requests, by the row of one that is.
fn miss<P: GhostProtocol>(protocol: &P, row: Row, next: Name) -> Plan
    ensures requests { requests result ≡ on next (missed (P.ghosts protocol.now) row) }
    ensures modes { ArePlanModes (P.table protocol.now).count result }
{
    Plan {
        row: Row::FetchMiss,
        current: None,
        next: side(next, missed(protocol, row)),
    }
}

/// What it requests on the next name.
fn missed<P: GhostProtocol>(protocol: &P, row: Row) -> Option<(Mode, Span)>
    ensures { result ≡ missed (P.ghosts protocol.now) row }
{
    match row {
        Row::Delete => vain_request(protocol, Vain::DeleteMiss),
        Row::Update => vain_request(protocol, Vain::UpdateMiss),
        _ => protocol.ask(Row::FetchMiss, Side::Next, 0),
    }
}

/// The request on a name, where something is requested.
fn side(name: Name, asked: Option<(Mode, Span)>) -> Option<(Name, Mode, Span)>
    ensures { result ≡ side_request (Some name) asked }
{
    let (mode, span) = asked?;
    Some((name, mode, span))
}

/// What an insert of a key requests where the index has what `look` tells of it.
pub(crate) fn insert<P: GhostProtocol, L: Holdings>(
    protocol: &P,
    index: &GhostIndex,
    locks: &L,
    txn: Txn,
    key: u64,
    look: Look,
) -> Plan
    requires { AreWithin (P.table protocol.now).count (L.locks locks.now) }
    ensures requests { requests result ≡ insert_requests (P.ghosts protocol.now) key look.name (own (L.locks locks.now) txn look.name) (after (named index.now.map index.now.ghosts) key) (stand_by look.value look.is_ghost) }
    ensures modes { ArePlanModes (P.table protocol.now).count result }
{
    if look.value.is_some() {
        hit(protocol, index, key)
    } else if look.is_ghost {
        revive(protocol, index, key)
    } else {
        let (current, next) = (Some(Name::Key(key)), Some(look.name));
        plan_at(protocol, locks, txn, Row::Insert, current, next)
    }
}

/// What an insert of a present key requests on it, and on the least name above it.
fn hit<P: GhostProtocol>(protocol: &P, index: &GhostIndex, key: u64) -> Plan
    ensures requests { requests result ≡ on (Key key) (vain (P.ghosts protocol.now) InsertHit) ++ on (after (named index.now.map index.now.ghosts) key) (P.ghosts protocol.now).insert_hit_next }
    ensures modes { ArePlanModes (P.table protocol.now).count result }
{
    Plan {
        row: Row::FetchHit,
        current: side(Name::Key(key), vain_request(protocol, Vain::InsertHit)),
        next: above(index, key, protocol.insert_hit_next()),
    }
}

/// What an insert of a ghost requests on it, and on the least name above it.
fn revive<P: GhostProtocol>(protocol: &P, index: &GhostIndex, key: u64) -> Plan
    ensures requests { requests result ≡ on (Key key) (P.ghosts protocol.now).revive ++ on (after (named index.now.map index.now.ghosts) key) (P.ghosts protocol.now).revive_next }
    ensures modes { ArePlanModes (P.table protocol.now).count result }
{
    Plan {
        row: Row::Insert,
        current: side(Name::Key(key), protocol.revive()),
        next: above(index, key, protocol.revive_next()),
    }
}

/// The request on the least name above a key, which is looked for only where something is requested.
fn above(index: &GhostIndex, key: u64, asked: Option<(Mode, Span)>) -> Option<(Name, Mode, Span)>
    ensures { result ≡ side_request (Some (after (named index.now.map index.now.ghosts) key)) asked }
{
    let (mode, span) = asked?;
    Some((index.name_after(key), mode, span))
}

/// What a scan's step requests on a name, `hi` being the scan's greatest key.
pub(crate) fn look<P: GhostProtocol, L: Holdings>(
    protocol: &P,
    locks: &L,
    txn: Txn,
    name: Name,
    hi: u64,
) -> Plan
    requires { AreWithin (P.table protocol.now).count (L.locks locks.now) }
    ensures requests { requests result ≡ look_requests (P.ghosts protocol.now) name hi }
    ensures modes { ArePlanModes (P.table protocol.now).count result }
{
    let is_inside = match name {
        Name::Key(key) => key <= hi,
        Name::End => false,
    };
    if is_inside {
        plan_at(protocol, locks, txn, Row::ScanKey, Some(name), None)
    } else {
        plan_at(protocol, locks, txn, Row::ScanStop, None, Some(name))
    }
}
