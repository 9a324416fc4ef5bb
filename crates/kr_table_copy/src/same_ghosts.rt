//! Whether two protocols with ghosts answer the same.
ghost use Rattle.std.specs.Prelude.{◌≡◌, ◌+◌, IsTrue};
ghost use Rattle.kr_ghost.specs.declared.vain.Vain.{Vain};
ghost use Rattle.kr_kinds.specs.Kinds.{Leaves};
ghost use Rattle.kr_table_copy.specs.declared.copying.Copy.TheVariants as copied;
ghost use Rattle.kr_table_copy.specs.Same.{IsCopy, SameHeirs, SaysOfGhostsAs};

use crate::same::{answers_as, has_same_names, is_same_request};
use kr_ghost::Vain;
use kr_ghost_protocol::GhostProtocol;
use kr_ghost_table::GhostTable;
use kr_protocol::{Mode, Protocol, Span};

/// Whether two rows are the same: both request the same, or there is neither.
fn is_same_row(row: Option<Option<(Mode, Span)>>, other: Option<Option<(Mode, Span)>>) -> bool
    ensures { IsTrue result → row ≡ other }
{
    match (row, other) {
        (Some(row), Some(other)) => is_same_request(row, other),
        (None, None) => true,
        _ => false,
    }
}

/// Whether a vain step has the same row under both, or none.
fn has_same_row<P: GhostProtocol, Q: GhostProtocol>(one: &P, other: &Q, vain: Vain) -> bool
    ensures { IsTrue result → (Q.ghosts other.now).vain vain ≡ (P.ghosts one.now).vain vain }
{
    is_same_row(other.vain(vain), one.vain(vain))
}

/// Whether each vain step has the same row under both, or none.
fn has_same_vain_rows<P: GhostProtocol, Q: GhostProtocol>(one: &P, other: &Q) -> bool
    ensures { IsTrue result → ((vain : Vain) → (Q.ghosts other.now).vain vain ≡ (P.ghosts one.now).vain vain) }
{
    has_same_row(one, other, Vain::InsertHit)
        && has_same_row(one, other, Vain::DeleteMiss)
        && has_same_row(one, other, Vain::UpdateMiss)
}

/// Whether locks on a ghost that is purged are inherited in the same modes under both.
fn has_same_heirs<P: GhostProtocol, Q: GhostProtocol>(one: &P, other: &Q) -> bool
    requires { (Q.table other.now).count ≡ (P.table one.now).count }
    ensures { IsTrue result → SameHeirs (P.ghosts one.now) (Q.ghosts other.now) ((P.table one.now).count + 1) }
{
    for mode in 0..one.count() + 1 {
        if other.heir(mode) != one.heir(mode) {
            return false;
        }
    }
    true
}

/// Whether a protocol says of ghosts, of vain steps and of purges what another one says.
fn says_of_ghosts_as<P: GhostProtocol, Q: GhostProtocol>(one: &P, other: &Q) -> bool
    requires { (Q.table other.now).count ≡ (P.table one.now).count }
    ensures { IsTrue result → SaysOfGhostsAs (P.ghosts one.now) (Q.ghosts other.now) }
{
    is_same_request(other.revive(), one.revive())
        && is_same_request(other.revive_next(), one.revive_next())
        && has_same_vain_rows(one, other)
        && is_same_request(other.insert_hit_next(), one.insert_hit_next())
        && other.inherits() == one.inherits()
        && has_same_heirs(one, other)
}

/// Whether a table with ghosts answers as a protocol does, with the same names of its modes.
pub(crate) fn is_ghost_copy<P: GhostProtocol>(protocol: &P, table: &GhostTable) -> bool
    ensures { IsTrue result → IsCopy (Leaves (P.ghosts protocol.now)) (P.names protocol.now) (copied.Leaving table.now) }
{
    answers_as(protocol, table)
        && says_of_ghosts_as(protocol, table)
        && has_same_names(protocol, table)
}
