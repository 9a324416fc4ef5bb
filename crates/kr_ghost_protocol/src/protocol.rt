//! What every locking protocol with ghosts answers.
ghost use Rattle.std.specs.Prelude.{◌≡◌, ◌≤◌};
ghost use Rattle.kr_ghost.specs.Protocol.{GhostProtocol, IsLawfulGhost, heir_of, inherits};
ghost use Rattle.kr_ghost.specs.Step as spec;

use kr_ghost::Vain;
use kr_protocol::{Mode, Protocol, Row, Side, Span};

/// A locking protocol of an index in which a deleted key stays as a ghost until it is purged. What it is as a `Protocol` are its
/// modes and its rows. No step asks what its delete requests on the next name, and only its insert may go by the own mode there.
/// No call takes memory or fails.
pub trait GhostProtocol: Protocol {
    /// Its tables, and what it says of ghosts.
    ghost ghosts: { Self → GhostProtocol };

    /// The mode that an insert of a ghost requests on it, and how long it is held. At `None` nothing is asked.
    fn revive(&self) -> Option<(Mode, Span)>
        ensures { result ≡ (ghosts self.now).revive };

    /// And on the next name. At `None` nothing is asked.
    fn revive_next(&self) -> Option<(Mode, Span)>
        ensures { result ≡ (ghosts self.now).revive_next };

    /// What the table's row for a vain step requests, and `None` where it has no such row: then the step requests what a fetch
    /// does that finds the same, as `vain_request` says.
    fn vain(&self, vain: Vain) -> Option<Option<(Mode, Span)>>
        ensures { result ≡ (ghosts self.now).vain vain };

    /// The mode that an insert of a present key requests on the next name, and how long it is held. At `None` nothing is asked.
    fn insert_hit_next(&self) -> Option<(Mode, Span)>
        ensures { result ≡ (ghosts self.now).insert_hit_next };

    /// Whether the locks on a ghost that is purged are inherited. Where they aren't, the purge waits until there are none.
    fn inherits(&self) -> bool
        ensures { result ≡ inherits (ghosts self.now).purges };

    /// The mode in which a lock in this mode on a ghost that is purged is inherited on the next name, 0 for none. Where locks
    /// aren't inherited, it is 0.
    fn heir(&self, mode: Mode) -> Mode
        requires { mode ≤ (Self.table self.now).count }
        ensures { result ≡ heir_of (ghosts self.now).purges mode };

    /// Its modes and rows are those that it has as a `Protocol`.
    ghost tables: { (p : Self) → (ghosts p).table ≡ Self.table p };

    /// What an insert of a ghost or a vain step requests is a mode, and so is an inherited one, if it is any.
    ghost lawful_ghosts: { (p : Self) → IsLawfulGhost (ghosts p) };
}

impl<P: GhostProtocol> GhostProtocol for &P {
    ghost ghosts = { λ p. P.ghosts p.now };

    fn revive(&self) -> Option<(Mode, Span)> {
        P::revive(*self)
    }

    fn revive_next(&self) -> Option<(Mode, Span)> {
        P::revive_next(*self)
    }

    fn vain(&self, vain: Vain) -> Option<Option<(Mode, Span)>> {
        P::vain(*self, vain)
    }

    fn insert_hit_next(&self) -> Option<(Mode, Span)> {
        P::insert_hit_next(*self)
    }

    fn inherits(&self) -> bool {
        P::inherits(*self)
    }

    fn heir(&self, mode: Mode) -> Mode {
        P::heir(*self, mode)
    }

    ghost tables = { λ p. P.tables p.now };

    ghost lawful_ghosts = { λ p. P.lawful_ghosts p.now };
}

/// What a vain step requests, and how long it is held: on its key for an insert, and on the next name for a delete or an update.
pub fn vain_request<P: GhostProtocol>(protocol: &P, vain: Vain) -> Option<(Mode, Span)>
    ensures { result ≡ spec.vain (P.ghosts protocol.now) vain }
{
    match protocol.vain(vain) {
        Some(asked) => asked,
        None => match vain {
            Vain::InsertHit => protocol.ask(Row::FetchHit, Side::Current, 0),
            Vain::DeleteMiss | Vain::UpdateMiss => protocol.ask(Row::FetchMiss, Side::Next, 0),
        },
    }
}
