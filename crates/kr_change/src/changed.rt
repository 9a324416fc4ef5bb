//! A protocol with one entry changed.
ghost use Rattle.std.specs.Prelude.{◌≡◌, ◌≤◌, IsTrue, IfSome, is_some};
ghost use Rattle.kr_model.specs.Protocol.{IsLawful};
ghost use Rattle.kr_change.specs.Changes.{changed, concerns, is_same_place};
ghost use Rattle.kr_change.specs.GhostChanges.{changed_ghosts, changed_index, ghost_ask_after, is_index_change, is_same_ghost_place, vain_ask_after};
ghost use Rattle.kr_change.specs.ChangedTables.{AsksModes, index_changed, lawful_changed, table_changed};

use crate::allowed::is_index_change;
use crate::change::{Change, GhostRow};
use kr_ghost::Vain;
use kr_ghost_protocol::GhostProtocol;
use kr_kinds::IndexProtocol;
use kr_model::{Mode, Row, Side, Span};
use kr_protocol::Protocol;

/// A protocol of either kind with one entry changed. It answers from the change and the protocol below, and takes no memory.
#[derive(Drop)]
pub struct Changed<'a, P: IndexProtocol> {
    base: &'a P,
    change: Change,
    ghost allowed: { IsTrue (is_index_change (P.index base.now) change) },
    ghost lawful: { IsLawful (changed (P.table base.now) change) },
    ghost asks: { AsksModes (changed_ghosts (P.ghosts base.now) change) },
}

/// Whether two such places are the same.
fn is_same_ghost_place(row: GhostRow, side: Side, other: GhostRow, other_side: Side) -> bool
    ensures { result ≡ is_same_ghost_place row side other other_side }
{
    row == other && side == other_side
}

/// What is requested at such a place after a change, where this was.
fn ghost_ask_after(
    change: Change,
    row: GhostRow,
    side: Side,
    now: Option<(Mode, Span)>,
) -> Option<(Mode, Span)>
    ensures { result ≡ ghost_ask_after change row side now }
{
    match change {
        Change::GhostRequest {
            row: changed_row,
            side: changed_side,
            request,
        } if is_same_ghost_place(changed_row, changed_side, row, side) => request,
        _ => now,
    }
}

/// The same at the row of a vain step.
fn vain_ask_after(change: Change, vain: Vain, now: Option<(Mode, Span)>) -> Option<(Mode, Span)>
    ensures { result ≡ vain_ask_after change vain now }
{
    match vain {
        Vain::InsertHit => ghost_ask_after(change, GhostRow::InsertHit, Side::Current, now),
        Vain::DeleteMiss => ghost_ask_after(change, GhostRow::DeleteMiss, Side::Next, now),
        Vain::UpdateMiss => ghost_ask_after(change, GhostRow::UpdateMiss, Side::Next, now),
    }
}

/// Whether two places of a table, each a row and a side, are the same. Takes no memory.
pub fn is_same_place(row: Row, side: Side, other_row: Row, other_side: Side) -> bool
    ensures { result ≡ is_same_place row side other_row other_side }
{
    row == other_row && side == other_side
}

/// Whether a change is of what is requested with the own mode on the next name.
fn concerns(own_next: Option<u16>, own: Mode) -> bool
    requires { own ≤ 15 }
    ensures { result ≡ concerns own_next own }
{
    match own_next {
        Some(modes) => modes >> own & 1 == 1,
        None => true,
    }
}

impl<'a, P: IndexProtocol> Changed<'a, P> {
    /// The protocol with the change, or `None` where the change isn't one of the protocol's: a number in it is no mode; or
    /// it is of an update where none is offered, of a row that the table doesn't have, of a side where the row requests no lock,
    /// by own modes at a row that doesn't go by them, or of an heir where nothing is inherited.
    pub fn new(base: &'a P, change: Change) -> Option<Changed<'a, P>>
        ensures exactly { is_some result ≡ is_index_change (P.index base.now) change }
        ensures base { IfSome result (λ c. c.base.now ≡ base.now) }
        ensures change { IfSome result (λ c. c.change ≡ change) }
    {
        if is_index_change(base, change) {
            Some(Changed { base, change })
        } else {
            None
        }
    }
}

impl<P: IndexProtocol> Protocol for Changed<'_, P> {
    ghost table = { λ c. changed (P.table c.base.now) c.change };

    ghost names = { λ c. P.names c.base.now };

    fn count(&self) -> Mode {
        self.base.count()
    }

    fn ok(&self, requested: Mode, held: Mode) -> bool {
        match self.change {
            Change::Compatible {
                requested: one,
                held: other,
                is_compatible,
            } => {
                if requested == one && held == other {
                    return is_compatible;
                }
                self.base.ok(requested, held)
            }
            _ => self.base.ok(requested, held),
        }
    }

    fn row(&self, requested: Mode) -> u16 {
        let row = self.base.row(requested);
        match self.change {
            Change::Compatible {
                requested: one,
                held,
                is_compatible,
            } => {
                if requested == one && is_compatible {
                    return row & !(1 << held);
                }
                if requested == one {
                    return row | 1 << held;
                }
                row
            }
            _ => row,
        }
    }

    fn convert(&self, held: Mode, requested: Mode) -> Mode {
        match self.change {
            Change::Convert {
                held: one,
                requested: other,
                mode,
            } => {
                if held == one && requested == other {
                    return mode;
                }
                self.base.convert(held, requested)
            }
            _ => self.base.convert(held, requested),
        }
    }

    fn name(&self, mode: Mode) -> &str {
        self.base.name(mode)
    }

    fn ask(&self, row: Row, side: Side, own_next: Mode) -> Option<(Mode, Span)> {
        match self.change {
            Change::Request {
                row: changed_row,
                side: changed_side,
                own_next: modes,
                request,
            } => {
                if is_same_place(changed_row, changed_side, row, side)
                    && concerns(modes, own_next)
                {
                    return request;
                }
                self.base.ask(row, side, own_next)
            }
            _ => self.base.ask(row, side, own_next),
        }
    }

    fn updates(&self) -> bool {
        self.base.updates()
    }

    ghost lawful = { λ c. c.lawful };

    ghost named = { λ c. P.named c.base.now };
}

impl<P: IndexProtocol> GhostProtocol for Changed<'_, P> {
    ghost ghosts = { λ c. changed_ghosts (P.ghosts c.base.now) c.change };

    fn revive(&self) -> Option<(Mode, Span)> {
        let now = self.base.revive();
        ghost_ask_after(self.change, GhostRow::Revive, Side::Current, now)
    }

    fn revive_next(&self) -> Option<(Mode, Span)> {
        let now = self.base.revive_next();
        ghost_ask_after(self.change, GhostRow::Revive, Side::Next, now)
    }

    fn vain(&self, vain: Vain) -> Option<Option<(Mode, Span)>> {
        match self.base.vain(vain) {
            Some(now) => Some(vain_ask_after(self.change, vain, now)),
            None => None,
        }
    }

    fn insert_hit_next(&self) -> Option<(Mode, Span)> {
        let now = self.base.insert_hit_next();
        ghost_ask_after(self.change, GhostRow::InsertHit, Side::Next, now)
    }

    fn inherits(&self) -> bool {
        self.base.inherits()
    }

    fn heir(&self, mode: Mode) -> Mode {
        match self.change {
            Change::Heir { held, mode: heir } if self.inherits() && held >> mode & 1 == 1 => heir,
            _ => self.base.heir(mode),
        }
    }

    ghost tables = { λ c. table_changed (P.table c.base.now) (P.ghosts c.base.now) (P.tables c.base.now) c.change };

    ghost lawful_ghosts = { λ c. lawful_changed (P.table c.base.now) (P.ghosts c.base.now) (P.tables c.base.now) c.change c.lawful c.asks };
}

impl<P: IndexProtocol> IndexProtocol for Changed<'_, P> {
    ghost index = { λ c. changed_index (P.index c.base.now) c.change };

    fn leaves_ghosts(&self) -> bool {
        self.base.leaves_ghosts()
    }

    ghost has_tables = { λ c. index_changed (P.index c.base.now) (P.table c.base.now) (P.ghosts c.base.now) (P.has_tables c.base.now) c.change };
}
