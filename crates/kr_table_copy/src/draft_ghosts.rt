//! The text of a protocol with ghosts as a table. No contract says what it is, either.

use crate::draft::Draft;
use kr_ghost::Vain;
use kr_ghost_protocol::GhostProtocol;
use kr_model::{Memory, Row, Side};
use kr_protocol::Protocol;
use std::alloc::Global;

impl Draft {
    /// What becomes of the locks on a ghost that is purged. It comes before all members that have a head of their own.
    fn purge<P: GhostProtocol>(&mut self, protocol: &P) -> Result<(), Memory> {
        if !protocol.inherits() {
            return self.text("purge = \"unlocked\"\n");
        }
        self.text("purge = { ")?;
        for mode in 1..protocol.count() + 1 {
            if mode > 1 {
                self.text(", ")?;
            }
            self.name(mode)?;
            self.text(" = ")?;
            self.name(protocol.heir(mode))?;
        }
        self.text(" }\n")
    }

    /// The format, the names of the modes, and what becomes of the locks on a ghost that is purged.
    fn ghost_head<P: GhostProtocol>(&mut self, protocol: &P) -> Result<(), Memory> {
        self.text("format = 3\ndeletes = \"ghosts\"\n")?;
        self.mode_names(protocol)?;
        self.purge(protocol)
    }

    /// The rows of writes that find something to do. Only that of an insert of an absent key goes by the own mode.
    fn ghost_writes<P: GhostProtocol>(&mut self, protocol: &P) -> Result<(), Memory> {
        self.both_sides(protocol, Row::Insert)?;
        self.row("revive")?;
        self.request(Side::Next, protocol.revive_next())?;
        self.request(Side::Current, protocol.revive())?;
        self.one_side(protocol, Row::Delete, Side::Current)?;
        self.one_side(protocol, Row::Update, Side::Current)
    }

    /// The row of a delete or an update of no name, if the protocol has it.
    fn miss<P: GhostProtocol>(
        &mut self,
        protocol: &P,
        word: &str,
        vain: Vain,
    ) -> Result<(), Memory> {
        if let Some(request) = protocol.vain(vain) {
            self.row(word)?;
            self.request(Side::Next, request)?;
        }
        Ok(())
    }

    /// The rows of vain steps that the protocol has.
    fn vain_rows<P: GhostProtocol>(&mut self, protocol: &P) -> Result<(), Memory> {
        if let Some(request) = protocol.vain(Vain::InsertHit) {
            self.row("insert-hit")?;
            self.request(Side::Next, protocol.insert_hit_next())?;
            self.request(Side::Current, request)?;
        }
        self.miss(protocol, "delete-miss", Vain::DeleteMiss)?;
        self.miss(protocol, "update-miss", Vain::UpdateMiss)
    }
}

/// The text of a protocol as a table of format 3, in TOML. The error is memory alone.
pub(crate) fn ghost_draft_text<P: GhostProtocol>(
    alloc: Global,
    protocol: &P,
) -> Result<String, Memory> {
    let mut draft = Draft::new(alloc, protocol)?;
    draft.ghost_head(protocol)?;
    draft.modes(protocol)?;
    draft.reads(protocol)?;
    draft.ghost_writes(protocol)?;
    draft.vain_rows(protocol)?;
    Ok(draft.out)
}
