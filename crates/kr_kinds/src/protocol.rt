//! What a locking protocol of either kind answers.
ghost use Rattle.std.specs.Prelude.{◌≡◌};
ghost use Rattle.kr_kinds.specs.Kinds.{HasTables, IndexProtocol, leaves_ghosts};

use kr_ghost_protocol::GhostProtocol;

/// A locking protocol that says its kind: whether its index keeps a deleted key as a ghost until it is purged. If it doesn't,
/// what the protocol answers about ghosts and vain steps counts for nothing.
pub trait IndexProtocol: GhostProtocol {
    /// Its tables, by its kind.
    ghost index: { Self → IndexProtocol };

    /// Whether a deleted key stays as a ghost. It takes no memory, and can't fail.
    fn leaves_ghosts(&self) -> bool
        ensures { result ≡ leaves_ghosts (index self.now) };

    /// They are the tables that it has as a `Protocol`, or as a `GhostProtocol`.
    ghost has_tables: { (p : Self) → HasTables (index p) (Self.table p) (Self.ghosts p) };
}
