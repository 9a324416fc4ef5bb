//! Scripts that may have purges.
ghost use Rattle.std.specs.Prelude.{◌≡◌};
ghost use Rattle.kr_script.specs.GhostScript.{IsGhostScript};

use kr_ghost::Move;
use std::marker::Model;

/// An opening index, in which there are no ghosts, and the moves to do on it, at most 100,000 pairs and 100,000 moves. The
/// opening keys rise strictly.
#[derive(Debug, Drop)]
pub struct GhostScript {
    opening: Vec<(u64, u64)>,
    moves: Vec<Move>,
}

impl Model for GhostScript {
    ghost use Rattle.kr_script.specs.GhostScript.{GhostScript, IsGhostScript};

    ghost Value = { GhostScript };

    ghost view = { λ s. record { opening = s.opening.items; moves = s.moves.items } };

    ghost invariant = { λ s. IsGhostScript (record { opening = s.opening.items; moves = s.moves.items }) };
}

impl GhostScript {
    /// The script of this opening index and these moves. Takes no memory.
    pub(crate) fn new(opening: Vec<(u64, u64)>, moves: Vec<Move>) -> GhostScript
        requires { IsGhostScript (record { opening = opening.items; moves = moves.items }) }
        ensures { result ≡ record { opening = opening.items; moves = moves.items } }
    {
        GhostScript { opening, moves }
    }

    /// The pairs of a key and its value in the index before the first move, keys rising.
    pub fn opening(&self) -> &[(u64, u64)]
        ensures pairs { result.now ≡ self.now.opening }
        ensures kept { IsGhostScript self.now }
    {
        &self.opening
    }

    /// The moves, in the order in which they are done.
    pub fn moves(&self) -> &[Move]
        ensures moves { result.now ≡ self.now.moves }
        ensures kept { IsGhostScript self.now }
    {
        &self.moves
    }
}
