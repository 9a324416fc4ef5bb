//! The name of one run.

use std::marker::Brand;

/// Names the opening map of one run and the table of its protocol, for contracts alone. It has no calls.
pub trait GhostRunName {
    ghost use Rattle.kr_model.specs.Map.{Map};
    ghost use Rattle.kr_ghost.specs.Protocol.{GhostProtocol};

    /// Its index before the first move.
    ghost opening: { Map };

    /// The table of its protocol, with what it says of ghosts.
    ghost table: { GhostProtocol };
}

impl GhostRunName for Brand {
    ghost use Rattle.std.specs.Prelude.{[]};
    ghost use Rattle.kr_ghost.specs.Tables.{record_gap};

    ghost opening = { [] };

    ghost table = { record_gap };
}
