// A protocol of two modes for the tests: shared is compatible with shared, and a conversion takes the higher of the two.

ghost use Rattle.std.specs.Prelude.{ℕ, Bool, ◌&&◌, ◌||◌, ◌==◌, nat_lt, None, if◌then◌else◌, refl, [], ◌∷◌, codes, false};
ghost use Rattle.kr_model.proofs.Tested.{lawful_by_test};
ghost use Rattle.kr_model.proofs.NamesTested.{named_by_test};

use kr_locks::Mode;
use kr_protocol::{Protocol, Row, Side, Span};

/// The mode that readers share.
pub const SHARED: Mode = 1;

/// The mode of a single writer.
pub const EXCLUSIVE: Mode = 2;

/// It requests nothing: these tests call no operation.
#[derive(Clone, Copy)]
pub struct SharedExclusive;

impl Protocol for SharedExclusive {
    ghost table = { λ _. record { count = 2; ok = λ q h. q == 0 || h == 0 || (q == 1 && h == 1); convert = λ h q. if nat_lt h q then q else h; ask = λ row side own. None; updates = false } };

    ghost names = { λ _. codes "shared" ∷ codes "exclusive" ∷ [] };

    fn count(&self) -> u8 {
        2
    }

    fn ok(&self, q: u8, h: u8) -> bool {
        q == 0 || h == 0 || (q == 1 && h == 1)
    }

    fn row(&self, q: u8) -> u16 {
        match q {
            SHARED => 4,
            EXCLUSIVE => 6,
            _ => 0,
        }
    }

    fn convert(&self, h: u8, q: u8) -> u8 {
        if h < q { q } else { h }
    }

    fn name(&self, mode: u8) -> &str {
        match mode {
            SHARED => "shared",
            EXCLUSIVE => "exclusive",
            _ => "none",
        }
    }

    fn ask(&self, _row: Row, _side: Side, _own_next: u8) -> Option<(u8, Span)> {
        None
    }

    fn updates(&self) -> bool {
        false
    }

    ghost lawful = { λ _. lawful_by_test _ refl };

    ghost named = { λ _. named_by_test _ _ refl };
}
