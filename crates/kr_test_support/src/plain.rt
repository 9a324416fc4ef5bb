//! A protocol that keeps no transactions apart.
ghost use Rattle.std.specs.Prelude.{max, List, [], ◌∷◌, None, true, codes, refl};
ghost use Rattle.std.proofs.Common.{rules};
ghost use Rattle.kr_model.proofs.Tested.{lawful_by_test};

use kr_model::{Mode, Row, Side, Span};
use kr_protocol::Protocol;

/// Two modes, which are compatible with each other and are never requested. Updates are offered. The name of the second mode
/// has characters that a report has to escape.
#[derive(Clone, Copy, Debug, PartialEq, Eq)]
pub struct Plain;

impl Protocol for Plain {
    ghost table = { λ _. record { count = 2; ok = λ q h. true; convert = λ h q. max h q; ask = λ row side own. None; updates = true } };

    ghost names = { λ _. codes "S" ∷ (88 ∷ 34 ∷ 92 ∷ []) ∷ [] };

    fn count(&self) -> Mode {
        2
    }

    fn ok(&self, _requested: Mode, _held: Mode) -> bool {
        true
    }

    fn row(&self, _requested: Mode) -> u16 {
        0
    }

    fn convert(&self, held: Mode, requested: Mode) -> Mode {
        held.max(requested)
    }

    fn name(&self, mode: Mode) -> &str {
        match mode {
            0 => "none",
            1 => "S",
            _ => "X\"\\",
        }
    }

    fn ask(&self, _row: Row, _side: Side, _own_next: Mode) -> Option<(Mode, Span)> {
        None
    }

    fn updates(&self) -> bool {
        true
    }

    ghost lawful = { λ _. lawful_by_test (record { count = 2; ok = λ q h. true; convert = λ h q. max h q; ask = λ row side own. None; updates = true }) refl };

    ghost named = { λ _. Prim.search rules };
}
