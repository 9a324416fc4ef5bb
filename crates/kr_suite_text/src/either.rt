//! What is told of a protocol of either kind by its table.
ghost use Rattle.std.specs.Prelude.{◌≡◌, IfOk, string_bytes};
ghost use Rattle.kr_change.specs.ChangeNames.{change_words};
ghost use Rattle.kr_kinds.specs.Kinds.{table_of};

use kr_change::{Change, change_text};
use kr_kinds::IndexProtocol;
use kr_model::Memory;
use std::alloc::Global;

/// The name of a change.
pub(crate) fn name_of<P: IndexProtocol>(
    alloc: Global,
    protocol: &P,
    change: Change,
) -> Result<String, Memory>
    ensures { IfOk result (λ text. string_bytes text ≡ change_words (table_of (P.index protocol.now)) (P.names protocol.now) change) }
{
    change_text(alloc, protocol, change)
}

/// Whether it offers updates.
pub(crate) fn offers_updates<P: IndexProtocol>(protocol: &P) -> bool
    ensures { result ≡ (table_of (P.index protocol.now)).updates }
{
    protocol.updates()
}
