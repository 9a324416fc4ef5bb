//! What is said of the request of a row, where it is to blame.
ghost use Rattle.std.specs.Prelude.{◌≡◌, ◌++◌, IfOk, codes, string_bytes};

use crate::lists::joined;
use kr_cases::Memory;
use std::alloc::Global;

/// That a row requests no lock. The only fault of each of these is that a growth was refused.
pub fn nothing_sentence(alloc: Global, row: &str, side: &str) -> Result<String, Memory>
    ensures { IfOk result (λ text. string_bytes text ≡ codes "`" ++ (row.now ++ (codes "` requests no lock on " ++ (side.now ++ codes ".")))) }
{
    joined(alloc, &["`", row, "` requests no lock on ", side, "."])
}

/// That the lock of a row is released too early.
pub fn early_sentence(alloc: Global, row: &str, side: &str) -> Result<String, Memory>
    ensures { IfOk result (λ text. string_bytes text ≡ codes "`" ++ (row.now ++ (codes "` releases its lock on " ++ (side.now ++ codes " too early.")))) }
{
    joined(
        alloc,
        &["`", row, "` releases its lock on ", side, " too early."],
    )
}

/// That a row requests too weak a lock.
pub fn weak_sentence(alloc: Global, row: &str, side: &str, mode: &str) -> Result<String, Memory>
    ensures { IfOk result (λ text. string_bytes text ≡ codes "`" ++ (row.now ++ (codes "` requests too weak a lock on " ++ (side.now ++ (codes ": " ++ (mode.now ++ codes ".")))))) }
{
    joined(
        alloc,
        &[
            "`",
            row,
            "` requests too weak a lock on ",
            side,
            ": ",
            mode,
            ".",
        ],
    )
}
