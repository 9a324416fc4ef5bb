//! Verdicts on committed programs.
ghost use Rattle.std.specs.Prelude.{◌≡◌, ◌↔◌, IsTrue};
ghost use Rattle.kr_judge.specs.declared.verdict.Verdict.TheVariants as verdict_is;

use crate::{Reply, Txn};

/// What judging committed programs tells.
#[derive(Debug, Drop)]
pub enum Verdict {
    /// The programs are serializable in commit order: each answer is the one that the operation has when it is run whole,
    /// after the programs that committed before.
    Serial,
    /// They aren't, and this is the first answer in commit order that differs.
    NotSerial {
        /// Whose answer it is.
        txn: Txn,
        /// The number of the operation in its program, from 1.
        operation: u64,
        /// The answer that the transaction was given.
        given: Reply,
        /// The answer that the operation has when it is run whole.
        serial: Reply,
    },
}

impl Verdict {
    /// Whether the programs are serializable.
    pub fn is_serial(&self) -> bool
        ensures { IsTrue result ↔ (self.now ≡ verdict_is.Serial) }
    {
        match self {
            Verdict::Serial => true,
            Verdict::NotSerial { .. } => false,
        }
    }
}
