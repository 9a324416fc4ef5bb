//! Where what an engine logged first differs from what a table answers.
ghost use Rattle.std.specs.Prelude.{◌≡◌, IfOk};

use kr_model::{Items, Memory, Mode, Name, Refusal, Reply, Txn, Txns};
use std::alloc::Global;

/// A held lock that conflicts with a request of a step.
#[derive(Clone, Copy, Debug, PartialEq, Eq)]
pub struct Conflict {
    /// The name that is locked.
    pub name: Name,
    /// The transaction that holds the lock.
    pub holder: Txn,
    /// The mode that it holds.
    pub held: Mode,
    /// The number of the line since which it holds the lock in this mode.
    pub since: u64,
    /// The mode that the step requests on the name.
    pub asked: Mode,
    /// The converted mode in which the request is tested: that of the requester's own mode on the name and `asked`.
    pub tested: Mode,
}

/// The first line of a part that differs from what the table answers.
#[derive(Debug, Drop)]
pub struct Deviation {
    /// The number of the line in its file, from 1.
    pub line: u64,
    /// How it differs.
    pub kind: DeviationKind,
}

/// How a line differs from what the table answers.
#[derive(Debug, Drop)]
pub enum DeviationKind {
    /// The engine granted what the table blocks: this is the dangerous kind.
    Granted {
        /// Whom the table names as blockers, rising, each once.
        blockers: Txns,
        /// The held locks that conflict with the step.
        conflicts: Items<Conflict>,
    },
    /// The engine blocked what the table grants with this reply, and no step that waits explains it.
    Blocked(Reply),
    /// The engine and the table block the step, and the engine names blockers that aren't.
    Blockers {
        /// Those that the engine names, and that neither hold a lock that conflicts nor wait ahead.
        misnamed: Txns,
        /// Whom the table names, rising, each once.
        blockers: Txns,
    },
    /// The engine and the table grant the step, and the table has this other reply.
    Answer(Reply),
    /// The transaction may not take this step.
    Refused(Refusal),
}

impl DeviationKind {
    /// A copy of the kind, or `Memory` where a growth is refused.
    pub fn try_copy(&self, alloc: Global) -> Result<DeviationKind, Memory>
        ensures { IfOk result (λ copy. copy ≡ self.now) }
    {
        match self {
            DeviationKind::Granted {
                blockers,
                conflicts,
            } => Ok(DeviationKind::Granted {
                blockers: blockers.try_copy(alloc)?,
                conflicts: Items::from_vec(conflicts.as_slice().to_vec(alloc)?),
            }),
            DeviationKind::Blocked(reply) => Ok(DeviationKind::Blocked(reply.try_copy(alloc)?)),
            DeviationKind::Blockers { misnamed, blockers } => Ok(DeviationKind::Blockers {
                misnamed: misnamed.try_copy(alloc)?,
                blockers: blockers.try_copy(alloc)?,
            }),
            DeviationKind::Answer(reply) => Ok(DeviationKind::Answer(reply.try_copy(alloc)?)),
            DeviationKind::Refused(refusal) => Ok(DeviationKind::Refused(*refusal)),
        }
    }
}

impl Deviation {
    /// A copy of the deviation, or `Memory` where a growth is refused.
    pub fn try_copy(&self, alloc: Global) -> Result<Deviation, Memory>
        ensures { IfOk result (λ copy. copy ≡ self.now) }
    {
        Ok(Deviation {
            line: self.line,
            kind: self.kind.try_copy(alloc)?,
        })
    }
}
