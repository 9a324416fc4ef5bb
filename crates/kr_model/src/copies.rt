//! Copies of replies and programs: each is equal to what it was made of, or an error tells that a growth was refused.

ghost use Rattle.std.specs.Prelude.{◌≡◌, IfOk};

use crate::{Answers, Pairs, Program, Programs, Reply, Txns};
use std::alloc::{AllocError, Global};

impl Pairs {
    /// A copy of the pairs, or an error where a growth is refused.
    pub fn try_copy(&self, alloc: Global) -> Result<Pairs, AllocError>
        ensures { IfOk result (λ copy. copy ≡ self.now) }
    {
        Ok(Pairs::from_vec(self.as_slice().to_vec(alloc)?))
    }
}

impl Txns {
    /// A copy of the numbers, or an error where a growth is refused.
    pub fn try_copy(&self, alloc: Global) -> Result<Txns, AllocError>
        ensures { IfOk result (λ copy. copy ≡ self.now) }
    {
        Ok(Txns::from_vec(self.as_slice().to_vec(alloc)?))
    }
}

impl Reply {
    /// A copy of the reply, or an error where a growth is refused. Only rows and blockers take memory.
    pub fn try_copy(&self, alloc: Global) -> Result<Reply, AllocError>
        ensures { IfOk result (λ copy. copy ≡ self.now) }
    {
        match self {
            Reply::Found(value) => Ok(Reply::Found(*value)),
            Reply::None => Ok(Reply::None),
            Reply::Going(key) => Ok(Reply::Going(*key)),
            Reply::Rows(rows) => Ok(Reply::Rows(rows.try_copy(alloc)?)),
            Reply::Done => Ok(Reply::Done),
            Reply::Duplicate => Ok(Reply::Duplicate),
            Reply::Deleted(value) => Ok(Reply::Deleted(*value)),
            Reply::Absent => Ok(Reply::Absent),
            Reply::Updated(value) => Ok(Reply::Updated(*value)),
            Reply::Committed => Ok(Reply::Committed),
            Reply::Aborted => Ok(Reply::Aborted),
            Reply::Undone(left) => Ok(Reply::Undone(*left)),
            Reply::Blocked(txns) => Ok(Reply::Blocked(txns.try_copy(alloc)?)),
            Reply::Refused(refusal) => Ok(Reply::Refused(*refusal)),
        }
    }
}

impl Answers {
    /// A copy of the operations with their answers, or an error where a growth is refused.
    pub fn try_copy(&self, alloc: Global) -> Result<Answers, AllocError>
        ensures { IfOk result (λ copy. copy ≡ self.now) }
    {
        let operations = self.as_slice();
        let mut list = Vec::with_capacity(alloc, operations.len())?;
        for (op, reply) in operations {
            let reply = reply.try_copy(alloc)?;
            list.push((*op, reply))?;
        }
        Ok(Answers::from_vec(list))
    }
}

impl Program {
    /// A copy of the program, or an error where a growth is refused.
    pub fn try_copy(&self, alloc: Global) -> Result<Program, AllocError>
        ensures { IfOk result (λ copy. copy ≡ self.now) }
    {
        Ok(Program {
            txn: self.txn,
            operations: self.operations.try_copy(alloc)?,
        })
    }
}

impl Programs {
    /// A copy of the programs, or an error where a growth is refused.
    pub fn try_copy(&self, alloc: Global) -> Result<Programs, AllocError>
        ensures { IfOk result (λ copy. copy ≡ self.now) }
    {
        let programs = self.as_slice();
        let mut list = Vec::with_capacity(alloc, programs.len())?;
        for program in programs {
            let program = program.try_copy(alloc)?;
            list.push(program)?;
        }
        Ok(Programs::from_vec(list))
    }
}
