//! A run up to a marked step.
ghost use Rattle.std.specs.Prelude.{◌≡◌, IfOk, IfSome};
ghost use Rattle.kr_model.specs.Locks.{own};
ghost use Rattle.kr_explain_runs.specs.Moments.{IsMomentAt};

use crate::access::{Access, access_in};
use crate::counterexample::Counterexample;
use crate::leading::own;
use kr_cases::Memory;
use kr_model::{Mode, Name, Txn};
use kr_protocol::Protocol;
use kr_serial::{Ran, Triples, run_any};
use std::alloc::Global;

/// A step of a script that requests locks: who takes it, what it requests, and the locks that are held before it.
#[derive(Drop)]
pub(crate) struct Moment {
    /// The place of the step, from 0.
    pub place: usize,
    /// The locks before the step.
    pub locks: Triples,
    pub txn: Txn,
    pub access: Access,
}

impl Moment {
    /// The mode that a transaction has on a name before the step.
    pub(crate) fn mode(&self, txn: Txn, name: Name) -> Mode
        ensures { result ≡ own self.now.locks txn name }
    {
        own(self.locks.as_slice(), txn, name)
    }
}

/// The step at a place, from 0, of a script, if it requests locks. The only fault is that a growth was refused.
pub(crate) fn moment_at<P: Protocol>(
    alloc: Global,
    protocol: &P,
    script: &Counterexample,
    place: usize,
) -> Result<Option<Moment>, Memory>
    ensures { IfOk result (λ found. IfSome found (IsMomentAt (P.table protocol.now) script.now place)) }
{
    let (opening, events) = (script.opening.as_slice(), script.events.as_slice());
    let Some(event) = events.get(place) else {
        return Ok(None);
    };
    let ran = run_any(alloc, protocol, opening, &events[..place])?;
    let Some(access) = access_in(ran.index.as_slice(), event.op) else {
        return Ok(None);
    };
    Ok(Some(Moment {
        place,
        locks: locks_of(ran),
        txn: event.txn,
        access,
    }))
}

/// The locks that a run leaves.
fn locks_of(ran: Ran) -> Triples
    ensures { result ≡ ran.locks }
{
    ran.locks
}
