//! What one history of a transaction gives under two protocols.
ghost use Rattle.std.specs.Prelude.{◌≡◌, ◌≤◌, ◌<◌, ◌+◌, ◌*◌, All, IfOk, OnOk, length};
ghost use Rattle.kr_kinds.specs.Kinds.{table_of};
ghost use Rattle.kr_relax_core.specs.Met.{IsMet, IsMetBy};
ghost use Rattle.kr_relax_core.specs.Twins.{HasTwins, Grows, IsFoundWell, IsTwin, AreTwins, LeadsTo, LeadsNexts, LeadsOwns, LeadsAll};

use crate::place::{Request, Spot, mode_then};
use kr_kinds::IndexProtocol;
use kr_model::{Memory, Mode};
use std::alloc::Global;

/// The mode of a transaction on a name under one protocol, and its mode there under another, by the same requests: 0 for no
/// lock, and at most the protocols' count.
#[derive(Clone, Copy, PartialEq, Eq)]
pub struct Twin {
    pub mode: Mode,
    pub twin: Mode,
}

/// The twins that were found so far.
#[derive(Drop)]
struct Twins {
    twins: Vec<Twin>,
    /// Of each two modes, whether they haven't been found.
    unseen: Vec<bool>,
}

/// A number for two modes.
fn twin_number(mode: Mode, twin: Mode) -> usize
    requires mode { mode ≤ 15 }
    requires twin { twin ≤ 15 }
    ensures value { result ≡ mode * 16 + twin }
    ensures below { result < 256 }
{
    mode as usize * 16 + twin as usize
}

impl Twins {
    /// At first nobody has a lock.
    fn new<P: IndexProtocol, Q: IndexProtocol>(
        alloc: Global,
        base: &P,
        other: &Q,
    ) -> Result<Twins, Memory>
        requires { (table_of (Q.index other.now)).count ≡ (table_of (P.index base.now)).count }
        ensures { IfOk result (IsFoundWell (P.index base.now) (Q.index other.now)) }
    {
        let _ = base;
        let _ = other;
        let mut twins = Vec::new(alloc);
        let mut unseen = vec![in alloc; true; 256]?;
        twins.push(Twin { mode: 0, twin: 0 })?;
        unseen[0] = false;
        Ok(Twins { twins, unseen })
    }

    /// Adds what a request leads to under the two protocols, where its own modes are twins.
    fn add<P: IndexProtocol, Q: IndexProtocol>(
        &mut self,
        base: &P,
        other: &Q,
        request: Request,
        own: Mode,
        next: Mode,
    ) -> Result<(), Memory>
        requires same { (table_of (Q.index other.now)).count ≡ (table_of (P.index base.now)).count }
        requires well { IsFoundWell (P.index base.now) (Q.index other.now) self.old }
        requires is_met { IsMet (P.index base.now) request.place request.own request.next 0 }
        requires own_twin { IsTwin (P.index base.now) (Q.index other.now) (record { mode = request.own; twin = own }) }
        requires next_twin { IsTwin (P.index base.now) (Q.index other.now) (record { mode = request.next; twin = next }) }
        ensures grows { OnOk result (Grows (P.index base.now) (Q.index other.now) self.old self.new) }
        ensures leads { OnOk result (LeadsTo (P.index base.now) (Q.index other.now) self.new.twins.items request own next) }
    {
        let mode = mode_then(base, request);
        let there = Request {
            place: request.place,
            own,
            next,
        };
        let twin = mode_then(other, there);
        let number = twin_number(mode, twin);
        if self.unseen[number] {
            self.twins.push(Twin { mode, twin })?;
            self.unseen[number] = false;
        }
        Ok(())
    }

    /// The same with each of these twins on the next name.
    fn add_nexts<P: IndexProtocol, Q: IndexProtocol>(
        &mut self,
        base: &P,
        other: &Q,
        from: &[Twin],
        request: Request,
        own: Mode,
    ) -> Result<(), Memory>
        requires same { (table_of (Q.index other.now)).count ≡ (table_of (P.index base.now)).count }
        requires well { IsFoundWell (P.index base.now) (Q.index other.now) self.old }
        requires from { All (IsTwin (P.index base.now) (Q.index other.now)) from.now }
        requires is_met { IsMet (P.index base.now) request.place request.own request.next 0 }
        requires own_twin { IsTwin (P.index base.now) (Q.index other.now) (record { mode = request.own; twin = own }) }
        ensures grows { OnOk result (Grows (P.index base.now) (Q.index other.now) self.old self.new) }
        ensures leads { OnOk result (LeadsNexts (P.index base.now) (Q.index other.now) self.new.twins.items from.now (length from.now) request own) }
    {
        for at in 0..from.len() {
            let next = from[at];
            if next.mode == request.next {
                self.add(base, other, request, own, next.twin)?;
            }
        }
        Ok(())
    }

    /// The same with each of them on the name.
    fn add_owns<P: IndexProtocol, Q: IndexProtocol>(
        &mut self,
        base: &P,
        other: &Q,
        from: &[Twin],
        request: Request,
    ) -> Result<(), Memory>
        requires same { (table_of (Q.index other.now)).count ≡ (table_of (P.index base.now)).count }
        requires well { IsFoundWell (P.index base.now) (Q.index other.now) self.old }
        requires from { All (IsTwin (P.index base.now) (Q.index other.now)) from.now }
        requires is_met { IsMet (P.index base.now) request.place request.own request.next 0 }
        ensures grows { OnOk result (Grows (P.index base.now) (Q.index other.now) self.old self.new) }
        ensures leads { OnOk result (LeadsOwns (P.index base.now) (Q.index other.now) self.new.twins.items from.now (length from.now) request) }
    {
        for at in 0..from.len() {
            let own = from[at];
            if own.mode == request.own {
                self.add_nexts(base, other, from, request, own.twin)?;
            }
        }
        Ok(())
    }

    /// The same for each request that is met beside no lock.
    fn add_all<P: IndexProtocol, Q: IndexProtocol>(
        &mut self,
        base: &P,
        other: &Q,
        from: &[Twin],
        spots: &[Spot],
    ) -> Result<(), Memory>
        requires same { (table_of (Q.index other.now)).count ≡ (table_of (P.index base.now)).count }
        requires well { IsFoundWell (P.index base.now) (Q.index other.now) self.old }
        requires from { All (IsTwin (P.index base.now) (Q.index other.now)) from.now }
        requires spots { IsMetBy (P.index base.now) spots.now }
        ensures grows { OnOk result (Grows (P.index base.now) (Q.index other.now) self.old self.new) }
        ensures leads { OnOk result (LeadsAll (P.index base.now) (Q.index other.now) self.new.twins.items from.now spots.now (length spots.now)) }
    {
        for at in 0..spots.len() {
            let spot = spots[at];
            if spot.held == 0 {
                self.add_owns(base, other, from, spot.request)?;
            }
        }
        Ok(())
    }
}

/// Finds the twins under two protocols, each once: each mode that a transaction can come to hold on a name under `base`, with
/// each mode that it then holds there under `other`, after the same requests, which are all granted. One that has requested
/// nothing has the twins 0 and 0. With ghosts, what is inherited counts as requests do. A mode can have several twins, and 0 can have a twin that is a lock. Requests follow by
/// modes alone: where two histories give one mode, what can follow the one counts for the other too. The two protocols have
/// as many modes and are of one kind, and `spots` is what `spots_of` finds for `base`. The only fault is that a growth was refused.
pub fn twins_of<P: IndexProtocol, Q: IndexProtocol>(
    alloc: Global,
    base: &P,
    other: &Q,
    spots: &[Spot],
) -> Result<Vec<Twin>, Memory>
    requires same { (table_of (Q.index other.now)).count ≡ (table_of (P.index base.now)).count }
    requires spots { IsMetBy (P.index base.now) spots.now }
    ensures { IfOk result (λ list. HasTwins (P.index base.now) (Q.index other.now) list.items) }
{
    let mut found = Twins::new(alloc, base, other)?;
    loop {
        let from = found.twins.as_slice().to_vec(alloc)?;
        found.add_all(base, other, &from, spots)?;
        if found.twins.len() == from.len() {
            return Ok(from);
        }
    }
}
