//! Which pairs of modes schedules bring together.
ghost use Rattle.std.specs.Prelude.{◌≡◌, ◌≤◌, ◌<◌, ◌+◌, ◌*◌, IsTrue, IfOk, length, replicate, set, true, false};
ghost use Rattle.kr_model.specs.declared.Row.TheVariants as row;
ghost use Rattle.kr_model.specs.declared.Side.TheVariants as side;
ghost use Rattle.kr_model.specs.Safe.{Beside, free};
ghost use Rattle.kr_decide.specs.Findings.{IsGoing, AreNexts};
ghost use Rattle.kr_decide.specs.Met.{marked, Requests, IsSound, Adds, IsMarked, MarksAt, MarksPlainly, MarksByNexts, MarksMost, MarksAll, MarksBelow, AreDone};

use crate::finding::Found;
use crate::moves::{FREE, given, may_ask, may_beside};
use crate::pair::Pair;
use kr_model::{LockState, Memory, Mode, Row, Side};
use kr_protocol::Protocol;
use std::alloc::Global;

/// The pairs of modes that schedules bring together, 0 for no lock among them. A pair has its place in each list: the first
/// mode times 16, and the second.
#[derive(Drop)]
pub(crate) struct Met {
    /// Of a converted mode and a held one, whether a request is tested in the one beside another transaction's lock in the
    /// other.
    tested: Vec<bool>,
    /// Of a held mode and a requested one, whether a transaction that holds the one on a name requests the other there.
    asked: Vec<bool>,
}

/// The place of a pair of modes.
fn place(first: Mode, second: Mode) -> usize
    requires first { first ≤ 15 }
    requires second { second ≤ 15 }
    ensures value { result ≡ first * 16 + second }
    ensures below { result < 256 }
{
    first as usize * 16 + second as usize
}

/// Whether a pair of modes is marked. A number past the modes is none.
fn is_marked(list: &[bool], first: Mode, second: Mode) -> bool
    ensures { result ≡ marked list.now first second }
{
    if first > 15 || second > 15 {
        return false;
    }
    let at = place(first, second);
    if at < list.len() { list[at] } else { false }
}

impl Met {
    /// At first nothing is known to be so.
    fn new<P: Protocol>(alloc: Global, protocol: &P) -> Result<Met, Memory>
        ensures { IfOk result (IsSound (P.table protocol.now)) }
    {
        let _ = protocol;
        Ok(Met {
            tested: vec![in alloc; false; 256]?,
            asked: vec![in alloc; false; 256]?,
        })
    }

    /// Marks what a transaction with the mode `own` brings together, which requests a mode beside another's lock.
    fn add<P: Protocol>(&mut self, protocol: &P, own: LockState, other: LockState, mode: Mode)
        requires sound { IsSound (P.table protocol.now) self.old }
        requires own { own.mode ≤ (P.table protocol.now).count }
        requires other { other.mode ≤ (P.table protocol.now).count }
        requires mode { mode ≤ (P.table protocol.now).count }
        requires requests { Requests (P.table protocol.now) own other mode }
        ensures adds { Adds (P.table protocol.now) self.old self.new }
        ensures marked { IsMarked (P.table protocol.now) self.new own other mode }
    {
        let converted = protocol.convert(own.mode, mode);
        self.tested[place(converted, other.mode)] = true;
        self.asked[place(own.mode, mode)] = true;
    }

    /// Marks what the request of a row at a side brings together, where the transaction may come to make it.
    fn add_request<P: Protocol>(
        &mut self,
        protocol: &P,
        row: Row,
        side: Side,
        own: LockState,
        other: LockState,
        next: LockState,
    )
        requires sound { IsSound (P.table protocol.now) self.old }
        requires own { own.mode ≤ (P.table protocol.now).count }
        requires other { other.mode ≤ (P.table protocol.now).count }
        requires next { next.mode ≤ (P.table protocol.now).count }
        requires beside { Beside (P.table protocol.now) own other }
        requires alone { Beside (P.table protocol.now) next free }
        ensures adds { Adds (P.table protocol.now) self.old self.new }
        ensures marks { MarksAt (P.table protocol.now) self.new row side own other next }
    {
        if !may_ask(protocol, row, side, own, next) || !may_beside(protocol, row, side, other) {
            return;
        }
        if let Some((mode, _)) = protocol.ask(row, side, given(row, side, own, next)) {
            self.add(protocol, own, other, mode);
        }
    }

    /// The same of the requests that don't go by the next name.
    fn add_plain<P: Protocol>(&mut self, protocol: &P, own: LockState, other: LockState)
        requires sound { IsSound (P.table protocol.now) self.old }
        requires own { own.mode ≤ (P.table protocol.now).count }
        requires other { other.mode ≤ (P.table protocol.now).count }
        requires beside { Beside (P.table protocol.now) own other }
        ensures adds { Adds (P.table protocol.now) self.old self.new }
        ensures marks { MarksPlainly (P.table protocol.now) self.new own other }
    {
        self.add_request(protocol, Row::FetchHit, Side::Current, own, other, FREE);
        self.add_request(protocol, Row::FetchMiss, Side::Next, own, other, FREE);
        self.add_request(protocol, Row::ScanKey, Side::Current, own, other, FREE);
        self.add_request(protocol, Row::ScanStop, Side::Next, own, other, FREE);
        self.add_request(protocol, Row::Insert, Side::Next, own, other, FREE);
        self.add_request(protocol, Row::Delete, Side::Next, own, other, FREE);
        self.add_request(protocol, Row::Update, Side::Current, own, other, FREE);
    }

    /// The same of a row at the current name, with each lock state on the next name.
    fn add_nexts<P: Protocol>(
        &mut self,
        protocol: &P,
        found: &Found,
        row: Row,
        own: LockState,
        other: LockState,
    )
        requires sound { IsSound (P.table protocol.now) self.old }
        requires going { IsGoing (P.table protocol.now) found.now (length found.now.pairs.items) }
        requires own { own.mode ≤ (P.table protocol.now).count }
        requires other { other.mode ≤ (P.table protocol.now).count }
        requires beside { Beside (P.table protocol.now) own other }
        ensures adds { Adds (P.table protocol.now) self.old self.new }
        ensures marks { MarksByNexts (P.table protocol.now) self.new found.now.nexts.items (length found.now.nexts.items) row own other }
    {
        if !may_beside(protocol, row, Side::Current, other) {
            return;
        }
        for at in 0..found.nexts.len() {
            let next = found.nexts[at].state;
            self.add_request(protocol, row, Side::Current, own, other, next);
        }
    }

    /// The same of all but inserts of the key, which go by the two modes alone. `done` tells of which two modes they have been
    /// marked.
    fn add_once<P: Protocol>(
        &mut self,
        protocol: &P,
        found: &Found,
        own: LockState,
        other: LockState,
        done: &mut Vec<bool>,
    )
        requires sound { IsSound (P.table protocol.now) self.old }
        requires going { IsGoing (P.table protocol.now) found.now (length found.now.pairs.items) }
        requires own { own.mode ≤ (P.table protocol.now).count }
        requires other { other.mode ≤ (P.table protocol.now).count }
        requires beside { Beside (P.table protocol.now) own other }
        requires done { AreDone (P.table protocol.now) self.old found.now.nexts.items done.old.items }
        ensures adds { Adds (P.table protocol.now) self.old self.new }
        ensures marks { MarksMost (P.table protocol.now) self.new found.now.nexts.items own other }
        ensures done { AreDone (P.table protocol.now) self.new found.now.nexts.items done.new.items }
    {
        let at = place(own.mode, other.mode);
        if own.deleted {
            return;
        }
        if done[at] {
            return;
        }
        self.add_plain(protocol, own, other);
        self.add_nexts(protocol, found, Row::Delete, own, other);
        done[at] = true;
    }

    /// The same of all that the first of a pair may come to request.
    fn add_pair<P: Protocol>(
        &mut self,
        protocol: &P,
        found: &Found,
        pair: Pair,
        done: &mut Vec<bool>,
    )
        requires sound { IsSound (P.table protocol.now) self.old }
        requires going { IsGoing (P.table protocol.now) found.now (length found.now.pairs.items) }
        requires own { pair.own.mode ≤ (P.table protocol.now).count }
        requires other { pair.other.mode ≤ (P.table protocol.now).count }
        requires beside { Beside (P.table protocol.now) pair.own pair.other }
        requires done { AreDone (P.table protocol.now) self.old found.now.nexts.items done.old.items }
        ensures adds { Adds (P.table protocol.now) self.old self.new }
        ensures marks { MarksAll (P.table protocol.now) self.new found.now.nexts.items pair.own pair.other }
        ensures done { AreDone (P.table protocol.now) self.new found.now.nexts.items done.new.items }
    {
        self.add_nexts(protocol, found, Row::Insert, pair.own, pair.other);
        self.add_once(protocol, found, pair.own, pair.other, done);
    }

    /// What all pairs bring together.
    pub(crate) fn of<P: Protocol>(alloc: Global, protocol: &P, found: &Found) -> Result<Met, Memory>
        requires { IsGoing (P.table protocol.now) found.now (length found.now.pairs.items) }
        ensures sound { IfOk result (IsSound (P.table protocol.now)) }
        ensures marks { IfOk result (λ met. MarksBelow (P.table protocol.now) met found.now.pairs.items found.now.nexts.items (length found.now.pairs.items)) }
    {
        let mut met = Met::new(alloc, protocol)?;
        let mut done = vec![in alloc; false; 256]?;
        for at in 0..found.pairs.len() {
            met.add_pair(protocol, found, found.pairs[at], &mut done);
        }
        Ok(met)
    }

    /// Whether a request is tested in a converted mode beside another transaction's lock in a held mode.
    pub(crate) fn is_tested(&self, converted: Mode, held: Mode) -> bool
        ensures { result ≡ marked self.now.tested.items converted held }
    {
        is_marked(&self.tested, converted, held)
    }

    /// Whether a transaction that holds a mode on a name requests another there.
    pub(crate) fn is_asked(&self, held: Mode, asked: Mode) -> bool
        ensures { result ≡ marked self.now.asked.items held asked }
    {
        is_marked(&self.asked, held, asked)
    }
}
