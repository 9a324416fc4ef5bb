//! Where a lock lets in what it has to keep out, among the pairs that were found.
ghost use Rattle.std.specs.Prelude.{◌≡◌, ◌<◌, ◌≤◌, ◌↔◌, IsTrue, IfOk, IfSome, IfNone, length};
ghost use Rattle.kr_model.specs.declared.Row.TheVariants as row;
ghost use Rattle.kr_model.specs.declared.Side.TheVariants as side;
ghost use Rattle.kr_model.specs.Safe.{free};
ghost use Rattle.kr_decide.specs.Protects.{of_key, of_gap, key_of, gap_of, only, protects};
ghost use Rattle.kr_decide.specs.Pairs.{pair_at, LetsIn};
ghost use Rattle.kr_decide.specs.Findings.{IsFound, IsGoing, IsFirst, IsAbove, AreNexts};
ghost use Rattle.kr_decide.specs.Opens.{LetsNoneIn, LetsNoDeleteIn, OpensAt, OpensFor, IsOpening, AreOpenings, IsOpenedAt, NoneOpens};

use crate::finding::{Above, Found, NOTHING_ABOVE};
use crate::moves::{FREE, is_blocked, keeps_out, may_ask};
use crate::pair::Pair;
use kr_model::{Cover, GapUse, KeyUse, LockState, Memory, Row, Side};
use kr_protocol::Protocol;
use std::alloc::Global;

/// A request that is let in, with what the requester has on the next name.
#[derive(Clone, Copy)]
pub(crate) struct Opening {
    pub(crate) row: Row,
    pub(crate) side: Side,
    pub(crate) above: Above,
}

/// Whether what was done with a key has a cover.
fn of_key(key: KeyUse, cover: Cover) -> bool
    ensures { result ≡ of_key key cover }
{
    match (key, cover) {
        (KeyUse::Read, Cover::ReadKey) => true,
        (KeyUse::Updated, Cover::UpdatedKey) => true,
        (KeyUse::Inserted, Cover::InsertedKey) => true,
        _ => false,
    }
}

/// Whether what was done in a gap has a cover.
fn of_gap(gap: GapUse, cover: Cover) -> bool
    ensures { result ≡ of_gap gap cover }
{
    match (gap, cover) {
        (GapUse::Read, Cover::ReadGap) => true,
        (GapUse::Deleted, Cover::DeletedGap) => true,
        _ => false,
    }
}

/// Whether a lock with this state has a cover to protect.
pub fn protects(state: LockState, cover: Cover) -> bool
    ensures { result ≡ protects state cover }
{
    of_key(state.key, cover) || of_gap(state.gap, cover)
}

/// What was done with a key that has this cover, and free for a cover of a gap.
fn key_of(cover: Cover) -> KeyUse
    ensures { result ≡ key_of cover }
{
    match cover {
        Cover::ReadKey => KeyUse::Read,
        Cover::UpdatedKey => KeyUse::Updated,
        Cover::InsertedKey => KeyUse::Inserted,
        _ => KeyUse::Free,
    }
}

/// What was done in a gap that has it, and free for a cover of a key.
fn gap_of(cover: Cover) -> GapUse
    ensures { result ≡ gap_of cover }
{
    match cover {
        Cover::ReadGap => GapUse::Read,
        Cover::DeletedGap => GapUse::Deleted,
        _ => GapUse::Free,
    }
}

/// A lock state with this cover alone to protect.
fn only(cover: Cover, state: LockState) -> LockState
    ensures { result ≡ only cover state }
{
    LockState {
        mode: state.mode,
        key: key_of(cover),
        gap: gap_of(cover),
        deleted: state.deleted,
    }
}

/// Whether a lock lets in a request that it has to keep out.
fn lets_in<P: Protocol>(
    protocol: &P,
    row: Row,
    side: Side,
    own: LockState,
    other: LockState,
    next: LockState,
) -> bool
    requires own { own.mode ≤ (P.table protocol.now).count }
    requires other { other.mode ≤ (P.table protocol.now).count }
    requires next { next.mode ≤ (P.table protocol.now).count }
    ensures { IsTrue result ↔ LetsIn (P.table protocol.now) row side own other next }
{
    keeps_out(other, row, side)
        && may_ask(protocol, row, side, own, next)
        && !is_blocked(protocol, row, side, own, next, other)
}

/// The request that a lock lets in and has to keep out, of those that don't go by the next name.
fn plain_opening<P: Protocol>(protocol: &P, own: LockState, other: LockState) -> Option<(Row, Side)>
    requires own { own.mode ≤ (P.table protocol.now).count }
    requires other { other.mode ≤ (P.table protocol.now).count }
    ensures some { IfSome result (λ r. LetsIn (P.table protocol.now) r.0 r.1 own other free) }
    ensures none { IfNone result (LetsNoneIn (P.table protocol.now) own other) }
{
    if lets_in(protocol, Row::FetchHit, Side::Current, own, other, FREE) {
        return Some((Row::FetchHit, Side::Current));
    }
    if lets_in(protocol, Row::FetchMiss, Side::Next, own, other, FREE) {
        return Some((Row::FetchMiss, Side::Next));
    }
    if lets_in(protocol, Row::ScanKey, Side::Current, own, other, FREE) {
        return Some((Row::ScanKey, Side::Current));
    }
    if lets_in(protocol, Row::ScanStop, Side::Next, own, other, FREE) {
        return Some((Row::ScanStop, Side::Next));
    }
    if lets_in(protocol, Row::Insert, Side::Next, own, other, FREE) {
        return Some((Row::Insert, Side::Next));
    }
    if lets_in(protocol, Row::Delete, Side::Next, own, other, FREE) {
        return Some((Row::Delete, Side::Next));
    }
    if lets_in(protocol, Row::Update, Side::Current, own, other, FREE) {
        return Some((Row::Update, Side::Current));
    }
    None
}

impl Found {
    /// What is above where a lock lets in a delete of the key that it has to keep out.
    fn next_opening<P: Protocol>(
        &self,
        protocol: &P,
        own: LockState,
        other: LockState,
    ) -> Option<Above>
        requires own { own.mode ≤ (P.table protocol.now).count }
        requires other { other.mode ≤ (P.table protocol.now).count }
        requires found { IsFound (P.table protocol.now) self.now }
        requires nexts { AreNexts self.now.pairs.items self.now.nexts.items }
        ensures some { IfSome result (λ a. LetsIn (P.table protocol.now) row.Delete side.Current own other a.state) }
        ensures above { IfSome result (IsAbove self.now.pairs.items) }
        ensures none { IfNone result (LetsNoDeleteIn (P.table protocol.now) self.now.nexts.items (length self.now.nexts.items) own other) }
    {
        for at in 0..self.nexts.len() {
            let above = self.nexts[at];
            if lets_in(
                protocol,
                Row::Delete,
                Side::Current,
                own,
                other,
                above.state,
            ) {
                return Some(above);
            }
        }
        None
    }

    /// The first request that the second of a pair lets in and has to keep out, of those that the first may come to make with
    /// what was found on the next name so far.
    fn opening_so_far<P: Protocol>(&self, protocol: &P, pair: Pair) -> Option<Opening>
        requires own { pair.own.mode ≤ (P.table protocol.now).count }
        requires other { pair.other.mode ≤ (P.table protocol.now).count }
        requires found { IsFound (P.table protocol.now) self.now }
        requires first { IsFirst self.now.pairs.items }
        requires nexts { AreNexts self.now.pairs.items self.now.nexts.items }
        ensures some { IfSome result (IsOpening (P.table protocol.now) self.now.pairs.items pair.own pair.other) }
        ensures plain { IfNone result (LetsNoneIn (P.table protocol.now) pair.own pair.other) }
        ensures deletes { IfNone result (LetsNoDeleteIn (P.table protocol.now) self.now.nexts.items (length self.now.nexts.items) pair.own pair.other) }
    {
        if let Some((row, side)) = plain_opening(protocol, pair.own, pair.other) {
            return Some(Opening {
                row,
                side,
                above: NOTHING_ABOVE,
            });
        }
        match self.next_opening(protocol, pair.own, pair.other) {
            Some(above) => Some(Opening {
                row: Row::Delete,
                side: Side::Current,
                above,
            }),
            None => None,
        }
    }

    /// The same, once all has been found: of all that the first may come to make.
    fn opening<P: Protocol>(&self, protocol: &P, pair: Pair) -> Option<Opening>
        requires own { pair.own.mode ≤ (P.table protocol.now).count }
        requires other { pair.other.mode ≤ (P.table protocol.now).count }
        requires going { IsGoing (P.table protocol.now) self.now (length self.now.pairs.items) }
        ensures some { IfSome result (IsOpening (P.table protocol.now) self.now.pairs.items pair.own pair.other) }
        ensures none { IfNone result (OpensAt (P.table protocol.now) pair.own pair.other → ⊥) }
    {
        match self.opening_so_far(protocol, pair) {
            Some(opening) => Some(opening),
            None => None,
        }
    }

    /// What the second of the pair at a place lets in and has to keep out, of what was found so far.
    pub(crate) fn opening_at<P: Protocol>(&self, protocol: &P, at: usize) -> Option<Opening>
        requires found { IsFound (P.table protocol.now) self.now }
        requires first { IsFirst self.now.pairs.items }
        requires nexts { AreNexts self.now.pairs.items self.now.nexts.items }
        requires at { at < length self.now.pairs.items }
        ensures { IfSome result (IsOpenedAt (P.table protocol.now) self.now.pairs.items at) }
    {
        let pair = self.pairs[at];
        match self.opening_so_far(protocol, pair) {
            Some(opening) => Some(opening),
            None => None,
        }
    }

    /// Whether the second of the pair at a place has a cover to protect, and lets in what it has to keep out for its sake.
    fn opens<P: Protocol>(&self, protocol: &P, at: usize, cover: Cover) -> bool
        requires going { IsGoing (P.table protocol.now) self.now (length self.now.pairs.items) }
        requires at { at < length self.now.pairs.items }
        ensures { IsTrue result ↔ OpensFor (P.table protocol.now) cover (pair_at self.now.pairs.items at).own (pair_at self.now.pairs.items at).other }
    {
        let pair = self.pairs[at];
        if !protects(pair.other, cover) {
            return false;
        }
        let (own, other, way) = (pair.own, only(cover, pair.other), pair.way);
        match self.opening(protocol, Pair { own, other, way }) {
            Some(_) => true,
            None => false,
        }
    }

    /// Of each pair, whether its second has a cover to protect, and lets in what it has to keep out for its sake.
    pub(crate) fn openings<P: Protocol>(
        &self,
        alloc: Global,
        protocol: &P,
        cover: Cover,
    ) -> Result<Vec<bool>, Memory>
        requires { IsGoing (P.table protocol.now) self.now (length self.now.pairs.items) }
        ensures { IfOk result (λ list. AreOpenings (P.table protocol.now) cover self.now.pairs.items list.items) }
    {
        let mut list = Vec::with_capacity(alloc, self.pairs.len())?;
        for at in 0..self.pairs.len() {
            list.push(self.opens(protocol, at, cover))?;
        }
        Ok(list)
    }

    /// The first pair whose second lets in what it has to keep out, with the request.
    pub(crate) fn first_opening<P: Protocol>(&self, protocol: &P) -> Option<(usize, Opening)>
        requires { IsGoing (P.table protocol.now) self.now (length self.now.pairs.items) }
        ensures some { IfSome result (λ o. IsOpenedAt (P.table protocol.now) self.now.pairs.items o.0 o.1) }
        ensures none { IfNone result (NoneOpens (P.table protocol.now) self.now.pairs.items (length self.now.pairs.items)) }
    {
        for at in 0..self.pairs.len() {
            let pair = self.pairs[at];
            if let Some(opening) = self.opening(protocol, pair) {
                return Some((at, opening));
            }
        }
        None
    }
}
