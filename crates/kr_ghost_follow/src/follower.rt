//! All the states of a table with ghosts that may stand beside what an engine logged.
ghost use Rattle.std.specs.Prelude.{◌≡◌, ◌⊎◌, ◌++◌, ◌∷◌, [], List, All, Some, None, IfOk, OnOk, OnErr, true, false};
ghost use Rattle.kr_model.specs.Map.{Map, IsMap};
ghost use Rattle.kr_trace_follow.specs.Lines.{Line};
ghost use Rattle.kr_ghost_follow.specs.Stands.{AreFollowed, HasFollowed, IsStanding, Took, states_of};
ghost use Rattle.kr_ghost_follow.specs.Tries.{line_of};

use crate::line::Logged;
use crate::spread::spread_if;
use crate::stand::Stand;
use kr_ghost_protocol::GhostProtocol;
use kr_model::{Event, Memory, Op};
use kr_trace_follow::kinds::copy_of;
use kr_trace_lines::{Deviation, DeviationKind, Observed};
use std::alloc::{AllocError, Global};
use std::marker::Model;
use std::mem::replace;

/// All the states of a table with ghosts that may stand beside what an engine logged, up to the first line at which none
/// stands: the engine's purges aren't in its trace.
///
/// It keeps no line. A line looks at all names once a key may be a ghost, and copies a state for each ghost whose purge may
/// matter to it.
pub struct Follower<'a, P: GhostProtocol> {
    /// Of the states that stand the one with the fewest purges.
    first: Stand<'a, P>,
    /// The others.
    others: Vec<Stand<'a, P>>,
    /// How many lines were queued on the way to the first.
    queued: u64,
    /// The deviation of the line at which none stands.
    found: Option<Deviation>,
    /// The line before which states were first left out.
    cut: Option<u64>,
    /// Whether a key may be a ghost.
    may_purge: bool,
    /// Whether it was given up, for want of memory.
    lost: bool,
}

impl<'a, P: GhostProtocol> Model for Follower<'a, P> {
    ghost use Rattle.kr_ghost_follow.specs.Stands.{Follows};

    ghost Value = { Follows P };

    ghost view = { λ f. record { first = f.first; others = f.others.items; queued = f.queued; found = f.found; cut = f.cut; lost = f.lost } };
}

impl<'a, P: GhostProtocol> Follower<'a, P> {
    /// Follows a trace from an opening map whose keys rise strictly. The only fault is `Memory`.
    pub fn new(
        alloc: Global,
        protocol: &'a P,
        opening: &[(u64, u64)],
    ) -> Result<Follower<'a, P>, Memory>
        requires { IsMap opening.now }
        ensures followed { IfOk result (HasFollowed P.ghosts protocol.now opening.now []) }
        ensures found { IfOk result (λ f. f.found ≡ None) }
        ensures uncut { IfOk result (λ f. f.cut ≡ None) }
        ensures works { IfOk result (λ f. f.lost ≡ false) }
    {
        Ok(Follower {
            first: Stand::new(alloc, protocol, opening)?,
            others: Vec::new(alloc),
            queued: 0,
            found: None,
            cut: None,
            may_purge: false,
            lost: false,
        })
    }

    /// Follows one more line, the event with the reply that was observed: `None` where a state stands beside this line and all
    /// before it, and else the first line at which none does, and how it differs from the table's answer in the state with the
    /// fewest purges. Behind that line none is followed.
    ///
    /// A state stands where some run of the table with purges leads to it along the lines; where `cut` says so, some that do may
    /// have been left out. A line `blocked` may be queued, as in a table without ghosts. After `Memory` the follower is given
    /// up, and answers `Memory` from then on.
    pub fn line(
        &mut self,
        alloc: Global,
        number: u64,
        event: Event,
        observed: &Observed,
    ) -> Result<Option<Deviation>, Memory>
        ensures found { IfOk result (λ d. d ≡ self.new.found) }
        ensures followed { (q : P) (opening : Map) (lines : List Line) → HasFollowed P.ghosts q opening lines self.old
            → OnOk result (HasFollowed P.ghosts q opening (lines ++ record { number = number; event = event; observed = observed.now } ∷ []) self.new) }
        ensures cut { OnOk result ((self.new.cut ≡ self.old.cut) ⊎ (self.new.cut ≡ Some number)) }
        ensures works { OnOk result (self.old.lost ≡ false) }
        ensures lost { OnErr result (self.new.lost ≡ true) }
    {
        if self.lost {
            return Err(AllocError);
        }
        self.lost = true;
        let line = Logged {
            number,
            event,
            observed,
        };
        follow(
            alloc,
            &mut self.first,
            &mut self.others,
            &mut self.queued,
            &mut self.found,
            &mut self.cut,
            self.may_purge,
            line,
        )?;
        self.may_purge = self.may_purge || makes_ghosts(line);
        let found = copy_of(alloc, &self.found)?;
        self.lost = false;
        Ok(found)
    }

    /// How many lines so far were queued on the way to the first of the states that stand; from 2 ^ 64 - 1 on it counts no
    /// further.
    pub fn queued(&self) -> u64
        ensures { result ≡ self.now.queued }
    {
        self.queued
    }

    /// How many states stand: none, where a line deviates.
    pub fn states(&self) -> u64
        ensures { result ≡ states_of self.now }
    {
        if self.found.is_some() {
            return 0;
        }
        self.others.len() as u64 + 1
    }

    /// The number of the line before which states were first left out, if any were.
    pub fn cut(&self) -> Option<u64>
        ensures { result ≡ self.now.cut }
    {
        self.cut
    }
}

/// By hand, so that crates above call it by its contract and don't prove a destructor of their own.
impl<'a, P: GhostProtocol> Drop for Follower<'a, P> {
    fn drop(self) {
        let Follower {
            first: _,
            others: _,
            queued: _,
            found: _,
            cut: _,
            may_purge: _,
            lost: _,
        } = self;
    }
}

/// The line before which states were first left out, where this is the next.
fn cut_at(cut: Option<u64>, is_cut: bool, number: u64) -> Option<u64>
    ensures { (result ≡ cut) ⊎ (result ≡ Some number) }
{
    match cut {
        Some(line) => Some(line),
        None => if is_cut { Some(number) } else { None },
    }
}

/// Whether a key may be a ghost behind a line: it deletes one, or undoes a change.
fn makes_ghosts(line: Logged) -> bool {
    let undoes = matches!(line.event.op, Op::Abort);
    undoes
        || matches!(
            line.observed,
            Observed::Deleted(_) | Observed::Undone(_) | Observed::Aborted
        )
}

/// Adds a state to a list, if it stands beside one more line.
fn push_standing<'a, P: GhostProtocol>(
    alloc: Global,
    list: &mut Vec<Stand<'a, P>>,
    stand: Stand<'a, P>,
    line: Logged,
) -> Result<(), Memory>
    ensures { (q : P) (opening : Map) (lines : List Line) → All (IsStanding P.ghosts q opening (lines ++ line_of line.entry ∷ [])) list.old.items → IsStanding P.ghosts q opening lines stand.entry
        → OnOk result (All (IsStanding P.ghosts q opening (lines ++ line_of line.entry ∷ [])) list.new.items) }
{
    let mut stand = stand;
    let kind = stand.follow(alloc, line)?;
    if kind.is_some() {
        return Ok(());
    }
    list.push(stand)?;
    Ok(())
}

/// Leaves those of the states that stand beside one more line.
fn standing<'a, P: GhostProtocol>(
    alloc: Global,
    others: &mut Vec<Stand<'a, P>>,
    line: Logged,
) -> Result<(), Memory>
    ensures { (q : P) (opening : Map) (lines : List Line) → All (IsStanding P.ghosts q opening lines) others.old.items → OnOk result (All (IsStanding P.ghosts q opening (lines ++ line_of line.entry ∷ [])) others.new.items) }
{
    let mut stands = replace(others, Vec::new(alloc));
    while !stands.is_empty() {
        let stand = stands.remove(0);
        push_standing(alloc, others, stand, line)?;
    }
    Ok(())
}

/// Where the first state differs at a line, the next takes its place, or the line deviates where there is none.
fn stand_on<'a, P: GhostProtocol>(
    first: &mut Stand<'a, P>,
    left: &mut Vec<Stand<'a, P>>,
    line: Logged,
    kind: Option<DeviationKind>,
) -> Option<Deviation>
    ensures { (q : P) (opening : Map) (lines : List Line) → Took P.ghosts q opening lines (line_of line.entry) first.old kind → All (IsStanding P.ghosts q opening (lines ++ line_of line.entry ∷ [])) left.old.items
        → AreFollowed P.ghosts q opening (lines ++ line_of line.entry ∷ []) first.new left.new.items (let at = first.new.point in at.queued) result }
{
    match kind {
        None => None,
        Some(kind) => {
            if left.is_empty() {
                return Some(Deviation {
                    line: line.number,
                    kind,
                });
            }
            *first = left.remove(0);
            None
        }
    }
}

/// Follows a line with all states, unless one before it deviates.
fn follow<'a, P: GhostProtocol>(
    alloc: Global,
    first: &mut Stand<'a, P>,
    others: &mut Vec<Stand<'a, P>>,
    queued: &mut u64,
    found: &mut Option<Deviation>,
    cut: &mut Option<u64>,
    may_purge: bool,
    line: Logged,
) -> Result<(), Memory>
    ensures cut { OnOk result ((cut.new ≡ cut.old) ⊎ (cut.new ≡ Some line.entry.number)) }
    ensures followed { (q : P) (opening : Map) (lines : List Line) → AreFollowed P.ghosts q opening lines first.old others.old.items queued.old found.old
        → OnOk result (AreFollowed P.ghosts q opening (lines ++ line_of line.entry ∷ []) first.new others.new.items queued.new found.new) }
{
    if found.is_some() {
        return Ok(());
    }
    let is_cut = spread_if(alloc, may_purge, first, others, line)?;
    *cut = cut_at(*cut, is_cut, line.number);
    standing(alloc, others, line)?;
    let kind = first.follow(alloc, line)?;
    *found = stand_on(first, others, line, kind);
    *queued = first.queued();
    Ok(())
}
