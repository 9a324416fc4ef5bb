//! The moves of a run that are drawn, with the scene of each.
ghost use Rattle.std.specs.Prelude.{◌≡◌, ◌+◌, ◌<◌, ◌^◌, IfOk, OnOk, length, map};
ghost use Rattle.std.specs.List.{enumerate_from};
ghost use Rattle.kr_model.specs.Map.{IsMap};
ghost use Rattle.kr_view_scenes.specs.Scenes.{step_of};
ghost use Rattle.kr_ghost_view.specs.Moves.{act_at, acts, after, after_all, drawn_moves};

use crate::asked::asked_by;
use crate::columns::columns_at;
use kr_ghost::Move;
use kr_ghost_index::GhostIndex;
use kr_ghost_machine::GhostStepper;
use kr_ghost_protocol::GhostProtocol;
use kr_locks::{Buckets, Holdings};
use kr_model::Memory;
use kr_protocol::Protocol;
use kr_view_scenes::{Act, Columns, Drawn, Keys, STEPS_DRAWN, Scene, Shown, Standing, shown_of};
use std::alloc::Global;

/// Does these moves under a protocol, from an opening map whose keys rise strictly, with no ghosts, and answers the scenes of the
/// last `STEPS_DRAWN`: their numbers and what was done are those of the run. The only error is that a growth was refused.
pub fn ghost_scenes_of<P: GhostProtocol>(
    alloc: Global,
    protocol: &P,
    opening: &[(u64, u64)],
    moves: &[Move],
) -> Result<Drawn, Memory>
    requires { IsMap opening.now }
    ensures { IfOk result (λ drawn. map step_of drawn.scenes.items ≡ drawn_moves (P.ghosts protocol.now) opening.now moves.now) }
{
    let (earlier, drawn) = moves.split_at(moves.len().saturating_sub(STEPS_DRAWN));
    let index = GhostIndex::from_pairs(alloc, opening)?;
    let mut stepper = GhostStepper::new(alloc, protocol, index, Buckets::new(alloc));
    scenes_on(alloc, protocol, &mut stepper, earlier, drawn)
}

/// Does the earlier moves on a machine, and then these, and answers the scenes of these. The modes have the names of `named`.
fn scenes_on<N: Protocol, P: GhostProtocol, L: Holdings>(
    alloc: Global,
    named: &N,
    stepper: &mut GhostStepper<P, L>,
    earlier: &[Move],
    moves: &[Move],
) -> Result<Drawn, Memory>
    requires { length earlier.now + length moves.now < 2 ^ 64 }
    ensures { IfOk result (λ drawn. let p = P.ghosts stepper.old.protocol in map step_of drawn.scenes.items
        ≡ enumerate_from (length earlier.now + 1) (acts p (after_all p stepper.old.state earlier.now) moves.now)) }
{
    do_all(stepper, earlier)?;
    let columns = columns_at(alloc, &*stepper, moves)?;
    let scenes = scenes_behind(alloc, named, stepper, earlier.len(), moves, &columns)?;
    Ok(Drawn { columns, scenes })
}

/// Does moves on a machine.
fn do_all<P: GhostProtocol, L: Holdings>(
    stepper: &mut GhostStepper<P, L>,
    moves: &[Move],
) -> Result<(), Memory>
    ensures protocol { stepper.new.protocol ≡ stepper.old.protocol }
    ensures state { OnOk result (stepper.new.state ≡ after_all (P.ghosts stepper.old.protocol) stepper.old.state moves.now) }
{
    for next in moves {
        done(stepper, *next)?;
    }
    Ok(())
}

/// Does a move on a machine, and answers what was done.
fn done<P: GhostProtocol, L: Holdings>(
    stepper: &mut GhostStepper<P, L>,
    next: Move,
) -> Result<Act, Memory>
    ensures protocol { stepper.new.protocol ≡ stepper.old.protocol }
    ensures state { OnOk result (stepper.new.state ≡ after (P.ghosts stepper.old.protocol) stepper.old.state next) }
    ensures act { IfOk result (λ act. act ≡ act_at (P.ghosts stepper.old.protocol) stepper.old.state next) }
{
    match next {
        Move::Attempt(event) => {
            let reply = stepper.step(event.txn, event.op)?;
            Ok(Act::Attempt(event, reply))
        }
        Move::Purge(key) => {
            let is_purged = stepper.purge(key)?;
            Ok(Act::Purge(key, is_purged))
        }
    }
}

/// Does moves on a machine that has done so many before them, and answers the scene of each.
fn scenes_behind<N: Protocol, P: GhostProtocol, L: Holdings>(
    alloc: Global,
    named: &N,
    stepper: &mut GhostStepper<P, L>,
    before: usize,
    moves: &[Move],
    columns: &Columns,
) -> Result<Vec<Scene>, Memory>
    requires { before + length moves.now < 2 ^ 64 }
    ensures { IfOk result (λ scenes. map step_of scenes.items
        ≡ enumerate_from (before + 1) (acts (P.ghosts stepper.old.protocol) stepper.old.state moves.now)) }
{
    let mut number = before as u64;
    let mut scenes = Vec::new(alloc);
    for next in moves {
        number += 1;
        let scene = scene_of(alloc, named, stepper, number, *next, columns)?;
        scenes.push(scene)?;
    }
    Ok(scenes)
}

/// Does a move on the machine, and answers its scene.
fn scene_of<N: Protocol, P: GhostProtocol, L: Holdings>(
    alloc: Global,
    named: &N,
    stepper: &mut GhostStepper<P, L>,
    number: u64,
    next: Move,
    columns: &Columns,
) -> Result<Scene, Memory>
    ensures protocol { stepper.new.protocol ≡ stepper.old.protocol }
    ensures state { OnOk result (stepper.new.state ≡ after (P.ghosts stepper.old.protocol) stepper.old.state next) }
    ensures scene { IfOk result (λ scene. step_of scene ≡ (number, act_at (P.ghosts stepper.old.protocol) stepper.old.state next)) }
{
    let pairs = stepper.index()?;
    let ghosts = stepper.ghosts()?;
    let act = done(stepper, next)?;
    let before = Keys {
        pairs: pairs.as_slice(),
        ghosts: ghosts.as_slice(),
    };
    let shown = shown_left(alloc, named, &*stepper, before, &act, columns)?;
    Ok(Scene::new(number, act, shown))
}

/// What is shown of what a machine has done, from these keys on.
fn shown_left<N: Protocol, P: GhostProtocol, L: Holdings>(
    alloc: Global,
    named: &N,
    stepper: &GhostStepper<P, L>,
    before: Keys<'_>,
    act: &Act,
    columns: &Columns,
) -> Result<Shown, Memory> {
    let pairs = stepper.index()?;
    let ghosts = stepper.ghosts()?;
    let locks = stepper.locks()?;
    let asked = asked_by(alloc, stepper, act)?;
    let standing = Standing {
        before,
        after: Keys {
            pairs: pairs.as_slice(),
            ghosts: ghosts.as_slice(),
        },
        locks: locks.as_slice(),
    };
    shown_of(
        alloc,
        named,
        columns,
        (act.txn(), act.key()),
        standing,
        asked,
    )
}
