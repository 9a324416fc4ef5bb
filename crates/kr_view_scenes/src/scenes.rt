//! The steps of a run that are drawn, with the scene of each.
ghost use Rattle.std.specs.Prelude.{◌≡◌, ℕ, ◌+◌, ◌<◌, ◌^◌, None, IfOk, OnOk, length, map};
ghost use Rattle.std.specs.List.{enumerate_from};
ghost use Rattle.kr_model.specs.Map.{IsMap};
ghost use Rattle.kr_model.specs.Step.{step};
ghost use Rattle.kr_model.specs.Run.{run};
ghost use Rattle.kr_view_scenes.specs.Scenes.{act_of, step_of, drawn_steps};
ghost use Rattle.kr_view_scenes.specs.declared.act.Act.TheVariants as act_is;

use crate::act::{Act, key_named};
use crate::asked::Scans;
use crate::columns::{Columns, keys_that_may_return};
use crate::run::STEPS_DRAWN;
use crate::scene::{Keys, Scene, Shown, Standing, shown_of};
use kr_index::{Ordered, Tree};
use kr_locks::{Buckets, Holdings, Memory};
use kr_machine::Machine;
use kr_model::{Event, Refusal, Reply};
use kr_protocol::Protocol;
use kr_serial::replay;
use std::alloc::{AllocError, Global};

/// The steps of a run that are drawn, and the columns of their keys.
#[derive(Drop)]
pub struct Drawn {
    pub columns: Columns,
    /// A scene for each of the steps, in order.
    pub scenes: Vec<Scene>,
}

/// Does these steps under a protocol, from an opening map whose keys rise strictly, and answers the scenes of the last
/// `STEPS_DRAWN`: their numbers, events and replies are those of the run. `Memory` where a growth is refused, and nothing
/// else goes wrong.
pub fn scenes_of<P: Protocol>(
    alloc: Global,
    protocol: &P,
    opening: &[(u64, u64)],
    steps: &[Event],
) -> Result<Drawn, Memory>
    requires { IsMap opening.now }
    ensures { IfOk result (λ drawn. map step_of drawn.scenes.items ≡ drawn_steps (P.table protocol.now) opening.now steps.now) }
{
    let (earlier, drawn) = steps.split_at(steps.len().saturating_sub(STEPS_DRAWN));
    let index = Tree::from_pairs(alloc, opening)?;
    let mut machine = Machine::new(alloc, protocol, index, Buckets::new(alloc));
    scenes_on(alloc, protocol, &mut machine, earlier, drawn)
}

/// Does the earlier steps on a machine, and then these, and answers the scenes of these.
fn scenes_on<P: Protocol, I: Ordered, L: Holdings>(
    alloc: Global,
    protocol: &P,
    machine: &mut Machine<&P, I, L>,
    earlier: &[Event],
    steps: &[Event],
) -> Result<Drawn, Memory>
    requires at_rest { machine.old.pending ≡ None }
    requires numbers { length earlier.now + length steps.now < 2 ^ 64 }
    ensures { IfOk result (λ drawn. let p = P.table machine.old.protocol.now in map step_of drawn.scenes.items
        ≡ enumerate_from (length earlier.now + 1) (map act_of (run p (run p machine.old.state earlier.now).state steps.now).history)) }
{
    let replies = replay(alloc, &mut *machine, earlier)?;
    drawn_behind(alloc, protocol, machine, earlier, replies.as_slice(), steps)
}

/// Does steps on a machine behind earlier ones with these replies, and answers their scenes.
fn drawn_behind<P: Protocol, I: Ordered, L: Holdings>(
    alloc: Global,
    protocol: &P,
    machine: &mut Machine<&P, I, L>,
    earlier: &[Event],
    replies: &[Reply],
    steps: &[Event],
) -> Result<Drawn, Memory>
    requires at_rest { machine.old.pending ≡ None }
    requires numbers { length earlier.now + length steps.now < 2 ^ 64 }
    ensures { IfOk result (λ drawn. map step_of drawn.scenes.items
        ≡ enumerate_from (length earlier.now + 1) (map act_of (run (P.table machine.old.protocol.now) machine.old.state steps.now).history)) }
{
    let mut scans = scans_behind(alloc, earlier, replies)?;
    let columns = columns_at(alloc, &*machine, earlier, replies, steps)?;
    let scenes = scenes_behind(
        alloc,
        protocol,
        machine,
        earlier.len(),
        steps,
        &columns,
        &mut scans,
    )?;
    Ok(Drawn { columns, scenes })
}

/// The scans that are in progress behind steps with these replies.
fn scans_behind(alloc: Global, steps: &[Event], replies: &[Reply]) -> Result<Scans, Memory> {
    let mut scans = Scans::new(alloc);
    for (event, reply) in steps.iter().zip(replies.iter()) {
        scans.note(*event, reply)?;
    }
    Ok(scans)
}

/// The columns of steps that come next on a machine, behind earlier ones with these replies.
fn columns_at<P: Protocol, I: Ordered, L: Holdings>(
    alloc: Global,
    machine: &Machine<P, I, L>,
    earlier: &[Event],
    replies: &[Reply],
    next: &[Event],
) -> Result<Columns, Memory>
    requires { machine.now.pending ≡ None }
{
    let pairs = machine.index()?;
    let locks = machine.locks()?;
    let back = keys_that_may_return(alloc, earlier, replies)?;
    Columns::of_steps(
        alloc,
        pairs.as_slice(),
        locks.as_slice(),
        next,
        back.as_slice(),
    )
}

/// Does steps on a machine that has done so many before them, and answers the scene of each.
fn scenes_behind<P: Protocol, I: Ordered, L: Holdings>(
    alloc: Global,
    protocol: &P,
    machine: &mut Machine<&P, I, L>,
    done: usize,
    steps: &[Event],
    columns: &Columns,
    scans: &mut Scans,
) -> Result<Vec<Scene>, Memory>
    requires at_rest { machine.old.pending ≡ None }
    requires numbers { done + length steps.now < 2 ^ 64 }
    ensures { IfOk result (λ scenes. map step_of scenes.items
        ≡ enumerate_from (done + 1) (map act_of (run (P.table machine.old.protocol.now) machine.old.state steps.now).history)) }
{
    let mut number = done as u64;
    let mut scenes = Vec::new(alloc);
    for event in steps {
        number += 1;
        let scene = scene_of(alloc, protocol, machine, number, *event, columns, scans)?;
        scenes.push(scene)?;
    }
    Ok(scenes)
}

/// Does a step on the machine, and answers its scene.
fn scene_of<P: Protocol, I: Ordered, L: Holdings>(
    alloc: Global,
    protocol: &P,
    machine: &mut Machine<&P, I, L>,
    number: u64,
    event: Event,
    columns: &Columns,
    scans: &mut Scans,
) -> Result<Scene, Memory>
    requires { machine.old.pending ≡ None }
    ensures at_rest { machine.new.pending ≡ None }
    ensures protocol { machine.new.protocol ≡ machine.old.protocol }
    ensures state { OnOk result (machine.new.state ≡ (step (P.table machine.old.protocol.now) machine.old.state event.txn event.op).1) }
    ensures scene { IfOk result (λ scene. step_of scene
        ≡ (number, act_is.Attempt event (step (P.table machine.old.protocol.now) machine.old.state event.txn event.op).0)) }
{
    let before = machine.index()?;
    let reply = machine.step(event.txn, event.op);
    if matches!(reply, Reply::Refused(Refusal::Memory)) {
        return Err(AllocError);
    }
    let shown = shown_left(
        alloc,
        protocol,
        &*machine,
        before.as_slice(),
        (event, &reply),
        columns,
        scans,
    )?;
    Ok(Scene::new(number, Act::Attempt(event, reply), shown))
}

/// What is shown of a step that a machine has done, from these pairs on.
fn shown_left<P: Protocol, I: Ordered, L: Holdings>(
    alloc: Global,
    protocol: &P,
    machine: &Machine<&P, I, L>,
    before: &[(u64, u64)],
    step: (Event, &Reply),
    columns: &Columns,
    scans: &mut Scans,
) -> Result<Shown, Memory>
    requires { machine.now.pending ≡ None }
{
    let after = machine.index()?;
    let locks = machine.locks()?;
    let (event, reply) = step;
    let pairs = after.as_slice();
    let asked = scans.take(alloc, protocol, pairs, locks.as_slice(), event, reply)?;
    let standing = Standing {
        before: present(before),
        after: present(pairs),
        locks: locks.as_slice(),
    };
    let named = (Some(event.txn), key_named(event, reply));
    shown_of(alloc, protocol, columns, named, standing, asked)
}

/// The keys of an index that has no ghosts.
fn present(pairs: &[(u64, u64)]) -> Keys<'_> {
    Keys { pairs, ghosts: &[] }
}
