//! The scenes that scripts lead to.
ghost use Rattle.std.specs.Prelude.{◌≤◌, vec_len, IfOk};
ghost use Rattle.kr_explain_runs.specs.declared.scenes.TheConstants.{MOST_SCENES};

use crate::scene::{NUMBERS, Scene};
use crate::table::Table;
use crate::turns::{Turn, Turned, turns};
use kr_cases::Memory;
use kr_protocol::Protocol;
use std::alloc::{AllocError, Global};

/// So many scenes are found at most.
pub(crate) const MOST_SCENES: usize = 40_000;

/// A scene, and the last turn that leads there, from the scene at a place of the list.
#[derive(Clone, Copy)]
pub(crate) struct Reach {
    pub scene: Scene,
    pub last: Option<(usize, Turn)>,
}

/// The scenes of a table, each with the first script that leads to it: at most 40,000, found breadth first by the lock states
/// alone. Two transactions are on a key that is present all the while; or one is alone, and inserts a key.
#[derive(Drop)]
pub struct Scenes {
    pub(crate) reached: Vec<Reach>,
    /// Whether a scene was found, by its number.
    seen: Vec<bool>,
    ghost few: { vec_len reached ≤ MOST_SCENES },
}

impl Scenes {
    /// The scenes of a table. The only fault is that a growth was refused.
    pub fn of<P: Protocol>(alloc: Global, protocol: &P) -> Result<Scenes, Memory> {
        let table = Table { protocol };
        let mut scenes = Scenes {
            reached: Vec::new(alloc),
            seen: vec![in alloc; false; NUMBERS]?,
        };
        for scene in [Scene::of_two(), Scene::of_one(false), Scene::of_one(true)] {
            scenes.put(scene, None)?;
        }
        let mut found: Vec<Turned> = Vec::new(alloc);
        for at in 0..MOST_SCENES {
            let Some(from) = scenes.reached.get(at).copied() else {
                return Ok(scenes);
            };
            turns(&table, from.scene, &mut found)?;
            for turned in found.iter() {
                scenes.put(turned.to, Some((at, turned.by)))?;
            }
        }
        Ok(scenes)
    }

    /// Puts a scene behind the others, if it is new and there is room.
    fn put(&mut self, scene: Scene, last: Option<(usize, Turn)>) -> Result<(), Memory> {
        let Some(seen) = self.seen.get_mut(scene.number()) else {
            return Ok(());
        };
        if *seen || self.reached.len() >= MOST_SCENES {
            return Ok(());
        }
        *seen = true;
        self.reached.push(Reach { scene, last })?;
        Ok(())
    }

    /// The turns that lead to the scene at a place, each with the scene that it is taken from.
    pub(crate) fn way(&self, alloc: Global, at: usize) -> Result<Vec<(Scene, Turn)>, AllocError> {
        let mut way = Vec::new(alloc);
        let mut end = at;
        for _ in 0..MOST_SCENES {
            let Some((before, turn)) = self.reached.get(end).and_then(|reach| reach.last) else {
                way.reverse();
                return Ok(way);
            };
            let Some(from) = self.reached.get(before) else {
                return Ok(way);
            };
            way.push((from.scene, turn))?;
            end = before;
        }
        Ok(way)
    }

    /// The last turn on A that one of the two takes on the way to the scene at a place, and the scene that it is taken from.
    pub(crate) fn last_turn(&self, at: usize, is_second: bool) -> Option<(Scene, Turn)> {
        let mut end = at;
        for _ in 0..MOST_SCENES {
            let (before, turn) = self.reached.get(end).and_then(|reach| reach.last)?;
            if turn.by_second == is_second && !turn.on_y {
                let from = self.reached.get(before)?;
                return Some((from.scene, turn));
            }
            end = before;
        }
        None
    }
}
