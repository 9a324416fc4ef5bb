//! The map that the operations so far leave.
ghost use Rattle.std.specs.Prelude.{◌≡◌, None, IfOk};
ghost use Rattle.kr_model.specs.Map.{IsMap};
ghost use Rattle.kr_model.specs.Serial.{whole};
ghost use Rattle.kr_judge.specs.Changed.{own_unless_same};

use crate::changed::Changed;
use crate::whole::differs;
use kr_model::{Op, Reply};
use std::alloc::{AllocError, Global};
use std::collections::BTreeMap;
use std::marker::Model;

/// The map that the operations so far leave, run whole one after another from an opening map.
///
/// At first it is the opening with the keys that they changed. A scan needs the keys in order: at the first one all pairs go
/// into a tree, and the map is that tree from then on. Contracts see the map.
#[derive(Drop)]
pub(crate) struct Current<'a> {
    changed: Changed<'a>,
    in_order: Option<BTreeMap<u64, u64>>,
}

impl<'a> Model for Current<'a> {
    ghost use Rattle.std.specs.Prelude.{IfSome};
    ghost use Rattle.kr_model.specs.Map.{Map, IsMap};
    ghost use Rattle.kr_judge.specs.Changed.{in_tree_or};

    ghost Value = { Map };

    ghost view = { λ c. in_tree_or c.changed c.in_order };

    ghost invariant = { λ c. IfSome c.in_order (λ tree. IsMap tree.entries) };
}

impl<'a> Current<'a> {
    /// The opening map, where no operation has run. Takes no memory.
    pub(crate) fn new(alloc: Global, opening: &'a [(u64, u64)]) -> Current<'a>
        requires { IsMap opening.now }
        ensures { result ≡ opening.now }
    {
        Current {
            changed: Changed::new(alloc, opening),
            in_order: None,
        }
    }

    /// Does an operation whole on the map, and answers with its own answer, where that isn't the one given. Where the answers
    /// differ the map may be another one, and so at an error, where a growth was refused.
    pub(crate) fn differs(
        &mut self,
        alloc: Global,
        op: Op,
        given: &Reply,
    ) -> Result<Option<Reply>, AllocError>
        ensures own { IfOk result (λ own. own ≡ own_unless_same given.now (whole self.old op).0) }
        ensures map { IfOk result (λ own. own ≡ None → self.new ≡ (whole self.old op).1) }
    {
        if let Some(tree) = &mut self.in_order {
            return differs(alloc, tree, op, given);
        }
        match op {
            Op::Fetch(key) => Ok(self.changed.fetch(key, given)),
            Op::Insert(key, value) => self.changed.insert(key, value, given),
            Op::Delete(key) => self.changed.delete(key, given),
            Op::Update(key, value) => self.changed.update(key, value, given),
            Op::Scan(_, _) | Op::Go | Op::Commit | Op::Abort | Op::Back => {
                let mut tree = self.changed.in_order(alloc)?;
                let own = differs(alloc, &mut tree, op, given)?;
                self.in_order = Some(tree);
                Ok(own)
            }
        }
    }
}
