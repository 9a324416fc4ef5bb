//! Scripts.
ghost use Rattle.std.specs.Prelude.{◌≡◌};
ghost use Rattle.kr_script.specs.Script.{IsScript};

use kr_model::Event;
use std::marker::Model;

/// An opening index and the steps to attempt on it, at most 100,000 pairs and 100,000 steps. The
/// opening keys rise strictly.
#[derive(Debug, Drop)]
pub struct Script {
    opening: Vec<(u64, u64)>,
    steps: Vec<Event>,
}

impl Model for Script {
    ghost use Rattle.kr_script.specs.Script.{Script, IsScript};

    ghost Value = { Script };

    ghost view = { λ s. record { opening = s.opening.items; steps = s.steps.items } };

    ghost invariant = { λ s. IsScript (record { opening = s.opening.items; steps = s.steps.items }) };
}

impl Script {
    /// The script of this opening index and these steps. Takes no memory.
    pub(crate) fn new(opening: Vec<(u64, u64)>, steps: Vec<Event>) -> Script
        requires { IsScript (record { opening = opening.items; steps = steps.items }) }
        ensures { result ≡ record { opening = opening.items; steps = steps.items } }
    {
        Script { opening, steps }
    }

    /// The pairs of a key and its value in the index before the first step, keys rising.
    pub fn opening(&self) -> &[(u64, u64)]
        ensures pairs { result.now ≡ self.now.opening }
        ensures kept { IsScript self.now }
    {
        &self.opening
    }

    /// The steps, in the order in which they are attempted.
    pub fn steps(&self) -> &[Event]
        ensures events { result.now ≡ self.now.steps }
        ensures kept { IsScript self.now }
    {
        &self.steps
    }
}
