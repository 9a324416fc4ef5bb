//! What is asked of each part of a trace.
ghost use Rattle.std.specs.Prelude.{◌≡◌, ℕ, List, Bool, IfOk, OnOk, map, string_bytes};
ghost use Rattle.kr_model.specs.Map.{IsMap};
ghost use Rattle.kr_trace_parts.specs.Parts.{begun, with_order, with_step};
ghost use Rattle.kr_trace_parts.specs.Parts as spec;
ghost use Rattle.kr_trace_parts.specs.Printed.{CommitsOnce, printed};

use kr_model::{Event, Memory, Pairs, Txns};
use kr_trace_lines::Observed;
use std::alloc::Global;

/// A part of a trace, line by line.
pub trait Part {
    /// Whether this text is printed of a part with this number, and whether all is then well with it.
    ghost asked: { Self → ℕ → spec.Part → List ℕ → Bool → Type 0 };

    /// Whether it stands for what a part with this number says so far.
    ghost stands_for: { Self → ℕ → spec.Part → Type 0 };

    /// Takes one more step, with its reply and the number of its line.
    fn step(
        &mut self,
        alloc: Global,
        number: u64,
        event: Event,
        observed: Observed,
    ) -> Result<(), Memory>
        ensures step { (n : ℕ) (s : spec.Part) → stands_for self.old n s → OnOk result (stands_for self.new n (with_step number event observed s)) }
        ensures asked { (n : ℕ) (s : spec.Part) (text : List ℕ) (well : Bool) → asked self.new n s text well → asked self.old n s text well };

    /// Takes the order that ends the part.
    fn order(&mut self, txns: Txns)
        ensures order { (n : ℕ) (s : spec.Part) → stands_for self.old n s → stands_for self.new n (with_order txns s) }
        ensures asked { (n : ℕ) (s : spec.Part) (text : List ℕ) (well : Bool) → asked self.new n s text well → asked self.old n s text well };

    /// What is printed of the part, which has this number, if anything is, and whether all is well with it.
    fn end(self, alloc: Global, part: u64) -> Result<(Option<String>, bool), Memory>
        ensures { (s : spec.Part) → stands_for self part s → CommitsOnce s → IfOk result (λ end. asked self part s (printed end.0) end.1) };
}

/// What is asked of each part.
pub trait Asks {
    /// A part that has begun.
    type Part: Part + Drop;

    /// Whether this text is printed of a part with this number, and whether all is then well with it.
    ghost is_printed: { Self → ℕ → spec.Part → List ℕ → Bool → Type 0 };

    /// Begins the part of this number, from 1, with this opening, whose keys rise, and with these texts.
    fn begin(
        &self,
        alloc: Global,
        number: u64,
        opening: Pairs,
        tests: Vec<String>,
    ) -> Result<Self::Part, Memory>
        requires { IsMap opening }
        ensures begun { IfOk result (λ p. Self.Part.stands_for p number (begun opening (map string_bytes tests.items))) }
        ensures asked { IfOk result (λ p. (n : ℕ) (s : spec.Part) (text : List ℕ) (well : Bool) → Self.Part.asked p n s text well → is_printed self.now n s text well) };
}
