//! Laws of the tests for a table. Each function does nothing, and its contract is a law.
ghost use Rattle.std.specs.Prelude.{All};
ghost use Rattle.std.specs.List.{Any, Contains};
ghost use Rattle.kr_change.specs.declared.change.Change.{Change};
ghost use Rattle.kr_change.specs.GhostChanges.{changed_index};
ghost use Rattle.kr_change.specs.GhostEvery.{index_changes_of};
ghost use Rattle.kr_kinds.specs.Kinds.{IndexProtocol};
ghost use Rattle.kr_suite_core.specs.declared.classes.Suite.{Suite};
ghost use Rattle.kr_suite_core.specs.Suite.{IsSuite, Passes, Fails};

/// An engine that follows the table passes each part; so does one that follows a table with a change that is alike.
pub fn who_follows_passes()
    ensures same { (p : IndexProtocol) (s : Suite) → IsSuite p s → All (Passes p) s.parts.items }
    ensures alike { (p : IndexProtocol) (s : Suite) → IsSuite p s → (c : Change) → Contains s.alike.items c → All (Passes (changed_index p c)) s.parts.items }
{}

/// An engine that follows a table which differs in one entry fails a part, unless that change is alike or left.
pub fn who_differs_fails()
    ensures { (p : IndexProtocol) (s : Suite) → IsSuite p s → (c : Change) → Contains (index_changes_of p) c → (Contains s.alike.items c → ⊥) → (Contains s.left.items c → ⊥) → Any (Fails (changed_index p c)) s.parts.items }
{}
