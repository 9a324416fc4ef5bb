//! The theorem for engines whose deleted keys stay in the index as ghosts, which carry locks and end gaps until they are purged:
//! every run under a safe protocol is serializable in commit order, with purges at any time; a protocol is safe where all its
//! cases hold; three tables are safe, and each of some others goes wrong by one entry. Each function does nothing, and its
//! contract is a law. `docs/GHOSTS.md` tells the definitions.
#![tactic(auto)]

mod cases;
mod moves;
mod vain;

ghost use Rattle.std.specs.Prelude.{◌≡◌, ℕ, List, [], ◌∷◌, length};
ghost use Rattle.kr_model.specs.declared.Name.TheVariants.{Key};
ghost use Rattle.kr_model.specs.declared.Reply.TheVariants as reply;
ghost use Rattle.kr_model.specs.declared.Op.TheVariants as op;
ghost use Rattle.kr_ghost.specs.Protocol.{GhostProtocol, IsLawfulGhost};
ghost use Rattle.kr_model.specs.Map.{Map, IsMap};
ghost use Rattle.kr_ghost.specs.State.{opened};
ghost use Rattle.kr_ghost.specs.Run.{GhostRunsAreSerial, run};
ghost use Rattle.kr_ghost.specs.declared.moves.Move.{Move};
ghost use Rattle.kr_ghost.specs.declared.moves.Move.TheVariants.{Purge};
ghost use Rattle.kr_ghost.specs.WellFormed.{IsGhostState};
ghost use Rattle.kr_ghost.specs.declared.cases.Rule.{Rule};
ghost use Rattle.kr_ghost.specs.Covers.{cases, IsCoveredGhost};
ghost use Rattle.kr_ghost.specs.Safe.{IsSafeGhost};
ghost use Rattle.kr_ghost.specs.Tables.{record_gap, range_ghost, next_key_ghost};
ghost use Rattle.kr_ghost.specs.Needed.{IsNeeded, GoesWrong};
ghost use Rattle.kr_ghost.specs.Worked.{by, shown, after_delete, drops_locks, inherits_only_gaps, inserts_plainly, revives_freely, purges_locked, range_inserts_plainly, next_inserts_plainly};

pub use cases::{Access, Cover, FailedCase, Requester, Rule, access_words, cover_code, rule_code};
pub use moves::Move;
pub use vain::Vain;

/// The main theorem for indexes with ghosts: every run under a lawful and safe protocol is serializable in commit order. For
/// every list of moves, which are steps that transactions attempt on any keys and purges of any keys at any time, with blocked
/// steps, interleaved scans, updates, rollbacks, and changes taken back one at a time between the steps of others, each
/// committed transaction's fetches, scans, inserts, updates and deletes have the answers that they have when the committed
/// transactions run whole, one after another in commit order, on the opening map. And the index with the unfinished rolled
/// back, in any order, is the map that they leave.
pub fn safe_runs_are_serial()
    ensures { (p : GhostProtocol) → IsLawfulGhost p → IsSafeGhost p → GhostRunsAreSerial p }
{}

/// A lawful protocol of which all cases hold is safe. So the cases are a simple check that suffices; some protocols are
/// safe that fail cases.
pub fn covered_is_safe()
    ensures { (p : GhostProtocol) → IsLawfulGhost p → IsCoveredGhost p → IsSafeGhost p }
{}

/// So every run under a lawful and covered protocol is serializable in commit order.
pub fn runs_are_serial()
    ensures { (p : GhostProtocol) → IsLawfulGhost p → IsCoveredGhost p → GhostRunsAreSerial p }
{}

/// The three tables keep the laws, and none of their cases fails.
pub fn tables_are_covered()
    ensures record_gap { IsLawfulGhost record_gap × IsCoveredGhost record_gap }
    ensures record_gap_cases { length (cases record_gap) ≡ 615 }
    ensures range_ghost { IsLawfulGhost range_ghost × IsCoveredGhost range_ghost }
    ensures range_ghost_cases { length (cases range_ghost) ≡ 483 }
    ensures next_key_ghost { IsLawfulGhost next_key_ghost × IsCoveredGhost next_key_ghost }
    ensures next_key_ghost_cases { length (cases next_key_ghost) ≡ 135 }
{}

/// Every run under one of them is serializable in commit order, with no premise left.
pub fn table_runs_are_serial()
    ensures record_gap { GhostRunsAreSerial record_gap }
    ensures range_ghost { GhostRunsAreSerial range_ghost }
    ensures next_key_ghost { GhostRunsAreSerial next_key_ghost }
{}

/// Each of these goes wrong, and so isn't safe: a purge that drops the locks on the ghost, or that leaves to the next name
/// only what locks the gap; an insert that locks its new key alone although its transaction has read the gap, in each of the
/// three tables; an insert of a ghost that requests nothing; and a purge of a ghost that is locked, where locks aren't inherited.
pub fn tables_go_wrong()
    ensures drops_locks { GoesWrong drops_locks × (IsSafeGhost drops_locks → ⊥) }
    ensures inherits_only_gaps { GoesWrong inherits_only_gaps × (IsSafeGhost inherits_only_gaps → ⊥) }
    ensures inserts_plainly { GoesWrong inserts_plainly × (IsSafeGhost inserts_plainly → ⊥) }
    ensures revives_freely { GoesWrong revives_freely × (IsSafeGhost revives_freely → ⊥) }
    ensures purges_locked { GoesWrong purges_locked × (IsSafeGhost purges_locked → ⊥) }
    ensures range_inserts_plainly { GoesWrong range_inserts_plainly × (IsSafeGhost range_inserts_plainly → ⊥) }
    ensures next_inserts_plainly { GoesWrong next_inserts_plainly × (IsSafeGhost next_inserts_plainly → ⊥) }
{}

/// None of the fourteen rules can be left out: a lawful protocol that fails no case but those of the rule has a run that
/// isn't serializable in commit order.
pub fn each_rule_is_needed()
    ensures { (rule : Rule) → IsNeeded rule }
{}

/// Every state that a run under a lawful protocol reaches is well formed. The keys of the index rise, and so do the ghosts,
/// none of which is present. Each transaction with locks has one of the table's modes on each name that it has locked, and
/// each locked key is a name. And each key of which a transaction has a change left is a name: no purge takes it away before
/// the transaction ends, and so every change can be taken back.
pub fn states_are_well_formed()
    ensures { (p : GhostProtocol) → IsLawfulGhost p → (opening : Map) (moves : List Move) → IsMap opening → IsGhostState p (run p (opened opening) moves).last }
{}

/// Runs worked by hand, from the pairs 10, 20 and 30. Transaction 1 deletes 20 and commits, which leaves a ghost; then
/// transaction 2 fetches it, inserts it, deletes it, looks for a key below it, or scans over it. A purge takes it away, with
/// its locks inherited on the next name or not before they are gone, and never while its delete can be undone. And an insert
/// that is undone, alone or by an abort, leaves a ghost.
pub fn worked_runs()
    ensures fetch { shown record_gap (after_delete (by 2 (op.Fetch 20) ∷ [])) ≡ record { replies = reply.Deleted 2 ∷ reply.Committed ∷ reply.None ∷ []; locks = ((Key 20, 2), 1) ∷ []; pairs = (10, 1) ∷ (30, 3) ∷ []; ghosts = 20 ∷ [] } }
    ensures insert { shown record_gap (after_delete (by 2 (op.Insert 20 9) ∷ [])) ≡ record { replies = reply.Deleted 2 ∷ reply.Committed ∷ reply.Done ∷ []; locks = ((Key 20, 2), 2) ∷ []; pairs = (10, 1) ∷ (20, 9) ∷ (30, 3) ∷ []; ghosts = [] } }
    ensures delete { shown record_gap (after_delete (by 2 (op.Delete 20) ∷ [])) ≡ record { replies = reply.Deleted 2 ∷ reply.Committed ∷ reply.Absent ∷ []; locks = ((Key 20, 2), 2) ∷ []; pairs = (10, 1) ∷ (30, 3) ∷ []; ghosts = 20 ∷ [] } }
    ensures gap { shown record_gap (after_delete (by 2 (op.Fetch 15) ∷ [])) ≡ record { replies = reply.Deleted 2 ∷ reply.Committed ∷ reply.None ∷ []; locks = ((Key 20, 2), 3) ∷ []; pairs = (10, 1) ∷ (30, 3) ∷ []; ghosts = 20 ∷ [] } }
    ensures scan { shown record_gap (after_delete (by 2 (op.Scan 10 30) ∷ by 2 op.Go ∷ by 2 op.Go ∷ [])) ≡ record { replies = reply.Deleted 2 ∷ reply.Committed ∷ reply.Going 10 ∷ reply.Going 20 ∷ reply.Rows ((10, 1) ∷ (30, 3) ∷ []) ∷ []; locks = ((Key 10, 2), 4) ∷ ((Key 20, 2), 4) ∷ ((Key 30, 2), 4) ∷ []; pairs = (10, 1) ∷ (30, 3) ∷ []; ghosts = 20 ∷ [] } }
    ensures inherited { shown record_gap (after_delete (by 2 (op.Fetch 20) ∷ Purge 20 ∷ [])) ≡ record { replies = reply.Deleted 2 ∷ reply.Committed ∷ reply.None ∷ []; locks = ((Key 30, 2), 3) ∷ []; pairs = (10, 1) ∷ (30, 3) ∷ []; ghosts = [] } }
    ensures locked { shown range_ghost (after_delete (by 2 (op.Fetch 20) ∷ Purge 20 ∷ [])) ≡ record { replies = reply.Deleted 2 ∷ reply.Committed ∷ reply.None ∷ []; locks = ((Key 20, 2), 1) ∷ []; pairs = (10, 1) ∷ (30, 3) ∷ []; ghosts = 20 ∷ [] } }
    ensures unlocked { shown range_ghost (after_delete (by 2 (op.Fetch 20) ∷ by 2 op.Commit ∷ Purge 20 ∷ [])) ≡ record { replies = reply.Deleted 2 ∷ reply.Committed ∷ reply.None ∷ reply.Committed ∷ []; locks = []; pairs = (10, 1) ∷ (30, 3) ∷ []; ghosts = [] } }
    ensures changed { shown record_gap (by 1 (op.Delete 20) ∷ Purge 20 ∷ by 1 op.Back ∷ []) ≡ record { replies = reply.Deleted 2 ∷ reply.Undone 0 ∷ []; locks = ((Key 20, 1), 2) ∷ []; pairs = (10, 1) ∷ (20, 2) ∷ (30, 3) ∷ []; ghosts = [] } }
    ensures back { shown record_gap (by 1 (op.Insert 15 5) ∷ by 1 op.Back ∷ []) ≡ record { replies = reply.Done ∷ reply.Undone 0 ∷ []; locks = ((Key 15, 1), 2) ∷ []; pairs = (10, 1) ∷ (20, 2) ∷ (30, 3) ∷ []; ghosts = 15 ∷ [] } }
    ensures abort { shown record_gap (by 1 (op.Insert 15 5) ∷ by 1 op.Abort ∷ []) ≡ record { replies = reply.Done ∷ reply.Aborted ∷ []; locks = []; pairs = (10, 1) ∷ (20, 2) ∷ (30, 3) ∷ []; ghosts = 15 ∷ [] } }
{}
