//! The main theorem, over the definitions alone: every run under a safe protocol is serializable in commit order, with
//! rollbacks taken whole or one change at a time, and a protocol is safe where all its cases hold; for ordered
//! protocols safe is exact, since one that isn't safe goes wrong on one of some fixed schedules, and for others it isn't; and laws
//! of states, logs, runs and covers. Each function does nothing, and its contract is a law. `docs/HEADLINE.md` tells the proof.
#![tactic(auto)]

ghost use Rattle.std.specs.Prelude.{◌≡◌, ℕ, IsTrue, Contains, map, List, Some, None, unwrap_or};
ghost use Rattle.kr_model.specs.Protocol.{Protocol, IsLawful};
ghost use Rattle.kr_model.specs.Covers.{Ask, must_conflict, serves, IsCovered};
ghost use Rattle.kr_model.specs.Safe.{IsSafe};
ghost use Rattle.kr_model.specs.Kvl.{kvl};
ghost use Rattle.kr_model.specs.KvlUpdate.{kvl_update};
ghost use Rattle.kr_model.specs.Im.{im};
ghost use Rattle.kr_model.specs.RangeKey.{range_key};
ghost use Rattle.kr_model.specs.Map.{Map, Changes, IsMap, get, restore_all, before_first};
ghost use Rattle.kr_model.specs.State.{State, start};
ghost use Rattle.kr_model.specs.WellFormed.{IsState};
ghost use Rattle.kr_model.specs.Run.{Entry, Program, run, events_of, operations_of, programs, AreSteps, HadMemory};
ghost use Rattle.kr_model.specs.Log.{without_backs, no_log, log_after};
ghost use Rattle.kr_model.specs.Serial.{AreSerial, RunsAreSerial};
ghost use Rattle.kr_model.specs.Difference.{Difference, IsFirstDifference, first_difference};
ghost use Rattle.kr_model.specs.declared.Rule.{Rule};
ghost use Rattle.kr_model.specs.declared.Event.{Event};
ghost use Rattle.kr_model.specs.declared.Cover.TheVariants.{ReadKey, ReadGap, InsertedKey, DeletedGap, UpdatedKey};
ghost use Rattle.kr_theorem.specs.Passes.{IsSplitting, IsMerging, RunsOfAreSerial};
ghost use Rattle.kr_theorem.specs.Needed.{IsNeeded};
ghost use Rattle.kr_theorem.specs.Worked.{IsSafeUncovered, IsUnsafe, six_to_is, six_beside_ix, insert_beside_read, requests_nothing, miss_at_once};
ghost use Rattle.kr_theorem.specs.Wrong.{GoesWrong, GoesWrongUnder};
ghost use Rattle.kr_theorem.specs.Fixed.{FixedHole};
ghost use Rattle.kr_theorem.specs.Schedules.{opening, schedule};
ghost use Rattle.kr_theorem.specs.Ordered.{IsOrdered};
ghost use Rattle.kr_theorem.specs.Unreached.{unreached};
ghost use Rattle.kr_theorem.specs.Argued.{IsUnsafeUnordered, next_blocks, key_gone};

/// Under a lawful and covered protocol every run of fetches, inserts and commits is serializable in commit order, and the
/// index with the unfinished rolled back, in any order, is the map that the committed transactions leave.
pub fn splits_are_serial()
    ensures { (p : Protocol) → IsLawful p → IsCovered p → RunsOfAreSerial IsSplitting p }
{}

/// The same of runs with deletes, aborts and changes undone one at a time too.
pub fn merges_are_serial()
    ensures { (p : Protocol) → IsLawful p → IsCovered p → RunsOfAreSerial IsMerging p }
{}

/// The main theorem: every run under a lawful and safe protocol is serializable in commit order. For every list of steps
/// that transactions attempt on any keys, with blocked steps, interleaved scans, updates, rollbacks, and changes taken
/// back one at a time between the steps of others, each committed transaction's fetches, scans, inserts, updates and
/// deletes have the answers that they have when the committed transactions run whole, one after another in commit order,
/// on the opening map. And the index with the unfinished rolled back, in any order, is the map that they leave.
pub fn safe_runs_are_serial()
    ensures { (p : Protocol) → IsLawful p → IsSafe p → RunsAreSerial p }
{}

/// A lawful protocol of which all cases hold is safe. So the cases are a simple check that suffices; some protocols are
/// safe that fail cases.
pub fn covered_is_safe()
    ensures { (p : Protocol) → IsLawful p → IsCovered p → IsSafe p }
{}

/// So every run under a lawful and covered protocol is serializable in commit order.
pub fn runs_are_serial()
    ensures { (p : Protocol) → IsLawful p → IsCovered p → RunsAreSerial p }
{}

/// The bundled tables are safe.
pub fn bundled_are_safe()
    ensures kvl { IsSafe kvl }
    ensures kvl_update { IsSafe kvl_update }
    ensures im { IsSafe im }
    ensures range_key { IsSafe range_key }
{}

/// Some lawful tables fail cases and are safe: key-value locking in which SIX and IX convert to IS, key-value locking in
/// which SIX is granted beside IX, and range-key locking in which I-X is granted beside S-N.
pub fn worked_safe()
    ensures conversion { IsSafeUncovered six_to_is }
    ensures compatible { IsSafeUncovered six_beside_ix }
    ensures range { IsSafeUncovered insert_beside_read }
{}

/// Some lawful tables aren't safe: one that requests nothing, and key-value locking in which a fetch that finds nothing
/// doesn't keep its lock on the gap.
pub fn worked_unsafe()
    ensures nothing { IsUnsafe requests_nothing }
    ensures miss { IsUnsafe miss_at_once }
{}

/// Every run under a bundled table is serializable in commit order, with no premise left.
pub fn bundled_runs_are_serial()
    ensures kvl { RunsAreSerial kvl }
    ensures kvl_update { RunsAreSerial kvl_update }
    ensures im { RunsAreSerial im }
    ensures range_key { RunsAreSerial range_key }
{}

/// None of the nine rules can be left out: a lawful protocol that fails no case but those of the rule has a run that
/// isn't serializable in commit order.
pub fn each_rule_is_needed()
    ensures { (rule : Rule) → IsNeeded rule }
{}

/// An abort leaves at each key what stood there before the first of the transaction's changes of it that are left, and
/// a key of which none is left as it stands.
pub fn aborts_restore()
    ensures { (m : Map) (changes : Changes) (k : ℕ) → get (restore_all m changes) k ≡ unwrap_or (before_first changes k) (get m k) }
{}

/// The judge's verdict. Programs have no first difference exactly where they are serializable in commit order; and a
/// difference is the first one exactly where each answer before it, in commit order, is that of the operation run whole, and
/// its own isn't.
pub fn differences_tell()
    ensures if_none { (m : Map) (ps : List Program) → first_difference m ps ≡ None → AreSerial m ps }
    ensures if_serial { (m : Map) (ps : List Program) → AreSerial m ps → first_difference m ps ≡ None }
    ensures first { (m : Map) (ps : List Program) (d : Difference) → first_difference m ps ≡ Some d → IsFirstDifference m ps d }
    ensures only { (m : Map) (ps : List Program) (d : Difference) → IsFirstDifference m ps d → first_difference m ps ≡ Some d }
{}

/// Under a lawful protocol every state that steps reach from an opening map is well formed, also where some were
/// refused memory. So is the state at the end of a run, and so its index can open the next run.
pub fn states_are_well_formed()
    ensures steps { (p : Protocol) (opening : Map) (h : List Entry) (s : State)
        → IsLawful p → IsMap opening → AreSteps p (start opening) h s → IsState p s }
    ensures run { (p : Protocol) (opening : Map) (events : List Event)
        → IsLawful p → IsMap opening → IsState p (run p (start opening) events).state }
    ensures index { (p : Protocol) (opening : Map) (events : List Event)
        → IsLawful p → IsMap opening → IsMap (run p (start opening) events).state.map }
{}

/// The log of steps has the programs that are read from their history: those that have committed, and of each active
/// transaction its operations so far without the backs. Any of the steps may have been refused memory.
pub fn logs_tell_programs()
    ensures committed { (p : Protocol) (opening : Map) (h : List Entry) (s : State)
        → AreSteps p (start opening) h s → (log_after no_log h).committed ≡ programs h }
    ensures unfinished { (p : Protocol) (opening : Map) (h : List Entry) (s : State)
        → AreSteps p (start opening) h s → (log_after no_log h).unfinished ≡ map (λ a. (a.0, without_backs (operations_of a.0 h))) s.active }
{}

/// Runs are the histories of steps of which none was refused memory. So, apart from memory, the replies and the state
/// are a function of the protocol, the state at first and the events.
pub fn runs_are_steps_with_memory()
    ensures run { (p : Protocol) (s : State) (h : List Entry) (new : State)
        → AreSteps p s h new → HadMemory h → run p s (events_of h) ≡ record { history = h; state = new } }
    ensures steps { (p : Protocol) (s : State) (events : List Event) → AreSteps p s (run p s events).history (run p s events).state }
    ensures memory { (p : Protocol) (s : State) (events : List Event) → HadMemory (run p s events).history }
{}

/// The cover of a change must conflict with all that the cover of a read must conflict with there: that of an inserted key
/// with what that of a read key must, that of a deleted gap with what that of a read gap must, and, where updates are
/// offered, that of an updated key with what that of a read key must. So a mode that serves it serves the read.
pub fn changes_cover_reads()
    ensures inserted { (p : Protocol) (a : Ask) → Contains (must_conflict p ReadKey) a → Contains (must_conflict p InsertedKey) a }
    ensures deleted { (p : Protocol) (a : Ask) → Contains (must_conflict p ReadGap) a → Contains (must_conflict p DeletedGap) a }
    ensures updated { (p : Protocol) (a : Ask) → IsTrue p.updates
        → Contains (must_conflict p ReadKey) a → Contains (must_conflict p UpdatedKey) a }
    ensures serves_key { (p : Protocol) (mode : ℕ) → IsTrue (serves p InsertedKey mode) → IsTrue (serves p ReadKey mode) }
    ensures serves_gap { (p : Protocol) (mode : ℕ) → IsTrue (serves p DeletedGap mode) → IsTrue (serves p ReadGap mode) }
    ensures serves_update { (p : Protocol) (mode : ℕ) → IsTrue p.updates
        → IsTrue (serves p UpdatedKey mode) → IsTrue (serves p ReadKey mode) }
{}

/// Under every lawful protocol the schedule of each of its fixed holes goes wrong: each step is granted, and the
/// transactions that commit aren't serializable in commit order. So some schedule goes wrong wherever there is such a hole.
pub fn fixed_goes_wrong()
    ensures by_schedule { (p : Protocol) → IsLawful p → (hole : FixedHole p) → GoesWrong p (opening hole) (schedule hole) }
    ensures by_some { (p : Protocol) → IsLawful p → FixedHole p → GoesWrongUnder p }
{}

/// A lawful and ordered protocol is safe where no fixed schedule goes wrong.
pub fn fixed_or_safe()
    ensures { (p : Protocol) → IsLawful p → IsOrdered p → (FixedHole p → ⊥) → IsSafe p }
{}

/// So under a lawful and ordered protocol every run is serializable in commit order only where the protocol is safe: with
/// the main theorem, exactly where it is.
pub fn exact_on_ordered()
    ensures { (p : Protocol) → IsLawful p → IsOrdered p → RunsAreSerial p → IsSafe p }
{}

/// The bundled tables are ordered.
pub fn bundled_are_ordered()
    ensures kvl { IsOrdered kvl }
    ensures kvl_update { IsOrdered kvl_update }
    ensures im { IsOrdered im }
    ensures range_key { IsOrdered range_key }
{}

/// For lawful protocols that aren't ordered the converse of the main theorem is false: this one is lawful and isn't safe,
/// and every run under it is serializable in commit order. So for such protocols the condition can be too strict, and not
/// every protocol that isn't safe has a schedule that goes wrong.
pub fn converse_is_false()
    ensures { IsLawful unreached × (IsSafe unreached → ⊥) × RunsAreSerial unreached }
{}

/// Two more lawful protocols are neither safe nor ordered. That no schedule goes wrong under them is argued in
/// `docs/HEADLINE.md`, and isn't proved.
pub fn neither_safe_nor_ordered()
    ensures next { IsUnsafeUnordered next_blocks }
    ensures gone { IsUnsafeUnordered key_gone }
{}
