//! What holds of lines that are followed. Each function does nothing, and its contract is a law.
ghost use Rattle.std.specs.Prelude.{ℕ, ◌≡◌, ◌==◌, ◌∷◌, List, Some, None, true};
ghost use Rattle.std.specs.List.{list_any};
ghost use Rattle.kr_model.specs.declared.Name.{Name};
ghost use Rattle.kr_model.specs.Locks.{own};
ghost use Rattle.kr_model.specs.Protocol.{Protocol, IsLawful};
ghost use Rattle.kr_model.specs.Covers.{IsCovered};
ghost use Rattle.kr_model.specs.Safe.{IsSafe};
ghost use Rattle.kr_model.specs.Map.{Map, IsMap};
ghost use Rattle.kr_trace_follow.specs.Conforms.{IsSerialTrace};
ghost use Rattle.kr_trace_follow.specs.Following.{at_start, deviation, point_left, begun, after_lines};
ghost use Rattle.kr_model.specs.Run.{Answered};
ghost use Rattle.kr_model.specs.Serial.{AreAnswered};
ghost use Rattle.kr_trace_follow.specs.Lines.{Line};
ghost use Rattle.kr_trace_follow.specs.Given.{Given, AreAnsweredWhereGiven, AreSerialWhereGiven, map_after, difference_in, NoneDiffers, IsFirstDifference};
ghost use Rattle.kr_trace_follow.specs.Since.{line_of};
ghost use Rattle.kr_trace_follow.specs.Whole.{AreGivenWhole};
ghost use Rattle.kr_trace_follow.specs.declared.judge.Difference.{Difference};

/// Where lines are followed one after another, the deviation that is found is that of the first of them that deviates;
/// and where none does, they lead to where all of them lead.
pub fn lines_are_followed()
    ensures found { (p : Protocol) (opening : Map) (lines : List Line)
        → (let f = after_lines p (begun opening) lines in f.found) ≡ deviation p (at_start opening) lines }
    ensures point { (p : Protocol) (opening : Map) (lines : List Line)
        → deviation p (at_start opening) lines ≡ None → (let f = after_lines p (begun opening) lines in f.at) ≡ point_left p (at_start opening) lines }
{}

/// Each lock that is held where lines lead is held since one of them.
pub fn locks_are_held_since_lines()
    ensures { (p : Protocol) (opening : Map) (lines : List Line) (t : ℕ) (n : Name)
        → (let at = point_left p (at_start opening) lines in let s = at.state in own s.locks t n ≡ 0 → ⊥)
        → list_any (λ l. l.number == (let at = point_left p (at_start opening) lines in line_of at.since t n)) lines ≡ true }
{}

/// An engine of which no line deviates did a run under the table. Where the table is safe, its committed transactions are
/// serializable in commit order, with the answers of the table; and so are the programs put together from the lines, with
/// the answers that were given: a judge that is given these, in commit order, finds no difference. A covered table is safe.
pub fn conforming_is_serial()
    ensures safe { (p : Protocol) → IsLawful p → IsSafe p → (opening : Map) → IsMap opening
        → (lines : List Line) → deviation p (at_start opening) lines ≡ None → IsSerialTrace p opening lines }
    ensures covered { (p : Protocol) → IsLawful p → IsCovered p → (opening : Map) → IsMap opening
        → (lines : List Line) → deviation p (at_start opening) lines ≡ None → IsSerialTrace p opening lines }
{}

/// The judge's answer on a program. There is no difference exactly where each answer is, as far as it was given, that of the
/// operation run whole on the map that the operations before it left; and a difference is the first one exactly where each
/// answer before it is, and its own isn't.
pub fn differences_are_first()
    ensures if_none { (m : Map) (os : List Given) → difference_in m 1 os ≡ None → AreAnsweredWhereGiven m os }
    ensures if_answered { (m : Map) (os : List Given) → AreAnsweredWhereGiven m os → difference_in m 1 os ≡ None }
    ensures first { (m : Map) (os : List Given) (d : Difference) → difference_in m 1 os ≡ Some d → IsFirstDifference m os d }
    ensures only { (m : Map) (os : List Given) (d : Difference) → IsFirstDifference m os d → difference_in m 1 os ≡ Some d }
{}

/// Programs are serializable in commit order, as far as they were given, exactly where the first is from the opening map, and
/// the others are from the map that it leaves; exactly where a judge that is given one after another finds no difference;
/// and where nothing was left out, exactly where they are serializable in commit order.
pub fn programs_are_judged()
    ensures one_more { (m : Map) (os : List Given) (ps : List (List Given))
        → AreAnsweredWhereGiven m os → AreSerialWhereGiven (map_after m os) ps → AreSerialWhereGiven m (os ∷ ps) }
    ensures first { (m : Map) (os : List Given) (ps : List (List Given)) → AreSerialWhereGiven m (os ∷ ps) → AreAnsweredWhereGiven m os }
    ensures others { (m : Map) (os : List Given) (ps : List (List Given)) → AreSerialWhereGiven m (os ∷ ps) → AreSerialWhereGiven (map_after m os) ps }
    ensures judged { (m : Map) (ps : List (List Given)) → AreSerialWhereGiven m ps → NoneDiffers m ps }
    ensures if_judged { (m : Map) (ps : List (List Given)) → NoneDiffers m ps → AreSerialWhereGiven m ps }
    ensures whole { (m : Map) (os : List Answered) (ts : List Given) → AreGivenWhole os ts → AreAnswered m os → AreAnsweredWhereGiven m ts }
    ensures given { (m : Map) (os : List Answered) (ts : List Given) → AreGivenWhole os ts → AreAnsweredWhereGiven m ts → AreAnswered m os }
{}
