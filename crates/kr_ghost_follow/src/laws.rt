//! What holds of lines beside which a state stands. Each function does nothing, and its contract is a law.
ghost use Rattle.std.specs.Prelude.{◌≡◌, List, false, IsTrue};
ghost use Rattle.kr_model.specs.Map.{Map, IsMap};
ghost use Rattle.kr_ghost.specs.declared.moves.Move.{Move};
ghost use Rattle.kr_ghost.specs.Covers.{IsCoveredGhost};
ghost use Rattle.kr_ghost.specs.Protocol.{GhostProtocol, IsLawfulGhost};
ghost use Rattle.kr_ghost.specs.Run.{run};
ghost use Rattle.kr_ghost.specs.Safe.{IsSafeGhost};
ghost use Rattle.kr_ghost.specs.State.{opened};
ghost use Rattle.kr_trace_lines.specs.Fits.{fits};
ghost use Rattle.kr_trace_follow.specs.Deviates.{is_queued};
ghost use Rattle.kr_trace_follow.specs.Lines.{Line};
ghost use Rattle.kr_ghost_follow.specs.Conforms.{IsSerialRunOf};
ghost use Rattle.kr_ghost_follow.specs.Points.{Point, last_tried};
ghost use Rattle.kr_ghost_follow.specs.Reached.{Agrees, IsReached, Leads};

/// The moves that lead along lines to a point are a run with purges that ends in its state.
pub fn lines_are_run()
    ensures { (p : GhostProtocol) (opening : Map) (lines : List Line) (moves : List Move) (at : Point) → Leads p opening lines moves at → (let r = run p (opened opening) moves in r.last) ≡ at.state }
{}

/// A line that is what the table answers at a point has the table's reply, as far as it was given, unless it is queued.
pub fn agreeing_fits()
    ensures { (p : GhostProtocol) (at : Point) (l : Line) → Agrees p at l → is_queued (let last = last_tried p at l in last.ahead) (let last = last_tried p at l in last.reply) ≡ false
        → IsTrue (fits (let last = last_tried p at l in last.reply) l.observed) }
{}

/// An engine beside whose lines a state stands did a run under the table, with purges. Where the table is safe, its committed
/// transactions are serializable in commit order, with the answers of the table; and so are the programs put together from the
/// lines, with the answers that were given, each scan downwards as the one upwards of its range: a judge that is given these, in
/// commit order, finds no difference. A covered table is safe.
pub fn standing_is_serial()
    ensures safe { (p : GhostProtocol) → IsLawfulGhost p → IsSafeGhost p → (opening : Map) → IsMap opening → (lines : List Line) (at : Point) → IsReached p opening lines at → IsSerialRunOf p opening lines at }
    ensures covered { (p : GhostProtocol) → IsLawfulGhost p → IsCoveredGhost p → (opening : Map) → IsMap opening → (lines : List Line) (at : Point) → IsReached p opening lines at → IsSerialRunOf p opening lines at }
{}
