//! What a granted operation does where its transaction stands in the list of the active ones.
ghost use Rattle.std.specs.Prelude.{◌≡◌, ℕ, ◌+◌, ◌<◌, ◌≤◌, None, Some, IfSome, if◌then◌else◌, OnOk, vec_len, vec_capacity, slice_index_or, unwrap_or};
ghost use Rattle.std.specs.Ordering.{nat_cmp};
ghost use Rattle.std.specs.FinMap.{find, put};
ghost use Rattle.kr_model.specs.Map.{Map, get};
ghost use Rattle.kr_model.specs.State.{idle};
ghost use Rattle.kr_model.specs.Step.{looked, name_to_look};
ghost use Rattle.kr_model.specs.declared.Name.{Name};
ghost use Rattle.kr_model.specs.declared.Step.TheVariants as attempt_is;
ghost use Rattle.kr_txn.specs.Numbered.{IsPosition};
ghost use Rattle.kr_txn.specs.Standings.{active_of, entries, number_of, scan_of, IsInOrder};
ghost use Rattle.kr_touch.specs.Parts.{op_of_key, op_of_touch, key_of};
ghost use Rattle.kr_touch.specs.Attempts.{IsRowOf, attempt_of};
ghost use Rattle.kr_touch.specs.Room.{HasRoomIn, HasFirstRoom};
ghost use Rattle.kr_touch.specs.Effects.{effect_of, look_effect};
ghost use Rattle.kr_touch.specs.Pins.{changes_of, all_changes_of, taken_pins};
ghost use Rattle.kr_touch.specs.Sights.{IsSight, value_of_name};

use crate::parts::{KeyTouch, Touch};
use crate::sights::Sight;
use crate::standings::make_room_in;
use kr_model::{Row, Step, Txn};
use kr_parts::{Memory, Name, Ordered};
use kr_txn::{Scan, Standing};

/// Takes room for what is added to the transaction at this place.
pub fn make_room_at(active: &mut Vec<Standing>, place: usize, touch: Touch) -> Result<(), Memory>
    requires { place < vec_len active.old }
    ensures same { entries active.new.items ≡ entries active.old.items }
    ensures len { vec_len active.new ≡ vec_len active.old }
    ensures ok { OnOk result ((d : Standing) → HasRoomIn (slice_index_or active.new.items place d) (op_of_touch touch)) }
{
    make_room_in(&mut active[place], touch)
}

/// Reads a name with its value: a key below the upper end of a scan is one row more, and the scan goes on, which is told;
/// any other name ends it. Takes no memory.
fn read(scan: &mut Scan, name: Name, value: Option<u64>) -> bool
    requires { vec_len scan.old.rows < vec_capacity scan.old.rows }
    ensures { (m : Map) → value ≡ value_of_name m name → (if result then Some (scan_of scan.new) else None) ≡ (looked m idle (scan_of scan.old) name).standing.scan }
{
    if let Name::Key(key) = name {
        if key < scan.hi {
            scan.rows.push_reserved((key, value.unwrap_or(0)));
            return true;
        }
    }
    false
}

/// Takes the first step of a scan that a transaction begins, on this name with its value.
fn begin(standing: &mut Standing, scan: Scan, name: Name, value: Option<u64>)
    requires { vec_len scan.rows < vec_capacity scan.rows }
    ensures txn { standing.new.txn ≡ standing.old.txn }
    ensures standing { (m : Map) → name ≡ name_to_look m (scan_of scan) → value ≡ value_of_name m name → active_of standing.new ≡ (look_effect m (active_of standing.old) (Some (scan_of scan))).standing }
    ensures changes { standing.new.changes ≡ standing.old.changes }
{
    let mut scan = scan;
    standing.scan = if read(&mut scan, name, value) {
        Some(scan)
    } else {
        None
    };
}

/// Takes the next step of the scan in progress, on this name with its value; where there is none, the transaction stays.
fn go_on(standing: &mut Standing, name: Name, value: Option<u64>)
    requires { IfSome standing.old.scan (λ c. vec_len c.rows < vec_capacity c.rows) }
    ensures txn { standing.new.txn ≡ standing.old.txn }
    ensures standing { (m : Map) → IfSome (active_of standing.old).scan (λ c. name ≡ name_to_look m c) → value ≡ value_of_name m name → active_of standing.new ≡ (look_effect m (active_of standing.old) (active_of standing.old).scan).standing }
    ensures changes { standing.new.changes ≡ standing.old.changes }
{
    let ends = match &mut standing.scan {
        Some(scan) => !read(scan, name, value),
        None => false,
    };
    if ends {
        standing.scan = None;
    }
}

/// Does what is granted where one key is read or changed, by the row and by the value of the key, and notes the change,
/// whose pin stays. Where none changes, the index isn't looked at.
fn change<I: Ordered>(
    index: &mut I,
    standing: &mut Standing,
    touch: KeyTouch,
    row: Row,
    value: Option<u64>,
)
    requires row { IsRowOf (I.map index.old) (active_of standing.old).scan (op_of_key touch) row }
    requires value { value ≡ get (I.map index.old) (key_of touch) }
    requires pins { (q : ℕ) → taken_pins (op_of_key touch) row q ≤ I.pins index.old q }
    requires room { HasRoomIn standing.old (op_of_key touch) }
    ensures map { I.map index.new ≡ (effect_of (I.map index.old) (active_of standing.old) (op_of_key touch)).map }
    ensures pins { (q : ℕ) → I.pins index.new q ≡ I.pins index.old q }
    ensures noted { (q : ℕ) → changes_of (active_of standing.new).changes q ≡ changes_of (active_of standing.old).changes q + taken_pins (op_of_key touch) row q }
    ensures txn { standing.new.txn ≡ standing.old.txn }
    ensures standing { active_of standing.new ≡ (effect_of (I.map index.old) (active_of standing.old) (op_of_key touch)).standing }
{
    match (touch, row) {
        (KeyTouch::Insert(key, new), Row::Insert) => {
            index.put(key, new);
            standing.changes.push_reserved((key, None));
        }
        (KeyTouch::Delete(key), Row::Delete) => {
            let _ = index.take(key);
            standing.changes.push_reserved((key, value));
        }
        (KeyTouch::Update(key, new), Row::Update) => {
            index.put(key, new);
            standing.changes.push_reserved((key, value));
        }
        (_, _) => {}
    }
}

/// The name that a scan's step looks at.
fn name_in(attempt: Step) -> Name
    ensures { (n : Name) (hi : ℕ) → attempt ≡ attempt_is.Look n hi → result ≡ n }
{
    match attempt {
        Step::Look(name, _) => name,
        Step::Fetch(_) | Step::Insert(_) | Step::Delete(_) | Step::Update(_) => Name::End,
    }
}

/// Does what is granted, by what its attempt found in the index, and notes the row that is read, or the change, whose pin
/// stays.
fn perform<I: Ordered>(
    index: &mut I,
    standing: &mut Standing,
    touch: Touch,
    sight: Sight,
    first_rows: Vec<(u64, u64)>,
)
    requires attempt { attempt_of (I.map index.old) (active_of standing.old).scan (op_of_touch touch) ≡ Some sight.attempt }
    requires sight { IsSight (I.map index.old) sight }
    requires pins { (q : ℕ) → taken_pins (op_of_touch touch) sight.row q ≤ I.pins index.old q }
    requires room { HasRoomIn standing.old (op_of_touch touch) }
    requires first_room { HasFirstRoom first_rows (op_of_touch touch) }
    ensures map { I.map index.new ≡ (effect_of (I.map index.old) (active_of standing.old) (op_of_touch touch)).map }
    ensures pins { (q : ℕ) → I.pins index.new q ≡ I.pins index.old q }
    ensures noted { (q : ℕ) → changes_of (active_of standing.new).changes q ≡ changes_of (active_of standing.old).changes q + taken_pins (op_of_touch touch) sight.row q }
    ensures txn { standing.new.txn ≡ standing.old.txn }
    ensures standing { active_of standing.new ≡ (effect_of (I.map index.old) (active_of standing.old) (op_of_touch touch)).standing }
{
    match touch {
        Touch::Key(touch) => change(index, standing, touch, sight.row, sight.value),
        Touch::Scan(lo, hi) => {
            let rows = first_rows;
            let scan = Scan { lo, hi, rows };
            begin(standing, scan, name_in(sight.attempt), sight.value);
        }
        Touch::Go => go_on(standing, name_in(sight.attempt), sight.value),
    }
}

/// Does what is granted to the transaction at this place.
pub fn perform_at<I: Ordered>(
    index: &mut I,
    active: &mut Vec<Standing>,
    place: usize,
    txn: Txn,
    touch: Touch,
    sight: Sight,
    first_rows: Vec<(u64, u64)>,
)
    requires order { IsInOrder active.old.items }
    requires place { IsPosition number_of txn active.old.items place }
    requires attempt { attempt_of (I.map index.old) (unwrap_or (find nat_cmp txn (entries active.old.items)) idle).scan (op_of_touch touch) ≡ Some sight.attempt }
    requires sight { IsSight (I.map index.old) sight }
    requires pins { (q : ℕ) → taken_pins (op_of_touch touch) sight.row q ≤ I.pins index.old q }
    requires room { (d : Standing) → HasRoomIn (slice_index_or active.old.items place d) (op_of_touch touch) }
    requires first_room { HasFirstRoom first_rows (op_of_touch touch) }
    ensures map { I.map index.new ≡ (effect_of (I.map index.old) (unwrap_or (find nat_cmp txn (entries active.old.items)) idle) (op_of_touch touch)).map }
    ensures pins { (q : ℕ) → I.pins index.new q ≡ I.pins index.old q }
    ensures noted { (q : ℕ) → all_changes_of (entries active.new.items) q ≡ all_changes_of (entries active.old.items) q + taken_pins (op_of_touch touch) sight.row q }
    ensures standing { entries active.new.items ≡ put nat_cmp txn (effect_of (I.map index.old) (unwrap_or (find nat_cmp txn (entries active.old.items)) idle) (op_of_touch touch)).standing (entries active.old.items) }
    ensures len { vec_len active.new ≡ vec_len active.old }
{
    perform(index, &mut active[place], touch, sight, first_rows);
}
