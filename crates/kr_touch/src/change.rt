//! What a granted operation does to the index and its transaction.
ghost use Rattle.std.specs.Prelude.{◌≡◌, ℕ, ◌+◌, ◌<◌, ◌≤◌, OnOk, OnErr};
ghost use Rattle.kr_model.specs.Map.{restore_all};
ghost use Rattle.kr_txn.specs.Standings.{active_of};
ghost use Rattle.kr_touch.specs.Parts.{op_of_key, op_of_touch};
ghost use Rattle.kr_touch.specs.Attempts.{IsRowOf};
ghost use Rattle.kr_touch.specs.Room.{HasRoomIn, HasFirstRoom};
ghost use Rattle.kr_touch.specs.Effects.{effect_of, map_at_end, map_back, standing_back};
ghost use Rattle.kr_touch.specs.Pins.{changed_key, changes_of, taken_pins};

use crate::granted::GrantedTouch;
use crate::parts::{Ending, KeyTouch, Touch};
use crate::scans;
use kr_model::{Op, Row};
use kr_parts::{Memory, Ordered};
use kr_txn::{Scan, Standing};

/// The key that an operation changes, by the row of its attempt: that of an insert where it is absent, and that of a
/// delete or an update where it is present.
fn changed_key(op: Op, row: Row) -> Option<u64>
    ensures { result ≡ changed_key op row }
{
    match (op, row) {
        (Op::Insert(key, _), Row::Insert) => Some(key),
        (Op::Delete(key), Row::Delete) => Some(key),
        (Op::Update(key, _), Row::Update) => Some(key),
        (_, _) => None,
    }
}

/// Pins the key that an operation changes, if it changes one. The answer is `Memory` where that key may have no more
/// pins, or a growth is refused; then no pin changes.
pub fn pin_change<I: Ordered>(index: &mut I, op: Op, row: Row) -> Result<(), Memory>
    ensures map { I.map index.new ≡ I.map index.old }
    ensures ok { OnOk result ((q : ℕ) → I.pins index.new q ≡ I.pins index.old q + taken_pins op row q) }
    ensures err { OnErr result ((q : ℕ) → I.pins index.new q ≡ I.pins index.old q) }
{
    if let Some(key) = changed_key(op, row) {
        index.pin(key)?;
    }
    Ok(())
}

/// Gives up that pin.
pub fn unpin_change<I: Ordered>(index: &mut I, op: Op, row: Row)
    requires { (q : ℕ) → taken_pins op row q ≤ I.pins index.old q }
    ensures map { I.map index.new ≡ I.map index.old }
    ensures pins { (q : ℕ) → I.pins index.new q + taken_pins op row q ≡ I.pins index.old q }
{
    if let Some(key) = changed_key(op, row) {
        index.unpin(key);
    }
}

/// Does what is granted on the index, by the row of its attempt, and notes the row that is read, or the change, whose pin
/// stays.
pub fn perform<I: Ordered>(index: &mut I, standing: Standing, granted: GrantedTouch) -> Standing
    requires row { IsRowOf (I.map index.old) (active_of standing).scan (op_of_touch granted.touch) granted.plan.row }
    requires pins { (q : ℕ) → taken_pins (op_of_touch granted.touch) granted.plan.row q ≤ I.pins index.old q }
    requires room { HasRoomIn standing (op_of_touch granted.touch) }
    requires first_room { HasFirstRoom granted.first_rows (op_of_touch granted.touch) }
    ensures map { I.map index.new ≡ (effect_of (I.map index.old) (active_of standing) (op_of_touch granted.touch)).map }
    ensures pins { (q : ℕ) → I.pins index.new q + taken_pins (op_of_touch granted.touch) granted.plan.row q + changes_of (active_of standing).changes q ≡ I.pins index.old q + changes_of (active_of result).changes q }
    ensures txn { result.txn ≡ standing.txn }
    ensures standing { active_of result ≡ (effect_of (I.map index.old) (active_of standing) (op_of_touch granted.touch)).standing }
{
    let GrantedTouch {
        touch,
        plan,
        current_was: _,
        next_was: _,
        first_rows,
    } = granted;
    match touch {
        Touch::Scan(lo, hi) => {
            let rows = first_rows;
            scans::begin(index, standing, Scan { lo, hi, rows })
        }
        Touch::Go => scans::go_on(index, standing),
        Touch::Key(touch) => change(index, standing, touch, plan.row),
    }
}

/// The same where one key is read or changed. Where none changes, the index isn't looked at.
fn change<I: Ordered>(index: &mut I, standing: Standing, touch: KeyTouch, row: Row) -> Standing
    requires row { IsRowOf (I.map index.old) (active_of standing).scan (op_of_key touch) row }
    requires pins { (q : ℕ) → taken_pins (op_of_key touch) row q ≤ I.pins index.old q }
    requires room { HasRoomIn standing (op_of_key touch) }
    ensures map { I.map index.new ≡ (effect_of (I.map index.old) (active_of standing) (op_of_key touch)).map }
    ensures pins { (q : ℕ) → I.pins index.new q + taken_pins (op_of_key touch) row q + changes_of (active_of standing).changes q ≡ I.pins index.old q + changes_of (active_of result).changes q }
    ensures txn { result.txn ≡ standing.txn }
    ensures standing { active_of result ≡ (effect_of (I.map index.old) (active_of standing) (op_of_key touch)).standing }
{
    let mut standing = standing;
    match (touch, row) {
        (KeyTouch::Insert(key, value), Row::Insert) => {
            index.put(key, value);
            standing.changes.push_reserved((key, None));
        }
        (KeyTouch::Delete(key), Row::Delete) => match index.take(key) {
            Some(value) => standing.changes.push_reserved((key, Some(value))),
            None => index.unpin(key),
        },
        (KeyTouch::Update(key, value), Row::Update) => match index.get(key) {
            Some(old) => {
                index.put(key, value);
                standing.changes.push_reserved((key, Some(old)));
            }
            None => index.unpin(key),
        },
        (_, _) => {}
    }
    standing
}

/// Lets the changes of a transaction stand or undoes them, as it ends, and gives up their pins.
pub fn end<I: Ordered>(index: &mut I, standing: Standing, ending: Ending)
    requires { (q : ℕ) → changes_of (active_of standing).changes q ≤ I.pins index.old q }
    ensures map { I.map index.new ≡ map_at_end (I.map index.old) (active_of standing).changes ending }
    ensures pins { (q : ℕ) → I.pins index.new q + changes_of (active_of standing).changes q ≡ I.pins index.old q }
{
    match ending {
        Ending::Commit => settle(index, standing),
        Ending::Abort => undo(index, standing),
    }
}

/// Lets the changes of a transaction stand, and gives up their pins.
fn settle<I: Ordered>(index: &mut I, standing: Standing)
    requires { (q : ℕ) → changes_of (active_of standing).changes q ≤ I.pins index.old q }
    ensures map { I.map index.new ≡ I.map index.old }
    ensures pins { (q : ℕ) → I.pins index.new q + changes_of (active_of standing).changes q ≡ I.pins index.old q }
{
    let mut changes = standing.changes;
    while let Some((key, _)) = changes.pop() {
        index.unpin(key);
    }
}

/// Takes the changes of a transaction back, newest first, and gives up their pins.
fn undo<I: Ordered>(index: &mut I, standing: Standing)
    requires { (q : ℕ) → changes_of (active_of standing).changes q ≤ I.pins index.old q }
    ensures map { I.map index.new ≡ restore_all (I.map index.old) (active_of standing).changes }
    ensures pins { (q : ℕ) → I.pins index.new q + changes_of (active_of standing).changes q ≡ I.pins index.old q }
{
    let mut changes = standing.changes;
    while let Some((key, before)) = changes.pop() {
        match before {
            Some(value) => index.put(key, value),
            None => {
                let _ = index.take(key);
            }
        }
        index.unpin(key);
    }
}

/// Takes the newest change of a transaction back, and gives up its pin; the transaction rolls back from then on, and its
/// scan in progress is dropped. Takes no memory.
pub fn take_back<I: Ordered>(index: &mut I, standing: Standing) -> Standing
    requires { (q : ℕ) → changes_of (active_of standing).changes q ≤ I.pins index.old q }
    ensures map { I.map index.new ≡ map_back (I.map index.old) (active_of standing).changes }
    ensures pins { (q : ℕ) → I.pins index.new q + changes_of (active_of standing).changes q ≡ I.pins index.old q + changes_of (active_of result).changes q }
    ensures txn { result.txn ≡ standing.txn }
    ensures standing { active_of result ≡ standing_back (active_of standing) }
{
    let Standing {
        txn,
        scan: _,
        changes,
        rolling: _,
    } = standing;
    let mut changes = changes;
    if let Some((key, before)) = changes.pop() {
        match before {
            Some(value) => index.put(key, value),
            None => {
                let _ = index.take(key);
            }
        }
        index.unpin(key);
    }
    Standing {
        txn,
        scan: None,
        changes,
        rolling: true,
    }
}
