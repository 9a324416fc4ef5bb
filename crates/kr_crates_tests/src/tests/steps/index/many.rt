//! Many keys, of which the tree makes several stretches.
ghost use Rattle.std.specs.Prelude.{◌≡◌, ℕ, ◌<◌, OnOk};

use kr_index::{Name, Ordered, Sorted, Tree};
use std::alloc::Global;
use std::process::Abort;
use std::test::Fail;

/// More keys than three stretches of a tree have slots for.
const MANY: u64 = 1000;

/// Pins and writes many keys, the least first.
fn fills<O: Ordered>(index: &mut O) -> Result<(), Fail>
    requires { (q : ℕ) → O.pins index.old q ≡ 0 }
    ensures { OnOk result ((q : ℕ) → q < 1000 → 0 < O.pins index.new q) }
{
    for key in 0..MANY {
        index.pin(key)?;
        index.put(key, key + 7);
    }
    Ok(())
}

/// Takes all keys away but the first and the last, the greatest first: each is next to all that are taken already.
fn takes_many<O: Ordered>(rt: &impl Abort, index: &mut O) -> Result<(), Fail>
    requires { (q : ℕ) → q < 1000 → 0 < O.pins index.old q }
    ensures { OnOk result ((q : ℕ) → q < 1000 → 0 < O.pins index.new q) }
{
    for taken in 1..MANY - 1 {
        let key = MANY - 1 - taken;
        same!(rt; index.take(key), Some(key + 7));
        same!(rt; index.get(key), None);
        same!(rt; index.after(key), Name::Key(MANY - 1));
        same!(rt;
            index.after(0),
            Name::Key(if key == 1 { MANY - 1 } else { 1 })
        );
    }
    Ok(())
}

/// Writes a key amid many absent ones, and takes it away.
fn writes_amid<O: Ordered>(rt: &impl Abort, index: &mut O, key: u64) -> Result<(), Fail>
    requires key { key < 1000 }
    requires pinned { (q : ℕ) → q < 1000 → 0 < O.pins index.old q }
    ensures { OnOk result ((q : ℕ) → q < 1000 → 0 < O.pins index.new q) }
{
    index.put(key, 1);
    same!(rt; index.at(1), Name::Key(key));
    same!(rt; index.after(key), Name::Key(MANY - 1));
    same!(rt; index.take(key), Some(1));
    same!(rt; index.at(1), Name::Key(MANY - 1));
    Ok(())
}

/// Gives up the pins of many keys, the least first.
fn empties<O: Ordered>(rt: &impl Abort, index: &mut O) -> Result<(), Fail>
    requires { (q : ℕ) → q < 1000 → 0 < O.pins index.old q }
{
    for key in 0..MANY {
        index.unpin(key);
        same!(rt; index.after(0), Name::Key(MANY - 1));
    }
    same!(rt; index.get(0), Some(7));
    same!(rt; index.after(MANY - 1), Name::End);
    Ok(())
}

fn crosses<O: Ordered>(rt: &impl Abort, alloc: Global, index: &mut O) -> Result<(), Fail>
    requires { (q : ℕ) → O.pins index.old q ≡ 0 }
{
    fills(index)?;
    same!(rt; index.copy(alloc)?.as_slice().len(), 1000);
    takes_many(rt, index)?;
    same!(rt;
        index.copy(alloc)?.as_slice(),
        [(0, 7), (MANY - 1, MANY + 6)].as_slice()
    );
    for key in [1, 130, 500, 998] {
        writes_amid(rt, index, key)?;
    }
    empties(rt, index)
}

#[test]
fn sorted_crosses(rt: HostRuntime) -> Result<(), Fail> {
    crosses(&rt, rt.alloc(), &mut Sorted::new(rt.alloc()))
}

#[test]
fn tree_crosses(rt: HostRuntime) -> Result<(), Fail> {
    crosses(&rt, rt.alloc(), &mut Tree::new(rt.alloc()))
}
