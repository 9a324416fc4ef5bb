//! Each call at three indexes, one of which refuses pins, and where growths are refused.
ghost use Rattle.std.specs.Prelude.{◌≡◌, ℕ, ◌<◌, OnOk, IfOk};

mod many;

use kr_index::{Memory, Name, Ordered, Sorted, Tree};
use kr_model::Pairs;
use std::alloc::{AllocError, Global};
use std::process::Abort;
use std::test::Fail;

/// An index whose pins are rationed: a pin uses up one of the grants, and is refused where none is left.
#[derive(Drop)]
struct Rationed {
    index: Sorted,
    grants: u32,
}

impl Ordered for Rationed {
    ghost map = { λ r. ⟦<Sorted as Ordered>⟧.map r.index };

    ghost pins = { λ r. ⟦<Sorted as Ordered>⟧.pins r.index };

    fn get(&self, key: u64) -> Option<u64> {
        self.index.get(key)
    }

    fn at(&self, from: u64) -> Name {
        self.index.at(from)
    }

    fn after(&self, key: u64) -> Name {
        self.index.after(key)
    }

    fn pin(&mut self, key: u64) -> Result<(), Memory> {
        if self.grants == 0 {
            return Err(AllocError);
        }
        self.index.pin(key)?;
        self.grants -= 1;
        Ok(())
    }

    fn unpin(&mut self, key: u64) {
        self.index.unpin(key);
    }

    fn put(&mut self, key: u64, value: u64) {
        self.index.put(key, value);
    }

    fn take(&mut self, key: u64) -> Option<u64> {
        self.index.take(key)
    }

    fn copy(&self, alloc: Global) -> Result<Pairs, Memory> {
        self.index.copy(alloc)
    }

    ghost in_order = { λ r. r.index.rising };
}

/// Looks at an index that holds 20 at 2, 50 at 5 and 90 at 9.
fn looks<O: Ordered>(rt: &impl Abort, alloc: Global, index: &O) -> Result<(), Fail> {
    same!(rt; index.get(5), Some(50));
    same!(rt; index.get(6), None);

    for (from, name) in [
        (0, Name::Key(2)),
        (2, Name::Key(2)),
        (6, Name::Key(9)),
        (10, Name::End),
    ] {
        same!(rt; index.at(from), name, from);
    }
    for (key, name) in [
        (0, Name::Key(2)),
        (2, Name::Key(5)),
        (6, Name::Key(9)),
        (9, Name::End),
        (u64::MAX, Name::End),
    ] {
        same!(rt; index.after(key), name, key);
    }

    for (from, pair) in [(0, Some((2, 20))), (5, Some((5, 50))), (10, None)] {
        same!(rt; index.pair_from(from), pair, from);
    }
    for (key, pair) in [
        (0, Some((2, 20))),
        (5, Some((9, 90))),
        (9, None),
        (u64::MAX, None),
    ] {
        same!(rt; index.pair_after(key), pair, key);
    }

    let pairs = index.copy(alloc)?;
    same!(rt; pairs.as_slice(), [(2, 20), (5, 50), (9, 90)].as_slice());
    Ok(())
}

/// Pins 7, which is absent and stays so, writes it, and gives the pins up: it stays present.
fn writes<O: Ordered>(rt: &impl Abort, alloc: Global, index: &mut O) -> Result<(), Fail>
    requires { (q : ℕ) → O.pins index.old q ≡ 0 }
    ensures { OnOk result ((q : ℕ) → O.pins index.new q ≡ 0) }
{
    index.pin(7)?;
    index.pin(7)?;
    looks(rt, alloc, index)?;

    index.put(7, 70);
    same!(rt; index.get(7), Some(70));
    same!(rt; index.at(6), Name::Key(7));
    same!(rt; index.after(7), Name::Key(9));
    same!(rt; index.pair_after(5), Some((7, 70)));

    index.unpin(7);
    index.put(7, 71);
    index.unpin(7);
    let pairs = index.copy(alloc)?;
    same!(rt;
        pairs.as_slice(),
        [(2, 20), (5, 50), (7, 71), (9, 90)].as_slice()
    );
    Ok(())
}

/// Takes 5 away, where 7 holds 71 by now, and gives the pin up: it stays absent.
fn takes<O: Ordered>(rt: &impl Abort, alloc: Global, index: &mut O) -> Result<(), Fail>
    requires { (q : ℕ) → O.pins index.old q ≡ 0 }
{
    index.pin(5)?;
    same!(rt; index.get(5), Some(50));
    same!(rt; index.take(5), Some(50));
    same!(rt; index.take(5), None);
    same!(rt; index.get(5), None);
    same!(rt; index.at(3), Name::Key(7));
    same!(rt; index.after(2), Name::Key(7));
    same!(rt; index.pair_from(5), Some((7, 71)));

    index.unpin(5);
    let pairs = index.copy(alloc)?;
    same!(rt; pairs.as_slice(), [(2, 20), (7, 71), (9, 90)].as_slice());
    Ok(())
}

fn sample(alloc: Global) -> Result<Sorted, Memory>
    ensures { IfOk result (λ index. (q : ℕ) → ⟦<Sorted as Ordered>⟧.pins index q ≡ 0) }
{
    Sorted::from_pairs(alloc, &[(2, 20), (5, 50), (9, 90)])
}

#[test]
fn sorted_answers(rt: HostRuntime) -> Result<(), Fail> {
    let mut index = sample(rt.alloc())?;
    looks(&rt, rt.alloc(), &index)?;
    writes(&rt, rt.alloc(), &mut index)?;
    takes(&rt, rt.alloc(), &mut index)
}

#[test]
fn rationed_answers(rt: HostRuntime) -> Result<(), Fail> {
    let mut index = Rationed {
        index: sample(rt.alloc())?,
        grants: 3,
    };
    looks(&rt, rt.alloc(), &index)?;
    writes(&rt, rt.alloc(), &mut index)?;
    takes(&rt, rt.alloc(), &mut index)
}

#[test]
fn tree_answers(rt: HostRuntime) -> Result<(), Fail> {
    let mut index = Tree::from_pairs(rt.alloc(), &[(2, 20), (5, 50), (9, 90)])?;
    looks(&rt, rt.alloc(), &index)?;
    writes(&rt, rt.alloc(), &mut index)?;
    takes(&rt, rt.alloc(), &mut index)
}

/// A refused pin leaves the index as it was.
#[test]
fn rationed_refuses(rt: HostRuntime) -> Result<(), Fail> {
    let mut index = Rationed {
        index: sample(rt.alloc())?,
        grants: 0,
    };
    same!(rt; index.pin(5), Err(AllocError));
    same!(rt; index.pin(7), Err(AllocError));
    looks(&rt, rt.alloc(), &index)
}

/// An index that is new, and its greatest key.
fn is_empty<O: Ordered>(rt: &impl Abort, alloc: Global, index: &mut O) -> Result<(), Fail> {
    same!(rt; index.get(0), None);
    same!(rt; index.at(0), Name::End);
    same!(rt; index.after(0), Name::End);
    same!(rt; index.copy(alloc)?.as_slice().len(), 0);

    index.pin(u64::MAX)?;
    index.put(u64::MAX, 1);
    same!(rt; index.at(u64::MAX), Name::Key(u64::MAX));
    same!(rt; index.after(u64::MAX), Name::End);
    Ok(())
}

#[test]
fn new_sorted_is_empty(rt: HostRuntime) -> Result<(), Fail> {
    is_empty(&rt, rt.alloc(), &mut Sorted::new(rt.alloc()))
}

#[test]
fn new_tree_is_empty(rt: HostRuntime) -> Result<(), Fail> {
    is_empty(&rt, rt.alloc(), &mut Tree::new(rt.alloc()))
}

/// Pins, writes and copies, each again where it was refused.
fn grows<O: Ordered>(rt: &impl Abort, alloc: Global, index: &mut O) -> Result<(), Fail>
    requires { (q : ℕ) → O.pins index.old q ≡ 0 }
{
    for key in 0..20 {
        if index.pin(key).is_err() {
            same!(rt; index.get(key), None);
            same!(rt;
                index.at(0),
                if key == 0 { Name::End } else { Name::Key(0) }
            );
            index.pin(key)?;
        }
        index.put(key, key + 100);
    }
    for key in 0..20 {
        same!(rt; index.get(key), Some(key + 100));
    }
    let pairs = match index.copy(alloc) {
        Ok(pairs) => pairs,
        Err(_) => index.copy(alloc)?,
    };
    same!(rt; pairs.as_slice().len(), 20);
    Ok(())
}

/// Passes too where any one growth is refused: the pin or the copy that answers `Memory` has changed
/// nothing and can be requested again.
#[test]
fn refused_growths_change_no_sorted(rt: HostRuntime) -> Result<(), Fail> {
    grows(&rt, rt.alloc(), &mut Sorted::new(rt.alloc()))
}

#[test]
fn refused_growths_change_no_tree(rt: HostRuntime) -> Result<(), Fail> {
    grows(&rt, rt.alloc(), &mut Tree::new(rt.alloc()))
}
