//! A script gives the same replies at each index with each lock table.
ghost use Rattle.std.specs.Prelude.{◌≡◌, ℕ, []};

use super::scripts::{SCRIPTS, full, full_after_one};
use kr_index::{Ordered, Sorted, Tree};
use kr_locks::{Buckets, Holdings, List};
use kr_machine::Machine;
use kr_protocol::{Im, Kvl, KvlUpdate, Protocol, RangeKey};
use kr_script::{Script, read_script};
use kr_serial::replay;
use std::alloc::{AllocError, Global};
use std::process::Abort;
use std::test::Fail;

/// The replies of a script at an index with a lock table, written out.
fn replies_at<P: Protocol, I: Ordered, L: Holdings>(
    alloc: Global,
    protocol: &P,
    index: I,
    locks: L,
    script: &Script,
) -> Result<String, AllocError>
    requires no_pins { (q : ℕ) → I.pins index q ≡ 0 }
    requires no_locks { L.locks locks ≡ [] }
{
    let mut machine = Machine::new(alloc, protocol, index, locks);
    let replies = replay(alloc, &mut machine, script.steps())?;
    format!(in alloc; "{replies:?}")
}

/// Compares the replies under a protocol at each of the four pairs.
fn agrees<R: AllocGlobal + Abort, P: Protocol>(
    rt: &R,
    protocol: &P,
    script: &Script,
) -> Result<(), Fail> {
    let alloc = rt.alloc();
    let opening = script.opening();
    let sorted = Sorted::from_pairs(alloc, opening)?;
    let wanted = replies_at(alloc, protocol, sorted, List::new(alloc), script)?;

    let sorted = Sorted::from_pairs(alloc, opening)?;
    let replies = replies_at(alloc, protocol, sorted, Buckets::new(alloc), script)?;
    assert_eq!(rt; replies, wanted);

    let tree = Tree::from_pairs(alloc, opening)?;
    let replies = replies_at(alloc, protocol, tree, List::new(alloc), script)?;
    assert_eq!(rt; replies, wanted);

    let tree = Tree::from_pairs(alloc, opening)?;
    let replies = replies_at(alloc, protocol, tree, Buckets::new(alloc), script)?;
    assert_eq!(rt; replies, wanted);
    Ok(())
}

/// Compares the replies under each bundled table.
fn agree_under_each<R: AllocGlobal + Abort>(rt: &R, script: &str) -> Result<(), Fail> {
    let script = read_script(rt.alloc(), script.as_bytes()).map_err(|_| "no script")?;
    agrees(rt, &Kvl, &script)?;
    agrees(rt, &KvlUpdate, &script)?;
    agrees(rt, &Im, &script)?;
    agrees(rt, &RangeKey, &script)
}

#[test]
fn the_worked_scripts_have_the_same_replies(rt: HostRuntime) -> Result<(), Fail> {
    for script in SCRIPTS {
        agree_under_each(&rt, *script)?;
    }
    let script = full(rt.alloc())?;
    agree_under_each(&rt, script.as_str())?;
    let script = full_after_one(rt.alloc())?;
    agree_under_each(&rt, script.as_str())
}
