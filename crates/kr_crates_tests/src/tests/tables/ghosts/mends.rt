//! What mends the cases of bundled tables of which one entry is changed.

use kr_change::{Change, Changed};
use kr_explain_causes::Mend;
use kr_ghost_check::failed_cases;
use kr_ghost_explain::{GhostBlame, ghost_causes, ghost_mends};
use kr_ghost_protocol::{GhostProtocol, RecordGap};
use kr_kinds::Leaves;
use kr_model::{Mode, Row, Side, Span};
use std::alloc::Global;
use std::process::Abort;
use std::test::Fail;

/// The changes that mend the cases of a protocol with one cause, for which this is to blame.
fn mend_of<P: GhostProtocol>(
    rt: &impl Abort,
    alloc: Global,
    protocol: &P,
    blame: GhostBlame,
) -> Result<Mend, Fail> {
    let failed = failed_cases(alloc, protocol)?;
    let causes = ghost_causes(alloc, protocol, &failed)?;
    same!(rt; causes.len(), 1);
    same!(rt; causes[0].blame, blame);
    Ok(ghost_mends(alloc, protocol, &failed, &causes[0], false)?)
}

/// What mends the table with the modes for records and gaps, with a change: with this to each of these modes it is accepted.
fn is_accepted_with(
    rt: &impl Abort,
    alloc: Global,
    change: Change,
    blame: GhostBlame,
    repair: Change,
    modes: &[Mode],
) -> Result<(), Fail> {
    let base = Leaves(RecordGap);
    let Some(table) = Changed::new(&base, change) else {
        panic!(rt; "no change of the table");
    };
    let mend = mend_of(rt, alloc, &table, blame)?;
    same!(rt; mend.accepted.len(), modes.len());
    for (told, mode) in mend.accepted.iter().zip(modes) {
        same!(rt; *told, repair.with_mode(*mode));
    }
    holds!(rt; mend.safe.is_empty() && mend.mended.is_empty(), blame);
    Ok(())
}

/// What an insert requests on its new key, by own modes on the next name.
fn insert(own_next: Option<u16>, mode: Mode) -> Change {
    Change::Request {
        row: Row::Insert,
        side: Side::Current,
        own_next,
        request: Some((mode, Span::Commit)),
    }
}

/// The table of examples/ghosts/plain-insert.toml: an insert locks its new key alone. It has to lock the part of the gap below it
/// too where its own mode on the next name locks the gap: G-N, G-S, G-X, GI-N, GI-S and GI-X.
#[test]
fn an_insert_locks_its_new_key_alone(rt: HostRuntime) -> Result<(), Fail> {
    let change = insert(None, 2);
    let repair = insert(Some(0b1110_0011_1000), 2);
    let blame = GhostBlame::NewKey(2);
    is_accepted_with(&rt, rt.alloc(), change, blame, repair, &[5, 11])
}

/// That of examples/ghosts/dropped-locks.toml: a purge drops the locks on its ghost. Each but I-N, which keeps nobody out who
/// changes the key or inserts into the gap, has to leave one that locks the gap.
#[test]
fn a_purge_drops_locks(rt: HostRuntime) -> Result<(), Fail> {
    let change = Change::Heir {
        held: 0b1111_1111_1110,
        mode: 0,
    };
    let repair = Change::Heir {
        held: 0b1111_1011_1110,
        mode: 0,
    };
    let blame = GhostBlame::Heir(0);
    is_accepted_with(
        &rt,
        rt.alloc(),
        change,
        blame,
        repair,
        &[3, 4, 5, 9, 10, 11],
    )
}
