//! The table that is left where one relaxation after another is taken.
ghost use Rattle.std.specs.Prelude.{◌≡◌, ◌↔◌, true, IfOk, IfSome, IsTrue};
ghost use Rattle.kr_kinds.specs.Kinds.{IsSafeIndex};
ghost use Rattle.kr_cli_tables.specs.Tightest.{IsTaken, IsTightest, RelaxedFrom};
ghost use Rattle.kr_relax_core.specs.Relaxations.{IsRelaxation, IsTight};
ghost use Rattle.kr_table_copy.specs.Same.{index_in, names_in};

use kr_change::{Change, Changed};
use kr_kinds::{Gone, IndexProtocol, Leaves};
use kr_model::Memory;
use kr_relax_core::{is_safe_index, relaxations};
use kr_relax_text::{Relaxation, with_scripts};
use kr_table_copy::{Copy, copy_of};
use std::alloc::Global;

/// What becomes of a table where a relaxation of it is taken that a script shows.
#[derive(Drop)]
enum Taken {
    /// It has no relaxation.
    Tight,
    /// It has some, and no script is known for any.
    Unshown,
    /// The table with it.
    Relaxed(Copy),
    /// That table isn't read as it is written.
    Unwritten,
}

/// A table that relaxations made, and whether it has none.
#[derive(Drop)]
pub(crate) struct Reached {
    pub table: Copy,
    pub is_tight: bool,
}

/// Whether the relaxation at a place of the list has a script.
fn is_shown(list: &[Relaxation], at: usize) -> bool {
    match list.get(at) {
        Some(one) => one.script.is_some(),
        None => false,
    }
}

/// Takes a relaxation of a table.
fn take<P: IndexProtocol>(alloc: Global, table: &P, change: Change) -> Result<Taken, Memory>
    requires { IsRelaxation (P.index table.now) change }
    ensures { IfOk result (IsTaken (P.index table.now) (P.names table.now)) }
{
    let Some(changed) = Changed::new(table, change) else {
        return Ok(Taken::Unwritten);
    };
    match copy_of(alloc, &changed)? {
        Some(copy) => Ok(Taken::Relaxed(copy)),
        None => Ok(Taken::Unwritten),
    }
}

/// Takes the first relaxation of a table that a script shows. Most often that is the first of all, for which a search alone is
/// quicker than for all. Without a script two tables can each be a relaxation of the other.
fn take_shown<P: IndexProtocol>(alloc: Global, table: &P) -> Result<Taken, Memory>
    ensures { IfOk result (IsTaken (P.index table.now) (P.names table.now)) }
{
    let list = relaxations(alloc, table)?;
    if list.is_empty() {
        return Ok(Taken::Tight);
    }
    let first = list[0];
    if is_shown(&with_scripts(alloc, table, &[first])?, 0) {
        return take(alloc, table, first.change);
    }
    let shown = with_scripts(alloc, table, &list)?;
    for at in 0..list.len() {
        if is_shown(&shown, at) {
            return take(alloc, table, list[at].change);
        }
    }
    Ok(Taken::Unshown)
}

/// The same of a table of either kind.
fn take_one(alloc: Global, table: &Copy) -> Result<Taken, Memory>
    ensures { IfOk result (IsTaken (index_in table.now) (names_in table.now)) }
{
    match table {
        Copy::Gone(table) => take_shown(alloc, &Gone(table)),
        Copy::Leaving(table) => take_shown(alloc, &Leaves(table)),
    }
}

/// Whether a table is safe.
fn is_safe_copy(alloc: Global, table: &Copy) -> Result<bool, Memory>
    ensures { IfOk result (λ safe. IsTrue safe ↔ IsSafeIndex (index_in table.now)) }
{
    match table {
        Copy::Gone(table) => is_safe_index(alloc, &Gone(table)),
        Copy::Leaving(table) => is_safe_index(alloc, &Leaves(table)),
    }
}

/// A table that relaxations made, if it is decided to be safe.
fn if_safe<P: IndexProtocol>(
    alloc: Global,
    protocol: &P,
    table: Copy,
    is_tight: bool,
) -> Result<Option<Reached>, Memory>
    requires from { RelaxedFrom (P.index protocol.now) (P.names protocol.now) table }
    requires tight { is_tight ≡ true ↔ IsTight (index_in table) }
    ensures { IfOk result (λ found. IfSome found (λ it. IsTightest (P.index protocol.now) (P.names protocol.now) it.table it.is_tight)) }
{
    let _ = protocol;
    let safe = is_safe_copy(alloc, &table)?;
    if safe {
        Ok(Some(Reached { table, is_tight }))
    } else {
        Ok(None)
    }
}

/// The table that is left where the first relaxation of a protocol that a script shows is taken, then the first of what that makes,
/// and so on until no script shows one. It is `None` where a table on the way isn't read as it is written, which no clause rules
/// out.
#[tactic(auto, using(crate::proofs::RelaxTaken::begun, crate::proofs::RelaxTaken::gone_on))]
pub(crate) fn tightest<P: IndexProtocol>(
    alloc: Global,
    protocol: &P,
) -> Result<Option<Reached>, Memory>
    ensures { IfOk result (λ found. IfSome found (λ it. IsTightest (P.index protocol.now) (P.names protocol.now) it.table it.is_tight)) }
{
    let Some(first) = copy_of(alloc, protocol)? else {
        return Ok(None);
    };
    let mut table = first;
    for _ in 0..u64::MAX {
        match take_one(alloc, &table)? {
            Taken::Tight => return if_safe(alloc, protocol, table, true),
            Taken::Unshown => return if_safe(alloc, protocol, table, false),
            Taken::Relaxed(next) => table = next,
            Taken::Unwritten => return Ok(None),
        }
    }
    Ok(None)
}
