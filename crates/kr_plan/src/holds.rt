//! Modes kept for a step, and put back.
ghost use Rattle.std.specs.Prelude.{◌≡◌, ◌<◌, ◌≤◌, None, IfOk, OnErr, OnOk};
ghost use Rattle.std.specs.Option.{option_to_list};
ghost use Rattle.std.specs.FinMap.{put};
ghost use Rattle.kr_model.specs.Locks.{own, kept, HasNoNone, AreWithin, IsLocks};
ghost use Rattle.kr_model.specs.Plan.{requests};
ghost use Rattle.kr_model.proofs.Keep.{Held};
ghost use Rattle.kr_plan.specs.Modes.{SideIsMode, ArePlanModes};
ghost use Rattle.kr_plan.specs.Holds.{put_back, HoldsSide};

use kr_model::{Mode, Name, Plan, Span, Txn};
use kr_parts::{Holdings, Memory};
use kr_protocol::Protocol;

/// Keeps the mode to which the own one is converted by a request, and answers the mode before.
fn hold_mode<P: Protocol, L: Holdings>(
    protocol: &P,
    locks: &mut L,
    txn: Txn,
    name: Name,
    mode: Mode,
) -> Result<Mode, Memory>
    requires within { AreWithin (P.table protocol.now).count (L.locks locks.old) }
    requires no_none { HasNoNone (L.locks locks.old) }
    requires in_order { IsLocks (L.locks locks.old) }
    requires asked { (0 < mode) × (mode ≤ (P.table protocol.now).count) }
    ensures was { IfOk result (λ was. Held (P.table protocol.now) (L.locks locks.old) (L.locks locks.new) txn name mode was) }
    ensures err { OnErr result (L.locks locks.new ≡ L.locks locks.old) }
{
    locks.raise(protocol, txn, name, mode)
}

/// Keeps the mode of one side's request, where it is to commit, and answers the mode before; else 0.
pub fn hold<P: Protocol, L: Holdings>(
    protocol: &P,
    locks: &mut L,
    txn: Txn,
    side: Option<(Name, Mode, Span)>,
) -> Result<Mode, Memory>
    requires within { AreWithin (P.table protocol.now).count (L.locks locks.old) }
    requires no_none { HasNoNone (L.locks locks.old) }
    requires in_order { IsLocks (L.locks locks.old) }
    requires asked { SideIsMode (P.table protocol.now).count side }
    ensures ok { OnOk result (L.locks locks.new ≡ kept (P.table protocol.now) (L.locks locks.old) txn (option_to_list side)) }
    ensures was { IfOk result (λ was. put_back (L.locks locks.new) txn side was ≡ L.locks locks.old) }
    ensures held { OnOk result (HoldsSide (L.locks locks.new) txn side) }
    ensures err { OnErr result (L.locks locks.new ≡ L.locks locks.old) }
    ensures within { AreWithin (P.table protocol.now).count (L.locks locks.new) }
    ensures no_none { HasNoNone (L.locks locks.new) }
    ensures in_order { IsLocks (L.locks locks.new) }
{
    match side {
        Some((name, mode, span)) => match span {
            Span::Commit => hold_mode(protocol, locks, txn, name, mode),
            Span::Instant => Ok(0),
        },
        None => Ok(0),
    }
}

/// Puts back the mode before, where the side's request was to commit. Takes no memory.
pub fn give_back<L: Holdings>(locks: &mut L, txn: Txn, side: Option<(Name, Mode, Span)>, was: Mode)
    requires { HoldsSide (L.locks locks.old) txn side }
    ensures { L.locks locks.new ≡ put_back (L.locks locks.old) txn side was }
{
    if let Some((name, _, span)) = side {
        if span == Span::Commit {
            let _ = locks.keep(txn, name, was);
        }
    }
}

/// Keeps the modes of both sides' requests, and answers the modes before. Where a growth is refused, no lock changes.
pub fn hold_both<P: Protocol, L: Holdings>(
    protocol: &P,
    locks: &mut L,
    txn: Txn,
    plan: Plan,
) -> Result<(Mode, Mode), Memory>
    requires within { AreWithin (P.table protocol.now).count (L.locks locks.old) }
    requires no_none { HasNoNone (L.locks locks.old) }
    requires in_order { IsLocks (L.locks locks.old) }
    requires asked { ArePlanModes (P.table protocol.now).count plan }
    ensures ok { OnOk result (L.locks locks.new ≡ kept (P.table protocol.now) (L.locks locks.old) txn (requests plan)) }
    ensures was { IfOk result (λ was. put_back (put_back (L.locks locks.new) txn plan.next was.1) txn plan.current was.0 ≡ L.locks locks.old) }
    ensures next_held { OnOk result (HoldsSide (L.locks locks.new) txn plan.next) }
    ensures current_held { IfOk result (λ was. HoldsSide (put_back (L.locks locks.new) txn plan.next was.1) txn plan.current) }
    ensures err { OnErr result (L.locks locks.new ≡ L.locks locks.old) }
    ensures within { AreWithin (P.table protocol.now).count (L.locks locks.new) }
    ensures no_none { HasNoNone (L.locks locks.new) }
    ensures in_order { IsLocks (L.locks locks.new) }
{
    let current_was = hold(protocol, locks, txn, plan.current)?;
    match hold(protocol, locks, txn, plan.next) {
        Ok(next_was) => Ok((current_was, next_was)),
        Err(refused) => {
            give_back(locks, txn, plan.current, current_was);
            Err(refused)
        }
    }
}
