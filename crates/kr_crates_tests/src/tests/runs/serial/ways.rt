//! The ways in which events are run.
ghost use Rattle.kr_model.specs.Map.{IsMap};

use kr_index::Memory;
use kr_model::Event;
use kr_protocol::{Covered, Im, Kvl, KvlUpdate, RangeKey};
use kr_serial::{Played, Ran, Verdict, judge_run, play, run, run_any};
use kr_test_support::Plain;
use std::alloc::Global;

/// The call that runs events, and the protocol that keeps transactions apart.
#[derive(Clone, Copy, Debug)]
pub enum Way {
    /// By `run`, which takes covered protocols alone.
    Run(Locking),
    /// By `run_any`.
    RunAny(Locking),
    /// By `run_any`, and nothing keeps transactions apart.
    WithoutLocks,
}

/// A bundled protocol, each of which is covered.
#[derive(Clone, Copy, Debug)]
pub enum Locking {
    KeyValue,
    KeyValueWithUpdates,
    IndexSpecific,
    RangeKey,
}

/// Both calls under key-value locking.
pub const KEY_VALUE: &[Way] = &[Way::Run(Locking::KeyValue), Way::RunAny(Locking::KeyValue)];

/// Both calls under key-value locking with updates.
pub const KEY_VALUE_WITH_UPDATES: &[Way] = &[
    Way::Run(Locking::KeyValueWithUpdates),
    Way::RunAny(Locking::KeyValueWithUpdates),
];

/// Both calls under each protocol that has no updates.
pub const LOCKED: [Way; 6] = [
    Way::Run(Locking::KeyValue),
    Way::Run(Locking::IndexSpecific),
    Way::Run(Locking::RangeKey),
    Way::RunAny(Locking::KeyValue),
    Way::RunAny(Locking::IndexSpecific),
    Way::RunAny(Locking::RangeKey),
];

/// Runs events by one of the two calls.
fn ran_under<P: Covered>(
    alloc: Global,
    protocol: &P,
    by_run: bool,
    opening: &[(u64, u64)],
    events: &[Event],
) -> Result<Ran, Memory>
    requires { IsMap opening.now }
{
    if by_run {
        run(alloc, protocol, opening, events)
    } else {
        run_any(alloc, protocol, opening, events)
    }
}

/// Runs events under a bundled protocol.
fn ran_with(
    alloc: Global,
    locking: Locking,
    by_run: bool,
    opening: &[(u64, u64)],
    events: &[Event],
) -> Result<Ran, Memory>
    requires { IsMap opening.now }
{
    match locking {
        Locking::KeyValue => ran_under(alloc, &Kvl, by_run, opening, events),
        Locking::KeyValueWithUpdates => ran_under(alloc, &KvlUpdate, by_run, opening, events),
        Locking::IndexSpecific => ran_under(alloc, &Im, by_run, opening, events),
        Locking::RangeKey => ran_under(alloc, &RangeKey, by_run, opening, events),
    }
}

/// Runs events in one of the ways.
pub fn ran_by(
    alloc: Global,
    way: Way,
    opening: &[(u64, u64)],
    events: &[Event],
) -> Result<Ran, Memory>
    requires { IsMap opening.now }
{
    match way {
        Way::Run(locking) => ran_with(alloc, locking, true, opening, events),
        Way::RunAny(locking) => ran_with(alloc, locking, false, opening, events),
        Way::WithoutLocks => run_any(alloc, &Plain, opening, events),
    }
}

/// Runs events under the protocol of a way by `play`, which keeps no programs.
pub fn played_by(
    alloc: Global,
    way: Way,
    opening: &[(u64, u64)],
    events: &[Event],
) -> Result<Played, Memory>
    requires { IsMap opening.now }
{
    match way {
        Way::Run(locking) | Way::RunAny(locking) => match locking {
            Locking::KeyValue => play(alloc, &Kvl, opening, events),
            Locking::KeyValueWithUpdates => play(alloc, &KvlUpdate, opening, events),
            Locking::IndexSpecific => play(alloc, &Im, opening, events),
            Locking::RangeKey => play(alloc, &RangeKey, opening, events),
        },
        Way::WithoutLocks => play(alloc, &Plain, opening, events),
    }
}

/// The verdict on the run of the events under the protocol of a way, by `judge_run`, which keeps nothing else.
pub fn judged_by(
    alloc: Global,
    way: Way,
    opening: &[(u64, u64)],
    events: &[Event],
) -> Result<Verdict, Memory>
    requires { IsMap opening.now }
{
    match way {
        Way::Run(locking) | Way::RunAny(locking) => match locking {
            Locking::KeyValue => judge_run(alloc, &Kvl, opening, events),
            Locking::KeyValueWithUpdates => judge_run(alloc, &KvlUpdate, opening, events),
            Locking::IndexSpecific => judge_run(alloc, &Im, opening, events),
            Locking::RangeKey => judge_run(alloc, &RangeKey, opening, events),
        },
        Way::WithoutLocks => judge_run(alloc, &Plain, opening, events),
    }
}
