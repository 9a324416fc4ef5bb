//! The tests for a table: how many parts and steps they have, and how many of the tables that differ in one entry are told apart,
//! alike and left.
use super::asks_nothing;
use kr_change::{Change, index_changes_of};
use kr_kinds::{Gone, IndexProtocol};
use kr_suite_core::{Suite, suite};
use std::alloc::Global;
use std::process::Abort;
use std::test::Fail;

/// Counts of a suite.
#[derive(Clone, Copy, Debug, PartialEq, Eq)]
struct Counts {
    parts: usize,
    steps: usize,
    told: usize,
    alike: usize,
    left: usize,
}

/// Whether a part names the change.
fn is_told(suite: &Suite, change: Change) -> bool {
    suite
        .parts
        .iter()
        .any(|part| part.tells.iter().any(|told| *told == change))
}

/// The counts of the tests for a table; and each change is told apart, alike or left.
fn counted<P: IndexProtocol>(rt: &impl Abort, alloc: Global, protocol: &P) -> Result<Counts, Fail> {
    let suite = suite(alloc, protocol)?;
    let mut steps: usize = 0;
    for part in suite.parts.iter() {
        assert_eq!(rt; part.events.len(), part.replies.len());
        steps = steps.saturating_add(part.events.len());
    }
    let mut told: usize = 0;
    for change in index_changes_of(alloc, protocol)?.iter() {
        let is_told = is_told(&suite, *change);
        let is_alike = suite.alike.contains(change);
        let is_left = suite.left.contains(change);
        assert!(rt; is_told && !is_alike && !is_left || !is_told && is_alike != is_left);
        if is_told {
            told = told.saturating_add(1);
        }
    }
    assert_eq!(rt; suite.is_complete(), suite.left.is_empty());
    Ok(Counts {
        parts: suite.parts.len(),
        steps,
        told,
        alike: suite.alike.len(),
        left: suite.left.len(),
    })
}

/// The table requests nothing: all changes are alike but those by which a row holds its lock to commit; none is left.
#[test]
fn a_table_has_a_suite(rt: HostRuntime) -> Result<(), Fail> {
    #[rattlefmt::skip]
    let expected = Counts { parts: 7, steps: 18, told: 8, alike: 17, left: 0 };
    same!(rt; counted(&rt, rt.alloc(), &Gone(asks_nothing(rt.alloc())?))?, expected);
    Ok(())
}
