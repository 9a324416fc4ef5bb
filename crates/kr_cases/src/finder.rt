//! All failed cases of a protocol.
ghost use Rattle.std.specs.Prelude.{◌≡◌, ◌≢◌, ◌≤◌, ◌++◌, [], None, OnOk, OnErr, IfOk, IfSome};
ghost use Rattle.std.specs.Option.{option_to_list};
ghost use Rattle.kr_model.specs.Covers.{case, all_rules, failure, failed_cases};
ghost use Rattle.kr_cases.specs.Holes.{first_open, AreHoles};

use crate::holes::{Holes, holes_of};
use kr_model::{Cover, FailedCase, Mode, Origin, Requester, Rule};
use kr_protocol::Protocol;
use std::alloc::{AllocError, Global};

/// The rules that a protocol has to keep, in order.
fn all_rules<P: Protocol>(protocol: &P) -> &'static [Rule]
    ensures { result.now ≡ all_rules (P.table protocol.now) }
{
    if protocol.updates() {
        &[
            Rule::Conversion,
            Rule::FetchHit,
            Rule::FetchMiss,
            Rule::ScanKey,
            Rule::ScanStop,
            Rule::Insert,
            Rule::Split,
            Rule::Delete,
            Rule::Update,
        ]
    } else {
        &[
            Rule::Conversion,
            Rule::FetchHit,
            Rule::FetchMiss,
            Rule::ScanKey,
            Rule::ScanStop,
            Rule::Insert,
            Rule::Split,
            Rule::Delete,
        ]
    }
}

/// A protocol, with what its modes leave open.
#[derive(Drop)]
pub(crate) struct Finder<'a, P: Protocol> {
    pub(crate) protocol: &'a P,
    holes: Holes,
    ghost told: { AreHoles (P.table protocol.now) holes },
}

impl<P: Protocol> Finder<'_, P> {
    /// The first requester that a mode lets through, of those that a cover must conflict with.
    fn first_open(&self, cover: Cover, mode: Mode) -> Option<Requester>
        requires { mode ≤ (P.table self.now.protocol.now).count }
        ensures { result ≡ first_open (P.table self.now.protocol.now) cover mode }
    {
        match cover {
            Cover::ReadKey => self.holes.read_key[mode as usize],
            Cover::ReadGap => self.holes.read_gap[mode as usize],
            Cover::InsertedKey => self.holes.inserted_key[mode as usize],
            Cover::DeletedGap => self.holes.deleted_gap[mode as usize],
            Cover::UpdatedKey => self.holes.updated_key[mode as usize],
        }
    }

    /// The failure of a case, or `None` where it holds.
    fn failure(
        &self,
        rule: Rule,
        cover: Cover,
        from: Origin,
        given: Option<Mode>,
        mode: Mode,
    ) -> Option<FailedCase>
        requires given { IfSome given (λ m. m ≤ (P.table self.now.protocol.now).count) }
        requires mode { mode ≤ (P.table self.now.protocol.now).count }
        ensures { result ≡ failure (P.table self.now.protocol.now) (case rule cover from given mode) }
    {
        if let Some(given) = given {
            if self.first_open(cover, given).is_some() {
                return None;
            }
        }
        match self.first_open(cover, mode) {
            Some(hole) => Some(FailedCase {
                case: rule,
                cover,
                from,
                mode,
                hole,
            }),
            None => None,
        }
    }

    /// Puts the failure of a case, if it fails, behind the failed ones so far. Memory is refused only then.
    pub(crate) fn test(
        &self,
        failed: &mut Vec<FailedCase>,
        rule: Rule,
        cover: Cover,
        from: Origin,
        given: Option<Mode>,
        mode: Mode,
    ) -> Result<(), AllocError>
        requires given { IfSome given (λ m. m ≤ (P.table self.now.protocol.now).count) }
        requires mode { mode ≤ (P.table self.now.protocol.now).count }
        ensures ok { OnOk result (failed.new.items ≡ failed.old.items
            ++ option_to_list (failure (P.table self.now.protocol.now) (case rule cover from given mode))) }
        ensures err { OnErr result (failure (P.table self.now.protocol.now) (case rule cover from given mode) ≢ None) }
    {
        if let Some(failure) = self.failure(rule, cover, from, given, mode) {
            failed.push(failure)?;
        }
        Ok(())
    }
}

/// All cases of a protocol that don't hold, in order. Memory is refused only where there is one.
pub(crate) fn failed_cases<P: Protocol>(
    alloc: Global,
    protocol: &P,
) -> Result<Vec<FailedCase>, AllocError>
    ensures ok { IfOk result (λ failed. failed.items ≡ failed_cases (P.table protocol.now)) }
    ensures err { OnErr result (failed_cases (P.table protocol.now) ≢ []) }
{
    let finder = Finder {
        protocol,
        holes: holes_of(protocol),
    };
    let mut failed = Vec::new(alloc);
    for rule in all_rules(protocol) {
        finder.cases_of(&mut failed, *rule)?;
    }
    Ok(failed)
}
