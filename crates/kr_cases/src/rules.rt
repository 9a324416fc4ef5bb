//! The failed cases of each rule.
//!
//! The functions go through cases in their order. Each puts those that fail behind the failed ones so far; it is refused
//! memory only where a case fails.
ghost use Rattle.std.specs.Prelude.{◌≡◌, ◌≢◌, ◌≤◌, ◌++◌, [], OnOk, OnErr, IfSome};
ghost use Rattle.std.specs.List.{flat_map};
ghost use Rattle.kr_model.specs.declared.Rule.TheVariants as rule;
ghost use Rattle.kr_model.specs.Covers.{all_covers, cases_of, conversions_from, conversions_of, inserts_at, row_cases, row_cover, splits_of};
ghost use Rattle.kr_cases.specs.Cases.{failures};

use crate::finder::Finder;
use kr_model::{Cover, FailedCase, Mode, Origin, Row, Rule, Side};
use kr_protocol::{Protocol, mode_after};
use std::alloc::AllocError;

/// The covers that a protocol has to serve, in order: that of an update only where it offers updates.
pub fn all_covers<P: Protocol>(protocol: &P) -> &'static [Cover]
    ensures { result.now ≡ all_covers (P.table protocol.now) }
{
    if protocol.updates() {
        &[
            Cover::ReadKey,
            Cover::ReadGap,
            Cover::InsertedKey,
            Cover::DeletedGap,
            Cover::UpdatedKey,
        ]
    } else {
        &[
            Cover::ReadKey,
            Cover::ReadGap,
            Cover::InsertedKey,
            Cover::DeletedGap,
        ]
    }
}

impl<P: Protocol> Finder<'_, P> {
    /// The conversions from a held mode to each mode requested.
    fn conversions_from(
        &self,
        failed: &mut Vec<FailedCase>,
        cover: Cover,
        held: Mode,
    ) -> Result<(), AllocError>
        requires held { held ≤ (P.table self.now.protocol.now).count }
        ensures ok { OnOk result (failed.new.items ≡ failed.old.items
            ++ failures (P.table self.now.protocol.now) (conversions_from (P.table self.now.protocol.now) cover held)) }
        ensures err { OnErr result (failures (P.table self.now.protocol.now)
            (conversions_from (P.table self.now.protocol.now) cover held) ≢ []) }
    {
        for asked in 1..self.protocol.count() + 1 {
            let mode = self.protocol.convert(held, asked);
            let from = Origin::Conversion { held, asked };
            self.test(failed, Rule::Conversion, cover, from, Some(held), mode)?;
        }
        Ok(())
    }

    /// The conversions from each held mode.
    fn conversions_of(&self, failed: &mut Vec<FailedCase>, cover: Cover) -> Result<(), AllocError>
        ensures ok { OnOk result (failed.new.items ≡ failed.old.items
            ++ failures (P.table self.now.protocol.now) (conversions_of (P.table self.now.protocol.now) cover)) }
        ensures err { OnErr result (failures (P.table self.now.protocol.now)
            (conversions_of (P.table self.now.protocol.now) cover) ≢ []) }
    {
        for held in 1..self.protocol.count() + 1 {
            self.conversions_from(failed, cover, held)?;
        }
        Ok(())
    }

    /// The conversions that keep these covers.
    fn conversions(&self, failed: &mut Vec<FailedCase>, covers: &[Cover]) -> Result<(), AllocError>
        ensures ok { OnOk result (failed.new.items ≡ failed.old.items
            ++ failures (P.table self.now.protocol.now) (flat_map (conversions_of (P.table self.now.protocol.now)) covers.now)) }
        ensures err { OnErr result (failures (P.table self.now.protocol.now)
            (flat_map (conversions_of (P.table self.now.protocol.now)) covers.now) ≢ []) }
    {
        for cover in covers {
            self.conversions_of(failed, *cover)?;
        }
        Ok(())
    }

    /// What a row that moves no key covers, by the own mode.
    fn row_covers(
        &self,
        failed: &mut Vec<FailedCase>,
        rule: Rule,
        row: Row,
        side: Side,
        cover: Cover,
    ) -> Result<(), AllocError>
        ensures ok { OnOk result (failed.new.items ≡ failed.old.items
            ++ failures (P.table self.now.protocol.now) (row_cover (P.table self.now.protocol.now) rule row side cover)) }
        ensures err { OnErr result (failures (P.table self.now.protocol.now)
            (row_cover (P.table self.now.protocol.now) rule row side cover) ≢ []) }
    {
        for own in 0..self.protocol.count() + 1 {
            let mode = mode_after(self.protocol, own, row, side, 0);
            self.test(failed, rule, cover, Origin::Own(own), None, mode)?;
        }
        Ok(())
    }

    /// What a row that moves no key covers.
    fn row(
        &self,
        failed: &mut Vec<FailedCase>,
        rule: Rule,
        row: Row,
        side: Side,
        covers: &[Cover],
    ) -> Result<(), AllocError>
        ensures ok { OnOk result (failed.new.items ≡ failed.old.items
            ++ failures (P.table self.now.protocol.now) (row_cases (P.table self.now.protocol.now) rule row side covers.now)) }
        ensures err { OnErr result (failures (P.table self.now.protocol.now)
            (row_cases (P.table self.now.protocol.now) rule row side covers.now) ≢ []) }
    {
        for cover in covers {
            self.row_covers(failed, rule, row, side, *cover)?;
        }
        Ok(())
    }

    /// An inserted key, or the split of a gap that a mode on the next name covers, by the own mode on the key.
    fn inserts_at(
        &self,
        failed: &mut Vec<FailedCase>,
        rule: Rule,
        cover: Cover,
        given: Option<Mode>,
        own_next: Mode,
    ) -> Result<(), AllocError>
        requires given { IfSome given (λ m. m ≤ (P.table self.now.protocol.now).count) }
        requires own_next { own_next ≤ (P.table self.now.protocol.now).count }
        ensures ok { OnOk result (failed.new.items ≡ failed.old.items
            ++ failures (P.table self.now.protocol.now) (inserts_at (P.table self.now.protocol.now) rule cover given own_next)) }
        ensures err { OnErr result (failures (P.table self.now.protocol.now)
            (inserts_at (P.table self.now.protocol.now) rule cover given own_next) ≢ []) }
    {
        for own in 0..self.protocol.count() + 1 {
            let mode = mode_after(self.protocol, own, Row::Insert, Side::Current, own_next);
            let from = Origin::Insert { own_next, own };
            self.test(failed, rule, cover, from, given, mode)?;
        }
        Ok(())
    }

    /// All inserted keys.
    fn inserts(&self, failed: &mut Vec<FailedCase>) -> Result<(), AllocError>
        ensures ok { OnOk result (failed.new.items ≡ failed.old.items
            ++ failures (P.table self.now.protocol.now) (cases_of (P.table self.now.protocol.now) rule.Insert)) }
        ensures err { OnErr result (failures (P.table self.now.protocol.now)
            (cases_of (P.table self.now.protocol.now) rule.Insert) ≢ []) }
    {
        for own_next in 0..self.protocol.count() + 1 {
            self.inserts_at(failed, Rule::Insert, Cover::InsertedKey, None, own_next)?;
        }
        Ok(())
    }

    /// The splits of a gap, by the own mode on the next name.
    fn splits_of(&self, failed: &mut Vec<FailedCase>, cover: Cover) -> Result<(), AllocError>
        ensures ok { OnOk result (failed.new.items ≡ failed.old.items
            ++ failures (P.table self.now.protocol.now) (splits_of (P.table self.now.protocol.now) cover)) }
        ensures err { OnErr result (failures (P.table self.now.protocol.now)
            (splits_of (P.table self.now.protocol.now) cover) ≢ []) }
    {
        for own_next in 0..self.protocol.count() + 1 {
            self.inserts_at(failed, Rule::Split, cover, Some(own_next), own_next)?;
        }
        Ok(())
    }

    /// All splits.
    fn splits(&self, failed: &mut Vec<FailedCase>) -> Result<(), AllocError>
        ensures ok { OnOk result (failed.new.items ≡ failed.old.items
            ++ failures (P.table self.now.protocol.now) (cases_of (P.table self.now.protocol.now) rule.Split)) }
        ensures err { OnErr result (failures (P.table self.now.protocol.now)
            (cases_of (P.table self.now.protocol.now) rule.Split) ≢ []) }
    {
        for cover in [Cover::ReadGap, Cover::DeletedGap] {
            self.splits_of(failed, cover)?;
        }
        Ok(())
    }

    /// All gaps that a delete widens.
    fn deletes(&self, failed: &mut Vec<FailedCase>) -> Result<(), AllocError>
        ensures ok { OnOk result (failed.new.items ≡ failed.old.items
            ++ failures (P.table self.now.protocol.now) (cases_of (P.table self.now.protocol.now) rule.Delete)) }
        ensures err { OnErr result (failures (P.table self.now.protocol.now)
            (cases_of (P.table self.now.protocol.now) rule.Delete) ≢ []) }
    {
        for own_next in 0..self.protocol.count() + 1 {
            let mode = mode_after(self.protocol, own_next, Row::Delete, Side::Next, own_next);
            let from = Origin::Own(own_next);
            self.test(failed, Rule::Delete, Cover::DeletedGap, from, None, mode)?;
        }
        Ok(())
    }

    /// All cases of a rule.
    pub(crate) fn cases_of(
        &self,
        failed: &mut Vec<FailedCase>,
        rule: Rule,
    ) -> Result<(), AllocError>
        ensures ok { OnOk result (failed.new.items ≡ failed.old.items
            ++ failures (P.table self.now.protocol.now) (cases_of (P.table self.now.protocol.now) rule)) }
        ensures err { OnErr result (failures (P.table self.now.protocol.now)
            (cases_of (P.table self.now.protocol.now) rule) ≢ []) }
    {
        let gap = &[Cover::ReadGap];
        match rule {
            Rule::Conversion => self.conversions(failed, all_covers(self.protocol)),
            Rule::FetchHit => {
                self.row(
                    failed,
                    rule,
                    Row::FetchHit,
                    Side::Current,
                    &[Cover::ReadKey],
                )
            }
            Rule::FetchMiss => self.row(failed, rule, Row::FetchMiss, Side::Next, gap),
            Rule::ScanKey => {
                let covers = &[Cover::ReadKey, Cover::ReadGap];
                self.row(failed, rule, Row::ScanKey, Side::Current, covers)
            }
            Rule::ScanStop => self.row(failed, rule, Row::ScanStop, Side::Next, gap),
            Rule::Insert => self.inserts(failed),
            Rule::Split => self.splits(failed),
            Rule::Delete => self.deletes(failed),
            Rule::Update => {
                let covers = &[Cover::UpdatedKey];
                self.row(failed, rule, Row::Update, Side::Current, covers)
            }
        }
    }
}
