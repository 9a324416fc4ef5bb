//! The lines of a part, one after another.
ghost use Rattle.std.specs.Prelude.{◌≡◌, ◌≢◌, ◌&&◌, [], Err, IfErr, IfOk, None, OnErr, OnOk, Some, false};
ghost use Rattle.kr_trace_lines.specs.declared.faults.LineFault.TheVariants as fault;
ghost use Rattle.kr_trace_lines.specs.Lines.{order, seen, step};
ghost use Rattle.kr_trace_lines.specs.Parts as spec;
ghost use Rattle.kr_trace_lines.specs.Parts.{after_line, fault_behind, has, with_commit, with_end};

use crate::{Line, LineFault, Observed};
use kr_model::{Event, Txn};
use kr_txn::Ended;
use std::alloc::{AllocError, Global};
use std::marker::Model;

/// What is kept of the lines of a part, to see which line may not stand behind them: whether a head has begun a part and an
/// order has ended it, and the numbers of the transactions that have ended and of those that have committed.
#[derive(Drop)]
pub struct PartLines {
    begun: bool,
    ordered: bool,
    ended: Ended,
    committed: Ended,
    /// How many have committed.
    commits: usize,
}

impl Model for PartLines {
    ghost use Rattle.std.specs.Prelude.{◌≡◌, length};
    ghost use Rattle.kr_trace_lines.specs.Parts.{PartLines, AreAmong};

    ghost Value = { PartLines };

    ghost view = { λ p. record { begun = p.begun; ordered = p.ordered; ended = p.ended.numbers; committed = p.committed.numbers } };

    ghost invariant = { λ p. (p.commits ≡ length p.committed.numbers) × AreAmong p.committed.numbers p.ended.numbers };
}

/// Whether a reply ends its transaction.
fn ends(observed: &Observed) -> bool
    ensures { result ≡ spec.ends observed.now }
{
    matches!(observed, Observed::Committed | Observed::Aborted)
}

/// Whether a reply commits its transaction.
fn commits(observed: &Observed) -> bool
    ensures { result ≡ spec.commits observed.now }
{
    matches!(observed, Observed::Committed)
}

/// Whether each number is one of the committed and none comes twice.
fn are_distinct_in(alloc: Global, committed: &Ended, txns: &[Txn]) -> Result<bool, AllocError>
    ensures { IfOk result (λ is. is ≡ (spec.are_in committed.now.numbers txns.now && spec.are_distinct txns.now)) }
{
    let mut before = Ended::new(alloc);
    for txn in txns {
        if !committed.has(*txn) || before.has(*txn) {
            return Ok(false);
        }
        before.make_room(1)?;
        before.add(*txn);
    }
    Ok(true)
}

impl PartLines {
    /// No part has begun. Takes no memory.
    pub fn new(alloc: Global) -> PartLines
        ensures { result ≡ record { begun = false; ordered = false; ended = []; committed = [] } }
    {
        PartLines {
            begun: false,
            ordered: false,
            ended: Ended::new(alloc),
            committed: Ended::new(alloc),
            commits: 0,
        }
    }

    /// Notes one more line, or fails with the fault of a line that may not stand behind those before. A head begins another
    /// part. At an error nothing changes.
    pub fn take(&mut self, alloc: Global, line: &Line) -> Result<(), LineFault>
        ensures ok { OnOk result (fault_behind self.old (seen line.now) ≡ None) }
        ensures after { OnOk result (self.new ≡ after_line self.old (seen line.now)) }
        ensures err { IfErr result (λ e. e ≢ fault.Memory → fault_behind self.old (seen line.now) ≡ Some e) }
        ensures unchanged { OnErr result (self.new ≡ self.old) }
    {
        match line {
            Line::Head {
                opening: _,
                tests: _,
            } => {
                *self = PartLines::new(alloc);
                self.begun = true;
                Ok(())
            }
            Line::Step(event, observed) => self.take_step(*event, observed),
            Line::Order(txns) => self.take_order(alloc, txns.as_slice()),
        }
    }

    /// Notes a step of a transaction.
    fn take_step(&mut self, event: Event, observed: &Observed) -> Result<(), LineFault>
        ensures ok { OnOk result (fault_behind self.old (step event observed.now) ≡ None) }
        ensures after { OnOk result (self.new ≡ after_line self.old (step event observed.now)) }
        ensures err { IfErr result (λ e. e ≢ fault.Memory → fault_behind self.old (step event observed.now) ≡ Some e) }
        ensures unchanged { OnErr result (self.new ≡ self.old) }
    {
        if !self.begun {
            return Err(LineFault::Field);
        }
        if self.ordered {
            return Err(LineFault::Order);
        }
        if self.ended.has(event.txn) {
            return Err(LineFault::Ended);
        }
        if commits(observed) {
            self.note_commit(event.txn)
        } else if ends(observed) {
            self.note_end(event.txn)
        } else {
            Ok(())
        }
    }

    /// Notes that a transaction has ended.
    fn note_end(&mut self, txn: Txn) -> Result<(), LineFault>
        ensures ok { OnOk result (self.new ≡ with_end txn self.old) }
        ensures err { IfErr result (λ e. e ≡ fault.Memory) }
        ensures unchanged { OnErr result (self.new ≡ self.old) }
    {
        self.ended.make_room(1)?;
        self.ended.add(txn);
        Ok(())
    }

    /// Notes that a transaction has committed, which hasn't ended before.
    fn note_commit(&mut self, txn: Txn) -> Result<(), LineFault>
        requires { has self.old.ended txn ≡ false }
        ensures ok { OnOk result (self.new ≡ with_commit txn self.old) }
        ensures err { IfErr result (λ e. e ≡ fault.Memory) }
        ensures unchanged { OnErr result (self.new ≡ self.old) }
    {
        let commits = self.commits.checked_add(1).ok_or(LineFault::Memory)?;
        self.ended.make_room(1)?;
        self.committed.make_room(1)?;
        self.ended.add(txn);
        self.committed.add(txn);
        self.commits = commits;
        Ok(())
    }

    /// Notes an order.
    #[tactic(auto, using(crate::proofs::Distinct::order_other, crate::proofs::Distinct::order_wrong, crate::proofs::Distinct::order_right))]
    fn take_order(&mut self, alloc: Global, txns: &[Txn]) -> Result<(), LineFault>
        ensures ok { OnOk result (fault_behind self.old (order txns.now) ≡ None) }
        ensures after { OnOk result (self.new ≡ after_line self.old (order txns.now)) }
        ensures err { IfErr result (λ e. e ≢ fault.Memory → fault_behind self.old (order txns.now) ≡ Some e) }
        ensures unchanged { OnErr result (self.new ≡ self.old) }
    {
        if !self.begun {
            return Err(LineFault::Field);
        }
        if self.ordered || txns.len() != self.commits {
            return Err(LineFault::Order);
        }
        if !are_distinct_in(alloc, &self.committed, txns)? {
            return Err(LineFault::Order);
        }
        self.ordered = true;
        Ok(())
    }
}
