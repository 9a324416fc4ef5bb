//! Other orders of the committed programs.
ghost use Rattle.std.specs.Prelude.{◌≡◌, []};

use kr_cases::Memory;
use kr_model::{Pairs, Program, Programs, Txn, Txns};
use kr_serial::{Index, Ran, Replies, Triples, judge};
use std::alloc::Global;

/// All orders are tried of at most so many programs.
const MOST_PROGRAMS: usize = 7;

/// What is known of the orders of the committed programs.
#[derive(Drop)]
pub enum OtherOrders {
    /// Run one after another in this order, the programs give the answers of the run.
    Gives(Vec<Txn>),
    /// No order gives them.
    NoneGives,
    /// There are too many to try each.
    TooMany,
}

/// Tries each order of the committed programs of a run.
pub fn orders(alloc: Global, ran: &Ran) -> Result<OtherOrders, Memory> {
    let programs = ran.programs.as_slice();
    if programs.len() > MOST_PROGRAMS {
        return Ok(OtherOrders::TooMany);
    }
    let count = count_of_orders(programs.len());
    for number in 0..count {
        if let Some(txns) = order_that_gives(alloc, ran, number, count)? {
            return Ok(OtherOrders::Gives(txns));
        }
    }
    Ok(OtherOrders::NoneGives)
}

/// How many orders so many programs have.
fn count_of_orders(programs: usize) -> usize {
    let mut count: usize = 1;
    for factor in 1..=programs {
        count = count.saturating_mul(factor);
    }
    count
}

/// The transactions of the committed programs in the order of this number, of `count` orders, if they give the answers of the
/// run in that order.
fn order_that_gives(
    alloc: Global,
    ran: &Ran,
    number: usize,
    count: usize,
) -> Result<Option<Vec<Txn>>, Memory> {
    let order = order(alloc, ran.programs.as_slice(), number, count)?;
    if !gives(alloc, ran, &order)? {
        return Ok(None);
    }
    let txns = txns_of(alloc, &order)?;
    Ok(Some(txns))
}

/// The transactions of programs, in their order.
fn txns_of(alloc: Global, order: &[&Program]) -> Result<Vec<Txn>, Memory> {
    let mut txns = Vec::new(alloc);
    for program in order {
        txns.push(program.txn)?;
    }
    Ok(txns)
}

/// The programs in the order of this number, of `count` orders: orders rise as words do.
fn order<'a>(
    alloc: Global,
    programs: &'a [Program],
    number: usize,
    count: usize,
) -> Result<Vec<&'a Program>, Memory> {
    let mut left = Vec::new(alloc);
    for program in programs {
        left.push(program)?;
    }
    let mut order = Vec::new(alloc);
    let mut orders = count;
    for _ in 0..programs.len() {
        orders = orders.checked_div(left.len()).unwrap_or(1);
        let turn = number.checked_div(orders).unwrap_or(0);
        let at = turn.checked_rem(left.len()).unwrap_or(0);
        if at < left.len() {
            order.push(left.remove(at))?;
        }
    }
    Ok(order)
}

/// Whether the programs, one after another, give the answers of the run.
fn gives(alloc: Global, ran: &Ran, order: &[&Program]) -> Result<bool, Memory> {
    let opening = Index::copy_of(alloc, ran.opening.as_slice())?;
    let programs = copies_of(alloc, order)?;
    let ordered = ran_with(alloc, opening, programs);
    Ok(judge(alloc, &ordered)?.is_serial())
}

/// Copies of programs, in their order.
fn copies_of(alloc: Global, order: &[&Program]) -> Result<Vec<Program>, Memory> {
    let mut programs = Vec::new(alloc);
    for program in order {
        programs.push(program.try_copy(alloc)?)?;
    }
    Ok(programs)
}

/// A run of which only the opening map and the committed programs are known.
fn ran_with(alloc: Global, opening: Index, programs: Vec<Program>) -> Ran {
    Ran {
        opening,
        replies: Replies::from_vec(Vec::new(alloc)),
        programs: Programs::from_vec(programs),
        index: Index::from_pairs(Pairs::from_vec(Vec::new(alloc))),
        locks: Triples::from_vec(Vec::new(alloc)),
        unfinished: Txns::from_vec(Vec::new(alloc)),
    }
}
