//! A caller of the crates: reads a table, has it checked, and runs steps under the accepted one. That the run is
//! serializable is its own clause, and comes with the call of `run`.
#![tactic(auto)]

mod serial;

use crate::serial::run_checked;
use kr_model::{Event, Op};
use std::io;
use std::io::Read;

const OPENING: [(u64, u64); 3] = [(10, 1), (20, 2), (30, 3)];

/// Transaction 1 fetches 15 and finds nothing; transaction 2 can insert it once the first has committed.
const STEPS: [Event; 5] = [
    Event {
        txn: 1,
        op: Op::Fetch(15),
    },
    Event {
        txn: 2,
        op: Op::Insert(15, 5),
    },
    Event {
        txn: 1,
        op: Op::Commit,
    },
    Event {
        txn: 2,
        op: Op::Insert(15, 5),
    },
    Event {
        txn: 2,
        op: Op::Commit,
    },
];

/// Reads a table from standard input, and prints what each committed transaction did, in commit order.
fn main(rt: HostRuntime) -> io::Result<()> {
    let mut table = Vec::new(rt.alloc());
    rt.reader().read_to_end(&mut table)?;
    match run_checked(rt.alloc(), table.as_slice(), &OPENING, &STEPS) {
        Ok(ran) => {
            for program in ran.programs.as_slice() {
                println!(rt;
                    "transaction {}: {:?}",
                    program.txn,
                    program.operations.as_slice()
                )?;
            }
        }
        Err(fault) => println!(rt; "{fault}")?,
    }
    Ok(())
}
