//! Tables of rows: a bundled table with changes of its text, and the cases of it that fail.

use kr_cases::{WhyRejected, check};
use kr_explain_runs::{Closure, Counterexample};
use kr_model::{FailedCase, Row, Side};
use kr_protocol::Protocol;
use kr_script::read_script;
use kr_table::read;
use std::alloc::Global;
use std::process::Abort;
use std::test::Fail;

/// The text of a table with the first part of each change, which stands there, replaced by the second.
#[derive(Clone, Copy)]
pub struct Table {
    pub text: &'static str,
    pub changes: &'static [(&'static str, &'static str)],
}

/// A rejected table, and the shortest of the scripts that its failed cases give, the entrance `prefer` tried first.
#[derive(Clone, Copy)]
pub struct Shown {
    pub name: &'static str,
    pub table: Table,
    pub prefer: Option<(Row, Side)>,
    pub script: &'static str,
}

/// The text of a table of one mode that requests no lock at all.
pub const ASKS_NOTHING: &str =
    "format = 1\nmodes = [\"X\"]\ncompatible = { X = [] }\nconvert = { X = { X = \"X\" } }\nrules = {}\n";

/// The table of these changes.
pub fn table_of(alloc: Global, table: Table) -> Result<kr_table::Table, Fail> {
    let mut text = String::from_str(alloc, table.text)?;
    for (old, new) in table.changes {
        let (before, after) = text.as_str().split_once(*old).ok_or("no such part")?;
        text = format!(in alloc; "{before}{new}{after}")?;
    }
    Ok(read(alloc, text.as_bytes()).map_err(|_| "no table")?)
}

/// The failed cases of a table.
pub fn failed<P: Protocol>(alloc: Global, protocol: &P) -> Result<Vec<FailedCase>, Fail> {
    match check(alloc, protocol) {
        Ok(_) => Ok(Vec::new(alloc)),
        Err(rejected) => match rejected.cause {
            WhyRejected::Failed(cases) => Ok(cases),
            WhyRejected::Memory => Err("out of memory")?,
        },
    }
}

/// The shortest of the first scripts of the failed cases, the first of these; or `None` where no case gives one.
pub fn shortest<P: Protocol>(
    alloc: Global,
    protocol: &P,
    prefer: Option<(Row, Side)>,
) -> Result<Option<Counterexample>, Fail> {
    let closure = Closure::of(alloc, protocol)?;
    let mut best: Option<Counterexample> = None;
    for case in failed(alloc, protocol)?.iter() {
        if let Some(found) = closure.find(alloc, protocol, case, prefer)? {
            let is_shorter = match &best {
                Some(known) => found.events.len() < known.events.len(),
                None => true,
            };
            if is_shorter {
                best = Some(found);
            }
        }
    }
    Ok(best)
}

/// Looks for the shortest script of each row's table, and compares it.
pub fn each_shows(rt: &impl Abort, alloc: Global, rows: &[Shown]) -> Result<(), Fail> {
    for row in rows {
        let name = row.name;
        let table = table_of(alloc, row.table)?;
        let script = read_script(alloc, row.script.as_bytes()).map_err(|_| "no script")?;
        let found = shortest(alloc, &table, row.prefer)?.ok_or("none known")?;
        assert_eq!(rt; found.opening.as_slice(), script.opening(), "{name}");
        assert_eq!(rt; found.events.as_slice(), script.steps(), "{name}");
    }
    Ok(())
}
