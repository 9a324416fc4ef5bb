//! What is wrong with a schedule: a sentence for each ending.

use kr_cases::Memory;
use kr_explain_runs::{Counterexample, Ending};
use std::alloc::Global;

/// The key that a case is about.
const A: u64 = 20;

/// The sentence of an ending, where T stands for the holder, U for the intruder, V for the third transaction, and Y for the name after
/// 20. The key before a case's point is 10, the point is 15, a free point above it 17, and the key that the case is about 20.
fn sentence(ending: Ending) -> &'static str {
    match ending {
        Ending::ReadKeyGone => "T reads 20 twice, and U deletes it in between.",
        Ending::ReadKeyUpdated => "T reads 20 twice, and U updates it in between.",
        Ending::ReadGapFilled => "T looks for 15 twice, and U inserts it in between.",
        Ending::ReadGapGrown => {
            "T looks for 15 twice, and has locked the gap at 20. U deletes 20, so that the gap ends at Y, where T has no such lock, and inserts 15."
        }
        Ending::InsertFetched => "U reads 20, whose insert T then undoes.",
        Ending::InsertScanned => "U scans 20, whose insert T then undoes.",
        Ending::InsertDeleted => "U deletes 20, whose insert T then undoes.",
        Ending::InsertUpdated => "U updates 20, whose insert T then undoes.",
        Ending::InsertMissedBelow | Ending::InsertStoppedBelow => {
            "U looks for 17 twice, and has locked the gap at 20, whose insert T undoes. No lock then blocks V, which inserts 17 in between."
        }
        Ending::InsertDeletedBelow => {
            "U deletes 10, and has locked the gap at 20, whose insert T undoes. No lock then blocks V, which does not find 10, and U undoes the delete."
        }
        Ending::InsertDeletedPoint => {
            "U deletes 15, and has locked the gap at 20, whose insert T undoes. No lock then blocks V, which does not find 15, and U undoes the delete."
        }
        Ending::DeleteMissed => "U does not find 15, whose delete T then undoes.",
        Ending::DeleteScanned | Ending::DeleteStopped => {
            "U scans without finding 15, whose delete T then undoes."
        }
        Ending::DeleteFilled => "U inserts 15, whose delete T then undoes.",
        Ending::DeleteSplit => {
            "U inserts 17 into the gap in which T has deleted 15: its lower part ends at 17, where T has no lock. V does not find 15, whose delete T then undoes."
        }
        Ending::DeleteGrown => {
            "T has locked the gap in which it deleted 15 at 20. U deletes 20, so that the gap ends at Y. V does not find 15, whose delete T then undoes."
        }
        Ending::DeleteDeletedBelow => {
            "T has deleted 15. U deletes 10, the key before it, and has locked the gap at 20. T undoes its delete, and the gap below 15 has no lock. V does not find 10, whose delete U then undoes."
        }
        Ending::UpdateFetched => "U reads 20 with the value of an update that T then undoes.",
        Ending::UpdateScanned => "U scans 20 with the value of an update that T then undoes.",
        Ending::UpdateDeleted => "U deletes 20 with the value of an update that T then undoes.",
        Ending::UpdateUpdated => "U updates 20 with the value of an update that T then undoes.",
    }
}

/// The name after 20 in the opening.
fn name_after(alloc: Global, opening: &[(u64, u64)]) -> Result<String, Memory> {
    for (key, _) in opening {
        if *key > A {
            return format!(in alloc; "{key}");
        }
    }
    String::from_str(alloc, "End")
}

/// Writes what a letter of a sentence stands for.
fn write_letter(
    out: &mut String,
    letter: char,
    script: &Counterexample,
    next: &str,
) -> Result<(), Memory> {
    match letter {
        'T' => write!(out, "T{}", script.holder),
        'U' => write!(out, "T{}", script.intruder),
        'V' => write!(out, "T{}", script.third.unwrap_or(script.intruder)),
        'Y' => out.push_str(next),
        _ => out.push(letter),
    }
}

/// What is wrong with a schedule.
pub fn seen(alloc: Global, script: &Counterexample) -> Result<String, Memory> {
    let next = name_after(alloc, script.opening.as_slice())?;
    let mut out = String::new(alloc);
    for letter in sentence(script.ending).chars() {
        write_letter(&mut out, letter, script, next.as_str())?;
    }
    Ok(out)
}
