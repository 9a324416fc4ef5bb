//! The worked scripts, of which `tests/rows` has the reports.
use std::alloc::{AllocError, Global};

/// The scripts.
pub const SCRIPTS: &[&str] = &[
    // Fetches, inserts and commits.
    r#"{"format":1,"opening":[[10,1],[20,2],[30,3]],"steps":[[1,"fetch",15],[2,"insert",17,5]]}"#,
    r#"{"format":1,"opening":[],"steps":[[1,"insert",5,1],[1,"commit"],[1,"fetch",5]]}"#,
    r#"{"format":1,"opening":[[10,1],[20,2],[30,3]],"steps":[[1,"insert",10,5],[2,"insert",10,6],[2,"insert",40,1]]}"#,
    r#"{"format":1,"opening":[[10,1],[20,2],[30,3]],"steps":[[1,"fetch",12],[1,"insert",15,5],[2,"insert",12,7]]}"#,
    r#"{"format":1,"opening":[[10,1],[20,2],[30,3]],"steps":[[1,"insert",15,5],[2,"insert",12,7]]}"#,
    r#"{"format":1,"opening":[[10,1],[20,2],[30,3]],"steps":[[1,"fetch",12],[1,"insert",15,5],[2,"insert",12,7],[2,"commit"],[1,"commit"]]}"#,
    // Deletes and aborts.
    r#"{"format":1,"opening":[[10,1],[20,2],[30,3]],"steps":[[1,"delete",30],[2,"fetch",40]]}"#,
    r#"{"format":1,"opening":[[10,1],[20,2],[30,3]],"steps":[[1,"insert",20,9],[2,"delete",20]]}"#,
    r#"{"format":1,"opening":[[10,1],[20,2],[30,3]],"steps":[[1,"delete",20],[1,"insert",20,9],[1,"abort"],[2,"fetch",20],[1,"fetch",20]]}"#,
    r#"{"format":1,"opening":[[10,1],[20,2],[30,3]],"steps":[[1,"delete",30],[2,"fetch",25],[1,"abort"],[2,"fetch",25]]}"#,
    r#"{"format":1,"opening":[[10,1],[20,2],[30,3]],"steps":[[1,"delete",15],[2,"insert",17,1],[1,"commit"],[2,"insert",17,1]]}"#,
    r#"{"format":1,"opening":[[10,1],[20,2],[30,3]],"steps":[[1,"abort"],[1,"fetch",10],[2,"commit"],[2,"fetch",10]]}"#,
    // Scans, a name at a step.
    r#"{"format":1,"opening":[[10,1],[20,2],[30,3]],"steps":[[1,"scan",10,25],[2,"delete",20],[1,"go"],[2,"abort"],[1,"go"],[1,"go"]]}"#,
    r#"{"format":1,"opening":[[18446744073709551615,4]],"steps":[[1,"scan",18446744073709551615,18446744073709551615]]}"#,
    r#"{"format":1,"opening":[],"steps":[[1,"scan",0,18446744073709551615],[2,"insert",5,1]]}"#,
    r#"{"format":1,"opening":[[10,1],[20,2],[30,3]],"steps":[[1,"insert",15,5],[1,"scan",15,15]]}"#,
    r#"{"format":1,"opening":[[10,1],[20,2],[30,3]],"steps":[[1,"go"],[1,"scan",30,10],[1,"scan",10,30],[1,"commit"],[1,"abort"]]}"#,
    r#"{"format":1,"opening":[[10,1],[20,2],[30,3]],"steps":[[1,"scan",10,30],[1,"scan",30,10],[1,"abort"]]}"#,
    r#"{"format":1,"opening":[[10,1],[20,2],[30,3]],"steps":[[1,"scan",10,20],[1,"go"],[2,"insert",25,5],[2,"insert",15,1]]}"#,
    r#"{"format":1,"opening":[[10,1],[20,2],[30,3]],"steps":[[1,"scan",12,15]]}"#,
    // Updates, and changes undone one at a time.
    r#"{"format":2,"opening":[[10,1],[20,2],[30,3]],"steps":[[1,"update",20,9],[2,"fetch",20],[1,"update",25,1],[1,"abort"],[2,"fetch",20]]}"#,
    r#"{"format":2,"opening":[[10,1],[20,2],[30,3]],"steps":[[1,"update",20,9],[2,"insert",15,5],[2,"insert",25,5],[2,"update",20,8],[1,"commit"],[2,"update",20,8],[2,"commit"]]}"#,
    r#"{"format":2,"opening":[[10,1],[20,2],[30,3]],"steps":[[1,"update",20,9]]}"#,
    r#"{"format":2,"opening":[[10,1],[20,2],[30,3]],"steps":[[1,"delete",20],[1,"insert",20,9],[1,"back"],[2,"fetch",20],[1,"fetch",10],[1,"commit"],[1,"back"],[2,"fetch",20],[1,"back"],[1,"abort"],[2,"fetch",20]]}"#,
    r#"{"format":2,"opening":[[10,1],[20,2],[30,3]],"steps":[[1,"insert",15,5],[2,"insert",12,7],[1,"back"],[2,"commit"],[3,"fetch",15],[1,"abort"]]}"#,
    r#"{"format":2,"opening":[[10,1],[20,2],[30,3]],"steps":[[1,"update",20,9],[1,"insert",25,5],[1,"update",25,6],[2,"fetch",25],[1,"back"],[2,"fetch",25],[1,"back"],[2,"fetch",25],[1,"back"],[2,"fetch",20],[1,"abort"],[2,"fetch",20]]}"#,
    r#"{"format":2,"opening":[[10,1],[20,2],[30,3]],"steps":[[1,"update",20,8],[1,"update",20,9],[1,"back"]]}"#,
    r#"{"format":2,"opening":[[10,1],[20,2],[30,3]],"steps":[[1,"update",20,8],[1,"update",20,9],[1,"back"],[1,"back"]]}"#,
    r#"{"format":2,"opening":[[10,1],[20,2],[30,3]],"steps":[[1,"update",20,8],[1,"update",20,9],[1,"back"],[1,"abort"]]}"#,
    r#"{"format":2,"opening":[[10,1],[20,2],[30,3]],"steps":[[1,"update",20,8],[1,"update",20,9],[1,"abort"]]}"#,
    r#"{"format":2,"opening":[[10,1],[20,2],[30,3]],"steps":[[1,"update",20,2],[1,"back"],[1,"back"],[1,"commit"],[1,"abort"]]}"#,
    r#"{"format":2,"opening":[[10,1],[20,2],[30,3]],"steps":[[2,"back"],[1,"scan",20,30],[1,"back"],[1,"update",20,9],[1,"go"],[1,"insert",15,5],[1,"scan",10,30],[1,"commit"],[1,"back"],[1,"go"],[1,"scan",30,10],[1,"abort"],[1,"back"]]}"#,
    // Scripts that are not serializable under a table that requests nothing.
    r#"{"format":1,"opening":[[10,1],[20,2],[30,3]],"steps":[[1,"fetch",30],[1,"scan",10,20],[2,"delete",10],[2,"commit"],[1,"go"],[1,"commit"]]}"#,
    r#"{"format":1,"opening":[[10,1],[20,2],[30,3]],"steps":[[1,"fetch",20],[2,"delete",20],[2,"commit"],[1,"fetch",20],[1,"commit"]]}"#,
];

/// What each of 64 transactions, numbered from the first on, is to do in a script: a fetch of 10.
fn push_64_fetches(alloc: Global, script: &mut String, first: u8) -> Result<(), AllocError> {
    for place in 0..64_u32 {
        let txn = u32::from(first) + place;
        script.push_str(format!(in alloc; "[{txn},\"fetch\",10],")?.as_str())?;
    }
    Ok(())
}

/// A script with a fetch by each of 64 transactions, numbered from the first on, and steps before them and after them, the last of
/// a 65th, which is refused.
fn one_too_many(alloc: Global, first: u8, before: &str, after: &str) -> Result<String, AllocError> {
    let mut script = String::from_str(
        alloc,
        r#"{"format":1,"opening":[[10,1],[20,2],[30,3]],"steps":["#,
    )?;
    script.push_str(before)?;
    push_64_fetches(alloc, &mut script, first)?;
    script.push_str(after)?;
    script.push_str("]}")?;
    Ok(script)
}

/// A script with a transaction too many.
pub fn full(alloc: Global) -> Result<String, AllocError> {
    one_too_many(alloc, 1, "", r#"[65,"fetch",10]"#)
}

/// The same, behind a transaction that has ended.
pub fn full_after_one(alloc: Global) -> Result<String, AllocError> {
    one_too_many(
        alloc,
        2,
        r#"[1,"fetch",10],[1,"commit"],"#,
        r#"[1,"fetch",10],[66,"fetch",10]"#,
    )
}
