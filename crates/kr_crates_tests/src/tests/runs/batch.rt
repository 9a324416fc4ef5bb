mod ample;
mod named;

use kr_batch::judge_all;
use kr_report::report_verdict;
use kr_script::read_script;
use kr_test_support::Plain;
use std::alloc::AllocError;
use std::test::Fail;

#[test]
fn no_scripts(rt: HostRuntime) -> Result<(), AllocError> {
    let verdicts = judge_all(&rt, rt.alloc(), &Plain, &[])?;
    assert!(rt; verdicts.is_empty());
    Ok(())
}

/// Reads a key twice in one transaction, with nothing between.
const SERIAL: &[u8] =
    br#"{"format":1,"opening":[[20,2]],"steps":[[1,"fetch",20],[1,"fetch",20],[1,"commit"]]}"#;

/// Reads a key which another transaction then deletes, that commits first.
const NOT_SERIAL: &[u8] =
    br#"{"format":1,"opening":[[20,2]],"steps":[[1,"fetch",20],[2,"delete",20],[2,"commit"],[1,"commit"]]}"#;

#[test]
fn verdicts_in_order(rt: HostRuntime) -> Result<(), Fail> {
    let alloc = rt.alloc();
    let first = read_script(alloc, SERIAL).ok().ok_or("no script")?;
    let second = read_script(alloc, NOT_SERIAL).ok().ok_or("no script")?;
    let scripts = vec![in alloc; first, second]?;
    let verdicts = judge_all(&rt, alloc, &Plain, scripts.as_slice())?;
    assert_eq!(rt; verdicts.len(), 2);
    let serial = report_verdict(alloc, "first", &verdicts[0])?;
    assert_eq!(rt;
        serial.as_str(),
        r#"{"script":"first","verdict":["serial"]}"#
    );
    let not_serial = report_verdict(alloc, "second", &verdicts[1])?;
    assert_eq!(rt;
        not_serial.as_str(),
        r#"{"script":"second","verdict":["not-serial",1,1,["found",2],["none"]]}"#
    );
    Ok(())
}

/// Updates a key twice and takes both updates back; another then reads the key.
const BACK: &[u8] =
    br#"{"format":2,"opening":[[20,2]],"steps":[[1,"update",20,7],[1,"update",20,9],[1,"back"],[1,"back"],[1,"abort"],[2,"fetch",20],[2,"commit"]]}"#;

/// Updates a key which another transaction then updates too, that commits first.
const UPDATED: &[u8] =
    br#"{"format":2,"opening":[[20,2]],"steps":[[1,"update",20,7],[2,"update",20,9],[2,"commit"],[1,"commit"]]}"#;

#[test]
fn verdicts_on_both_formats(rt: HostRuntime) -> Result<(), Fail> {
    let alloc = rt.alloc();
    let mut scripts = Vec::new(alloc);
    for text in [NOT_SERIAL, BACK, UPDATED] {
        scripts.push(read_script(alloc, text)?)?;
    }
    let verdicts = judge_all(&rt, alloc, &Plain, scripts.as_slice())?;
    let wanted = [
        r#"{"script":"","verdict":["not-serial",1,1,["found",2],["none"]]}"#,
        r#"{"script":"","verdict":["serial"]}"#,
        r#"{"script":"","verdict":["not-serial",2,1,["updated",7],["updated",2]]}"#,
    ];
    assert_eq!(rt; verdicts.len(), 3);
    for (verdict, wanted) in verdicts.iter().zip(wanted) {
        assert_eq!(rt; report_verdict(alloc, "", verdict)?.as_str(), wanted);
    }
    Ok(())
}
