//! Texts that are judged by their names, side by side.
use kr_batch::{TextFault, Texts, judge_texts};
use kr_report::report_verdict;
use kr_test_support::Plain;
use std::alloc::{AllocError, Global};
use std::test::Fail;
use std::thread::Threads;

/// Names that are texts themselves: one stands for no text, and one for out of memory.
struct Itself;

impl Texts for Itself {
    ghost use Rattle.std.specs.Prelude.{◌≡◌, IfSome};

    ghost may_be = { λ _ name found. IfSome found (λ text. text ≡ name) };

    fn text(&self, alloc: Global, name: &str) -> Result<Vec<u8>, TextFault> {
        match name {
            "none" => Err(TextFault::Unreadable),
            "big" => Err(TextFault::Memory),
            _ => match name.as_bytes().to_vec(alloc) {
                Ok(bytes) => Ok(bytes),
                Err(_) => Err(TextFault::Memory),
            },
        }
    }
}

/// Reads a key twice in one transaction, with nothing between.
const SERIAL: &str =
    r#"{"format":1,"opening":[[20,2]],"steps":[[1,"fetch",20],[1,"fetch",20],[1,"commit"]]}"#;

/// Reads a key which another transaction then deletes, that commits first.
const NOT_SERIAL: &str =
    r#"{"format":1,"opening":[[20,2]],"steps":[[1,"fetch",20],[2,"delete",20],[2,"commit"],[1,"commit"]]}"#;

/// What is told of names: the reports of the verdicts, or the fault.
fn told(rt: &(impl AllocGlobal + Threads + Sync), names: &[&str]) -> Result<String, AllocError> {
    let alloc = rt.alloc();
    let verdicts = match judge_texts(rt, alloc, &Plain, &Itself, names) {
        Ok(verdicts) => verdicts,
        Err(fault) => return format!(in alloc; "{fault}"),
    };
    let mut reports = String::new(alloc);
    for verdict in &verdicts {
        reports.push_str(report_verdict(alloc, "", verdict)?.as_str())?;
    }
    Ok(reports)
}

#[test]
fn verdicts_in_order(rt: HostRuntime) -> Result<(), Fail> {
    let serial = r#"{"script":"","verdict":["serial"]}"#;
    let not_serial = r#"{"script":"","verdict":["not-serial",1,1,["found",2],["none"]]}"#;
    let both = format!(in rt.alloc(); "{serial}{not_serial}{serial}")?;
    assert_eq!(rt; told(&rt, &[])?.as_str(), "");
    assert_eq!(rt;
        told(&rt, [SERIAL, NOT_SERIAL, SERIAL].as_slice())?.as_str(),
        both.as_str()
    );
    Ok(())
}

#[test]
fn first_of_several_faults(rt: HostRuntime) -> Result<(), Fail> {
    let unreadable = told(&rt, [SERIAL, "none", "", "big"].as_slice())?;
    assert_eq!(rt; unreadable.as_str(), "text 1 can't be read");
    let no_script = told(&rt, [SERIAL, NOT_SERIAL, "", "none", "big"].as_slice())?;
    assert_eq!(rt; no_script.as_str(), "text 2: fault 2 NotJson");
    let memory = told(&rt, [SERIAL, "big", "none", ""].as_slice())?;
    assert_eq!(rt; memory.as_str(), "out of memory");
    Ok(())
}

#[test]
fn first_fault_of_many(rt: HostRuntime) -> Result<(), Fail> {
    let mut names = vec![in rt.alloc(); SERIAL; 65]?;
    names[64] = "none";
    assert_eq!(rt;
        told(&rt, names.as_slice())?.as_str(),
        "text 64 can't be read"
    );
    names[3] = "";
    assert_eq!(rt;
        told(&rt, names.as_slice())?.as_str(),
        "text 3: fault 2 NotJson"
    );
    Ok(())
}
