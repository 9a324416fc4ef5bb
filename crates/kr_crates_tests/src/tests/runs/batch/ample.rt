//! Batches with ample memory, none of which answers out of memory: each count and mix of scripts up to 65, with boundary
//! keys and numbers.
use kr_batch::judge_all;
use kr_report::report_verdict;
use kr_script::{Script, read_script};
use kr_test_support::Plain;
use std::alloc::{AllocError, Global};
use std::process::Abort;
use std::test::Fail;
use std::thread::Threads;

const KEYS: [u64; 6] = [0, 1, 7, 1 << 63, u64::MAX - 1, u64::MAX];

/// Whether the run of the script at an index is serializable: in each mix other ones are.
fn is_serial(mix: usize, i: usize) -> bool {
    match mix {
        0 => true,
        1 => false,
        2 => i % 2 == 0,
        _ => i % 5 == 3,
    }
}

/// The key of the script at an index.
fn key_of(i: usize) -> u64 {
    KEYS[i % 6]
}

/// A script that fetches a key in a transaction whose number is the greatest, with a delete by another that commits first
/// or last.
fn script_of(alloc: Global, mix: usize, i: usize) -> Result<Script, Fail> {
    let key = key_of(i);
    let ends = if is_serial(mix, i) {
        "[4294967295,\"commit\"],[0,\"commit\"]"
    } else {
        "[0,\"commit\"],[4294967295,\"commit\"]"
    };
    let text = format!(in alloc;
        "{{\"format\":1,\"opening\":[[{key},{i}]],\"steps\":[[4294967295,\"fetch\",{key}],[0,\"delete\",{key}],{ends}]}}"
    )?;
    Ok(read_script(alloc, text.as_bytes())?)
}

/// The verdict on it.
fn verdict_of(alloc: Global, mix: usize, i: usize) -> Result<String, AllocError> {
    if is_serial(mix, i) {
        return String::from_str(alloc, "{\"script\":\"\",\"verdict\":[\"serial\"]}");
    }
    format!(in alloc;
        "{{\"script\":\"\",\"verdict\":[\"not-serial\",4294967295,1,[\"found\",{i}],[\"none\"]]}}"
    )
}

/// Judges so many scripts of a mix, and compares each verdict.
fn judges<R: AllocGlobal + Threads + Sync + Abort>(
    rt: &R,
    mix: usize,
    count: usize,
) -> Result<(), Fail> {
    let alloc = rt.alloc();
    let mut scripts = Vec::new(alloc);
    for i in 0..count {
        scripts.push(script_of(alloc, mix, i)?)?;
    }
    let verdicts = judge_all(rt, alloc, &Plain, scripts.as_slice())?;
    assert_eq!(rt; verdicts.len(), count);
    for (i, verdict) in verdicts.iter().enumerate() {
        let told = report_verdict(alloc, "", verdict)?;
        let wanted = verdict_of(alloc, mix, i)?;
        assert_eq!(rt; told.as_str(), wanted.as_str(), "{mix} {count} {i}");
    }
    Ok(())
}

#[test]
fn each_mix_of_scripts(rt: HostRuntime) -> Result<(), Fail> {
    for mix in 0..4 {
        for count in 0..10 {
            judges(&rt, mix, count)?;
        }
        for count in [16, 63, 64, 65] {
            judges(&rt, mix, count)?;
        }
    }
    Ok(())
}
