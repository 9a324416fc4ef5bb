//! Faults: what is told of bytes that are no script, and which of several is told.
use super::reading::PHANTOM;
use kr_script::{ScriptFault, read_script};
use std::alloc::{AllocError, Global};
use std::process::Abort;

/// How a fault is shown, which begins with its number and its name.
fn shown(alloc: Global, fault: &ScriptFault) -> Result<String, AllocError> {
    let number = fault.number();
    let name = fault.name();
    let beginning = format!(in alloc; "fault {number} {name}")?;
    let shown = format!(in alloc; "{fault}")?;
    if shown.starts_with(beginning.as_str()) {
        Ok(shown)
    } else {
        format!(in alloc; "{beginning} for {shown}")
    }
}

/// The fault that is told of the bytes, as it is shown, or `none`.
fn told(alloc: Global, bytes: &[u8]) -> Result<String, AllocError> {
    match read_script(alloc, bytes) {
        Ok(_) => String::from_str(alloc, "none"),
        Err(fault) => shown(alloc, &fault),
    }
}

/// Compares the fault that is told of the bytes.
fn tells(
    rt: &impl Abort,
    alloc: Global,
    bytes: &[u8],
    fault: &str,
    name: &str,
) -> Result<(), AllocError> {
    assert_eq!(rt; told(alloc, bytes)?.as_str(), fault, "{name}");
    Ok(())
}

/// Documents, and the fault that is told of each.
const DOCUMENTS: &[(&str, &str)] = &[
    ("", "fault 2 NotJson"),
    (
        "{\"format\":1,\"opening\":[],\"steps\":[]} 1",
        "fault 2 NotJson",
    ),
    ("[]", "fault 4 Field at "),
    ("{}", "fault 4 Field at format"),
    ("{\"format\":1.0,\"zz\":0}", "fault 4 Field at format"),
    ("{\"format\":-1}", "fault 4 Field at format"),
    ("{\"format\":3,\"zz\":0}", "fault 3 Format"),
    ("{\"format\":1,\"format\":3}", "fault 3 Format"),
    (
        "{\"format\":1,\"steps\":0,\"b\":1,\"a\":1}",
        "fault 4 Field at a",
    ),
    (
        "{\"format\":1,\"opening\":[],\"steps\":[],\"\":1}",
        "fault 4 Field at ",
    ),
    ("{\"format\":1,\"steps\":0}", "fault 4 Field at opening"),
    (
        "{\"format\":1,\"opening\":{},\"steps\":[]}",
        "fault 4 Field at opening",
    ),
    ("{\"format\":1,\"opening\":[0]}", "fault 4 Field at steps"),
    (
        "{\"format\":1,\"opening\":[[5,1],[5,2]],\"steps\":[0]}",
        "fault 5 Opening at 1",
    ),
    (
        "{\"format\":1,\"opening\":[[5,1],[4,2]],\"steps\":[]}",
        "fault 5 Opening at 1",
    ),
    (
        "{\"format\":1,\"opening\":[[5,1,2]],\"steps\":[]}",
        "fault 5 Opening at 0",
    ),
    (
        "{\"format\":1,\"opening\":[[5,-1]],\"steps\":[]}",
        "fault 5 Opening at 0",
    ),
    (
        "{\"format\":1,\"opening\":[],\"steps\":[[4294967296,\"go\"]]}",
        "fault 6 Step at 0",
    ),
    (
        "{\"format\":1,\"opening\":[],\"steps\":[[1,\"fetch\",-1]]}",
        "fault 6 Step at 0",
    ),
    (
        "{\"format\":1,\"opening\":[],\"steps\":[[1,\"fetch\"]]}",
        "fault 6 Step at 0",
    ),
    (
        "{\"format\":1,\"opening\":[],\"steps\":[[1,\"commit\"],[4294967296,\"commit\"]]}",
        "fault 6 Step at 1",
    ),
    (
        "{\"format\":1,\"opening\":[],\"steps\":[[1,\"fetch\",1,2]]}",
        "fault 6 Step at 0",
    ),
    (
        "{\"format\":1,\"opening\":[],\"steps\":[[1,\"insert\",1]]}",
        "fault 6 Step at 0",
    ),
    (
        "{\"format\":1,\"opening\":[],\"steps\":[[1,\"commit\",1]]}",
        "fault 6 Step at 0",
    ),
    (
        "{\"format\":1,\"opening\":[],\"steps\":[[1,\"scan\",1]]}",
        "fault 6 Step at 0",
    ),
    (
        "{\"format\":1,\"opening\":[],\"steps\":[[1,\"go\",1]]}",
        "fault 6 Step at 0",
    ),
    (
        "{\"format\":1,\"opening\":[],\"steps\":[[1,\"delete\"]]}",
        "fault 6 Step at 0",
    ),
    (
        "{\"format\":1,\"opening\":[],\"steps\":[[1,\"abort\",1]]}",
        "fault 6 Step at 0",
    ),
    (
        "{\"format\":1,\"opening\":[],\"steps\":[[1,\"update\",1,2]]}",
        "fault 6 Step at 0",
    ),
    (
        "{\"format\":1,\"opening\":[],\"steps\":[[1,\"Commit\"]]}",
        "fault 6 Step at 0",
    ),
    (
        "{\"format\":1,\"opening\":[],\"steps\":[\"commit\"]}",
        "fault 6 Step at 0",
    ),
    ("{\"format\":1,\"opening\":[],\"steps\":[]}", "none"),
    (
        "{\"format\":1,\"opening\":[],\"steps\":[[1,\"back\"]]}",
        "fault 6 Step at 0",
    ),
    (
        "{\"format\":2,\"opening\":[],\"steps\":[[1,\"update\",1,2],[1,\"back\"],[1,\"fetch\",1]]}",
        "none",
    ),
    (
        "{\"format\":2,\"opening\":[],\"steps\":[[1,\"back\"],[1,\"update\",1]]}",
        "fault 6 Step at 1",
    ),
    (
        "{\"format\":2,\"opening\":[],\"steps\":[[1,\"back\",1]]}",
        "fault 6 Step at 0",
    ),
    (
        "{\"format\":2,\"opening\":[],\"steps\":[[1,\"update\",1,2,3]]}",
        "fault 6 Step at 0",
    ),
    (
        "{\"format\":2,\"opening\":[],\"steps\":[[1,\"back\"],[4294967296,\"back\"]]}",
        "fault 6 Step at 1",
    ),
    (
        "{\"format\":2,\"opening\":[],\"steps\":[[1,\"Update\",1,2]]}",
        "fault 6 Step at 0",
    ),
    (
        "{\"format\":1,\"opening\":[],\"steps\":[[1,\"commit\"],[1,\"update\",1],[1,\"back\"]]}",
        "fault 6 Step at 1",
    ),
    (
        "{\"steps\":[[1,\"commit\"],[1,\"back\"]],\"opening\":[],\"format\":1}",
        "fault 6 Step at 1",
    ),
    (
        "{\"format\":2,\"opening\":[[5,1],[5,2]],\"steps\":[[1,\"back\",1]]}",
        "fault 5 Opening at 1",
    ),
    ("{\"format\":2}", "fault 4 Field at opening"),
    ("{\"format\":2,\"opening\":[]}", "fault 4 Field at steps"),
    ("{\"format\":2,\"zz\":0}", "fault 4 Field at zz"),
    (
        "{\"format\":0,\"opening\":[],\"steps\":[]}",
        "fault 3 Format",
    ),
    (
        "{\"format\":1,\"opening\":[],\"steps\":[[1,\"back\"]],\"format\":2}",
        "none",
    ),
    (
        "{\"format\":2,\"opening\":[],\"steps\":[[1,\"back\"]],\"format\":1}",
        "fault 6 Step at 0",
    ),
];

#[test]
fn tells_the_first_fault(rt: HostRuntime) -> Result<(), AllocError> {
    for (text, fault) in DOCUMENTS {
        tells(&rt, rt.alloc(), text.as_bytes(), *fault, *text)?;
    }
    Ok(())
}

#[test]
fn refuses_each_beginning(rt: HostRuntime) -> Result<(), AllocError> {
    let mut beginning = Vec::new(rt.alloc());
    for byte in PHANTOM.as_bytes() {
        tells(
            &rt,
            rt.alloc(),
            beginning.as_slice(),
            "fault 2 NotJson",
            "a beginning",
        )?;
        beginning.push(*byte)?;
    }
    Ok(())
}

#[test]
fn refuses_what_is_no_text(rt: HostRuntime) -> Result<(), AllocError> {
    tells(&rt, rt.alloc(), b"\"\xff\"", "fault 2 NotJson", "no text")
}

#[test]
fn refuses_what_nests_deep(rt: HostRuntime) -> Result<(), AllocError> {
    let mut deep = "[".repeat(rt.alloc(), 200)?;
    deep.push_str("]".repeat(rt.alloc(), 200)?.as_str())?;
    tells(
        &rt,
        rt.alloc(),
        deep.as_bytes(),
        "fault 2 NotJson",
        "200 deep",
    )
}

/// A script with one element in `opening` and in `steps` and so many behind it, all of them 0.
fn zeros(alloc: Global, opening: usize, steps: usize) -> Result<String, AllocError> {
    let opening = ",0".repeat(alloc, opening)?;
    let steps = ",0".repeat(alloc, steps)?;
    format!(in alloc; "{{\"format\":1,\"opening\":[0{opening}],\"steps\":[0{steps}]}}")
}

/// Such scripts, and the fault that is told of each.
const TOO_MANY: &[(usize, usize, &str)] = &[
    (100_000, 100_000, "fault 7 TooMany at opening"),
    (0, 100_000, "fault 7 TooMany at steps"),
    (99_999, 99_999, "fault 5 Opening at 0"),
];

#[test]
fn tells_too_many_before_what_they_are(rt: HostRuntime) -> Result<(), AllocError> {
    for (opening, steps, fault) in TOO_MANY {
        let text = zeros(rt.alloc(), *opening, *steps)?;
        tells(&rt, rt.alloc(), text.as_bytes(), *fault, "zeros")?;
    }
    Ok(())
}

#[test]
fn tells_too_long_before_anything(rt: HostRuntime) -> Result<(), AllocError> {
    let mut bytes = vec![in rt.alloc(); 91; 16_777_216]?;
    tells(
        &rt,
        rt.alloc(),
        bytes.as_slice(),
        "fault 2 NotJson",
        "as long as it may be",
    )?;
    bytes.push(91)?;
    tells(
        &rt,
        rt.alloc(),
        bytes.as_slice(),
        "fault 1 TooLong",
        "too long",
    )
}

#[test]
fn shows_a_want_of_memory(rt: HostRuntime) -> Result<(), AllocError> {
    let fault = ScriptFault::Memory;
    assert_eq!(rt; fault.number(), 8);
    assert_eq!(rt; fault.name(), "Memory");
    assert_eq!(rt;
        format!(in rt.alloc(); "{fault}")?.as_str(),
        "fault 8 Memory"
    );
    Ok(())
}
