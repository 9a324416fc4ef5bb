//! Odd scripts.

use super::{Kind, tells, tells_any};
use std::alloc::{AllocError, Global};

/// A script of a format with these members beside an empty opening.
fn script(alloc: Global, format: u8, members: &str) -> Result<String, AllocError> {
    format!(in alloc; "{{\"format\":{format},\"opening\":[],{members}}}")
}

/// The format of a script, its steps, and what is told of it.
#[rattlefmt::skip]
const STEPS: &[(u8, &str, &str)] = &[
    (1, "\"steps\":[[1,\"fetch\",18446744073709551615]]", "none"),
    (1, "\"steps\":[[1,\"fetch\",18446744073709551616]]", "fault 6 Step at 0"),
    (1, "\"steps\":[[1,\"go\"],[1.0,\"go\"]]", "fault 6 Step at 1"),
    (1, "\"steps\":[[1e3,\"go\"]]", "fault 6 Step at 0"),
    (1, "\"steps\":[[-0,\"go\"]]", "fault 6 Step at 0"),
    (1, "\"steps\":[[1,\"fetch\",1.0]]", "fault 6 Step at 0"),
    (1, "\"steps\":[[1,\"fetch\",1e3]]", "fault 6 Step at 0"),
    (1, "\"steps\":[[1,\"fetch\",-0]]", "fault 6 Step at 0"),
    (1, "\"steps\":[[1,\"fetch\",1e999]]", "fault 2 NotJson"),
    (1, "\"steps\":[[1,\"fetch\",01]]", "fault 2 NotJson"),
    (1, "\"steps\":[[1,\"fetch\",null]]", "fault 6 Step at 0"),
    (1, "\"steps\":[[1,\"g\\u006f\"]]", "none"),
    (1, "\"steps\":[[1,\"go\\u0000\"]]", "fault 6 Step at 0"),
    (1, "\"steps\":[[1,\"go\\ud800\"]]", "fault 2 NotJson"),
    (1, "\"steps\":[[1,\"go\\ud83d\\ude00\"]]", "fault 6 Step at 0"),
    (1, "\"steps\":\r\n[\r\n]", "none"),
    (1, "\"steps\":[]}\u{feff}", "fault 2 NotJson"),
    // Some that are scripts in format 2 alone, and some that are none there.
    (2, "\"steps\":[[1,\"back\"],[1,\"update\",1,2]]", "none"),
    (2, "\"steps\":[[1,\"update\",18446744073709551615,18446744073709551615]]", "none"),
    (2, "\"steps\":[[1,\"b\\u0061ck\"]]", "none"),
    (2, "\"steps\":[[1,\"update\",1,18446744073709551616]]", "fault 6 Step at 0"),
    (2, "\"steps\":[[1,\"back\"],[1,\"update\",1,2.0]]", "fault 6 Step at 1"),
    (2, "\"steps\":[[1,\"update\",1,-0]]", "fault 6 Step at 0"),
    (2, "\"steps\":[[1,\"update\",1]]", "fault 6 Step at 0"),
    (2, "\"steps\":[[1,\"back\",1]]", "fault 6 Step at 0"),
    (2, "\"steps\":[[1,\"back\",]]", "fault 2 NotJson"),
];

/// Where they are of format 2, some fault is told of the same steps in format 1.
#[test]
fn odd_steps(rt: HostRuntime) -> Result<(), AllocError> {
    for (format, steps, fault) in STEPS {
        let text = script(rt.alloc(), *format, *steps)?;
        tells(&rt, rt.alloc(), Kind::Script, text.as_str(), *fault)?;
        if *format == 2 {
            let first = script(rt.alloc(), 1, *steps)?;
            tells_any(&rt, rt.alloc(), Kind::Script, first.as_str(), *steps)?;
        }
    }
    Ok(())
}

/// A format that stands twice or behind the steps, and counts as the last of its kind.
const FORMATS: &[(&str, &str)] = &[
    (
        "{\"format\":1,\"opening\":[],\"steps\":[[1,\"back\"]],\"format\":2}",
        "none",
    ),
    (
        "{\"format\":2,\"opening\":[],\"steps\":[[1,\"back\"]],\"format\":1}",
        "fault 6 Step at 0",
    ),
    (
        "{\"steps\":[[1,\"back\"]],\"opening\":[],\"format\":2}",
        "none",
    ),
    (
        "{\"format\":3,\"opening\":[],\"steps\":[[1,\"back\"]]}",
        "fault 3 Format",
    ),
    (
        "{\"format\":2.0,\"opening\":[],\"steps\":[]}",
        "fault 4 Field at format",
    ),
    (
        "{\"format\":18446744073709551615,\"opening\":[],\"steps\":[]}",
        "fault 3 Format",
    ),
];

#[test]
fn odd_formats(rt: HostRuntime) -> Result<(), AllocError> {
    for (text, fault) in FORMATS {
        tells(&rt, rt.alloc(), Kind::Script, *text, *fault)?;
    }
    Ok(())
}

/// Members of a script, and what is told of it.
const MEMBERS: &[(&str, &str)] = &[
    ("\"steps\":[[1,\"go\"]],\"steps\":[]", "none"),
    ("\"steps\":[],\"steps\":0", "fault 4 Field at steps"),
    ("\"steps\":[],\"\\u0000\":0", "fault 4 Field at \u{0}"),
    ("\"steps\":[],\"Steps\":0", "fault 4 Field at Steps"),
    ("\"steps\":[],\"\\ud800\":0", "fault 2 NotJson"),
    ("\"steps\":[],\"\\udc00\\ud800\":0", "fault 2 NotJson"),
    (
        "\"steps\":[],\"\\ud83d\\ude00\":0",
        "fault 4 Field at \u{1f600}",
    ),
];

/// With each of them, and with a byte order mark before them.
#[test]
fn odd_members(rt: HostRuntime) -> Result<(), AllocError> {
    for (members, fault) in MEMBERS {
        let text = script(rt.alloc(), 1, *members)?;
        tells(&rt, rt.alloc(), Kind::Script, text.as_str(), *fault)?;
        let marked = format!(in rt.alloc(); "\u{feff}{text}")?;
        tells(
            &rt,
            rt.alloc(),
            Kind::Script,
            marked.as_str(),
            "fault 2 NotJson",
        )?;
    }
    Ok(())
}
