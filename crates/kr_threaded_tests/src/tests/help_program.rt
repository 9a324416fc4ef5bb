//! Calls of `kr help` and `kr version`, and words that name no command; `tests/rows` has all that they print.
use super::calls::{left_by, output_fails};
use kr_cli_test_support::Shelf;
use std::str;
use std::test::Fail;

/// No files: none is read.
const SHELF: Shelf = Shelf(&[]);

/// Words, with the status and what is left on the two streams.
const CALLS: [(&[&str], u8, &str, &str); 10] = [
    (&[], 2, "", "kr: words not understood\n"),
    (&["explian", "x"], 2, "", "kr: words not understood\n"),
    (&["--help"], 2, "", "kr: words not understood\n"),
    (&["check", "--help"], 2, "", "kr: words not understood\n"),
    (&["help", "nonsense"], 2, "", NO_HELP),
    (&["help", "explain", "view"], 2, "", NO_HELP),
    (
        &["help", "version"],
        0,
        "usage: kr version\nstatus: 0; 2 a fault\n",
        "",
    ),
    (&["version"], 0, "kr 0.9.0\n", ""),
    (&["version", "x"], 2, "", NO_VERSION),
    (&["version", "--help"], 2, "", NO_VERSION),
];

/// Words behind `help` that aren't understood.
const NO_HELP: &str = "kr: words not understood\nusage: kr help [COMMAND]\n";

/// Words behind `version`, of which none is understood.
const NO_VERSION: &str = "kr: words not understood\nusage: kr version\n";

#[test]
fn each_call_leaves_its_lines(rt: HostRuntime) -> Result<(), Fail> {
    for (words, status, out, err) in CALLS {
        let left = left_by(&rt, words, &SHELF)?;
        assert_eq!(rt; left.out.as_slice(), out.as_bytes(), "{words:?}");
        assert_eq!(rt; left.err.as_slice(), err.as_bytes(), "{words:?}");
        assert_eq!(rt; left.status, status, "{words:?}");
    }
    Ok(())
}

/// The commands.
const COMMANDS: [&str; 11] = [
    "check", "run", "judge", "threads", "explain", "view", "trace", "suite", "relax", "help",
    "version",
];

#[test]
fn each_command_has_a_line(rt: HostRuntime) -> Result<(), Fail> {
    let left = left_by(&rt, ["help"].as_slice(), &SHELF)?;
    let listing = str::from_utf8(left.out.as_slice()).ok();
    let listing = listing.ok_or("no text")?;
    assert!(rt; listing.starts_with("usage: kr COMMAND ..\n"));
    for command in COMMANDS {
        let line = format!(in rt.alloc(); "\n  {command} ")?;
        assert!(rt; listing.contains(line.as_str()), "{command}");
    }
    assert!(rt; listing.ends_with("\n"));
    assert!(rt; left.err.is_empty());
    assert_eq!(rt; left.status, 0);
    Ok(())
}

#[test]
fn each_command_has_a_page(rt: HostRuntime) -> Result<(), Fail> {
    for command in COMMANDS {
        let left = left_by(&rt, ["help", command].as_slice(), &SHELF)?;
        let usage = format!(in rt.alloc(); "usage: kr {command}")?;
        let page = left.out.as_slice();
        assert!(rt; page.starts_with(usage.as_str().as_bytes()), "{command}");
        assert!(rt; page.ends_with(b" a fault\n"), "{command}");
        assert!(rt; left.err.is_empty(), "{command}");
        assert_eq!(rt; left.status, 0, "{command}");
    }
    Ok(())
}

#[test]
fn the_page_is_what_the_option_prints(rt: HostRuntime) -> Result<(), Fail> {
    for command in ["explain", "view", "trace", "suite", "relax"] {
        let page = left_by(&rt, ["help", command].as_slice(), &SHELF)?;
        assert!(rt; !page.out.is_empty(), "{command}");
        for option in ["--help", "-h"] {
            let left = left_by(&rt, [command, option].as_slice(), &SHELF)?;
            assert_eq!(rt;
                left.out.as_slice(),
                page.out.as_slice(),
                "{command} {option}"
            );
            assert!(rt; left.err.is_empty(), "{command} {option}");
            assert_eq!(rt; left.status, 0, "{command} {option}");
        }
    }
    Ok(())
}

#[test]
fn output_that_fails(rt: HostRuntime) -> Result<(), Fail> {
    for words in [
        ["help"].as_slice(),
        ["help", "explain"].as_slice(),
        ["version"].as_slice(),
    ] {
        output_fails(&rt, words, &SHELF)?;
    }
    Ok(())
}
