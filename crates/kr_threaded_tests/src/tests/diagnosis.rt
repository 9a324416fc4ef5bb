//! What helps at a fault, each call once; `tests/rows` has all faults.
use kr_cli::FileFault;
use kr_cli_diagnosis::{Bundled, bundled_help, file_help, repeated_help, script_help, table_help};
use kr_script::ScriptFault;
use kr_table::TableFault;
use std::test::Fail;

#[test]
fn at_a_table(rt: HostRuntime) -> Result<(), Fail> {
    let told = table_help(rt.alloc(), "t", b"format = 3\n", &TableFault::Format)?;
    assert_eq!(rt;
        told.as_str(),
        concat!(
            "t:1:10: expected 1, 2 for a table that offers updates or, where the program takes it, 3 for one with ghosts\n",
            "  1 | format = 3\n",
            "    |          ^\n",
        )
    );
    Ok(())
}

#[test]
fn at_a_script(rt: HostRuntime) -> Result<(), Fail> {
    let text = b"{\"format\":3,\"opening\":[],\"steps\":[]}";
    let told = script_help(rt.alloc(), "s", text, &ScriptFault::Format)?;
    assert_eq!(rt;
        told.as_str(),
        concat!(
            "s:1:11: expected 1, or 2 for a script with updates and backs\n",
            "  1 | {\"format\":3,\"opening\":[],\"steps\":[]}\n",
            "    |           ^\n",
        )
    );
    Ok(())
}

#[test]
fn of_a_member_that_stands_twice(rt: HostRuntime) -> Result<(), Fail> {
    let text = b"{\"format\":1,\"steps\":[],\"opening\":[],\n \"steps\":[]}";
    let told = repeated_help(rt.alloc(), "s", text)?;
    assert_eq!(rt;
        told.as_str(),
        concat!(
            "s:2:2: warning: \"steps\" stands 2 times, and the last counts\n",
            "  2 |  \"steps\":[]}\n",
            "    |  ^\n",
        )
    );
    Ok(())
}

#[test]
fn at_a_word(rt: HostRuntime) -> Result<(), Fail> {
    let some = bundled_help(rt.alloc(), "@kvll", Bundled::WithoutGhosts)?;
    assert_eq!(rt;
        some.as_str(),
        concat!(
            "@kvll: the bundled tables without ghosts are @kvl, @kvl-update, @im and @range-key\n",
            "did you mean \"@kvl\"?\n",
        )
    );
    let all = bundled_help(rt.alloc(), "@record-gaps", Bundled::All)?;
    assert_eq!(rt;
        all.as_str(),
        concat!(
            "@record-gaps: the bundled tables are @kvl, @kvl-update, @im, @range-key, @record-gap, @range-ghost and @next-key-ghost\n",
            "did you mean \"@record-gap\"?\n",
        )
    );
    let missing = file_help(rt.alloc(), "none.toml", FileFault::Missing, Bundled::All)?;
    assert_eq!(rt; missing.as_str(), "none.toml: there is no such file\n");
    Ok(())
}
