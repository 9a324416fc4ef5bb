//! The bytes, the tables and the scripts that words name.
use super::{
    AnyTable, FileFault, SCRIPT, TABLE, first_bytes, read_file, read_script, script_at, table_at,
    whole,
};
use kr_cli_test_support::Shelf;
use kr_protocol::Protocol;
use std::io::repeat;
use std::test::Fail;

/// A file of three letters.
const LETTERS: Shelf = Shelf(&[("file", "abc")]);

#[test]
fn bytes(rt: HostRuntime) -> Result<(), Fail> {
    let alloc = rt.alloc();
    let read = read_file(alloc, "file", &LETTERS, 4).map_err(|_| "not read")?;
    assert_eq!(rt; read.as_slice(), b"abc".as_slice());
    let had = whole(alloc, "file", &LETTERS, 4).map_err(|_| "not had")?;
    assert_eq!(rt; had.as_slice(), b"abc".as_slice());
    assert_eq!(rt;
        read_file(alloc, "big", &LETTERS, 4).err(),
        Some(FileFault::Memory)
    );
    for word in ["@file", "@", "other", ""] {
        assert_eq!(rt;
            read_file(alloc, word, &LETTERS, 4).err(),
            Some(FileFault::Unreadable),
            "{word}"
        );
    }
    Ok(())
}

#[test]
fn no_more_than_is_wanted(rt: HostRuntime) -> Result<(), Fail> {
    for (most, read) in [(0, ""), (1, "a"), (2, "ab"), (3, "abc"), (4, "abc")] {
        let had = whole(rt.alloc(), "file", &LETTERS, most).map_err(|_| "not had")?;
        assert_eq!(rt; had.as_slice(), read.as_bytes());
    }
    Ok(())
}

/// A reader that never ends is read to where it is wanted, in several reads.
#[test]
fn an_endless_reader(rt: HostRuntime) -> Result<(), Fail> {
    let mut endless = repeat(7);
    let had = first_bytes(rt.alloc(), &mut endless, 40_000)?;
    assert_eq!(rt; had.len(), 40_000);
    assert!(rt; had.iter().all(|byte| *byte == 7));
    Ok(())
}

/// Words of tables, each with the name of the table's first mode and how many modes it has.
const TABLES: &[(&str, &str, u8)] = &[
    ("@kvl", "IS", 5),
    ("@kvl-update", "IS", 5),
    ("@im", "S", 2),
    ("@range-key", "N-S", 11),
    ("file", "A", 1),
];

/// The table in a file.
const TABLE_FILE: Shelf = Shelf(&[("file", TABLE)]);

#[test]
fn tables(rt: HostRuntime) -> Result<(), Fail> {
    for (word, first, count) in TABLES {
        let table = table_at(rt.alloc(), *word, &TABLE_FILE).map_err(|_| "no table")?;
        assert_eq!(rt; table.count(), *count, "{word}");
        assert_eq!(rt; table.name(1), *first, "{word}");
        assert_eq!(rt;
            matches!(&table, AnyTable::Read(_)),
            *word == "file",
            "{word}"
        );
        assert_eq!(rt; table.updates(), *word == "@kvl-update", "{word}");
    }
    Ok(())
}

/// The script in a file.
const SCRIPT_FILE: Shelf = Shelf(&[("file", SCRIPT)]);

#[test]
fn scripts(rt: HostRuntime) -> Result<(), Fail> {
    let script = script_at(rt.alloc(), "file", &SCRIPT_FILE).map_err(|_| "no script")?;
    let read = read_script(rt.alloc(), SCRIPT.as_bytes()).map_err(|_| "not read")?;
    assert_eq!(rt; script.opening(), read.opening());
    assert_eq!(rt; script.steps(), read.steps());
    Ok(())
}
