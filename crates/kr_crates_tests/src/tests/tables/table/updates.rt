//! What an update requests.

use super::bundled::is_read_back;
use super::lines::{PLAIN, Table};
use kr_protocol::{Mode, Protocol, Row, Side, Span};
use kr_table::bundled::KVL_UPDATE;
use kr_table::read;
use std::alloc::Global;
use std::process::Abort;
use std::test::Fail;

/// A mode and how long it is held, where one is requested.
type Asked = Option<(Mode, Span)>;

/// Rules of a table that offers updates, and what an update requests on its key.
const UPDATES: &[(&str, Asked)] = &[
    ("rules = {  }", None),
    ("rules = { update = {} }", None),
    ("rules = { update = { current = [] } }", None),
    (
        r#"rules = { update = { current = [{ mode = "A", span = "commit" }] } }"#,
        Some((1, Span::Commit)),
    ),
    (
        r#"rules = { update = { current = [{ mode = "A", span = "instant" }] } }"#,
        Some((1, Span::Instant)),
    ),
    (
        r#"rules = { update = { current = [{ mode = "A", span = "instant" }, { mode = "A", span = "commit" }] } }"#,
        Some((1, Span::Instant)),
    ),
];

/// Compares what an update requests on its key, whatever the own mode on the next name; there it requests nothing.
fn update_asks<P: Protocol>(rt: &impl Abort, protocol: &P, asked: Asked) {
    assert!(rt; protocol.updates());
    for own in 0..protocol.count() + 1 {
        let on_key = protocol.ask(Row::Update, Side::Current, own);
        let on_next = protocol.ask(Row::Update, Side::Next, own);
        same!(rt; on_key, asked);
        same!(rt; on_next, None);
    }
}

/// Compares what an update requests under the table that a text is.
fn asks(rt: &impl Abort, alloc: Global, text: &str, asked: Asked) -> Result<(), Fail> {
    let table = read(alloc, text.as_bytes())?;
    update_asks(rt, &table, asked);
    Ok(())
}

#[test]
fn tables_that_offer_updates_are_read_back(rt: HostRuntime) -> Result<(), Fail> {
    for (rules, asked) in UPDATES {
        let table = Table {
            format: "format = 2",
            rules: *rules,
            ..PLAIN
        };
        let text = table.text(rt.alloc())?;
        asks(&rt, rt.alloc(), text.as_str(), *asked)?;
        is_read_back(&rt, rt.alloc(), text.as_str())?;
    }
    Ok(())
}

#[test]
fn updates_are_offered_without_their_row(rt: HostRuntime) -> Result<(), Fail> {
    let (front, _) = KVL_UPDATE.split_once("[rules.update]").ok_or("no row")?;
    asks(&rt, rt.alloc(), front, None)
}
