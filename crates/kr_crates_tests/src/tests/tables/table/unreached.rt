//! The table of `examples/no-schedule/unreached.toml` is read as the one that `kr_theorem` defines.
ghost use Rattle.std.specs.Prelude.{◌≡◌};
ghost use Rattle.kr_theorem.specs.Unreached.{unreached};

use super::likeness::SIDES;
use kr_decide::{Decision, decide, is_ordered};
use kr_model::{Mode, Row, Side, Span};
use kr_protocol::Protocol;
use kr_table::{Table, read};
use std::process::Abort;
use std::test::Fail;

/// The text of the file, without its head.
const UNREACHED: &str = r#"format = 1
modes = ["I", "K", "X", "W"]
[compatible]
I = ["W"]
K = ["W"]
X = ["W"]
W = ["I", "K", "X", "W"]
[convert]
I = { I = "X", K = "W", X = "X", W = "X" }
K = { I = "X", K = "X", X = "X", W = "X" }
X = { I = "X", K = "X", X = "X", W = "X" }
W = { I = "X", K = "X", X = "X", W = "X" }
[rules]
fetch-hit.current = [{ mode = "X", span = "commit" }]
fetch-miss.next = [{ mode = "X", span = "commit" }]
scan-key.current = [{ mode = "X", span = "commit" }]
scan-stop.next = [{ mode = "X", span = "commit" }]
insert.next = [{ mode = "I", span = "commit" }]
insert.current = [{ mode = "K", span = "commit" }]
delete.next = [{ mode = "X", span = "commit" }]
delete.current = [{ mode = "X", span = "commit" }]
"#;

const I: Mode = 1;

const K: Mode = 2;

const X: Mode = 3;

const W: Mode = 4;

/// Whether a request is compatible with a held lock, as it is defined.
fn ok(requested: Mode, held: Mode) -> bool
    ensures { result ≡ unreached.ok requested held }
{
    requested == 0 || held == 0 || requested == W || held == W
}

/// The converted mode, as it is defined.
fn convert(held: Mode, requested: Mode) -> Mode
    ensures { result ≡ unreached.convert held requested }
{
    if held == 0 {
        requested
    } else if requested == 0 {
        held
    } else if requested == K && held == I {
        W
    } else {
        X
    }
}

/// What a row requests at a side, as it is defined.
fn ask(row: Row, side: Side, own_next: Mode) -> Option<(Mode, Span)>
    ensures { result ≡ unreached.ask row side own_next }
{
    match (row, side) {
        (Row::FetchHit, Side::Current) => Some((X, Span::Commit)),
        (Row::FetchMiss, Side::Next) => Some((X, Span::Commit)),
        (Row::ScanKey, Side::Current) => Some((X, Span::Commit)),
        (Row::ScanStop, Side::Next) => Some((X, Span::Commit)),
        (Row::Insert, Side::Current) => Some((K, Span::Commit)),
        (Row::Insert, Side::Next) => Some((I, Span::Commit)),
        (Row::Delete, Side::Current) => Some((X, Span::Commit)),
        (Row::Delete, Side::Next) => Some((X, Span::Commit)),
        _ => None,
    }
}

/// Whether the table answers as it is defined, where two modes meet.
fn agrees_on(table: &Table, mode: Mode, second: Mode) -> bool {
    mode <= table.count()
        && second <= table.count()
        && table.ok(mode, second) == ok(mode, second)
        && table.convert(mode, second) == convert(mode, second)
}

/// Whether the table requests what is defined, by an own mode.
fn asks_by(table: &Table, own: Mode) -> bool {
    if own > table.count() {
        return false;
    }
    for (row, side) in SIDES {
        if table.ask(row, side, own) != ask(row, side, own) {
            return false;
        }
    }
    true
}

#[test]
fn is_read_as_it_is_defined(rt: HostRuntime) -> Result<(), Fail> {
    let table = read(rt.alloc(), UNREACHED.as_bytes())?;
    same!(rt; table.count(), W);
    same!(rt; table.updates(), false);
    for mode in 0..W + 1 {
        holds!(rt; asks_by(&table, mode), mode);
        for second in 0..W + 1 {
            holds!(rt; agrees_on(&table, mode, second), (mode, second));
        }
    }
    Ok(())
}

#[test]
fn is_neither_safe_nor_ordered(rt: HostRuntime) -> Result<(), Fail> {
    let alloc = rt.alloc();
    let table = read(alloc, UNREACHED.as_bytes())?;
    holds!(rt; matches!(decide(alloc, &table)?, Decision::Unsafe(_)), UNREACHED);
    same!(rt; is_ordered(&table), false);
    Ok(())
}
