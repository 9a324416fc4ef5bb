//! The rules of a table: what each operation requests, and for which own modes.
ghost use Rattle.std.specs.Prelude.{◌≡◌, ◌≤◌, ◌++◌, ◌∷◌, [], IfOk, OnOk, filter, flat_map, string_bytes, if◌then◌else◌};
ghost use Rattle.kr_model.specs.Covers.{modes_or_none};
ghost use Rattle.kr_view_table.specs.declared.rules.TheConstants.{RULES};
ghost use Rattle.kr_view_table.specs.Rules.{clause_at, clause_words, is_first, meaning, offered, owns_of, request_words, rule_row, rules_words, side_cell, where_words};

use crate::badges::{Entry, badges};
use kr_change::is_same_request;
use kr_explain_core::Explained;
use kr_explain_text::modes_listed;
use kr_model::{Memory, Mode, Row, Side, Span, row_word};
use kr_protocol::{Protocol, name_or_empty};
use kr_view_scenes::escape;
use std::alloc::Global;

/// What stands before the rows of the rules.
pub const RULES: &str = "<h2>Rules</h2>
<p class=\"note\">What each operation requests: the mode, and whether the lock is held to commit or must only be granted at an instant. An own mode is what the transaction itself holds.</p>
<div class=\"grid\"><table class=\"rules\">
<thead><tr><th scope=\"col\">operation</th><th scope=\"col\">on its key</th><th scope=\"col\">on the next key</th></tr></thead>
<tbody>
";

/// The rules, with a row for each operation, and the numbers of the causes that blame an entry. The only error is that a growth was
/// refused.
pub fn rules_text<P: Protocol>(
    alloc: Global,
    protocol: &P,
    causes: &[Explained],
) -> Result<String, Memory>
    ensures { IfOk result (λ text. string_bytes text ≡ rules_words (P.table protocol.now) (P.names protocol.now) causes.now) }
{
    let opening = opening();
    let rows = rule_rows(alloc, protocol, causes)?;
    format!(in alloc; "{opening}{rows}</tbody></table></div>\n")
}

/// What stands before the rows.
fn opening() -> &'static str
    ensures { result.now ≡ RULES.now }
{
    RULES
}

/// The rows that a table has: that of an update only where updates are offered.
fn offered<P: Protocol>(protocol: &P) -> &'static [Row]
    ensures { result.now ≡ offered (P.table protocol.now) }
{
    if protocol.updates() {
        &[
            Row::FetchHit,
            Row::FetchMiss,
            Row::ScanKey,
            Row::ScanStop,
            Row::Insert,
            Row::Delete,
            Row::Update,
        ]
    } else {
        &[
            Row::FetchHit,
            Row::FetchMiss,
            Row::ScanKey,
            Row::ScanStop,
            Row::Insert,
            Row::Delete,
        ]
    }
}

/// A row for each operation.
fn rule_rows<P: Protocol>(
    alloc: Global,
    protocol: &P,
    causes: &[Explained],
) -> Result<String, Memory>
    ensures { IfOk result (λ text. string_bytes text ≡ flat_map (rule_row (P.table protocol.now) (P.names protocol.now) causes.now) (offered (P.table protocol.now))) }
{
    let mut out = String::new(alloc);
    for row in offered(protocol) {
        let piece = rule_row(alloc, protocol, causes, *row)?;
        out.push_str(piece.as_str())?;
    }
    Ok(out)
}

/// What an operation does that has a row.
fn meaning(row: Row) -> &'static str
    ensures { result.now ≡ meaning row }
{
    match row {
        Row::FetchHit => "fetch of a present key",
        Row::FetchMiss => "fetch of an absent key",
        Row::ScanKey => "scan, at a key in its range",
        Row::ScanStop => "scan, past its range",
        Row::Insert => "insert of an absent key",
        Row::Delete => "delete of a present key",
        Row::Update => "update of a present key",
    }
}

/// The row of an operation.
fn rule_row<P: Protocol>(
    alloc: Global,
    protocol: &P,
    causes: &[Explained],
    row: Row,
) -> Result<String, Memory>
    ensures { IfOk result (λ text. string_bytes text ≡ rule_row (P.table protocol.now) (P.names protocol.now) causes.now row) }
{
    let word = row_word(row);
    let meaning = meaning(row);
    let current = side_cell(alloc, protocol, causes, row, Side::Current)?;
    let next = side_cell(alloc, protocol, causes, row, Side::Next)?;
    format!(in alloc;
        "<tr class=\"rule\"><th scope=\"row\">{word}<small>{meaning}</small></th><td>{current}</td><td>{next}</td></tr>\n"
    )
}

/// What an operation requests on one of its keys: a clause for each request that some own mode leads to.
fn side_cell<P: Protocol>(
    alloc: Global,
    protocol: &P,
    causes: &[Explained],
    row: Row,
    side: Side,
) -> Result<String, Memory>
    ensures { IfOk result (λ text. string_bytes text ≡ side_cell (P.table protocol.now) (P.names protocol.now) causes.now row side) }
{
    let mut out = String::new(alloc);
    for own in 0..protocol.count() + 1 {
        let piece = clause_at(alloc, protocol, causes, row, side, own)?;
        out.push_str(piece.as_str())?;
    }
    Ok(out)
}

/// The clause of the request that an own mode leads to, where it is the first of the own modes that do, and else nothing.
fn clause_at<P: Protocol>(
    alloc: Global,
    protocol: &P,
    causes: &[Explained],
    row: Row,
    side: Side,
    own: Mode,
) -> Result<String, Memory>
    requires { own ≤ (P.table protocol.now).count }
    ensures { IfOk result (λ text. string_bytes text ≡ clause_at (P.table protocol.now) (P.names protocol.now) causes.now row side own) }
{
    let asked = protocol.ask(row, side, own);
    let owns = owns_of(alloc, protocol, row, side, asked)?;
    if is_first(own, &owns) {
        let entry = Entry::Request { row, side, asked };
        let badges = badges(alloc, causes, entry)?;
        clause(alloc, protocol, asked, &owns, badges.as_str())
    } else {
        Ok(String::new(alloc))
    }
}

/// Whether an own mode is the first of these.
fn is_first(own: Mode, owns: &[Mode]) -> bool
    ensures { result ≡ is_first own owns.now }
{
    match owns.first() {
        Some(first) => *first == own,
        None => false,
    }
}

/// The own modes that lead to a request, none among them.
fn owns_of<P: Protocol>(
    alloc: Global,
    protocol: &P,
    row: Row,
    side: Side,
    asked: Option<(Mode, Span)>,
) -> Result<Vec<Mode>, Memory>
    ensures { IfOk result (λ owns. owns.items ≡ owns_of (P.table protocol.now) row side asked) }
{
    let mut owns = Vec::new(alloc);
    for own in 0..protocol.count() + 1 {
        let leads = is_same_request(protocol.ask(row, side, own), asked);
        push_if(&mut owns, own, leads)?;
    }
    Ok(owns)
}

/// Puts an own mode behind the others where it leads to a request.
fn push_if(owns: &mut Vec<Mode>, own: Mode, leads: bool) -> Result<(), Memory>
    ensures { OnOk result (owns.new.items ≡ owns.old.items ++ (if leads then own ∷ [] else [])) }
{
    if leads {
        owns.push(own)?;
    }
    Ok(())
}

/// A request, with the own modes that lead to it, and these badges.
fn clause<P: Protocol>(
    alloc: Global,
    protocol: &P,
    asked: Option<(Mode, Span)>,
    owns: &[Mode],
    badges: &str,
) -> Result<String, Memory>
    ensures { IfOk result (λ text. string_bytes text ≡ clause_words (P.table protocol.now) (P.names protocol.now) asked owns.now badges.now) }
{
    let request = request(alloc, protocol, asked)?;
    let owns = where_text(alloc, protocol, owns)?;
    format!(in alloc; "<p>{request}{owns}{badges}</p>")
}

/// A request, as the rules have it: its mode, and how long the lock is held; or that there is none. The only error is that a growth
/// was refused.
pub fn request<P: Protocol>(
    alloc: Global,
    protocol: &P,
    asked: Option<(Mode, Span)>,
) -> Result<String, Memory>
    ensures { IfOk result (λ text. string_bytes text ≡ request_words (P.names protocol.now) asked) }
{
    match asked {
        None => String::from_str(alloc, "no lock"),
        Some((mode, Span::Instant)) => {
            let name = escape(alloc, name_or_empty(protocol, mode))?;
            format!(in alloc; "<b>{name}</b> at an instant")
        }
        Some((mode, Span::Commit)) => {
            let name = escape(alloc, name_or_empty(protocol, mode))?;
            format!(in alloc; "<b>{name}</b> to commit")
        }
    }
}

/// The own modes that lead to a request; nothing where all do.
fn where_text<P: Protocol>(alloc: Global, protocol: &P, owns: &[Mode]) -> Result<String, Memory>
    ensures { IfOk result (λ text. string_bytes text ≡ where_words (P.table protocol.now) (P.names protocol.now) owns.now) }
{
    if owns.len() > protocol.count() as usize {
        return Ok(String::new(alloc));
    }
    let owns = modes_listed(alloc, protocol, owns)?;
    let owns = escape(alloc, owns.as_str())?;
    format!(in alloc; " where the own mode on the next key is {owns}")
}
