//! Bundled tables with one entry changed, each change as text.

use kr_model::Mode;
use kr_protocol::Protocol;
use std::alloc::Global;
use std::test::Fail;

/// What a row requests at a side: the row, the side, the requester's own modes on the next name, of which none stands for any,
/// the mode that is requested, and its span.
pub type Clause = (
    &'static str,
    &'static str,
    &'static [&'static str],
    &'static str,
    &'static str,
);

/// A change of one entry. Clauses are told by their places.
#[derive(Clone, Copy)]
pub enum Edit {
    /// The clause is left out.
    LeftOut(usize),
    /// All clauses of this row and side are left out.
    AllLeftOut(&'static str, &'static str),
    /// The clause has the other span.
    Turned(usize),
    /// The clause requests this mode.
    Asks(usize, Mode),
    /// The clause isn't for this own mode.
    Without(usize, &'static str),
    /// The held and the requested mode make this mode.
    Convert(Mode, Mode, Mode),
    /// Whether the requested mode is compatible with the held one is turned round.
    Turn(Mode, Mode),
}

/// All changes of one entry of a table with these clauses. At most two clauses are of one row and side.
pub fn edits<P: Protocol>(
    alloc: Global,
    protocol: &P,
    clauses: &[Clause],
) -> Result<Vec<Edit>, Fail> {
    let mut edits = Vec::new(alloc);
    let mut before: Option<Clause> = None;
    for (place, clause) in clauses.iter().enumerate() {
        edits_of_clause(protocol, place, *clause, &mut edits)?;
        if let Some(before) = before {
            if is_beside(before, *clause) {
                edits.push(Edit::AllLeftOut(clause.0, clause.1))?;
            }
        }
        before = Some(*clause);
    }
    for held in 1..protocol.count() + 1 {
        for requested in 1..protocol.count() + 1 {
            for mode in 1..protocol.count() + 1 {
                if mode != protocol.convert(held, requested) {
                    edits.push(Edit::Convert(held, requested, mode))?;
                }
            }
        }
    }
    for requested in 1..protocol.count() + 1 {
        for held in 1..protocol.count() + 1 {
            edits.push(Edit::Turn(requested, held))?;
        }
    }
    Ok(edits)
}

/// Whether two clauses are of one row and side.
fn is_beside(clause: Clause, other: Clause) -> bool {
    clause.0 == other.0 && clause.1 == other.1
}

/// The changes of one clause alone.
fn edits_of_clause<P: Protocol>(
    protocol: &P,
    place: usize,
    clause: Clause,
    edits: &mut Vec<Edit>,
) -> Result<(), Fail> {
    edits.push(Edit::LeftOut(place))?;
    edits.push(Edit::Turned(place))?;
    for mode in 1..protocol.count() + 1 {
        if protocol.name(mode) != clause.3 {
            edits.push(Edit::Asks(place, mode))?;
        }
    }
    for own in clause.2 {
        edits.push(Edit::Without(place, *own))?;
    }
    Ok(())
}

/// The text of the table with the change.
pub fn text_of<P: Protocol>(
    alloc: Global,
    protocol: &P,
    clauses: &[Clause],
    edit: Edit,
) -> Result<String, Fail> {
    let format = if protocol.updates() { 2 } else { 1 };
    let mut text = String::new(alloc);
    write!(text, "format = {format}\nmodes = [")?;
    for mode in 1..protocol.count() + 1 {
        let name = protocol.name(mode);
        write!(text, "\"{name}\", ")?;
    }
    write!(text, "]\n")?;
    write_compatible(protocol, edit, &mut text)?;
    write_convert(protocol, edit, &mut text)?;
    write_rules(protocol, clauses, edit, &mut text)?;
    Ok(text)
}

fn write_compatible<P: Protocol>(protocol: &P, edit: Edit, text: &mut String) -> Result<(), Fail> {
    write!(text, "[compatible]\n")?;
    for requested in 1..protocol.count() + 1 {
        let name = protocol.name(requested);
        write!(text, "{name} = [")?;
        for held in 1..protocol.count() + 1 {
            let is_turned = matches!(edit, Edit::Turn(q, h) if q == requested && h == held);
            if protocol.ok(requested, held) != is_turned {
                let name = protocol.name(held);
                write!(text, "\"{name}\", ")?;
            }
        }
        write!(text, "]\n")?;
    }
    Ok(())
}

fn write_convert<P: Protocol>(protocol: &P, edit: Edit, text: &mut String) -> Result<(), Fail> {
    write!(text, "[convert]\n")?;
    for held in 1..protocol.count() + 1 {
        for requested in 1..protocol.count() + 1 {
            let mode = match edit {
                Edit::Convert(h, q, mode)
                    if h == held && q == requested && mode <= protocol.count() => mode,
                _ => protocol.convert(held, requested),
            };
            let (from, asked) = (protocol.name(held), protocol.name(requested));
            let name = protocol.name(mode);
            write!(text, "{from}.{asked} = \"{name}\"\n")?;
        }
    }
    Ok(())
}

fn write_rules<P: Protocol>(
    protocol: &P,
    clauses: &[Clause],
    edit: Edit,
    text: &mut String,
) -> Result<(), Fail> {
    write!(text, "[rules]\n")?;
    let mut before: Option<Clause> = None;
    for clause in clauses {
        let is_first = match before {
            Some(before) => !is_beside(before, *clause),
            None => true,
        };
        if is_first {
            let (row, side) = (clause.0, clause.1);
            write!(text, "{row}.{side} = [")?;
            for (place, other) in clauses.iter().enumerate() {
                if is_beside(*other, *clause) {
                    write_clause(protocol, place, *other, edit, text)?;
                }
            }
            write!(text, "]\n")?;
        }
        before = Some(*clause);
    }
    Ok(())
}

/// The mode that a clause requests with the change, where it requests this one without.
fn mode_of<'a, P: Protocol>(protocol: &'a P, place: usize, asked: &'a str, edit: Edit) -> &'a str {
    match edit {
        Edit::Asks(at, mode) if at == place && mode <= protocol.count() => protocol.name(mode),
        _ => asked,
    }
}

/// The span that a clause has with the change, where it has this one without.
fn span_of<'a>(place: usize, usual: &'a str, edit: Edit) -> &'a str {
    match (edit, usual) {
        (Edit::Turned(at), "commit") if at == place => "instant",
        (Edit::Turned(at), _) if at == place => "commit",
        _ => usual,
    }
}

fn write_clause<P: Protocol>(
    protocol: &P,
    place: usize,
    clause: Clause,
    edit: Edit,
    text: &mut String,
) -> Result<(), Fail> {
    let (row, side, own, asked, usual) = clause;
    let is_left_out = match edit {
        Edit::LeftOut(at) => at == place,
        Edit::AllLeftOut(of_row, of_side) => row == of_row && side == of_side,
        _ => false,
    };
    if is_left_out {
        return Ok(());
    }
    write!(text, "{{ ")?;
    if !own.is_empty() {
        write!(text, "own = [")?;
        for mode in own {
            let is_out = matches!(edit, Edit::Without(at, out) if at == place && out == *mode);
            if !is_out {
                write!(text, "\"{mode}\", ")?;
            }
        }
        write!(text, "], ")?;
    }
    let mode = mode_of(protocol, place, asked, edit);
    let span = span_of(place, usual, edit);
    write!(text, "mode = \"{mode}\", span = \"{span}\" }}, ")?;
    Ok(())
}
