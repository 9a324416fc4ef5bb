//! The causes for which cases of a table fail, with what mends each and its schedule.
ghost use Rattle.std.specs.Prelude.{◌≡◌, ◌++◌, IfOk, string_bytes};
ghost use Rattle.kr_view_scenes.specs.Parts.{IsMadeOfParts};
ghost use Rattle.kr_view_table.specs.Causes.{AreCauses, IsCauseBlock, causes_heading};

use crate::schedule::schedule;
use kr_explain_core::{Explained, prose_text, title_text};
use kr_explain_text::fixes_text;
use kr_model::Memory;
use kr_protocol::Protocol;
use kr_view_scenes::{Html, Mark, Part, escape};
use std::alloc::Global;

/// What stands before the causes, where there are some.
pub const CAUSES: &str = "<h2>Causes</h2>\n";

/// The causes, each with its number, from 1.
pub fn causes<P: Protocol>(
    alloc: Global,
    protocol: &P,
    causes: &[Explained],
) -> Result<String, Memory>
    ensures { IfOk result (λ text. AreCauses (P.table protocol.now) (P.names protocol.now) 1 causes.now (string_bytes text)) }
{
    let mut out = String::new(alloc);
    for at in 0..causes.len() {
        let piece = cause(alloc, protocol, at + 1, &causes[at])?;
        out.push_str(piece.as_str())?;
    }
    Ok(out)
}

/// What stands before so many causes.
pub fn heading(count: usize) -> &'static str
    ensures { result.now ≡ causes_heading count }
{
    if count == 0 { "" } else { CAUSES }
}

/// The cause of a number.
fn cause<P: Protocol>(
    alloc: Global,
    protocol: &P,
    number: usize,
    explained: &Explained,
) -> Result<String, Memory>
    ensures { IfOk result (λ text. IsCauseBlock (P.table protocol.now) (P.names protocol.now) number explained.now (string_bytes text)) }
{
    let title = title_text(alloc, protocol, number, &explained.cause)?;
    let shown = escape(alloc, title.as_str())?;
    let prose = telling(alloc, protocol, explained)?;
    let told = prose.as_str();
    let schedule = schedule(alloc, protocol, number, &explained.run)?;
    let text = format!(in alloc;
        "<section id=\"s{number}\" class=\"cause\">\n<h3>{shown}</h3>\n{told}{schedule}</section>\n"
    )?;
    Ok(text)
}

/// What is said of a cause below its title: what is wrong, and what mends it.
fn telling<P: Protocol>(
    alloc: Global,
    protocol: &P,
    explained: &Explained,
) -> Result<Html, Memory> {
    let prose = prose_text(alloc, protocol, explained)?;
    let fixes = fixes_text(
        alloc,
        protocol,
        &explained.mend,
        explained.harmless.is_some(),
    )?;
    let mut telling = Html::new(alloc);
    write_paragraph(&mut telling, prose.as_str())?;
    write_paragraph(&mut telling, fixes.as_str())?;
    Ok(telling)
}

/// Writes a text as a paragraph, unless it is empty.
pub fn write_paragraph(out: &mut Html, text: &str) -> Result<(), Memory> {
    if text.is_empty() {
        return Ok(());
    }
    out.put(&[
        Part::Mark(Mark::Paragraph),
        Part::Text(text),
        Part::Mark(Mark::EndParagraph),
    ])
}
