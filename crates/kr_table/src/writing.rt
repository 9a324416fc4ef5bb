//! Writing a table.
ghost use Rattle.std.specs.Prelude.{◌≡◌, ◌≤◌, Err, IfOk, Ok, false, pos, string_bytes, true};
ghost use Rattle.toml.specs.View.{table_view};
ghost use Rattle.toml.specs.Data.{table as a_table, members_depth, members_have_valid_dates};
ghost use Rattle.toml.specs.Text.{IsDocumentText};
ghost use Rattle.kr_table.specs.declared.writing.WriteFault.TheVariants as fault;
ghost use Rattle.kr_table.specs.Tables.{IsTable};
ghost use Rattle.kr_table.specs.Reading.{judged, reading};
ghost use Rattle.kr_table.specs.Shown.{data_of};
ghost use Rattle.kr_table.specs.Answer.{table_data};
ghost use Rattle.kr_table.specs.Writing as spec;
ghost use Rattle.kr_table.specs.Writing.{IsTextOf, IsTooLong, IsLongText};

pub mod entries;
pub mod rules;

use crate::faults::MAX_BYTES;
use crate::table::{Parts, Table};
use crate::writing::entries::{compatibility, conversions, put_in, texts_of};
use crate::writing::rules::rules_of;
use kr_model::Memory;
use std::alloc::Global;
use thiserror::Error;
use toml::{Table as Document, Value};

/// Why a table isn't written.
#[derive(Clone, Copy, Debug, PartialEq, Eq, Error)]
pub enum WriteFault {
    /// The text has more than 65,536 bytes, so that it couldn't be read.
    #[error("too long")]
    TooLong,
    /// A growth was refused.
    #[error("out of memory")]
    Memory,
}

/// The number of the format.
fn format_of(p: &Parts) -> i64
    ensures { result ≡ pos (spec.format_of p.now.update) }
{
    match p.update {
        Some(_) => 2,
        None => 1,
    }
}

/// The document that is written for a table.
fn document_of(alloc: Global, p: &Parts) -> Result<Document, Memory>
    requires { IsTable (data_of p.now) }
    ensures { IfOk result (λ t. table_view t ≡ spec.written (data_of p.now)) }
{
    let names = p.modes.names();
    let mut document = Document::new(alloc);
    put_in(alloc, &mut document, "format", Value::Integer(format_of(p)))?;
    put_in(alloc, &mut document, "modes", texts_of(alloc, names)?)?;
    let compatible = compatibility(alloc, names, p.modes.compatible())?;
    put_in(alloc, &mut document, "compatible", Value::Table(compatible))?;
    let conversion = conversions(alloc, names, p.modes.conversion())?;
    put_in(alloc, &mut document, "convert", Value::Table(conversion))?;
    put_in(
        alloc,
        &mut document,
        "rules",
        Value::Table(rules_of(alloc, p)?),
    )?;
    Ok(document)
}

/// The text of a document, which reads as the document does.
fn printed(alloc: Global, document: &Document) -> Result<String, WriteFault>
    requires depth { members_depth (table_view document.now) ≤ 80 }
    requires dates { members_have_valid_dates (table_view document.now) ≡ true }
    ensures text { IfOk result (λ s. IsDocumentText false (table_view document.now) (string_bytes s)) }
    ensures reads_back { IfOk result (λ s. reading (string_bytes s) ≡ judged (a_table (table_view document.now))) }
    ensures too_long { (result ≡ Err fault.TooLong) → IsLongText (table_view document.now) }
{
    match toml::table_to_string(alloc, document) {
        Ok(text) => {
            if text.as_str().len() > MAX_BYTES {
                return Err(WriteFault::TooLong);
            }
            Ok(text)
        }
        Err(_) => Err(WriteFault::Memory),
    }
}

/// The text of a table, in TOML, which is read back as the same table. At `TooLong` the text has
/// more than 65,536 bytes; `Memory` comes only where a growth was refused.
pub fn write(alloc: Global, table: &Table) -> Result<String, WriteFault>
    ensures text { IfOk result (λ s. IsTextOf (table_data table.now) (string_bytes s)) }
    ensures reads_back { IfOk result (λ s. reading (string_bytes s) ≡ Ok (table_data table.now)) }
    ensures too_long { (result ≡ Err fault.TooLong) → IsTooLong (table_data table.now) }
{
    match document_of(alloc, &table.parts) {
        Ok(document) => printed(alloc, &document),
        Err(_) => Err(WriteFault::Memory),
    }
}
