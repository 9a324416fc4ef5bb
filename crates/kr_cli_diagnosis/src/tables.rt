//! What helps at a fault of a table.
ghost use Rattle.std.specs.Prelude.{IfOk, string_bytes};
ghost use Rattle.kr_cli_diagnosis.specs.Help.{IsHelp};

use crate::document::Document;
use crate::help::{Help, print_said};
use crate::table_matrices::{compatible_fault, convert_fault};
use crate::table_members::{count_fault, field_fault, format_fault, mode_fault, too_long};
use crate::table_rules::{own_fault, rule_fault};
use crate::toml_faults::not_toml;
use kr_table::TableFault;
use std::alloc::{AllocError, Global};
use toml::Value;

/// What is said of a fault of a document.
fn document_fault(
    alloc: Global,
    document: &Document,
    fault: &TableFault,
) -> Result<Option<Help>, AllocError> {
    let help = match fault {
        TableFault::Format => format_fault(alloc, document),
        TableFault::Field(name) => field_fault(alloc, document, name.as_str()),
        TableFault::ModeCount => count_fault(alloc, document),
        TableFault::ModeName(index) => mode_fault(alloc, document, *index),
        TableFault::Compatible(path) => compatible_fault(alloc, document, path.as_str()),
        TableFault::Convert(path) => convert_fault(alloc, document, path.as_str()),
        TableFault::Rule(path) => rule_fault(alloc, document, path.as_str()),
        TableFault::OwnNotAllowed(path) => own_fault(alloc, document, path.as_str()),
        _ => return Ok(None),
    };
    Ok(Some(help?))
}

fn of_document(
    alloc: Global,
    bytes: &[u8],
    fault: &TableFault,
) -> Result<Option<Help>, AllocError> {
    match toml::table_from_slice(alloc, bytes) {
        Ok(table) => {
            let document = Document {
                text: bytes,
                value: Value::Table(table),
            };
            document_fault(alloc, &document, fault)
        }
        Err(e) if e.is_memory() => Err(AllocError),
        Err(_) => Ok(None),
    }
}

fn help_of(alloc: Global, bytes: &[u8], fault: &TableFault) -> Result<Option<Help>, AllocError> {
    match fault {
        TableFault::Memory => Ok(None),
        TableFault::TooLong => Ok(Some(too_long(alloc)?)),
        TableFault::NotToml => not_toml(alloc, bytes),
        _ => of_document(alloc, bytes, fault),
    }
}

/// What helps at a fault of a table: lines of text, each ended by a line feed, that begin with the word, the line and the
/// column. Empty where nothing can be said.
pub fn table_help(
    alloc: Global,
    word: &str,
    bytes: &[u8],
    fault: &TableFault,
) -> Result<String, AllocError>
    ensures { IfOk result (λ text. IsHelp word.now bytes.now (string_bytes text)) }
{
    let said = help_of(alloc, bytes, fault)?;
    print_said(alloc, word, bytes, said)
}
