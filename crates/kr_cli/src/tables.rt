//! Tables that words name.
ghost use Rattle.std.specs.Prelude.{◌≡◌, false, IfErr, IfOk, IsOk, IsTrue};
ghost use Rattle.kr_table.specs.declared.faults.TableFault.TheVariants as table_fault;
ghost use Rattle.kr_cli.specs.declared.endings.Ending.TheVariants as ending;
ghost use Rattle.kr_cli.specs.Endings.{MemoryOrTold, is_output};
ghost use Rattle.kr_cli.specs.Lines.{told_line, table_fault_text};
ghost use Rattle.kr_cli.specs.Named.{NamesTable, TellsNoTable};
ghost use Rattle.kr_cli.specs.Words.{is_bundled};
ghost use Rattle.kr_cli.specs.Tables.{table_of, names_of};
ghost use Rattle.kr_cli.specs.Lawful.{lawful_of, named_of};

use crate::endings::Ending;
use crate::faults::table_fault_text;
use crate::files::{Files, whole};
use kr_protocol::{Im, Kvl, KvlUpdate, Mode, Protocol, RangeKey, Row, Side, Span};
use kr_table::{Table, TableFault};
use std::alloc::Global;

/// How many bytes of a table are read at most: one more than a table may have, so that one that is too long is seen to be.
pub const TABLE_BYTES: usize = 65_537;

/// One of the tables that the programs bring, or one that was read.
#[derive(Drop)]
pub enum AnyTable {
    /// `@kvl`
    Kvl,
    /// `@kvl-update`
    KvlUpdate,
    /// `@im`
    Im,
    /// `@range-key`
    RangeKey,
    /// The table in a file.
    Read(Table),
}

impl Protocol for AnyTable {
    ghost table = { λ t. table_of t };

    ghost names = { λ t. names_of t };

    fn count(&self) -> Mode {
        match self {
            AnyTable::Kvl => Kvl.count(),
            AnyTable::KvlUpdate => KvlUpdate.count(),
            AnyTable::Im => Im.count(),
            AnyTable::RangeKey => RangeKey.count(),
            AnyTable::Read(table) => table.count(),
        }
    }

    fn ok(&self, requested: Mode, held: Mode) -> bool {
        match self {
            AnyTable::Kvl => Kvl.ok(requested, held),
            AnyTable::KvlUpdate => KvlUpdate.ok(requested, held),
            AnyTable::Im => Im.ok(requested, held),
            AnyTable::RangeKey => RangeKey.ok(requested, held),
            AnyTable::Read(table) => table.ok(requested, held),
        }
    }

    fn row(&self, requested: Mode) -> u16 {
        match self {
            AnyTable::Kvl => Kvl.row(requested),
            AnyTable::KvlUpdate => KvlUpdate.row(requested),
            AnyTable::Im => Im.row(requested),
            AnyTable::RangeKey => RangeKey.row(requested),
            AnyTable::Read(table) => table.row(requested),
        }
    }

    fn convert(&self, held: Mode, requested: Mode) -> Mode {
        match self {
            AnyTable::Kvl => Kvl.convert(held, requested),
            AnyTable::KvlUpdate => KvlUpdate.convert(held, requested),
            AnyTable::Im => Im.convert(held, requested),
            AnyTable::RangeKey => RangeKey.convert(held, requested),
            AnyTable::Read(table) => table.convert(held, requested),
        }
    }

    fn name(&self, mode: Mode) -> &str {
        match self {
            AnyTable::Kvl => Kvl.name(mode),
            AnyTable::KvlUpdate => KvlUpdate.name(mode),
            AnyTable::Im => Im.name(mode),
            AnyTable::RangeKey => RangeKey.name(mode),
            AnyTable::Read(table) => table.name(mode),
        }
    }

    fn ask(&self, row: Row, side: Side, own_next: Mode) -> Option<(Mode, Span)> {
        match self {
            AnyTable::Kvl => Kvl.ask(row, side, own_next),
            AnyTable::KvlUpdate => KvlUpdate.ask(row, side, own_next),
            AnyTable::Im => Im.ask(row, side, own_next),
            AnyTable::RangeKey => RangeKey.ask(row, side, own_next),
            AnyTable::Read(table) => table.ask(row, side, own_next),
        }
    }

    fn updates(&self) -> bool {
        match self {
            AnyTable::Kvl => Kvl.updates(),
            AnyTable::KvlUpdate => KvlUpdate.updates(),
            AnyTable::Im => Im.updates(),
            AnyTable::RangeKey => RangeKey.updates(),
            AnyTable::Read(table) => table.updates(),
        }
    }

    ghost lawful = { λ t. lawful_of t };

    ghost named = { λ t. named_of t };
}

/// The table that a word names, or how the program ends: the word is that of no bundled table, and its file can't be read, or
/// its bytes are no table, and the first of their faults is told.
pub fn table_at<F: Files>(alloc: Global, word: &str, files: &F) -> Result<AnyTable, Ending>
    ensures table { IfOk result (NamesTable (F.may_give files.now) word.now) }
    ensures bundled { IsTrue (is_bundled word.now) → IsOk result }
    ensures fault { IfErr result (λ e. MemoryOrTold e (TellsNoTable (F.may_give files.now) word.now)) }
    ensures other { IfErr result (λ e. is_output e ≡ false) }
{
    match word {
        "@kvl" => Ok(AnyTable::Kvl),
        "@kvl-update" => Ok(AnyTable::KvlUpdate),
        "@im" => Ok(AnyTable::Im),
        "@range-key" => Ok(AnyTable::RangeKey),
        _ => read_table(alloc, word, files),
    }
}

/// The table in the file that a word names, or how the program ends.
fn read_table<F: Files>(alloc: Global, word: &str, files: &F) -> Result<AnyTable, Ending>
    ensures table { IfOk result (NamesTable (F.may_give files.now) word.now) }
    ensures fault { IfErr result (λ e. MemoryOrTold e (TellsNoTable (F.may_give files.now) word.now)) }
    ensures other { IfErr result (λ e. is_output e ≡ false) }
{
    let bytes = whole(alloc, word, files, TABLE_BYTES)?;
    match kr_table::read(alloc, bytes.as_slice()) {
        Ok(table) => Ok(AnyTable::Read(table)),
        Err(fault) => Err(at_table_fault(alloc, word, fault)),
    }
}

/// How a program ends at a fault of the table that a word names.
pub fn at_table_fault(alloc: Global, word: &str, fault: TableFault) -> Ending
    ensures line { MemoryOrTold result (λ line. line ≡ told_line word.now (table_fault_text fault)) }
    ensures memory { fault ≡ table_fault.Memory → result ≡ ending.Memory }
    ensures other { is_output result ≡ false }
{
    match fault {
        TableFault::Memory => Ending::Memory,
        fault => match table_fault_text(alloc, &fault) {
            Ok(what) => Ending::told(alloc, word, what.as_str()),
            Err(_) => Ending::Memory,
        },
    }
}
