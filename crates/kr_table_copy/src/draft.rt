//! The text of a protocol as a table. No contract says what it is: what is read from it is compared with the protocol.
ghost use Rattle.std.specs.Prelude.{◌≤◌};

use kr_model::{Memory, Mode, Row, Side, Span, row_word, side_word, span_word};
use kr_protocol::{Protocol, asked, name_or_empty};
use kr_script::quoted;
use std::alloc::Global;

/// A text that grows, and the quoted names of modes, behind that of no lock.
#[derive(Drop)]
pub(crate) struct Draft {
    names: Vec<String>,
    pub(crate) out: String,
}

impl Draft {
    /// An empty text.
    pub(crate) fn new<P: Protocol>(alloc: Global, protocol: &P) -> Result<Draft, Memory> {
        let mut names = Vec::new(alloc);
        for mode in 0..protocol.count() + 1 {
            names.push(quoted(alloc, name_or_empty(protocol, mode))?)?;
        }
        Ok(Draft {
            names,
            out: String::new(alloc),
        })
    }

    /// Puts a text behind.
    pub(crate) fn text(&mut self, text: &str) -> Result<(), Memory> {
        self.out.push_str(text)
    }

    /// Puts the quoted name of a mode behind.
    pub(crate) fn name(&mut self, mode: Mode) -> Result<(), Memory> {
        if let Some(name) = self.names.get(usize::from(mode)) {
            self.out.push_str(name.as_str())?;
        }
        Ok(())
    }

    /// The format and the names of the modes.
    fn head<P: Protocol>(&mut self, protocol: &P) -> Result<(), Memory> {
        self.text(if protocol.updates() {
            "format = 2\n"
        } else {
            "format = 1\n"
        })?;
        self.mode_names(protocol)
    }

    /// The names of the modes.
    pub(crate) fn mode_names<P: Protocol>(&mut self, protocol: &P) -> Result<(), Memory> {
        self.text("modes = [")?;
        for mode in 1..protocol.count() + 1 {
            self.name(mode)?;
            self.text(", ")?;
        }
        self.text("]\n")
    }

    /// The modes that a mode is compatible with.
    fn compatible<P: Protocol>(&mut self, protocol: &P, requested: Mode) -> Result<(), Memory>
        requires { requested ≤ (P.table protocol.now).count }
    {
        self.name(requested)?;
        self.text(" = [")?;
        for held in 1..protocol.count() + 1 {
            if protocol.ok(requested, held) {
                self.name(held)?;
                self.text(", ")?;
            }
        }
        self.text("]\n")
    }

    /// What a held mode converts to.
    fn conversions<P: Protocol>(&mut self, protocol: &P, held: Mode) -> Result<(), Memory>
        requires { held ≤ (P.table protocol.now).count }
    {
        self.name(held)?;
        self.text(" = { ")?;
        for requested in 1..protocol.count() + 1 {
            if requested > 1 {
                self.text(", ")?;
            }
            self.name(requested)?;
            self.text(" = ")?;
            self.name(protocol.convert(held, requested))?;
        }
        self.text(" }\n")
    }

    /// All pairs, and all conversions.
    pub(crate) fn modes<P: Protocol>(&mut self, protocol: &P) -> Result<(), Memory> {
        self.text("\n[compatible]\n")?;
        for requested in 1..protocol.count() + 1 {
            self.compatible(protocol, requested)?;
        }
        self.text("\n[convert]\n")?;
        for held in 1..protocol.count() + 1 {
            self.conversions(protocol, held)?;
        }
        Ok(())
    }

    /// A request, with this own mode if one is given.
    fn clause(&mut self, own: Option<Mode>, request: (Mode, Span)) -> Result<(), Memory> {
        let (mode, span) = request;
        self.text("{ ")?;
        if let Some(own) = own {
            self.text("own = [")?;
            self.name(own)?;
            self.text("], ")?;
        }
        self.text("mode = ")?;
        self.name(mode)?;
        self.text(", span = \"")?;
        self.text(span_word(span))?;
        self.text("\" }, ")
    }

    /// A request at a side, if there is one, whatever the own mode.
    pub(crate) fn request(
        &mut self,
        side: Side,
        request: Option<(Mode, Span)>,
    ) -> Result<(), Memory> {
        self.text(side_word(side))?;
        self.text(" = [")?;
        if let Some(request) = request {
            self.clause(None, request)?;
        }
        self.text("]\n")
    }

    /// The requests of a row at a side, for each own mode on the next name.
    fn requests<P: Protocol>(&mut self, protocol: &P, row: Row, side: Side) -> Result<(), Memory> {
        self.text(side_word(side))?;
        self.text(" = [")?;
        for own in 0..protocol.count() + 1 {
            if let Some(request) = asked(protocol, row, side, own) {
                self.clause(Some(own), request)?;
            }
        }
        self.text("]\n")
    }

    /// The head of a row.
    pub(crate) fn row(&mut self, word: &str) -> Result<(), Memory> {
        self.text("\n[rules.")?;
        self.text(word)?;
        self.text("]\n")
    }

    /// A row that requests a lock at one side, whatever the own mode.
    pub(crate) fn one_side<P: Protocol>(
        &mut self,
        protocol: &P,
        row: Row,
        side: Side,
    ) -> Result<(), Memory> {
        self.row(row_word(row))?;
        self.request(side, asked(protocol, row, side, 0))
    }

    /// A row that requests locks at both sides.
    pub(crate) fn both_sides<P: Protocol>(&mut self, protocol: &P, row: Row) -> Result<(), Memory> {
        self.row(row_word(row))?;
        self.requests(protocol, row, Side::Next)?;
        self.requests(protocol, row, Side::Current)
    }

    /// The rows of fetches and scans.
    pub(crate) fn reads<P: Protocol>(&mut self, protocol: &P) -> Result<(), Memory> {
        self.one_side(protocol, Row::FetchHit, Side::Current)?;
        self.one_side(protocol, Row::FetchMiss, Side::Next)?;
        self.one_side(protocol, Row::ScanKey, Side::Current)?;
        self.one_side(protocol, Row::ScanStop, Side::Next)
    }

    /// The rows of writes.
    fn writes<P: Protocol>(&mut self, protocol: &P) -> Result<(), Memory> {
        self.both_sides(protocol, Row::Insert)?;
        self.both_sides(protocol, Row::Delete)?;
        if protocol.updates() {
            self.one_side(protocol, Row::Update, Side::Current)?;
        }
        Ok(())
    }
}

/// The text of a protocol as a table of format 1 or 2, in TOML. The error is memory alone.
pub(crate) fn draft_text<P: Protocol>(alloc: Global, protocol: &P) -> Result<String, Memory> {
    let mut draft = Draft::new(alloc, protocol)?;
    draft.head(protocol)?;
    draft.modes(protocol)?;
    draft.reads(protocol)?;
    draft.writes(protocol)?;
    Ok(draft.out)
}
