//! What every locking protocol answers.
ghost use Rattle.std.specs.Prelude.{◌≡◌, ℕ, ◌≤◌, List};
ghost use Rattle.kr_model.specs.Protocol.{Protocol, IsLawful};
ghost use Rattle.kr_model.specs.Covers.{IsCovered};
ghost use Rattle.kr_model.specs.Safe.{IsSafe};
ghost use Rattle.kr_model.specs.ModeNames.{name_of, AreModeNames};
ghost use Rattle.kr_protocol.specs.Rows.{IsRow};

use kr_model::{Mode, Row, Side, Span};

/// A locking protocol: its modes, which of them are compatible, how they combine, and
/// what each access to the index requests. No call takes memory or fails.
pub trait Protocol: Drop {
    /// Its tables.
    ghost table: { Self → Protocol };

    /// The names of its modes, in the order of the modes.
    ghost names: { Self → List (List ℕ) };

    /// How many modes there are, at most 15: the greatest mode.
    fn count(&self) -> Mode
        ensures { result ≡ (table self.now).count };

    /// Whether a request in one mode is compatible with a lock that another transaction holds. Where
    /// nothing is held every mode is compatible, and requesting none is compatible with every mode.
    fn ok(&self, requested: Mode, held: Mode) -> bool
        requires requested_is_mode { requested ≤ (table self.now).count }
        requires held_is_mode { held ≤ (table self.now).count }
        ensures { result ≡ (table self.now).ok requested held };

    /// The modes that a request in one mode conflicts with, each as a bit: bit `h` is set
    /// exactly where `h` is a mode and `ok` of the request and `h` is false.
    fn row(&self, requested: Mode) -> u16
        requires { requested ≤ (table self.now).count }
        ensures { IsRow (table self.now) requested result };

    /// The mode of one who holds a mode and requests another. Who holds no lock gets the mode
    /// requested, and who requests none keeps the one held.
    fn convert(&self, held: Mode, requested: Mode) -> Mode
        requires held_is_mode { held ≤ (table self.now).count }
        requires requested_is_mode { requested ≤ (table self.now).count }
        ensures { result ≡ (table self.now).convert held requested };

    /// The name of a mode, and `none` for none.
    fn name(&self, mode: Mode) -> &str
        requires { mode ≤ (table self.now).count }
        ensures { result.now ≡ name_of (names self.now) mode };

    /// The mode that an access requests at one side, and how long it is held, where the requester
    /// holds `own_next` on the next name. At `None` nothing is asked. Only the rows of inserts and
    /// deletes go by `own_next`.
    fn ask(&self, row: Row, side: Side, own_next: Mode) -> Option<(Mode, Span)>
        requires { own_next ≤ (table self.now).count }
        ensures { result ≡ (table self.now).ask row side own_next };

    /// Whether it offers updates. Where it doesn't, an update requests nothing and is refused.
    fn updates(&self) -> bool
        ensures { result ≡ (table self.now).updates };

    /// No lock adds nothing and conflicts with nothing, and what is converted or requested is a mode.
    ghost lawful: { (p : Self) → IsLawful (table p) };

    /// Each mode has a name of its own.
    ghost named: { (p : Self) → AreModeNames (names p) (table p).count };
}

/// A protocol of which every case holds: what is read, inserted, updated or deleted is covered
/// until its transaction ends, and neither a conversion nor the split of a gap loses a cover.
pub trait Covered: Protocol {
    /// No case of its tables fails.
    ghost covered: { (p : Self) → IsCovered (Self.table p) };
}

/// A protocol under which every run is serializable in commit order: of all that another transaction can come to request
/// beside a lock, the lock blocks what it has to keep out. Every covered protocol is safe, and some are safe that fail cases.
pub trait SafeProtocol: Protocol {
    /// Its tables are safe.
    ghost safe: { (p : Self) → IsSafe (Self.table p) };
}

impl<P: Protocol> Protocol for &P {
    ghost table = { λ p. P.table p.now };

    ghost names = { λ p. P.names p.now };

    fn count(&self) -> Mode {
        P::count(*self)
    }

    fn ok(&self, requested: Mode, held: Mode) -> bool {
        P::ok(*self, requested, held)
    }

    fn row(&self, requested: Mode) -> u16 {
        P::row(*self, requested)
    }

    fn convert(&self, held: Mode, requested: Mode) -> Mode {
        P::convert(*self, held, requested)
    }

    fn name(&self, mode: Mode) -> &str {
        P::name(*self, mode)
    }

    fn ask(&self, row: Row, side: Side, own_next: Mode) -> Option<(Mode, Span)> {
        P::ask(*self, row, side, own_next)
    }

    fn updates(&self) -> bool {
        P::updates(*self)
    }

    ghost lawful = { λ p. P.lawful p.now };

    ghost named = { λ p. P.named p.now };
}

impl<P: Covered> Covered for &P {
    ghost covered = { λ p. P.covered p.now };
}

impl<P: SafeProtocol> SafeProtocol for &P {
    ghost safe = { λ p. P.safe p.now };
}
