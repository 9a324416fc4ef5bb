//! The two parts of a mode of locks on records and on gaps.
ghost use Rattle.std.specs.Prelude.{◌≡◌, ◌&&◌, ◌||◌, not};
ghost use Rattle.kr_ghost_protocol.specs.Parts.{has_gap, has_insert, record_number, records_ok, record_after};

/// What a mode locks of the gap below a name: nothing, the gap against inserts, an insert into it, or both.
#[derive(Clone, Copy, Debug, PartialEq, Eq)]
pub(crate) enum GapPart {
    N,
    G,
    I,
    GI,
}

/// What a mode locks of the key of a name: nothing, for a read, or all of it.
#[derive(Clone, Copy, Debug, PartialEq, Eq)]
pub(crate) enum RecordPart {
    N,
    S,
    X,
}

impl GapPart {
    /// Whether a request with this part is compatible with a lock with that part: an insert isn't, with a lock on the gap.
    pub(crate) fn stands_beside(self, held: GapPart) -> bool
        ensures { result ≡ not (has_insert self && has_gap held) }
    {
        match (self, held) {
            (GapPart::I | GapPart::GI, GapPart::G | GapPart::GI) => false,
            _ => true,
        }
    }

    /// The part of one who holds this part and requests that one.
    pub(crate) fn joined_with(self, requested: GapPart) -> GapPart
        ensures gap { has_gap result ≡ (has_gap self || has_gap requested) }
        ensures insert { has_insert result ≡ (has_insert self || has_insert requested) }
    {
        match (self, requested) {
            (GapPart::N, part) | (part, GapPart::N) => part,
            (GapPart::G, GapPart::G) => GapPart::G,
            (GapPart::I, GapPart::I) => GapPart::I,
            _ => GapPart::GI,
        }
    }
}

impl RecordPart {
    /// Whether a request with this part is compatible with a lock with that part.
    pub(crate) fn stands_beside(self, held: RecordPart) -> bool
        ensures { result ≡ records_ok (record_number self) (record_number held) }
    {
        match (self, held) {
            (RecordPart::N, _) | (_, RecordPart::N) | (RecordPart::S, RecordPart::S) => true,
            _ => false,
        }
    }

    /// The part of one who holds this part and requests that one.
    pub(crate) fn joined_with(self, requested: RecordPart) -> RecordPart
        ensures { record_number result ≡ record_after (record_number self) (record_number requested) }
    {
        match (self, requested) {
            (RecordPart::N, part) | (part, RecordPart::N) => part,
            (RecordPart::S, RecordPart::S) => RecordPart::S,
            _ => RecordPart::X,
        }
    }
}
