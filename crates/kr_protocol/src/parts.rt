//! The two parts of a range-key mode.
ghost use Rattle.std.specs.Prelude.{◌≡◌};
ghost use Rattle.kr_model.specs.RangeKey.{parts_ok, part_after};
ghost use Rattle.kr_protocol.specs.Parts.{range_number, key_number};

/// What a mode locks of the gap below a name: nothing, for a read, for inserts, or all of it.
#[derive(Clone, Copy, Debug, PartialEq, Eq)]
pub(crate) enum RangePart {
    N,
    S,
    I,
    X,
}

/// What a mode locks of the key of a name: nothing, for a read, or all of it.
#[derive(Clone, Copy, Debug, PartialEq, Eq)]
pub(crate) enum KeyPart {
    N,
    S,
    X,
}

impl RangePart {
    /// Whether a request with this part is compatible with a lock with that part.
    pub(crate) fn stands_beside(self, held: RangePart) -> bool
        ensures { result ≡ parts_ok (range_number self) (range_number held) }
    {
        match (self, held) {
            (RangePart::N, _) | (_, RangePart::N) => true,
            (RangePart::S, RangePart::S) | (RangePart::I, RangePart::I) => true,
            _ => false,
        }
    }

    /// The part of one who holds this part and requests that one.
    pub(crate) fn joined_with(self, requested: RangePart) -> RangePart
        ensures { range_number result ≡ part_after (range_number self) (range_number requested) }
    {
        match (self, requested) {
            (RangePart::N, part) | (part, RangePart::N) => part,
            (RangePart::S, RangePart::S) => RangePart::S,
            (RangePart::I, RangePart::I) => RangePart::I,
            _ => RangePart::X,
        }
    }
}

impl KeyPart {
    /// Whether a request with this part is compatible with a lock with that part.
    pub(crate) fn stands_beside(self, held: KeyPart) -> bool
        ensures { result ≡ parts_ok (key_number self) (key_number held) }
    {
        match (self, held) {
            (KeyPart::N, _) | (_, KeyPart::N) | (KeyPart::S, KeyPart::S) => true,
            _ => false,
        }
    }

    /// The part of one who holds this part and requests that one.
    pub(crate) fn joined_with(self, requested: KeyPart) -> KeyPart
        ensures { key_number result ≡ part_after (key_number self) (key_number requested) }
    {
        match (self, requested) {
            (KeyPart::N, part) | (part, KeyPart::N) => part,
            (KeyPart::S, KeyPart::S) => KeyPart::S,
            _ => KeyPart::X,
        }
    }
}
