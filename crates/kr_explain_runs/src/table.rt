//! What a table says of modes.
ghost use Rattle.std.specs.Prelude.{◌≡◌, ◌≤◌};

use crate::request::Request;
use kr_decide::{after, is_blocked};
use kr_model::{Cover, LockState, Mode, Row, Side, Span};
use kr_protocol::Protocol;

/// A table, asked about any numbers: one past the table's modes is taken for 0, no lock.
#[derive(Drop)]
pub(crate) struct Table<'a, P: Protocol> {
    pub protocol: &'a P,
}

impl<P: Protocol> Table<'_, P> {
    /// The mode, or 0 where it is past the table's modes.
    fn known(&self, mode: Mode) -> Mode
        ensures known { result ≤ (P.table self.now.protocol.now).count }
        ensures same { mode ≤ (P.table self.now.protocol.now).count → result ≡ mode }
    {
        if mode <= self.protocol.count() {
            mode
        } else {
            0
        }
    }

    /// What a row requests.
    pub(crate) fn ask(&self, row: Row, side: Side, own_next: Mode) -> Option<(Mode, Span)>
        ensures { own_next ≤ (P.table self.now.protocol.now).count → result ≡ (P.table self.now.protocol.now).ask row side own_next }
    {
        self.protocol.ask(row, side, self.known(own_next))
    }

    /// Whether a request is compatible with a lock.
    fn stands_beside(&self, requested: Mode, held: Mode) -> bool {
        self.protocol.ok(self.known(requested), self.known(held))
    }

    /// The mode of one who holds a mode and requests another.
    fn convert(&self, held: Mode, requested: Mode) -> Mode {
        self.protocol
            .convert(self.known(held), self.known(requested))
    }

    /// The mode on a name of one who held `own`, after what a row requests there was granted.
    pub(crate) fn after(&self, own: Mode, row: Row, side: Side, own_next: Mode) -> Mode {
        match self.ask(row, side, own_next) {
            Some((mode, Span::Commit)) => self.convert(own, mode),
            _ => own,
        }
    }

    /// Whether one without modes may be granted what a row requests on A and on Y beside these modes.
    pub(crate) fn lets_in(&self, row: Row, on_a: Mode, on_y: Mode) -> bool {
        self.is_open(row, Side::Current, 0, 0, on_a) && self.is_open(row, Side::Next, 0, 0, on_y)
    }

    /// Whether a lock in mode `held` lets a place through.
    pub(crate) fn is_open(
        &self,
        row: Row,
        side: Side,
        own: Mode,
        own_next: Mode,
        held: Mode,
    ) -> bool {
        match self.ask(row, side, own_next) {
            Some((mode, _)) => self.stands_beside(self.convert(own, mode), held),
            None => true,
        }
    }

    /// The lock state, its mode 0 where it is past the table's modes.
    fn known_state(&self, state: LockState) -> LockState
        ensures { result.mode ≤ (P.table self.now.protocol.now).count }
    {
        LockState {
            mode: self.known(state.mode),
            ..state
        }
    }

    /// What one has on a name after its request there is granted, where it has `next` on the next name.
    pub(crate) fn moved(&self, request: Request, own: LockState, next: LockState) -> LockState {
        let (row, side) = request;
        let (own, next) = (self.known_state(own), self.known_state(next));
        after(self.protocol, row, side, own, next)
    }

    /// Whether another's lock state on the name grants the request.
    pub(crate) fn lets_in_at(
        &self,
        request: Request,
        own: LockState,
        next: LockState,
        other: LockState,
    ) -> bool {
        let (row, side) = request;
        let (own, next) = (self.known_state(own), self.known_state(next));
        !is_blocked(self.protocol, row, side, own, next, self.known_state(other))
    }

    /// Whether a row is offered: that of updates only where they are.
    pub(crate) fn has_row(&self, row: Row) -> bool {
        self.protocol.updates() || row != Row::Update
    }

    /// Whether a cover has to conflict with what a row requests: an update only where updates are offered.
    pub(crate) fn offers(&self, cover: Cover, row: Row) -> bool {
        self.protocol.updates() || cover != Cover::UpdatedKey && row != Row::Update
    }
}
