//! What an operation comes to for a machine: an end, a change undone, or something that requests locks.
ghost use Rattle.std.specs.Prelude.{◌≡◌, true};
ghost use Rattle.kr_model.specs.Run.{is_granted};
ghost use Rattle.kr_touch.specs.Parts.{ended_by, op_of_key, op_of_touch, op_of, end_reply};

use kr_model::{Op, Reply};

/// How a transaction ends.
#[derive(Clone, Copy)]
pub enum Ending {
    /// Its changes stand.
    Commit,
    /// Its changes are undone.
    Abort,
}

impl Ending {
    /// The operation that ends a transaction so.
    pub fn op(self) -> Op
        ensures { result ≡ ended_by self }
    {
        match self {
            Ending::Commit => Op::Commit,
            Ending::Abort => Op::Abort,
        }
    }

    /// What that operation answers.
    pub fn reply(self) -> Reply
        ensures reply { result ≡ end_reply (ended_by self) }
        ensures granted { is_granted result ≡ true }
    {
        match self {
            Ending::Commit => Reply::Committed,
            Ending::Abort => Reply::Aborted,
        }
    }
}

/// What reads or changes one key: the key, and the value that it gets.
#[derive(Clone, Copy)]
pub enum KeyTouch {
    Fetch(u64),
    Insert(u64, u64),
    Delete(u64),
    Update(u64, u64),
}

impl KeyTouch {
    /// The operation that does so.
    pub fn op(self) -> Op
        ensures { result ≡ op_of_key self }
    {
        match self {
            KeyTouch::Fetch(key) => Op::Fetch(key),
            KeyTouch::Insert(key, value) => Op::Insert(key, value),
            KeyTouch::Delete(key) => Op::Delete(key),
            KeyTouch::Update(key, value) => Op::Update(key, value),
        }
    }
}

/// What requests locks.
#[derive(Clone, Copy)]
pub enum Touch {
    /// One key is read or changed.
    Key(KeyTouch),
    /// A scan of the keys from the first to the second begins.
    Scan(u64, u64),
    /// The scan in progress goes on.
    Go,
}

impl Touch {
    /// The operation that does so.
    pub fn op(self) -> Op
        ensures { result ≡ op_of_touch self }
    {
        match self {
            Touch::Key(touch) => touch.op(),
            Touch::Scan(lo, hi) => Op::Scan(lo, hi),
            Touch::Go => Op::Go,
        }
    }
}

/// What an operation comes to.
#[derive(Clone, Copy)]
pub enum Part {
    /// Its transaction ends.
    End(Ending),
    /// The newest change is undone.
    Back,
    /// It requests locks.
    Touch(Touch),
}

impl Part {
    /// What this operation comes to.
    pub fn of(op: Op) -> Part
        ensures { op_of result ≡ op }
    {
        match op {
            Op::Commit => Part::End(Ending::Commit),
            Op::Abort => Part::End(Ending::Abort),
            Op::Back => Part::Back,
            Op::Fetch(key) => Part::Touch(Touch::Key(KeyTouch::Fetch(key))),
            Op::Insert(key, value) => Part::Touch(Touch::Key(KeyTouch::Insert(key, value))),
            Op::Delete(key) => Part::Touch(Touch::Key(KeyTouch::Delete(key))),
            Op::Update(key, value) => Part::Touch(Touch::Key(KeyTouch::Update(key, value))),
            Op::Scan(lo, hi) => Part::Touch(Touch::Scan(lo, hi)),
            Op::Go => Part::Touch(Touch::Go),
        }
    }
}
