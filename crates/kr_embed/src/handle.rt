//! What a program in another language holds of a session.
ghost use Rattle.std.specs.Prelude.{◌≡◌, ◌↔◌, Option, None, Some, map, IsTrue, is_some};
ghost use Rattle.std.specs.Option.{MatchOption};
ghost use Rattle.kr_model.specs.Step.{blockers_in};
ghost use Rattle.kr_embed.specs.Handles.{IsStepped, IsPurged, IsRead, IsJudged};
ghost use Rattle.kr_embed.specs.Held.{held, session_coded};
ghost use Rattle.kr_embed.specs.Numbers.{pair_of, lock_of};
ghost use Rattle.kr_embed.specs.Session.{Seen, rows_in};

use crate::numbers::{Lock, Pair, PlainReply, plain};
use crate::parts::Parts;
use crate::session::Session;
use kr_model::{Memory, Op, Txn};
use std::alloc::Global;
use std::marker::Model;
use std::mem;
use std::ptr::null_mut;

/// Owns a session; or nothing where it is closed, and then its pointer is null. In C it is a struct of one pointer.
#[repr(C)]
#[derive(Drop)]
pub struct Handle {
    at: *mut u8,
    alloc: Global,
    pub ghost value: { Option Seen } by { session_coded },
}

impl Model for Handle {
    ghost also_owns = { λ h. held h.alloc h.value h.at };
}

impl Handle {
    fn closed(alloc: Global) -> Handle
        ensures { result.value ≡ None }
    {
        Handle {
            at: null_mut(),
            alloc,
        }
    }

    fn of_parts(parts: Parts<Session, Global>) -> Handle
        ensures { result.value ≡ Some parts.value }
    {
        let Parts { ptr, alloc } = parts;
        Handle {
            at: ptr as *mut u8,
            alloc,
        }
    }

    fn into_parts(self) -> Option<Parts<Session, Global>>
        ensures { MatchOption result (self.value ≡ None) (λ p. self.value ≡ Some p.value) }
    {
        let Handle { at, alloc } = self;
        if at.is_null() {
            None
        } else {
            let ptr = at as *mut Session;
            Some(Parts { ptr, alloc })
        }
    }

    /// Takes the session out, if there is one. The handle is then closed.
    pub fn take(&mut self, alloc: Global) -> Option<Box<Session>>
        ensures session { MatchOption result (self.old.value ≡ None) (λ b. self.old.value ≡ Some b.value) }
        ensures closed { self.new.value ≡ None }
    {
        match mem::replace(self, Handle::closed(alloc)).into_parts() {
            None => None,
            Some(parts) => Some(parts.into_box()),
        }
    }

    /// Has the handle own this session. It was closed.
    pub fn put(&mut self, session: Box<Session>)
        requires { self.old.value ≡ None }
        ensures { self.new.value ≡ Some session.value }
    {
        *self = Handle::of_parts(Parts::of(session));
    }

    /// Attempts a step, and tells its reply; or `None` where the handle is closed, and then nothing changes.
    pub fn step(&mut self, alloc: Global, txn: Txn, op: Op) -> Option<PlainReply>
        ensures { IsStepped self.old.value txn op result self.new.value }
    {
        let mut session = self.take(alloc)?;
        session.step(txn, op);
        let reply = plain(session.last());
        self.put(session);
        Some(reply)
    }

    /// Purges a ghost, and tells whether it did; or `None` where the handle is closed, and then nothing changes.
    pub fn purge(&mut self, alloc: Global, key: u64) -> Option<Result<bool, Memory>>
        ensures { IsPurged self.old.value key result self.new.value }
    {
        let mut session = self.take(alloc)?;
        let told = session.purge(key);
        self.put(session);
        Some(told)
    }

    /// The transactions that block the last step, rising; or `None` where the handle is closed.
    pub fn blockers(&mut self, alloc: Global) -> Option<Result<Vec<Txn>, Memory>>
        ensures read { IsRead self.old.value (λ s. blockers_in s.last) result }
        ensures same { self.new.value ≡ self.old.value }
    {
        let session = self.take(alloc)?;
        let list = session.blockers(alloc);
        self.put(session);
        Some(list)
    }

    /// The pairs that the last step's scan ended with, keys rising; or `None` where the handle is closed.
    pub fn rows(&mut self, alloc: Global) -> Option<Result<Vec<Pair>, Memory>>
        ensures read { IsRead self.old.value (λ s. map pair_of (rows_in s.last)) result }
        ensures same { self.new.value ≡ self.old.value }
    {
        let session = self.take(alloc)?;
        let list = session.rows(alloc);
        self.put(session);
        Some(list)
    }

    /// The pairs of the index, keys rising; or `None` where the handle is closed.
    pub fn index(&mut self, alloc: Global) -> Option<Result<Vec<Pair>, Memory>>
        ensures read { IsRead self.old.value (λ s. map pair_of s.state.state.map) result }
        ensures same { self.new.value ≡ self.old.value }
    {
        let session = self.take(alloc)?;
        let list = session.index(alloc);
        self.put(session);
        Some(list)
    }

    /// The ghosts, rising; or `None` where the handle is closed.
    pub fn ghosts(&mut self, alloc: Global) -> Option<Result<Vec<u64>, Memory>>
        ensures read { IsRead self.old.value (λ s. s.state.ghosts) result }
        ensures same { self.new.value ≡ self.old.value }
    {
        let session = self.take(alloc)?;
        let list = session.ghosts(alloc);
        self.put(session);
        Some(list)
    }

    /// The locks that are held, by name, infinity last, and then by transaction; or `None` where the handle is closed.
    pub fn locks(&mut self, alloc: Global) -> Option<Result<Vec<Lock>, Memory>>
        ensures read { IsRead self.old.value (λ s. map lock_of s.state.state.locks) result }
        ensures same { self.new.value ≡ self.old.value }
    {
        let session = self.take(alloc)?;
        let list = session.locks(alloc);
        self.put(session);
        Some(list)
    }

    /// The active transactions, rising; or `None` where the handle is closed.
    pub fn unfinished(&mut self, alloc: Global) -> Option<Result<Vec<Txn>, Memory>>
        ensures read { IsRead self.old.value (λ s. map (λ a. a.0) s.state.state.active) result }
        ensures same { self.new.value ≡ self.old.value }
    {
        let session = self.take(alloc)?;
        let list = session.unfinished();
        self.put(session);
        Some(list)
    }

    /// Whether the transactions that have committed so far are serializable in commit order, and the report of that verdict; or
    /// `None` where the handle is closed.
    pub fn verdict(&mut self, alloc: Global) -> Option<Result<(bool, String), Memory>>
        ensures judged { IsJudged self.old.value result }
        ensures same { self.new.value ≡ self.old.value }
    {
        let session = self.take(alloc)?;
        let told = session.verdict(alloc);
        self.put(session);
        Some(told)
    }

    /// Closes the handle and frees its session. Answers whether there was one.
    pub fn close(&mut self, alloc: Global) -> bool
        ensures closed { self.new.value ≡ None }
        ensures was_open { IsTrue result ↔ IsTrue (is_some self.old.value) }
    {
        self.take(alloc).is_some()
    }
}
