//! Calls on a session.
ghost use Rattle.std.specs.Prelude.{◌≡◌, ◌<◌, Bool, ℕ, None, Some, Option, Result, String, Vec, map, if◌then◌else◌, is_some};
ghost use Rattle.std.specs.Global.{Global};
ghost use Rattle.std.specs.declared.alloc.AllocError.{AllocError};
ghost use Rattle.kr_model.specs.Step.{blockers_in};
ghost use Rattle.kr_embed.specs.Handles.{IsRead, IsJudged};
ghost use Rattle.kr_embed.specs.Inputs.{Explains};
ghost use Rattle.kr_embed.specs.Numbers.{pair_of, lock_of};
ghost use Rattle.kr_embed.specs.Session.{Seen, IsOpened, rows_in};
ghost use Rattle.kr_embed.specs.declared.faults.Fault.{Fault};
ghost use Rattle.kr_c.specs.Codes.{ok, closed, is_open, misuse, fault_code};
ghost use Rattle.kr_c.specs.Out.{Tells, IsListed, IsJudgement, fault_line};
ghost use Rattle.kr_c.specs.Sessions.{Steps, Purges, reply_code};

use crate::codes::{CLOSED, IS_OPEN, MEMORY, MISUSE, OK};
use crate::out::{fault_code, judgement, list, purge_code};
use kr_embed::{Handle, Lock, Pair, PlainReply, open_bytes, operation};
use std::alloc::Global;

/// Opens a session under the table that bytes are, on the opening map of the script that bytes are, none of whose steps is
/// attempted.
///
/// The code is 0 where it is opened; 6 where it was open; else as of a run, with the line of the fault. Where the code isn't 0, the
/// session is as it was.
#[unsafe(no_mangle)]
pub extern "C" fn krr_open(
    alloc: Global,
    session: &mut Handle,
    table: &[u8],
    script: &[u8],
    out: &mut [u8],
    length: &mut usize,
) -> u32
    ensures opened { result ≡ ok → (s : Seen) × ((session.new.value ≡ Some s) × IsOpened table.now script.now s) }
    ensures kept { (result ≡ ok → ⊥) → session.new.value ≡ session.old.value }
    ensures was_open { (s : Seen) → session.old.value ≡ Some s → result ≡ is_open }
    ensures fault { session.old.value ≡ None → (result ≡ ok → ⊥) →
        (f : Fault) × (Explains table.now script.now f × ((result ≡ fault_code f) × Tells out.old out.new length.new (fault_line f))) }
{
    *length = 0;
    if let Some(open) = session.take(alloc) {
        session.put(open);
        return IS_OPEN;
    }
    match open_bytes(alloc, table, script) {
        Ok(opened) => match Box::new(alloc, opened) {
            Ok(opened) => {
                session.put(opened);
                OK
            }
            Err(_) => MEMORY,
        },
        Err(fault) => fault_code(fault, out, length),
    }
}

/// The code of a reply: a refusal for memory has a code of its own.
fn reply_code(reply: PlainReply) -> u32
    ensures { result ≡ reply_code reply }
{
    if reply.refusal == 6 { MEMORY } else { OK }
}

/// Attempts a step of a transaction: an operation of this kind, from 0 to 8, with its operands.
///
/// The code is 0 and the reply is told; 4 where it is a refusal for memory; 5 where the session is closed, and 7 where there is no
/// such kind, and then nothing changes.
#[unsafe(no_mangle)]
pub extern "C" fn krr_step(
    alloc: Global,
    session: &mut Handle,
    txn: u32,
    kind: u32,
    first: u64,
    second: u64,
    reply: &mut PlainReply,
) -> u32
    ensures step { (result ≡ misuse → ⊥) → Steps session.old.value txn kind first second result reply.old reply.new session.new.value }
    ensures misuse { result ≡ misuse → (8 < kind) × ((session.new.value ≡ session.old.value) × (reply.new ≡ reply.old)) }
{
    let Some(op) = operation(kind, first, second) else {
        return MISUSE;
    };
    match session.step(alloc, txn, op) {
        None => CLOSED,
        Some(told) => {
            *reply = told;
            reply_code(told)
        }
    }
}

/// Purges a ghost, which is no step of a transaction: the last reply stays.
///
/// The code is 0, and the number is 1 where the key was a ghost and is purged, and else 0: always so where deletes leave no
/// ghosts. It is 4 where a growth was refused, and 5 where the session is closed, and then nothing changes.
#[unsafe(no_mangle)]
pub extern "C" fn krr_purge(alloc: Global, session: &mut Handle, key: u64, purged: &mut u32) -> u32
    ensures { Purges session.old.value key result purged.old purged.new session.new.value }
{
    purge_code(session.purge(alloc, key), purged)
}

/// The transactions that block the last step, rising; none where it isn't blocked.
#[unsafe(no_mangle)]
pub extern "C" fn krr_blockers(
    alloc: Global,
    session: &mut Handle,
    out: &mut [u32],
    length: &mut usize,
) -> u32
    ensures list { (told : Option (Result (Vec ℕ Global) AllocError))
        × (IsRead session.old.value (λ s. blockers_in s.last) told × IsListed told result out.old out.new length.new) }
    ensures same { session.new.value ≡ session.old.value }
{
    list(session.blockers(alloc), out, length)
}

/// The pairs that the last step's scan ended with, keys rising; none where it ended none.
#[unsafe(no_mangle)]
pub extern "C" fn krr_rows(
    alloc: Global,
    session: &mut Handle,
    out: &mut [Pair],
    length: &mut usize,
) -> u32
    ensures list { (told : Option (Result (Vec Pair Global) AllocError))
        × (IsRead session.old.value (λ s. map pair_of (rows_in s.last)) told × IsListed told result out.old out.new length.new) }
    ensures same { session.new.value ≡ session.old.value }
{
    list(session.rows(alloc), out, length)
}

/// The pairs of the index, keys rising.
#[unsafe(no_mangle)]
pub extern "C" fn krr_index(
    alloc: Global,
    session: &mut Handle,
    out: &mut [Pair],
    length: &mut usize,
) -> u32
    ensures list { (told : Option (Result (Vec Pair Global) AllocError))
        × (IsRead session.old.value (λ s. map pair_of s.state.state.map) told × IsListed told result out.old out.new length.new) }
    ensures same { session.new.value ≡ session.old.value }
{
    list(session.index(alloc), out, length)
}

/// The ghosts, rising; none where deletes leave none.
#[unsafe(no_mangle)]
pub extern "C" fn krr_ghosts(
    alloc: Global,
    session: &mut Handle,
    out: &mut [u64],
    length: &mut usize,
) -> u32
    ensures list { (told : Option (Result (Vec ℕ Global) AllocError))
        × (IsRead session.old.value (λ s. s.state.ghosts) told × IsListed told result out.old out.new length.new) }
    ensures same { session.new.value ≡ session.old.value }
{
    list(session.ghosts(alloc), out, length)
}

/// The locks that are held, by name, infinity last, and then by transaction.
#[unsafe(no_mangle)]
pub extern "C" fn krr_locks(
    alloc: Global,
    session: &mut Handle,
    out: &mut [Lock],
    length: &mut usize,
) -> u32
    ensures list { (told : Option (Result (Vec Lock Global) AllocError))
        × (IsRead session.old.value (λ s. map lock_of s.state.state.locks) told × IsListed told result out.old out.new length.new) }
    ensures same { session.new.value ≡ session.old.value }
{
    list(session.locks(alloc), out, length)
}

/// The active transactions, rising.
#[unsafe(no_mangle)]
pub extern "C" fn krr_unfinished(
    alloc: Global,
    session: &mut Handle,
    out: &mut [u32],
    length: &mut usize,
) -> u32
    ensures list { (told : Option (Result (Vec ℕ Global) AllocError))
        × (IsRead session.old.value (λ s. map (λ a. a.0) s.state.state.active) told × IsListed told result out.old out.new length.new) }
    ensures same { session.new.value ≡ session.old.value }
{
    list(session.unfinished(alloc), out, length)
}

/// The verdict on the transactions that have committed so far: the code is 0 where they are serializable in commit order and 1
/// where they aren't, and the text is the report of the verdict.
#[unsafe(no_mangle)]
pub extern "C" fn krr_verdict(
    alloc: Global,
    session: &mut Handle,
    out: &mut [u8],
    length: &mut usize,
) -> u32
    ensures verdict { (told : Option (Result (Bool × String Global) AllocError))
        × (IsJudged session.old.value told × IsJudgement told result out.old out.new length.new) }
    ensures same { session.new.value ≡ session.old.value }
{
    judgement(session.verdict(alloc), out, length)
}

/// Closes a session, and frees what it has. The code is 5 where it was closed.
#[unsafe(no_mangle)]
pub extern "C" fn krr_close(alloc: Global, session: &mut Handle) -> u32
    ensures closed { session.new.value ≡ None }
    ensures code { result ≡ (if is_some session.old.value then ok else closed) }
{
    if session.close(alloc) { OK } else { CLOSED }
}
