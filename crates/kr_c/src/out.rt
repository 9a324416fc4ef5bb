//! What a call writes into the caller's memory.
ghost use Rattle.std.specs.Prelude.{◌≡◌};
ghost use Rattle.kr_c.specs.Codes.{answer_code, fault_code};
ghost use Rattle.kr_c.specs.Out.{Tells, IsTold, IsFound, IsListed, IsJudgement, IsPurgeTold, fault_line};

use crate::codes::{CLOSED, MEMORY, NO, OK, SCRIPT, TABLE};
use kr_embed::Fault;
use std::alloc::AllocError;

/// Writes as much of a list as there is room for, from the front, and tells the length of the whole.
fn fill<T: Copy>(list: &[T], out: &mut [T], length: &mut usize)
    ensures { Tells out.old out.new length.new list.now }
{
    let n = out.len().min(list.len());
    out[..n].copy_from_slice(&list[..n]);
    *length = list.len();
}

/// The code of an answer that is yes or no.
pub fn answer_code(is_yes: bool) -> u32
    ensures { result ≡ answer_code is_yes }
{
    if is_yes { OK } else { NO }
}

/// The code of a fault, whose line is told.
pub fn fault_code(fault: Fault, out: &mut [u8], length: &mut usize) -> u32
    ensures code { result ≡ fault_code fault }
    ensures line { Tells out.old out.new length.new (fault_line fault) }
{
    match fault {
        Fault::NoTable(line) => {
            fill(line.as_bytes(), out, length);
            TABLE
        }
        Fault::NoScript(line) => {
            fill(line.as_bytes(), out, length);
            SCRIPT
        }
        Fault::Memory => {
            *length = 0;
            MEMORY
        }
    }
}

/// The code of an answer, whose report is told, or of the fault.
pub fn tell(told: Result<(bool, String), Fault>, out: &mut [u8], length: &mut usize) -> u32
    ensures { IsTold told result out.old out.new length.new }
{
    match told {
        Ok((is_yes, text)) => {
            fill(text.as_bytes(), out, length);
            answer_code(is_yes)
        }
        Err(fault) => fault_code(fault, out, length),
    }
}

/// The code of what was looked for, whose line is told where there is one, or of the fault.
pub fn found(told: Result<Option<String>, Fault>, out: &mut [u8], length: &mut usize) -> u32
    ensures { IsFound told result out.old out.new length.new }
{
    match told {
        Ok(Some(line)) => {
            fill(line.as_bytes(), out, length);
            OK
        }
        Ok(None) => {
            *length = 0;
            NO
        }
        Err(fault) => fault_code(fault, out, length),
    }
}

/// The code of what was read of a session, whose list is told.
pub fn list<T: Copy + Drop>(
    told: Option<Result<Vec<T>, AllocError>>,
    out: &mut [T],
    length: &mut usize,
) -> u32
    ensures { IsListed told result out.old out.new length.new }
{
    *length = 0;
    match told {
        None => CLOSED,
        Some(Ok(list)) => {
            fill(list.as_slice(), out, length);
            OK
        }
        Some(Err(_)) => MEMORY,
    }
}

/// The code of a session's verdict, whose report is told.
pub fn judgement(
    told: Option<Result<(bool, String), AllocError>>,
    out: &mut [u8],
    length: &mut usize,
) -> u32
    ensures { IsJudgement told result out.old out.new length.new }
{
    *length = 0;
    match told {
        None => CLOSED,
        Some(Ok((is_serial, text))) => {
            fill(text.as_bytes(), out, length);
            answer_code(is_serial)
        }
        Some(Err(_)) => MEMORY,
    }
}

/// The code of a purge, and 1 where a ghost was purged or else 0; a closed session and refused memory write no number.
pub fn purge_code(told: Option<Result<bool, AllocError>>, purged: &mut u32) -> u32
    ensures { IsPurgeTold told result purged.old purged.new }
{
    match told {
        None => CLOSED,
        Some(Ok(is_purged)) => {
            *purged = u32::from(is_purged);
            OK
        }
        Some(Err(_)) => MEMORY,
    }
}
