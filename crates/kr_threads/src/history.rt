//! The history of a closed engine as steps with replies, and as a run at its end.
ghost use Rattle.std.specs.Prelude.{◌≡◌, IfOk, map};
ghost use Rattle.kr_model.specs.Map.{IsMap, Map};
ghost use Rattle.kr_model.specs.Protocol.{Protocol};
ghost use Rattle.kr_model.specs.Run.{programs};
ghost use Rattle.kr_model.specs.State.{State};
ghost use Rattle.kr_records.specs.Histories.{IsHistory, events_with_replies};
ghost use Rattle.kr_threads.specs.Threaded.{answered};

use kr_judge::{Index, Ran, Replies, Triples};
use kr_model::Event;
use kr_records::{Entry, History};
use kr_report::Answered;
use std::alloc::{AllocError, Global};

/// The steps of entries.
pub fn steps_of(alloc: Global, entries: &[Entry]) -> Result<Vec<Event>, AllocError>
    ensures { IfOk result (λ steps. steps.items ≡ map (λ e. e.event) entries.now) }
{
    let mut steps = Vec::with_capacity(alloc, entries.len())?;
    for entry in entries {
        steps.push(entry.event)?;
    }
    Ok(steps)
}

/// Copies of the replies of entries.
fn replies_of(alloc: Global, entries: &[Entry]) -> Result<Replies, AllocError>
    ensures { IfOk result (λ replies. replies ≡ map (λ e. e.reply) entries.now) }
{
    let mut replies = Vec::with_capacity(alloc, entries.len())?;
    for entry in entries {
        replies.push(entry.reply.try_copy(alloc)?)?;
    }
    Ok(Replies::from_vec(replies))
}

/// The run of a history from this opening map, with the replies and the programs of the history; and the entries, which it
/// has no use for.
pub fn ran_of(
    alloc: Global,
    opening: &[(u64, u64)],
    history: History,
) -> Result<(Vec<Entry>, Ran), AllocError>
    requires opening { IsMap opening.now }
    requires index { IsMap history.index }
    ensures entries { IfOk result (λ r. r.0 ≡ history.entries) }
    ensures opening { IfOk result (λ r. r.1.opening ≡ opening.now) }
    ensures replies { IfOk result (λ r. r.1.replies ≡ map (λ e. e.reply) history.entries.items) }
    ensures programs { IfOk result (λ r. (p : Protocol) (opening : Map) (s : State) → IsHistory p opening history.entries.items s → r.1.programs ≡ programs (events_with_replies history.entries.items)) }
    ensures index { IfOk result (λ r. r.1.index ≡ history.index) }
    ensures locks { IfOk result (λ r. r.1.locks ≡ history.locks.items) }
    ensures unfinished { IfOk result (λ r. r.1.unfinished ≡ history.unfinished) }
{
    let opening = Index::copy_of(alloc, opening)?;
    let replies = replies_of(alloc, &history.entries)?;
    let programs = history.programs(alloc)?;
    let History {
        entries,
        index,
        unfinished,
        locks,
        seats: _,
    } = history;
    let ran = Ran {
        opening,
        replies,
        programs,
        index: Index::from_pairs(index),
        locks: Triples::from_vec(locks),
        unfinished,
    };
    Ok((entries, ran))
}

/// Entries as steps with replies.
pub fn answers(alloc: Global, entries: Vec<Entry>) -> Result<Vec<Answered>, AllocError>
    ensures { IfOk result (λ list. list.items ≡ map answered entries.items) }
{
    let mut list = Vec::with_capacity(alloc, entries.len())?;
    for entry in entries {
        let Entry {
            seat: _,
            event,
            reply,
        } = entry;
        list.push(Answered { event, reply })?;
    }
    Ok(list)
}
