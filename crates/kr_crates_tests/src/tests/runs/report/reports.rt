use kr_model::{Mode, Name, Pairs, Programs, Refusal, Reply, Txn, Txns};
use kr_report::{report_played, report_run, report_verdict};
use kr_script::read_script;
use kr_serial::{Index, Played, Ran, Replies, Triples, Verdict};
use kr_test_support::Plain;
use std::alloc::{AllocError, Global};
use std::process::Abort;
use std::test::Fail;

/// The index of pairs, which are written as in the opening of a script.
fn index_of(alloc: Global, pairs: &str) -> Result<Index, Fail> {
    let text = format!(in alloc; "{{\"format\":1,\"opening\":{pairs},\"steps\":[]}}")?;
    let script = read_script(alloc, text.as_bytes())?;
    Ok(Index::copy_of(alloc, script.opening())?)
}

/// A run with no reply and no lock, in which no transaction has committed, from an opening to an index.
pub fn ran_between(alloc: Global, opening: &str, index: &str) -> Result<Ran, Fail> {
    let opening = index_of(alloc, opening)?;
    let index = index_of(alloc, index)?;
    Ok(Ran {
        opening,
        replies: Replies::from_vec(Vec::new(alloc)),
        index,
        locks: Triples::from_vec(Vec::new(alloc)),
        programs: Programs::from_vec(Vec::new(alloc)),
        unfinished: Txns::from_vec(Vec::new(alloc)),
    })
}

/// The phantom's replies: a fetch finds nothing, and the insert that comes between is blocked.
fn phantom_replies(alloc: Global) -> Result<Replies, AllocError> {
    let mut replies = Vec::new(alloc);
    replies.push(Reply::None)?;
    replies.push(blocked(alloc, &[1])?)?;
    Ok(Replies::from_vec(replies))
}

/// The run of the phantom.
fn phantom(alloc: Global) -> Result<Ran, Fail> {
    let pairs = "[[10,1],[20,2],[30,3]]";
    let mut ran = ran_between(alloc, pairs, pairs)?;
    ran.replies = phantom_replies(alloc)?;
    ran.locks = Triples::from_vec([((Name::Key(20), 1), 1)].to_vec(alloc)?);
    ran.unfinished = txns(alloc, &[1])?;
    Ok(ran)
}

#[test]
fn reports_the_phantom(rt: HostRuntime) -> Result<(), Fail> {
    let ran = phantom(rt.alloc())?;
    let text = report_run(rt.alloc(), &Plain, &ran, &Verdict::Serial)?;
    assert_eq!(rt;
        text.as_str(),
        "{\"index\":[[10,1],[20,2],[30,3]],\"locks\":[[20,1,\"S\"]],\"replies\":[[\"none\"],[\"blocked\",[1]]],\"unfinished\":[1],\"verdict\":[\"serial\"]}"
    );
    Ok(())
}

/// The run of the phantom, of which no programs were kept, has the same report.
#[test]
fn reports_the_phantom_played(rt: HostRuntime) -> Result<(), Fail> {
    let ran = phantom(rt.alloc())?;
    let text = report_run(rt.alloc(), &Plain, &ran, &Verdict::Serial)?;
    let played = Played {
        replies: ran.replies,
        index: Pairs::from_vec(ran.index.as_slice().to_vec(rt.alloc())?),
        locks: ran.locks,
        unfinished: ran.unfinished,
    };
    let of_played = report_played(rt.alloc(), &Plain, &played, &Verdict::Serial)?;
    assert_eq!(rt; of_played.as_str(), text.as_str());
    Ok(())
}

/// Transactions.
pub fn txns(alloc: Global, txns: &[Txn]) -> Result<Txns, AllocError> {
    Ok(Txns::from_vec(txns.to_vec(alloc)?))
}

/// A reply that waits for transactions.
fn blocked(alloc: Global, others: &[Txn]) -> Result<Reply, AllocError> {
    Ok(Reply::Blocked(txns(alloc, others)?))
}

/// A reply of rows.
pub fn rows(alloc: Global, pairs: &[(u64, u64)]) -> Result<Reply, AllocError> {
    Ok(Reply::Rows(Pairs::from_vec(pairs.to_vec(alloc)?)))
}

/// Each refusal.
const REFUSALS: &[Refusal] = &[
    Refusal::Ended,
    Refusal::Busy,
    Refusal::NoScan,
    Refusal::BadRange,
    Refusal::Full,
    Refusal::Memory,
    Refusal::NoUpdate,
    Refusal::RollingBack,
    Refusal::NothingLeft,
];

/// Each other reply, by an index below 13.
fn reply_at(alloc: Global, i: usize) -> Result<Reply, AllocError> {
    match i {
        0 => Ok(Reply::Found(5)),
        1 => Ok(Reply::None),
        2 => Ok(Reply::Going(7)),
        3 => rows(alloc, &[(1, 2), (3, 4)]),
        4 => Ok(Reply::Done),
        5 => Ok(Reply::Duplicate),
        6 => Ok(Reply::Deleted(18_446_744_073_709_551_615)),
        7 => Ok(Reply::Absent),
        8 => Ok(Reply::Updated(4)),
        9 => Ok(Reply::Committed),
        10 => Ok(Reply::Aborted),
        11 => Ok(Reply::Undone(3)),
        _ => blocked(alloc, &[1, 2]),
    }
}

/// Each reply, the refusals last.
fn each_reply(alloc: Global) -> Result<Replies, AllocError> {
    let mut replies = Vec::new(alloc);
    for i in 0..13 {
        replies.push(reply_at(alloc, i)?)?;
    }
    for refusal in REFUSALS {
        replies.push(Reply::Refused(*refusal))?;
    }
    Ok(Replies::from_vec(replies))
}

/// Locks on each kind of name, with modes that have a name and one that has none.
const LOCKS: &[((Name, Txn), Mode)] = &[
    ((Name::Key(0), 0), 0),
    ((Name::Key(0), 1), 3),
    ((Name::End, 4_294_967_295), 2),
];

/// A run with each reply.
fn of_each_reply(alloc: Global) -> Result<Ran, Fail> {
    let mut ran = ran_between(alloc, "[]", "[]")?;
    ran.replies = each_reply(alloc)?;
    ran.locks = Triples::from_vec(LOCKS.to_vec(alloc)?);
    Ok(ran)
}

const EACH_REPLY: &str =
    "{\"index\":[],\"locks\":[[0,0,\"none\"],[0,1,\"\"],[\"End\",4294967295,\"X\\\"\\\\\"]],\"replies\":[[\"found\",5],[\"none\"],[\"going\",7],[\"rows\",[[1,2],[3,4]]],[\"done\"],[\"duplicate\"],[\"deleted\",18446744073709551615],[\"absent\"],[\"updated\",4],[\"committed\"],[\"aborted\"],[\"undone\",3],[\"blocked\",[1,2]],[\"refused\",1,\"Ended\"],[\"refused\",2,\"Busy\"],[\"refused\",3,\"NoScan\"],[\"refused\",4,\"BadRange\"],[\"refused\",5,\"Full\"],[\"refused\",6,\"Memory\"],[\"refused\",7,\"NoUpdate\"],[\"refused\",8,\"RollingBack\"],[\"refused\",9,\"NothingLeft\"]],\"unfinished\":[],\"verdict\":[\"not-serial\",1,2,[\"rows\",[[10,1],[20,2]]],[\"rows\",[[20,2]]]]}";

#[test]
fn reports_each_reply(rt: HostRuntime) -> Result<(), Fail> {
    let ran = of_each_reply(rt.alloc())?;
    let text = report_run(rt.alloc(), &&Plain, &ran, &not_serial(rt.alloc())?)?;
    assert_eq!(rt; text.as_str(), EACH_REPLY);
    Ok(())
}

/// A scan that was given a key which it has not when it is run whole.
fn not_serial(alloc: Global) -> Result<Verdict, AllocError> {
    let given = rows(alloc, &[(10, 1), (20, 2)])?;
    let serial = rows(alloc, &[(20, 2)])?;
    Ok(Verdict::NotSerial {
        txn: 1,
        operation: 2,
        given,
        serial,
    })
}

/// Compares the report of a verdict on the script of a name.
fn reports_verdict(
    rt: &impl Abort,
    alloc: Global,
    name: &str,
    verdict: &Verdict,
    report: &str,
) -> Result<(), AllocError> {
    let text = report_verdict(alloc, name, verdict)?;
    assert_eq!(rt; text.as_str(), report);
    Ok(())
}

#[test]
fn reports_verdicts(rt: HostRuntime) -> Result<(), AllocError> {
    reports_verdict(
        &rt,
        rt.alloc(),
        "a \"b\".json",
        &Verdict::Serial,
        "{\"script\":\"a \\\"b\\\".json\",\"verdict\":[\"serial\"]}",
    )?;
    reports_verdict(
        &rt,
        rt.alloc(),
        "scan.json",
        &not_serial(rt.alloc())?,
        "{\"script\":\"scan.json\",\"verdict\":[\"not-serial\",1,2,[\"rows\",[[10,1],[20,2]]],[\"rows\",[[20,2]]]]}",
    )
}
