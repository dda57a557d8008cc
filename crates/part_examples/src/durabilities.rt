// The report of transactions that wait for each other, and for different things.
use je_io::MemSink;
use je_order::{Bound, List, Name, Octets, TxnId, Word};
use script_text::report;
use std::alloc::{AllocError, Global};
use store_model::{
    Answer, Call, Durability, Event, Fault, Isolation, Kind, LockTarget, PutMode, Totals,
};

// An event of the journal below.
#[derive(Clone, Copy)]
enum Happened {
    // A begin, with what its commit waits for.
    Begun(Durability, u64),
    // A put that is done, that waits, that is logged, or that is invalid.
    Put,
    Waiting,
    Invalid,
    // A waiting put that goes on and is logged.
    WentOn(u64),
    // A commit that is logged, and one that is done.
    Logged(u64),
    Committed,
    // The log's way to the disk: begun, synced, written out, or failed as it was written out.
    SyncBegun,
    Synced(u64),
    WrittenOut(u64),
    Failed,
}

fn put(alloc: Global) -> Result<Call, AllocError> {
    Ok(Call::Put {
        db: Word::from_slice(alloc, b"t")?,
        key: Octets::from_slice(alloc, b"a")?,
        value: Octets::new(alloc),
        mode: PutMode::Overwrite,
    })
}

// The record for which a put waits.
fn waiting(alloc: Global) -> Result<Answer, AllocError> {
    let name = Name {
        key: Octets::from_slice(alloc, b"a")?,
        dup: Octets::new(alloc),
    };
    Ok(Answer::Waiting {
        at: LockTarget {
            db: Word::from_slice(alloc, b"t")?,
            kind: Kind::Plain,
            at: Bound::At(name),
        },
        owner: TxnId(2),
    })
}

fn call_of(alloc: Global, happened: Happened) -> Result<Call, AllocError> {
    match happened {
        Happened::Begun(durability, _) => Ok(Call::Begin {
            level: Isolation::RepeatableRead,
            durability,
            wait: true,
        }),
        Happened::Logged(_) | Happened::Committed => Ok(Call::Commit),
        _ => put(alloc),
    }
}

fn answer_of(alloc: Global, happened: Happened) -> Result<Answer, AllocError> {
    match happened {
        Happened::Begun(_, txn) => Ok(Answer::Txn { txn: TxnId(txn) }),
        Happened::Waiting => waiting(alloc),
        Happened::Invalid => Ok(Answer::Invalid { first: Fault::Disk }),
        Happened::Logged(commit) | Happened::WentOn(commit) => Ok(Answer::Logged { commit }),
        Happened::Synced(commit) | Happened::WrittenOut(commit) => Ok(Answer::Durable { commit }),
        Happened::Failed => Ok(Answer::DiskFault),
        _ => Ok(Answer::Done),
    }
}

fn event_of(
    alloc: Global,
    session: u8,
    line: u32,
    happened: Happened,
) -> Result<Event, AllocError> {
    let answer = answer_of(alloc, happened)?;
    let victims = List::new(alloc);
    match happened {
        Happened::SyncBegun => Ok(Event::SyncBegin { answer }),
        Happened::Synced(_) => Ok(Event::SyncEnd { answer }),
        Happened::WrittenOut(_) | Happened::Failed => Ok(Event::WriteOut { answer }),
        Happened::WentOn(_) => Ok(Event::Resume {
            session,
            line,
            answer,
            victims,
        }),
        _ => Ok(Event::Call {
            session,
            line,
            call: call_of(alloc, happened)?,
            answer,
            victims,
        }),
    }
}

// A commit that is written out, behind which a put goes on; a commit that waits for nothing, and one of no changes;
// and a commit that the disk fails to write out.
static JOURNAL: [(u8, u32, Happened); 17] = [
    (1, 1, Happened::Begun(Durability::WriteNoSync, 2)),
    (2, 2, Happened::Begun(Durability::NoSync, 3)),
    (1, 3, Happened::Put),
    (2, 4, Happened::Put),
    (3, 5, Happened::Waiting),
    (1, 6, Happened::Logged(1)),
    (0, 0, Happened::WrittenOut(1)),
    (3, 5, Happened::WentOn(2)),
    (0, 0, Happened::SyncBegun),
    (0, 0, Happened::Synced(2)),
    (2, 7, Happened::Committed),
    (2, 8, Happened::Begun(Durability::NoSync, 5)),
    (2, 9, Happened::Committed),
    (1, 10, Happened::Begun(Durability::WriteNoSync, 6)),
    (1, 11, Happened::Put),
    (1, 12, Happened::Logged(4)),
    (0, 0, Happened::Failed),
];

const TEXT: &[u8] =
    b"1 s1 ok txn 2\n2 s2 ok txn 3\n3 s1 ok\n4 s2 ok\n5 s3 waiting t 61 by 2\n6 s1 ok\n5 s3 ok\n7 s2 ok\n8 s2 ok txn 5\n9 s2 ok\n10 s1 ok txn 6\n11 s1 ok\n12 s1 diskfault\n13 s3 invalid\nend commits 4 databases 1 records 2\n";

fn journal(alloc: Global) -> Result<Vec<Event>, AllocError> {
    let mut events = Vec::new(alloc);
    for &(session, line, happened) in &JOURNAL {
        events.push(event_of(alloc, session, line, happened)?)?;
    }
    events.push(event_of(alloc, 3, 13, Happened::Invalid)?)?;
    Ok(events)
}

// Whether the journal's report is that text.
fn prints(alloc: Global) -> Result<bool, AllocError> {
    let totals = Totals {
        databases: 1,
        records: 2,
    };
    let events = journal(alloc)?;
    let mut out = MemSink::new(alloc);
    let done = report(&events, &totals, &mut out);
    let same = done.is_ok() && out.bytes() == TEXT;
    drop(out);
    Ok(same)
}

// A write-out acknowledges the commits that wait for no sync. Commits that wait for nothing are counted where they
// change something.
#[test]
fn prints_what_commits_wait_for(rt: HostRuntime) {
    assert!(rt; prints(rt.alloc()) == Ok(true));
}
