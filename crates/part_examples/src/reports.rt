// The report of a journal.
use je_io::{Failed, MemSink, Sink};
use je_order::{Bound, List, Name, Octets, TxnId, Word};
use script_text::report;
use std::alloc::{AllocError, Global};
use store_model::{Answer, Call, Event, Fault, Kind, LockTarget, Totals, Victim};

// What an event of the journal below answers.
#[derive(Clone, Copy)]
enum Said {
    Logged(u64),
    Begun,
    Durable(u64),
    FileScan,
    Names,
    KeyExist,
    NotFound,
    TooMany,
    TooLong,
    Txn,
    Waiting,
    Deadlock,
    DiskFault,
    Invalid,
}

fn two_names(alloc: Global) -> Result<List<Word>, AllocError> {
    let mut names = List::new(alloc);
    names.push(Word::from_slice(alloc, b"s_1")?)?;
    names.push(Word::from_slice(alloc, b"t")?)?;
    Ok(names)
}

// A cycle of two transactions, the least behind.
fn cycle(alloc: Global) -> Result<List<TxnId>, AllocError> {
    let mut cycle = List::new(alloc);
    cycle.push(TxnId(5))?;
    cycle.push(TxnId(2))?;
    Ok(cycle)
}

// The record of a key and data, in a database of sorted duplicates.
fn target(alloc: Global) -> Result<LockTarget, AllocError> {
    let name = Name {
        key: Octets::from_slice(alloc, b"a")?,
        dup: Octets::from_slice(alloc, b"1")?,
    };
    Ok(LockTarget {
        db: Word::from_slice(alloc, b"t")?,
        kind: Kind::Dup,
        at: Bound::At(name),
    })
}

// The victim of an event, if its call was in a cycle.
fn victims(alloc: Global, said: Said) -> Result<List<Victim>, AllocError> {
    let mut victims = List::new(alloc);
    if matches!(said, Said::Deadlock) {
        victims.push(Victim {
            session: 7,
            line: 12,
            cycle: cycle(alloc)?,
        })?;
    }
    Ok(victims)
}

fn answer_of(alloc: Global, said: Said) -> Result<Answer, AllocError> {
    Ok(match said {
        Said::Logged(commit) => Answer::Logged { commit },
        Said::Begun => Answer::Done,
        Said::Durable(commit) => Answer::Durable { commit },
        Said::FileScan => Answer::Rec {
            key: Octets::from_slice(alloc, b"\x00\xff")?,
            value: Octets::new(alloc),
        },
        Said::Names => Answer::Names {
            names: two_names(alloc)?,
        },
        Said::KeyExist => Answer::KeyExist,
        Said::NotFound => Answer::NotFound,
        Said::TooMany => Answer::TooMany { count: 1_000 },
        Said::TooLong => Answer::TooLong { length: 4_097 },
        Said::Txn => Answer::Txn { txn: TxnId(7) },
        Said::Waiting => Answer::Waiting {
            at: target(alloc)?,
            owner: TxnId(3),
        },
        Said::Deadlock => Answer::Deadlock {
            cycle: cycle(alloc)?,
        },
        Said::DiskFault => Answer::DiskFault,
        Said::Invalid => Answer::Invalid { first: Fault::Disk },
    })
}

fn event_of(alloc: Global, session: u8, line: u32, said: Said) -> Result<Event, AllocError> {
    let answer = answer_of(alloc, said)?;
    match said {
        Said::Begun => Ok(Event::SyncBegin { answer }),
        Said::Durable(_) => Ok(Event::SyncEnd { answer }),
        _ => Ok(Event::Call {
            session,
            line,
            call: Call::Create {
                db: Word::from_slice(alloc, b"t")?,
                kind: Kind::Plain,
            },
            answer,
            victims: victims(alloc, said)?,
        }),
    }
}

static JOURNAL: [(u8, u32, Said); 18] = [
    (1, 1, Said::Logged(1)),
    (0, 0, Said::Begun),
    (0, 0, Said::Durable(1)),
    (2, 3, Said::FileScan),
    (2, 4, Said::Logged(2)),
    (3, 5, Said::Logged(3)),
    (1, 6, Said::NotFound),
    (0, 0, Said::Begun),
    (0, 0, Said::Durable(2)),
    (1, 7, Said::TooMany),
    (4, 9, Said::TooLong),
    (5, 10, Said::Names),
    (5, 11, Said::KeyExist),
    (6, 13, Said::Txn),
    (7, 12, Said::Waiting),
    (6, 14, Said::Deadlock),
    (1, 8, Said::DiskFault),
    (64, 1_000_000, Said::Invalid),
];

fn journal(alloc: Global) -> Result<Vec<Event>, AllocError> {
    let mut events = Vec::new(alloc);
    for &(session, line, said) in &JOURNAL {
        events.push(event_of(alloc, session, line, said)?)?;
    }
    Ok(events)
}

const TEXT: &[u8] =
    b"1 s1 ok\n3 s2 ok 00ff -\n6 s1 notfound\n4 s2 ok\n7 s1 toomany 1000\n9 s4 toolong 4097\n10 s5 ok s_1 t\n11 s5 keyexist\n13 s6 ok txn 7\n12 s7 waiting t 61 31 by 3\n14 s6 deadlock 2 5\n12 s7 deadlock 2 5\n8 s1 diskfault\n5 s3 diskfault\n1000000 s64 invalid\nend commits 3 databases 1 records 2\n";

fn report_into(alloc: Global, out: &mut MemSink) -> Result<Result<(), Failed>, AllocError> {
    let totals = Totals {
        databases: 1,
        records: 2,
    };
    let events = journal(alloc)?;
    Ok(report(&events, &totals, out))
}

// Whether the sink then has these bytes, which are all or the first of them, and so many faults.
fn prints(alloc: Global, sink: MemSink, want: &[u8], faults: u64) -> Result<bool, AllocError> {
    let mut out = sink;
    let done = report_into(alloc, &mut out);
    let same = out.bytes() == want && out.faults() == faults;
    drop(out);
    Ok(done?.is_ok() == (faults == 0) && same)
}

// A commit's line comes with the sync that covers it, or with the fault before it. A sink that fails has
// the first bytes.
#[test]
fn prints_each_line_when_it_is_known(rt: HostRuntime) {
    let alloc = rt.alloc();
    assert!(rt; prints(alloc, MemSink::new(alloc), TEXT, 0) == Ok(true));
    assert!(rt; prints(alloc, MemSink::failing(alloc, 20), &TEXT[..20], 1) == Ok(true));
}
