// Scripts that are read, and scripts that are none.
use crate::rows::first_wrong;
use je_order::{Octets, Word};
use script_text::{ParseErr, parse};
use std::alloc::{AllocError, Global};
use store_model::{Call, Durability, Extract, Index, Isolation, Kind, PutMode, ScriptLine, Step};

// A call on the database t, at a line of the script below.
fn catalog_call(alloc: Global, line: u32) -> Result<Call, AllocError> {
    let db = Word::from_slice(alloc, b"t")?;
    Ok(match line {
        3 => Call::Create {
            db,
            kind: Kind::Plain,
        },
        9 => Call::Remove { db },
        10 => Call::Truncate { db },
        19 => Call::Create {
            db,
            kind: Kind::Dup,
        },
        _ => Call::Rename {
            db,
            to: Word::from_slice(alloc, b"u")?,
        },
    })
}

// A call on its records.
fn record_call(alloc: Global, line: u32) -> Result<Call, AllocError> {
    let digits: &[u8] = match line {
        4 => b"\x00\xff",
        5 => b"\x0a",
        7 | 8 | 20..=22 => b"\xab",
        _ => b"",
    };
    let db = Word::from_slice(alloc, b"t")?;
    let key = Octets::from_slice(alloc, digits)?;
    let value = Octets::new(alloc);
    Ok(match line {
        4 => Call::Put {
            db,
            key,
            value,
            mode: PutMode::Overwrite,
        },
        8 => Call::Put {
            db,
            key,
            value,
            mode: PutMode::NoOverwrite,
        },
        20 => Call::Put {
            db,
            key,
            value,
            mode: PutMode::NoDupData,
        },
        21 => Call::GetBoth {
            db,
            key,
            value,
            rmw: false,
        },
        22 => Call::GetBoth {
            db,
            key,
            value,
            rmw: true,
        },
        5 => Call::Get {
            db,
            key,
            rmw: false,
        },
        6 => Call::Get { db, key, rmw: true },
        _ => Call::Delete { db, key },
    })
}

// A call of a transaction: each word of a begin at least once.
fn txn_call(line: u32) -> Call {
    match line {
        13 => Call::Begin {
            level: Isolation::ReadUncommitted,
            durability: Durability::Sync,
            wait: true,
        },
        14 => Call::Begin {
            level: Isolation::ReadCommitted,
            durability: Durability::WriteNoSync,
            wait: false,
        },
        15 => Call::Begin {
            level: Isolation::RepeatableRead,
            durability: Durability::NoSync,
            wait: true,
        },
        16 => Call::Begin {
            level: Isolation::Serializable,
            durability: Durability::Sync,
            wait: false,
        },
        17 => Call::Commit,
        _ => Call::Abort,
    }
}

// Indexes of that database: by the last slice that is one, and by the last field.
fn index_by_slice(primary: Word) -> Index {
    Index {
        primary,
        extract: Extract::ByteSlice {
            offset: 65_535,
            length: 4_096,
        },
    }
}

fn index_by_field(primary: Word) -> Index {
    Index {
        primary,
        extract: Extract::Field {
            number: 4_294_967_295,
            separator: 0x2c,
        },
    }
}

// A call that makes one of them.
fn index_call(alloc: Global, line: u32) -> Result<Call, AllocError> {
    let db = Word::from_slice(alloc, b"u")?;
    let primary = Word::from_slice(alloc, b"t")?;
    let index = match line {
        23 => index_by_slice(primary),
        _ => index_by_field(primary),
    };
    Ok(Call::CreateIndex { db, index })
}

// The calls of the script below, which starts with line 3.
fn call_at(alloc: Global, line: u32) -> Result<Call, AllocError> {
    match line {
        3 | 9 | 10 | 11 | 19 => catalog_call(alloc, line),
        12 => Ok(Call::List),
        13..=18 => Ok(txn_call(line)),
        23 | 24 => index_call(alloc, line),
        _ => record_call(alloc, line),
    }
}

fn is_given(alloc: Global, given: &ScriptLine, session: u8, line: u32) -> Result<bool, AllocError> {
    let want = ScriptLine::Session {
        session,
        line,
        call: call_at(alloc, line)?,
    };
    let same = *given == want;
    drop(want);
    Ok(same)
}

// The lines that have a call, and the session of each.
static LINES: [(u8, u32); 22] = [
    (1, 3),
    (64, 4),
    (9, 5),
    (10, 6),
    (2, 7),
    (2, 8),
    (3, 9),
    (4, 10),
    (5, 11),
    (6, 12),
    (7, 13),
    (8, 14),
    (9, 15),
    (10, 16),
    (11, 17),
    (12, 18),
    (13, 19),
    (14, 20),
    (15, 21),
    (16, 22),
    (17, 23),
    (18, 24),
];

// Whether those are the calls.
fn are_given(alloc: Global, lines: &[ScriptLine]) -> Result<bool, AllocError> {
    let mut same = lines.len() == LINES.len();
    for (given, (session, line)) in lines.iter().zip(&LINES) {
        same = same && is_given(alloc, given, *session, *line)?;
    }
    Ok(same)
}

// Each form, in a script with a comment, an empty line and no feed at its end.
fn reads_forms(alloc: Global) -> Result<bool, ParseErr> {
    let text =
        b"# a test\n\ns1 create t plain\ns64 put t 00fF -\ns9 get t 0a\ns10 get t - rmw\ns2 delete t aB\ns2 putno t ab -\ns3 remove t\ns4 truncate t\ns5 rename t u\ns6 list\ns7 begin ru sync wait\ns8 begin rc wsync nowait\ns9 begin rr nosync wait\ns10 begin ser sync nowait\ns11 commit\ns12 abort\ns13 create t dup\ns14 putnodup t ab -\ns15 getboth t ab -\ns16 getboth t ab - rmw\ns17 create u index t slice 65535 4096\ns18 create u index t field 4294967295 2C";
    let plan = parse(alloc, text)?;
    let same = are_given(alloc, plan.lines.as_slice());
    drop(plan);
    Ok(same?)
}

#[test]
fn reads_each_form(rt: HostRuntime) {
    assert!(rt; reads_forms(rt.alloc()) == Ok(true));
}

// The steps of maintenance of a script, with their lines.
static STEPS: [(u32, Step); 4] = [
    (1, Step::Begin),
    (2, Step::Flush),
    (4, Step::Finish),
    (5, Step::Sync),
];

// Whether those are the steps.
fn are_steps(lines: &[ScriptLine]) -> bool {
    let mut same = lines.len() == STEPS.len();
    for (given, (line, step)) in lines.iter().zip(&STEPS) {
        let want = ScriptLine::Maintenance {
            line: *line,
            step: *step,
        };
        same = same && *given == want;
        drop(want);
    }
    same
}

fn reads_steps(alloc: Global) -> Result<bool, ParseErr> {
    let plan = parse(alloc, b"m begin\nm flush\n\nm finish\nm sync\n")?;
    let same = are_steps(plan.lines.as_slice());
    drop(plan);
    Ok(same)
}

#[test]
fn reads_each_step(rt: HostRuntime) {
    assert!(rt; reads_steps(rt.alloc()) == Ok(true));
}

// Scripts with a bad line, and the number of the first one.
static BAD: [(&[u8], u32); 67] = [
    (b" ", 1),
    (b"\n\ns1 lists", 3),
    (b"s1 list t", 1),
    (b"s1 remove", 1),
    (b"s1 rename t", 1),
    (b"s1 truncate t u", 1),
    (b"s1 putno t 00", 1),
    (b"# \x80", 1),
    (b"s0 create t plain", 1),
    (b"s01 create t plain", 1),
    (b"s65 create t plain", 1),
    (b"S1 create t plain", 1),
    (b"s1 create t dups", 1),
    (b"s1 create t", 1),
    (b"s1 getboth t 00", 1),
    (b"s1 putnodup t 00", 1),
    (b"s1 create T plain", 1),
    (b"s1 create t plain x", 1),
    (b"s1  create t plain", 1),
    (b" s1 create t plain", 1),
    (b"s1 create t plain ", 1),
    (b"s1 create t\tplain", 1),
    (b"s1 create t plain\r\n", 1),
    (b"s1 put t 0 -", 1),
    (b"s1 put t 0g -", 1),
    (b"s1 put t  00", 1),
    (b"s1 get t 00 rmx", 1),
    (b"s1", 1),
    (b"s1 begin", 1),
    (b"s1 begin rr", 1),
    (b"s1 begin rr sync", 1),
    (b"s1 begin rr sync wait now", 1),
    (b"s1 begin RR sync wait", 1),
    (b"s1 begin si sync wait", 1),
    (b"s1 begin rr async wait", 1),
    (b"s1 begin rr wait sync", 1),
    (b"s1 begin rr sync waits", 1),
    (b"s1 commit now", 1),
    (b"s1 abort t", 1),
    (b"s1 create t plain\ns1 delete t\ns1", 2),
    (b"m", 1),
    (b"m begin now", 1),
    (b"m commit", 1),
    (b"M begin", 1),
    (b"m begin\ns1 flush", 2),
    (b"s1 create u index", 1),
    (b"s1 create u index t", 1),
    (b"s1 create u index t slice", 1),
    (b"s1 create u index t slice 0", 1),
    (b"s1 create u index t slice 0 1 2", 1),
    (b"s1 create u index t slice 0 0", 1),
    (b"s1 create u index t slice 0 4097", 1),
    (b"s1 create u index t slice 65536 1", 1),
    (b"s1 create u index t slice 01 1", 1),
    (b"s1 create u index t slice 0 01", 1),
    (b"s1 create u index t slice 0 +1", 1),
    (b"s1 create u index t slice 4294967296 1", 1),
    (b"s1 create u index t field", 1),
    (b"s1 create u index t field 0", 1),
    (b"s1 create u index t field 0 2c 2c", 1),
    (b"s1 create u index t field 4294967296 2c", 1),
    (b"s1 create u index t field 00 2c", 1),
    (b"s1 create u index t field 0 2", 1),
    (b"s1 create u index t field 0 -", 1),
    (b"s1 create u index t field 0 2c2c", 1),
    (b"s1 create u index t fields 2c", 1),
    (b"s1 create u index T slice 0 1", 1),
];

// The first bad line, and what makes it bad.
#[test]
fn names_the_first_bad_line(rt: HostRuntime) {
    let wrong = first_wrong(&BAD, |&(text, line)| {
        Ok::<bool, AllocError>(parse(rt.alloc(), text).err() == Some(ParseErr::BadScript { line }))
    });
    assert_eq!(rt; wrong, Ok(None));
}
