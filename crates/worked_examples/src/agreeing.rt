// The program's answers beside the plain program's.
use crate::fixture::run_script;
use mem_disk::MemDisk;
use std::alloc::{AllocError, Global};
use std::process::Abort;
use std::test::Fail;
use store_eval::eval;
use store_model::{Answer, Call, Event, Store};

// Three databases, one of them made late, and keys that are prefixes of each other or empty; then each is
// renamed, emptied or removed. No name is taken twice, since the plain program does not know that
// refusal.
const SCRIPT: &[u8] = b"s1 get t 61\n\
s1 put t 61 31\n\
s1 delete t 61\n\
s1 create t plain\n\
s2 get t 61\n\
s2 put t 61 31\n\
s3 put t 6162 32\n\
s3 put t - 33\n\
s3 put t 60 -\n\
s1 get t -\n\
s1 get t 61\n\
s1 get t 6162 rmw\n\
s1 get t 616263\n\
s1 get t 60\n\
s64 create s plain\n\
s64 put s 61 ff00ff\n\
s64 get s 61\n\
s64 get t 61\n\
s2 put t 61 3132\n\
s2 get t 61\n\
s2 delete t 61\n\
s2 delete t 61\n\
s2 get t 61\n\
s2 get t 6162\n\
s2 put t 61 34\n\
s5 get t 61\n\
s5 delete t -\n\
s5 get t -\n\
s5 delete u 00\n\
s5 create u plain\n\
s5 delete u 00\n\
s5 put u 00 00\n\
s5 get s 61\n\
s6 list\n\
s6 putno s 61 00\n\
s6 putno s 62 00\n\
s6 rename s v\n\
s6 get s 61\n\
s6 get v 62\n\
s6 truncate t\n\
s6 get t 6162\n\
s6 remove u\n\
s6 putno u 00 00\n\
s6 truncate u\n\
s6 rename u s\n\
s6 remove u\n\
s6 create u plain\n\
s6 get u 00\n\
s6 list\n";

// Whether a session has this answer of a call at the end: a commit that was logged is done.
fn is_answered(answer: &Answer, want: &Answer) -> bool {
    match answer {
        Answer::Logged { .. } => *want == Answer::Done,
        _ => answer == want,
    }
}

// The store after the call of a line, which was answered as the plain program answers it.
fn follow(
    rt: &impl Abort,
    alloc: Global,
    store: &Store,
    line: u32,
    call: &Call,
    answer: &Answer,
) -> Result<Store, AllocError> {
    let (want, after) = eval(alloc, store, call)?;
    assert!(rt; is_answered(answer, &want), "line {line}");
    Ok(after)
}

// How many calls the journal has, each answered as the plain program answers it.
fn follow_all(rt: &impl Abort, alloc: Global, journal: &[Event]) -> Result<u32, AllocError> {
    let mut store = Store::new(alloc);
    let mut calls = 0u32;
    for event in journal {
        if let Event::Call {
            line,
            call,
            answer,
            ..
        } = event
        {
            store = follow(rt, alloc, &store, *line, call, answer)?;
            calls = calls.saturating_add(1);
        }
    }
    Ok(calls)
}

#[test]
fn as_the_plain_program(rt: HostRuntime) -> Result<(), Fail> {
    let alloc = rt.alloc();
    let ran = run_script(alloc, MemDisk::new(alloc), SCRIPT)?;
    assert!(rt; follow_all(&rt, alloc, &ran.journal)? == 49);
    let end = "\nend commits 18 databases 3 records 2\n";
    assert!(rt; ran.text().ends_with(end));
    Ok(())
}
