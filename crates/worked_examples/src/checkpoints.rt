// Checkpoints that a script asks for, and runs with checkpoints that stop at each call of the disk.
use crate::crashes::{Prefixes, line_of, long_prefixes, stop_at_each_call};
use crate::fixture::{RUN, RUN_NARROW, RUN_SMALL, assert_ran, disk_of, run_args, strings};
use mem_disk::MemDisk;
use std::alloc::{AllocError, Global};
use std::process::Abort;
use std::test::Fail;

// Five records split the first node of their database. The split logged the node that keeps the first of them,
// so of the nodes 1 (the catalog's), 2, 3 and 4 (the root) it is clean as the checkpoint begins. The root is
// logged last, and before it the checkpoint cannot end.
const STEPS: &[u8] = b"s1 create t plain\n\
s1 put t 61 31\n\
s1 put t 62 31\n\
s1 put t 63 31\n\
s1 put t 64 31\n\
s1 put t 65 31\n\
m flush\n\
m begin\n\
m begin\n\
m flush\n\
m flush\n\
m finish\n\
m flush\n\
m flush\n\
m finish\n\
m sync\n";

const STEPS_TEXT: &str = "1 s1 ok\n\
2 s1 ok\n\
3 s1 ok\n\
4 s1 ok\n\
5 s1 ok\n\
6 s1 ok\n\
7 m nocheckpoint\n\
8 m ok\n\
9 m incheckpoint\n\
10 m flushed 1\n\
11 m flushed 3\n\
12 m nodesleft 1\n\
13 m flushed 4\n\
14 m nothing\n\
15 m ok\n\
16 m ok\n\
end commits 6 databases 1 records 5\n";

// What reads those records, and finds them.
const READS: &[u8] = b"s1 get t 61\ns1 get t 62\ns1 get t 63\ns1 get t 64\ns1 get t 65\n";

const READS_TEXT: &str = "1 s1 ok 61 31\n\
2 s1 ok 62 31\n\
3 s1 ok 63 31\n\
4 s1 ok 64 31\n\
5 s1 ok 65 31\n\
end commits 0 databases 1 records 5\n";

#[test]
fn steps_of_a_checkpoint(rt: HostRuntime) -> Result<(), Fail> {
    let alloc = rt.alloc();
    let ran = run_args(alloc, &RUN_NARROW, MemDisk::new(alloc), STEPS)?;
    assert_ran(&rt, &ran, 0, STEPS_TEXT);
    let again = run_args(alloc, &RUN_NARROW, disk_of(ran), READS)?;
    assert_ran(&rt, &again, 0, READS_TEXT);
    Ok(())
}

// Where the checkpoints of the long script stand: behind these of its lines.
fn has_checkpoint(line: usize) -> bool {
    matches!(line, 8 | 16 | 24)
}

// A checkpoint: two nodes are dirty at most, the catalog's and the database's.
const CHECKPOINT: &str = "m begin\nm flush\nm flush\nm finish\nm sync\n";

// 40 lines: the database is made, its keys get data in turn, and three checkpoints are taken.
fn script_with_checkpoints(alloc: Global) -> Result<String, AllocError> {
    let mut script = String::from_str(alloc, "s1 create t plain\n")?;
    for line in 1..25usize {
        script.push_str(line_of(alloc, line)?.as_str())?;
        if has_checkpoint(line) {
            script.push_str(CHECKPOINT)?;
        }
    }
    Ok(script)
}

// Files of 4,096 bytes, four of them in the end.
#[test]
fn stops_in_checkpoints(rt: HostRuntime) -> Result<(), Fail> {
    let alloc = rt.alloc();
    let script = script_with_checkpoints(alloc)?;
    let mut prefixes = long_prefixes(alloc, 25)?;
    let files = stop_at_each_call(&rt, alloc, &RUN_SMALL, script.as_bytes(), &mut prefixes)?;
    assert!(rt; files == Some(4));
    Ok(())
}

// A transaction is under way across a whole checkpoint, and commits behind it.
const COMMITS: &[u8] = b"s1 create t plain\n\
s1 put t 61 31\n\
s1 begin rr sync wait\n\
s1 put t 61 32\n\
m begin\n\
m flush\n\
m flush\n\
m flush\n\
m finish\n\
m sync\n\
s1 commit\n";

const COMMITS_TEXT: &str = "1 s1 ok\n\
2 s1 ok\n\
3 s1 ok txn 3\n\
4 s1 ok\n\
5 m ok\n\
6 m flushed 1\n\
7 m flushed 2\n\
8 m nothing\n\
9 m ok\n\
10 m ok\n\
11 s1 ok\n\
end commits 3 databases 1 records 1\n";

// The same, but it is given up.
const ABORTS: &[u8] = b"s1 create t plain\n\
s1 put t 61 31\n\
s1 begin rr sync wait\n\
s1 put t 61 32\n\
m begin\n\
m flush\n\
m flush\n\
m finish\n\
m sync\n\
s1 abort\n\
s2 get t 61\n";

const ABORTS_TEXT: &str = "1 s1 ok\n\
2 s1 ok\n\
3 s1 ok txn 3\n\
4 s1 ok\n\
5 m ok\n\
6 m flushed 1\n\
7 m flushed 2\n\
8 m ok\n\
9 m ok\n\
10 s1 ok\n\
11 s2 ok 61 31\n\
end commits 2 databases 1 records 1\n";

// A script, and what it writes.
fn assert_writes(
    rt: &impl Abort,
    alloc: Global,
    script: &[u8],
    text: &str,
) -> Result<(), AllocError> {
    let ran = run_args(alloc, &RUN, MemDisk::new(alloc), script)?;
    assert_ran(rt, &ran, 0, text);
    Ok(())
}

// What is read of these: the store before them, with the database, with the record, and with its new data.
fn own_prefixes(alloc: Global) -> Result<Prefixes, AllocError> {
    let texts = [
        "1 s1 nodatabase\nend commits 0 databases 0 records 0\n",
        "1 s1 notfound\nend commits 0 databases 1 records 0\n",
        "1 s1 ok 61 31\nend commits 0 databases 1 records 1\n",
        "1 s1 ok 61 32\nend commits 0 databases 1 records 1\n",
    ];
    Prefixes::new(alloc, b"s1 get t 61\n", strings(alloc, &texts)?)
}

#[test]
fn commits_behind_a_checkpoint(rt: HostRuntime) -> Result<(), Fail> {
    let alloc = rt.alloc();
    assert_writes(&rt, alloc, COMMITS, COMMITS_TEXT)?;
    let mut prefixes = own_prefixes(alloc)?;
    assert!(rt; stop_at_each_call(&rt, alloc, &RUN, COMMITS, &mut prefixes)? == Some(1));
    Ok(())
}

#[test]
fn aborts_behind_a_checkpoint(rt: HostRuntime) -> Result<(), Fail> {
    let alloc = rt.alloc();
    assert_writes(&rt, alloc, ABORTS, ABORTS_TEXT)?;
    let mut prefixes = own_prefixes(alloc)?;
    assert!(rt; stop_at_each_call(&rt, alloc, &RUN, ABORTS, &mut prefixes)? == Some(1));
    Ok(())
}

// Where a noted node is split its new half is noted, and so is the root above it. The put splits node 2 into 2 and 3, under the new root 4;
// these are logged, so they are clean until the put commits in 3, and until 3 is logged below 4.
const SPLIT: &[u8] = b"s1 create t plain\n\
s1 put t 61 31\n\
s1 put t 62 31\n\
s1 put t 63 31\n\
s1 put t 64 31\n\
m begin\n\
s1 put t 65 31\n\
m flush\n\
m flush\n\
m finish\n\
m flush\n\
m flush\n\
m finish\n";

const SPLIT_TEXT: &str = "1 s1 ok\n\
2 s1 ok\n\
3 s1 ok\n\
4 s1 ok\n\
5 s1 ok\n\
6 m ok\n\
7 s1 ok\n\
8 m flushed 1\n\
9 m flushed 3\n\
10 m nodesleft 1\n\
11 m flushed 4\n\
12 m nothing\n\
13 m ok\n\
end commits 6 databases 1 records 5\n";

// A noted node that was logged and is dirty again is logged again: the catalog's by a new database, whose root is not noted, and the database's by
// a record.
const AGAIN: &[u8] = b"s1 create t plain\n\
s1 put t 61 31\n\
m begin\n\
m flush\n\
s1 create u plain\n\
m flush\n\
m flush\n\
m flush\n\
s1 put t 62 31\n\
m finish\n\
m flush\n\
m flush\n\
m finish\n";

const AGAIN_TEXT: &str = "1 s1 ok\n\
2 s1 ok\n\
3 m ok\n\
4 m flushed 1\n\
5 s1 ok\n\
6 m flushed 1\n\
7 m flushed 2\n\
8 m nothing\n\
9 s1 ok\n\
10 m nodesleft 1\n\
11 m flushed 2\n\
12 m nothing\n\
13 m ok\n\
end commits 4 databases 2 records 2\n";

// A node that was clean as the checkpoint began is not noted, nor is the root that is put above it: the checkpoint does not wait for them.
const CLEAN: &[u8] = b"s1 create t plain\n\
s1 put t 61 31\n\
s1 put t 62 31\n\
s1 put t 63 31\n\
s1 put t 64 31\n\
m begin\n\
m flush\n\
m flush\n\
m finish\n\
m begin\n\
s1 put t 65 31\n\
m flush\n\
m finish\n\
m begin\n\
m flush\n\
m flush\n\
m flush\n\
m finish\n";

const CLEAN_TEXT: &str = "1 s1 ok\n\
2 s1 ok\n\
3 s1 ok\n\
4 s1 ok\n\
5 s1 ok\n\
6 m ok\n\
7 m flushed 1\n\
8 m flushed 2\n\
9 m ok\n\
10 m ok\n\
11 s1 ok\n\
12 m nothing\n\
13 m ok\n\
14 m ok\n\
15 m flushed 3\n\
16 m flushed 4\n\
17 m nothing\n\
18 m ok\n\
end commits 6 databases 1 records 5\n";

// A new index whose node is split as it is filled: its two halves are dirty, as its records were committed behind their images. The root above
// them has an image, so the checkpoint does not wait for it before they are logged.
const FILLED: &[u8] = b"s1 create p plain\n\
s1 put p 61 31\n\
s1 put p 62 32\n\
s1 put p 63 33\n\
s1 put p 64 34\n\
s1 put p 65 35\n\
s1 create i index p slice 0 1\n\
m begin\n\
m finish\n\
m flush\n\
m flush\n\
m flush\n\
m flush\n\
m flush\n\
m flush\n\
m flush\n\
m finish\n";

const FILLED_TEXT: &str = "1 s1 ok\n\
2 s1 ok\n\
3 s1 ok\n\
4 s1 ok\n\
5 s1 ok\n\
6 s1 ok\n\
7 s1 ok\n\
8 m ok\n\
9 m nodesleft 4\n\
10 m flushed 1\n\
11 m flushed 3\n\
12 m flushed 5\n\
13 m flushed 6\n\
14 m flushed 4\n\
15 m flushed 7\n\
16 m nothing\n\
17 m ok\n\
end commits 7 databases 2 records 10\n";

#[test]
fn noted_nodes_are_logged(rt: HostRuntime) -> Result<(), Fail> {
    let alloc = rt.alloc();
    let split = run_args(alloc, &RUN_NARROW, MemDisk::new(alloc), SPLIT)?;
    assert_ran(&rt, &split, 0, SPLIT_TEXT);
    let again = run_args(alloc, &RUN_NARROW, MemDisk::new(alloc), AGAIN)?;
    assert_ran(&rt, &again, 0, AGAIN_TEXT);
    let clean = run_args(alloc, &RUN_NARROW, MemDisk::new(alloc), CLEAN)?;
    assert_ran(&rt, &clean, 0, CLEAN_TEXT);
    let filled = run_args(alloc, &RUN_NARROW, MemDisk::new(alloc), FILLED)?;
    assert_ran(&rt, &filled, 0, FILLED_TEXT);
    Ok(())
}

// The only record of a database is put and deleted, a checkpoint logs its slot as deleted, and then the record is put and deleted
// again: the node has its image's content, so the next checkpoint has nothing to log.
const SETTLED: &[u8] = b"s1 create t plain\n\
s1 put t 61 31\n\
s1 delete t 61\n\
m begin\n\
m flush\n\
m flush\n\
m finish\n\
s1 put t 61 32\n\
s1 delete t 61\n\
m begin\n\
m flush\n\
m finish\n";

const SETTLED_TEXT: &str = "1 s1 ok\n\
2 s1 ok\n\
3 s1 ok\n\
4 m ok\n\
5 m flushed 1\n\
6 m flushed 2\n\
7 m ok\n\
8 s1 ok\n\
9 s1 ok\n\
10 m ok\n\
11 m nothing\n\
12 m ok\n\
end commits 5 databases 1 records 0\n";

// A record is put twice behind a checkpoint's beginning, and the node is logged with the second data.
const PUT_TWICE: &[u8] = b"s1 create t plain\n\
m begin\n\
s1 put t 61 31\n\
s1 put t 61 32\n\
m flush\n\
m flush\n\
m finish\n";

const PUT_TWICE_TEXT: &str = "1 s1 ok\n\
2 m ok\n\
3 s1 ok\n\
4 s1 ok\n\
5 m flushed 1\n\
6 m flushed 2\n\
7 m ok\n\
end commits 3 databases 1 records 1\n";

// An opening redoes both puts, and the node has its image's content again.
const CHECKPOINT_AGAIN: &[u8] = b"m begin\nm flush\nm finish\n";

const CHECKPOINT_AGAIN_TEXT: &str = "1 m ok\n\
2 m nothing\n\
3 m ok\n\
end commits 0 databases 1 records 1\n";

#[test]
fn content_as_logged(rt: HostRuntime) -> Result<(), Fail> {
    let alloc = rt.alloc();
    let settled = run_args(alloc, &RUN, MemDisk::new(alloc), SETTLED)?;
    assert_ran(&rt, &settled, 0, SETTLED_TEXT);
    drop(settled);
    let ran = run_args(alloc, &RUN, MemDisk::new(alloc), PUT_TWICE)?;
    assert_ran(&rt, &ran, 0, PUT_TWICE_TEXT);
    let again = run_args(alloc, &RUN, disk_of(ran), CHECKPOINT_AGAIN)?;
    assert_ran(&rt, &again, 0, CHECKPOINT_AGAIN_TEXT);
    Ok(())
}
