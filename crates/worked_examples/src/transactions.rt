// Transactions side by side: what they wait for, who of a cycle must abort, and what commits wait for.
use crate::fixture::{FIRST_LOG, RUN, assert_leaves, assert_ran, disk_with, run_args, run_script};
use mem_disk::MemDisk;
use std::alloc::{AllocError, Global};
use std::process::Abort;
use std::test::Fail;

// A script over an empty folder writes this text.
fn assert_writes(
    rt: &impl Abort,
    alloc: Global,
    script: &[u8],
    text: &str,
) -> Result<(), AllocError> {
    let ran = run_script(alloc, MemDisk::new(alloc), script)?;
    assert_ran(rt, &ran, 0, text);
    Ok(())
}

// Two sessions that wait for each other, for writes and for a read that is to be written; and three.
static DEADLOCKS: [(&[u8], &str); 3] = [
    (
        b"s1 create t plain\n\
s1 begin rr sync wait\n\
s2 begin rr sync wait\n\
s1 put t 61 31\n\
s2 put t 62 31\n\
s1 put t 62 32\n\
s2 put t 61 32\n\
s2 put t 63 33\n\
s2 abort\n\
s1 commit\n",
        "1 s1 ok\n\
2 s1 ok txn 2\n\
3 s2 ok txn 3\n\
4 s1 ok\n\
5 s2 ok\n\
6 s1 waiting t 62 by 3\n\
7 s2 deadlock 2 3\n\
8 s2 mustabort 2 3\n\
9 s2 ok\n\
6 s1 ok\n\
10 s1 ok\n\
end commits 2 databases 1 records 2\n",
    ),
    (
        b"s1 create t plain\n\
s1 put t 61 31\n\
s1 begin rr sync wait\n\
s2 begin rr sync wait\n\
s1 get t 61\n\
s2 get t 61\n\
s1 put t 61 32\n\
s2 put t 61 33\n\
s2 abort\n\
s1 commit\n",
        "1 s1 ok\n\
2 s1 ok\n\
3 s1 ok txn 3\n\
4 s2 ok txn 4\n\
5 s1 ok 61 31\n\
6 s2 ok 61 31\n\
7 s1 waiting t 61 by 4\n\
8 s2 deadlock 3 4\n\
9 s2 ok\n\
7 s1 ok\n\
10 s1 ok\n\
end commits 3 databases 1 records 1\n",
    ),
    (
        b"s1 create t plain\n\
s1 begin rr sync wait\n\
s2 begin rr sync wait\n\
s3 begin rr sync wait\n\
s1 put t 61 31\n\
s2 put t 62 32\n\
s3 put t 63 33\n\
s2 put t 63 34\n\
s3 put t 61 35\n\
s1 put t 62 36\n\
s3 commit\n\
s3 abort\n\
s2 commit\n\
s1 commit\n",
        "1 s1 ok\n\
2 s1 ok txn 2\n\
3 s2 ok txn 3\n\
4 s3 ok txn 4\n\
5 s1 ok\n\
6 s2 ok\n\
7 s3 ok\n\
8 s2 waiting t 63 by 4\n\
9 s3 waiting t 61 by 2\n\
10 s1 waiting t 62 by 3\n\
9 s3 deadlock 2 3 4\n\
11 s3 mustabort 2 3 4\n\
12 s3 ok\n\
8 s2 ok\n\
13 s2 ok\n\
10 s1 ok\n\
14 s1 ok\n\
end commits 3 databases 1 records 3\n",
    ),
];

// A victim at read committed has its READ locks no more once it is told: who waits for one of them goes on before it aborts.
const READ_GIVEN_BACK: &[u8] = b"s1 create d dup\n\
s1 put d 6b 31\n\
s1 put d 6b 32\n\
s1 begin rr sync wait\n\
s1 open c1 d\n\
s1 cur c1 both 6b 32 rmw\n\
s2 begin rc sync wait\n\
s2 open c1 d\n\
s2 cur c1 key 6b\n\
s2 count c1\n\
s1 cur c1 both 6b 31 rmw\n\
s2 count c1\n\
s2 abort\n\
s1 commit\n";

const READ_GIVEN_BACK_TEXT: &str = "1 s1 ok\n\
2 s1 ok\n\
3 s1 ok\n\
4 s1 ok txn 4\n\
5 s1 ok\n\
6 s1 ok 6b 32\n\
7 s2 ok txn 5\n\
8 s2 ok\n\
9 s2 ok 6b 31\n\
10 s2 waiting d 6b 32 by 4\n\
11 s1 waiting d 6b 31 by 5\n\
10 s2 deadlock 4 5\n\
11 s1 ok 6b 31\n\
12 s2 mustabort 4 5\n\
13 s2 ok\n\
14 s1 ok\n\
end commits 3 databases 1 records 2\n";

#[test]
fn victim_gives_reads_back(rt: HostRuntime) -> Result<(), Fail> {
    assert_writes(&rt, rt.alloc(), READ_GIVEN_BACK, READ_GIVEN_BACK_TEXT)?;
    Ok(())
}

// In each cycle the youngest transaction is the victim.
#[test]
fn deadlocks(rt: HostRuntime) -> Result<(), Fail> {
    for &(script, text) in &DEADLOCKS {
        assert_writes(&rt, rt.alloc(), script, text)?;
    }
    Ok(())
}

// One wait that closes two cycles: of two that end with different transactions the one through the lesser number is found first,
// and each has a victim; of two with the same victim the one that goes on to the lesser number is told, though it is longer.
static TWO_CYCLES: [(&[u8], &str); 2] = [
    (
        b"s1 create t plain\n\
s1 put t 61 31\n\
s3 begin rr sync wait\n\
s1 begin rr sync wait\n\
s2 begin rr sync wait\n\
s1 get t 61\n\
s2 get t 61\n\
s3 put t 62 32\n\
s1 put t 62 33\n\
s2 put t 62 34\n\
s3 put t 61 35\n\
s1 abort\n\
s2 abort\n\
s3 commit\n",
        "1 s1 ok\n\
2 s1 ok\n\
3 s3 ok txn 3\n\
4 s1 ok txn 4\n\
5 s2 ok txn 5\n\
6 s1 ok 61 31\n\
7 s2 ok 61 31\n\
8 s3 ok\n\
9 s1 waiting t 62 by 3\n\
10 s2 waiting t 62 by 3\n\
11 s3 waiting t 61 by 4\n\
9 s1 deadlock 3 4\n\
10 s2 deadlock 3 5\n\
12 s1 ok\n\
13 s2 ok\n\
11 s3 ok\n\
14 s3 ok\n\
end commits 3 databases 1 records 2\n",
    ),
    (
        b"s1 create t plain\n\
s1 put t 61 31\n\
s1 begin rr sync wait\n\
s2 begin rr sync wait\n\
s3 begin rr sync wait\n\
s2 get t 61\n\
s3 get t 61\n\
s1 put t 62 32\n\
s3 put t 63 33\n\
s2 put t 63 34\n\
s3 put t 62 35\n\
s1 put t 61 36\n\
s3 abort\n\
s2 commit\n\
s1 commit\n",
        "1 s1 ok\n\
2 s1 ok\n\
3 s1 ok txn 3\n\
4 s2 ok txn 4\n\
5 s3 ok txn 5\n\
6 s2 ok 61 31\n\
7 s3 ok 61 31\n\
8 s1 ok\n\
9 s3 ok\n\
10 s2 waiting t 63 by 5\n\
11 s3 waiting t 62 by 3\n\
12 s1 waiting t 61 by 4\n\
11 s3 deadlock 3 4 5\n\
13 s3 ok\n\
10 s2 ok\n\
14 s2 ok\n\
12 s1 ok\n\
15 s1 ok\n\
end commits 4 databases 1 records 3\n",
    ),
];

#[test]
fn two_cycles_at_once(rt: HostRuntime) -> Result<(), Fail> {
    for &(script, text) in &TWO_CYCLES {
        assert_writes(&rt, rt.alloc(), script, text)?;
    }
    Ok(())
}

// Sessions in a row that wait for one record, each with a transaction of its own; a record that a range read keeps away; a
// call that goes on once the transactions that are left open are ended; what is there by then, where a call may not set it,
// and what is not there; and one that waits as its transaction is ended.
static WAITS: [(&[u8], &str); 6] = [
    (
        b"s1 create t plain\n\
s1 begin rr sync wait\n\
s1 put t 61 31\n\
s2 put t 61 32\n\
s3 put t 61 33\n\
s4 get t 61\n\
s1 commit\n",
        "1 s1 ok\n\
2 s1 ok txn 2\n\
3 s1 ok\n\
4 s2 waiting t 61 by 2\n\
5 s3 waiting t 61 by 2\n\
6 s4 waiting t 61 by 2\n\
7 s1 ok\n\
4 s2 ok\n\
5 s3 ok\n\
6 s4 ok 61 33\n\
end commits 4 databases 1 records 1\n",
    ),
    (
        b"s1 create t plain\n\
s1 put t 61 31\n\
s1 put t 63 33\n\
s1 begin ser sync wait\n\
s1 get t 62\n\
s2 put t 62 32\n\
s3 put t 64 34\n\
s1 commit\n",
        "1 s1 ok\n\
2 s1 ok\n\
3 s1 ok\n\
4 s1 ok txn 4\n\
5 s1 notfound\n\
6 s2 waiting t 63 by 4\n\
7 s3 ok\n\
8 s1 ok\n\
6 s2 ok\n\
end commits 5 databases 1 records 4\n",
    ),
    (
        b"s1 create t plain\n\
s1 begin rr sync wait\n\
s1 put t 61 31\n\
s2 put t 61 32\n",
        "1 s1 ok\n\
2 s1 ok txn 2\n\
3 s1 ok\n\
4 s2 waiting t 61 by 2\n\
4 s2 ok\n\
end commits 2 databases 1 records 1\n",
    ),
    (
        b"s1 create t plain\n\
s1 begin rr sync wait\n\
s1 put t 61 31\n\
s2 putno t 61 32\n\
s3 delete t 61\n\
s4 delete t 61\n\
s1 commit\n\
s2 get t 61\n",
        "1 s1 ok\n\
2 s1 ok txn 2\n\
3 s1 ok\n\
4 s2 waiting t 61 by 2\n\
5 s3 waiting t 61 by 2\n\
6 s4 waiting t 61 by 2\n\
7 s1 ok\n\
4 s2 keyexist\n\
5 s3 ok\n\
6 s4 notfound\n\
8 s2 notfound\n\
end commits 3 databases 1 records 0\n",
    ),
    (
        b"s1 create t plain\n\
s1 begin rr sync wait\n\
s1 put t 61 31\n\
s2 putno t 61 32\n\
s3 put t 61 33\n\
s1 abort\n\
s2 get t 61\n",
        "1 s1 ok\n\
2 s1 ok txn 2\n\
3 s1 ok\n\
4 s2 waiting t 61 by 2\n\
5 s3 waiting t 61 by 2\n\
6 s1 ok\n\
4 s2 ok\n\
5 s3 ok\n\
7 s2 ok 61 33\n\
end commits 3 databases 1 records 1\n",
    ),
    (
        b"s1 create t plain\n\
s2 begin rr sync wait\n\
s2 put t 61 31\n\
s1 begin rr sync wait\n\
s1 put t 61 32\n",
        "1 s1 ok\n\
2 s2 ok txn 2\n\
3 s2 ok\n\
4 s1 ok txn 3\n\
5 s1 waiting t 61 by 2\n\
end commits 1 databases 1 records 0\n",
    ),
];

#[test]
fn waiting_sessions(rt: HostRuntime) -> Result<(), Fail> {
    for &(script, text) in &WAITS {
        assert_writes(&rt, rt.alloc(), script, text)?;
    }
    Ok(())
}

// Of two refusals that both apply the earlier one is answered: a session that waits, a victim, a call inside or outside
// a transaction, a database that is not there or whose name is taken or that is in use, a lock that is not available, a
// record that is there or is not.
static REFUSALS: [(&[u8], &str); 2] = [
    (
        b"s1 create t plain\n\
s1 commit\n\
s1 abort\n\
s1 begin rr sync wait\n\
s1 begin rr sync wait\n\
s1 create t plain\n\
s1 remove u\n\
s1 rename u t\n\
s1 truncate u\n\
s1 get u 61\n\
s1 put t 61 31\n\
s2 remove t\n\
s2 rename t t\n\
s2 truncate u\n\
s2 truncate t\n\
s2 put t 61 32\n\
s2 get u 61\n\
s2 begin rr sync wait\n\
s2 commit\n\
s3 begin rr sync nowait\n\
s3 putno t 61 33\n\
s1 commit\n\
s3 putno t 61 33\n\
s3 delete t 62\n\
s3 commit\n",
        "1 s1 ok\n\
2 s1 notxn\n\
3 s1 notxn\n\
4 s1 ok txn 2\n\
5 s1 intxn 2\n\
6 s1 intxn 2\n\
7 s1 intxn 2\n\
8 s1 intxn 2\n\
9 s1 intxn 2\n\
10 s1 nodatabase\n\
11 s1 ok\n\
12 s2 inuse 2\n\
13 s2 nametaken\n\
14 s2 nodatabase\n\
15 s2 inuse 2\n\
16 s2 waiting t 61 by 2\n\
17 s2 sessionwaits\n\
18 s2 sessionwaits\n\
19 s2 sessionwaits\n\
20 s3 ok txn 8\n\
21 s3 unavailable 2\n\
22 s1 ok\n\
16 s2 ok\n\
23 s3 keyexist\n\
24 s3 notfound\n\
25 s3 ok\n\
end commits 3 databases 1 records 1\n",
    ),
    (
        b"s1 create t plain\n\
s1 begin rr sync wait\n\
s2 begin rr sync wait\n\
s1 put t 61 31\n\
s2 put t 62 32\n\
s1 put t 62 33\n\
s2 put t 61 34\n\
s2 begin rr sync wait\n\
s2 create u plain\n\
s2 get u 61\n\
s2 commit\n\
s1 abort\n\
s2 abort\n\
s2 abort\n\
s1 abort\n",
        "1 s1 ok\n\
2 s1 ok txn 2\n\
3 s2 ok txn 3\n\
4 s1 ok\n\
5 s2 ok\n\
6 s1 waiting t 62 by 3\n\
7 s2 deadlock 2 3\n\
8 s2 mustabort 2 3\n\
9 s2 mustabort 2 3\n\
10 s2 mustabort 2 3\n\
11 s2 mustabort 2 3\n\
12 s1 sessionwaits\n\
13 s2 ok\n\
6 s1 ok\n\
14 s2 notxn\n\
15 s1 ok\n\
end commits 1 databases 1 records 0\n",
    ),
];

#[test]
fn refusals_in_order(rt: HostRuntime) -> Result<(), Fail> {
    for &(script, text) in &REFUSALS {
        assert_writes(&rt, rt.alloc(), script, text)?;
    }
    Ok(())
}

// What is not committed yet: read uncommitted sees it, read committed finds its lock not available; and commits that
// wait for nothing, of which the one without changes is not counted.
static LEVELS: [(&[u8], &str); 2] = [
    (
        b"s1 create t plain\n\
s1 begin rr sync wait\n\
s1 put t 61 31\n\
s2 begin ru sync nowait\n\
s2 get t 61\n\
s3 begin rc sync nowait\n\
s3 get t 61\n\
s1 abort\n\
s2 get t 61\n\
s3 get t 61\n",
        "1 s1 ok\n\
2 s1 ok txn 2\n\
3 s1 ok\n\
4 s2 ok txn 3\n\
5 s2 ok 61 31\n\
6 s3 ok txn 4\n\
7 s3 unavailable 2\n\
8 s1 ok\n\
9 s2 notfound\n\
10 s3 notfound\n\
end commits 1 databases 1 records 0\n",
    ),
    (
        b"s1 create t plain\n\
s1 begin rc nosync wait\n\
s1 put t 61 31\n\
s1 commit\n\
s1 begin rc nosync wait\n\
s1 get t 61\n\
s1 commit\n",
        "1 s1 ok\n\
2 s1 ok txn 2\n\
3 s1 ok\n\
4 s1 ok\n\
5 s1 ok txn 3\n\
6 s1 ok 61 31\n\
7 s1 ok\n\
end commits 2 databases 1 records 1\n",
    ),
];

#[test]
fn levels_and_commits(rt: HostRuntime) -> Result<(), Fail> {
    for &(script, text) in &LEVELS {
        assert_writes(&rt, rt.alloc(), script, text)?;
    }
    Ok(())
}

// A transaction whose commit is written out and not synced. It leaves the log that a call of its own leaves.
pub const WRITTEN: &[u8] =
    b"s1 create t plain\ns1 begin rr wsync wait\ns1 put t 61 31\ns1 commit\n";

const WRITTEN_TEXT: &str =
    "1 s1 ok\n2 s1 ok txn 2\n3 s1 ok\n4 s1 ok\nend commits 2 databases 1 records 1\n";

// How long the log is behind the database's commit.
const CREATED_LEN: usize = 84;

#[test]
fn written_commit(rt: HostRuntime) -> Result<(), Fail> {
    let alloc = rt.alloc();
    let disk = MemDisk::new(alloc);
    assert_leaves(
        &rt,
        alloc,
        disk,
        WRITTEN,
        0,
        WRITTEN_TEXT,
        &[(0, FIRST_LOG)],
    )?;
    Ok(())
}

// Zeros where its entries were to be written: they are cut off, and there is no record.
#[test]
fn zeros_behind_a_commit(rt: HostRuntime) -> Result<(), Fail> {
    let alloc = rt.alloc();
    let mut image = Vec::from_slice(alloc, &FIRST_LOG[..CREATED_LEN])?;
    image.resize(FIRST_LOG.len(), 0)?;
    let text = "1 s1 notfound\nend commits 0 databases 1 records 0\n";
    let left = &FIRST_LOG[..CREATED_LEN];
    assert_leaves(
        &rt,
        alloc,
        disk_with(alloc, &[(0, &image)])?,
        b"s1 get t 61\n",
        0,
        text,
        &[(0, left)],
    )?;
    Ok(())
}

// A call waits while another session's commit meets a fault of the disk: it is answered at once. Or that one has ended, and
// its own commit meets the fault.
const FAILING: &[u8] = b"s1 create t plain\n\
s1 begin rr sync wait\n\
s1 put t 61 31\n\
s2 put t 61 32\n\
s1 commit\n\
s1 get t 61\n";

static FAILING_TEXTS: [&str; 2] = [
    "1 s1 ok\n\
2 s1 ok txn 2\n\
3 s1 ok\n\
4 s2 waiting t 61 by 2\n\
5 s1 diskfault\n\
4 s2 invalid\n\
6 s1 invalid\n\
end commits 2 databases 1 records 1\n\
fault disk\n",
    "1 s1 ok\n\
2 s1 ok txn 2\n\
3 s1 ok\n\
4 s2 waiting t 61 by 2\n\
5 s1 ok\n\
4 s2 diskfault\n\
6 s1 invalid\n\
end commits 3 databases 1 records 1\n\
fault disk\n",
];

// Whether the script writes that text with this call of the disk failing.
fn fails_at(alloc: Global, call: u64, text: &str) -> Result<bool, AllocError> {
    let mut disk = MemDisk::new(alloc);
    disk.fail_calls(alloc, &[call])?;
    let ran = run_args(alloc, &RUN, disk, FAILING)?;
    Ok(ran.status == 4 && ran.text() == text)
}

// Whether it does with one of the first of them failing.
fn fails_so(alloc: Global, text: &str) -> Result<bool, AllocError> {
    for call in 1..40u64 {
        if fails_at(alloc, call, text)? {
            return Ok(true);
        }
    }
    Ok(false)
}

#[test]
fn waits_as_the_disk_fails(rt: HostRuntime) -> Result<(), Fail> {
    for &text in &FAILING_TEXTS {
        let found = fails_so(rt.alloc(), text)?;
        assert!(rt; found);
    }
    Ok(())
}
