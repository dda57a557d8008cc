// Nodes that are split: records in trees of several levels, opened again.
use crate::fixture::{RUN_NARROW, RUN_WIDE, assert_ran, disk_of, run_args};
use mem_disk::MemDisk;
use std::alloc::{AllocError, Global};
use std::process::Abort;
use std::test::Fail;

// How many records there are at most.
const RECORDS: u32 = 10_000;

// Keys and data begin behind this number, so that each has six digits.
const BASE: u32 = 100_000;

// Scripts over one folder with nodes of four slots, each run opening what the one before it left, and what they write. The
// fifth record splits the first node, and databases of several nodes are renamed, emptied and removed.
static RUNS: [(&[u8], &str); 4] = [
    (
        b"s1 create t plain\n\
s1 put t 65 35\n\
s1 put t 61 31\n\
s1 put t 63 33\n\
s1 put t 62 32\n\
s1 put t 64 34\n\
s1 get t 61\n",
        "1 s1 ok\n\
2 s1 ok\n\
3 s1 ok\n\
4 s1 ok\n\
5 s1 ok\n\
6 s1 ok\n\
7 s1 ok 61 31\n\
end commits 6 databases 1 records 5\n",
    ),
    (
        b"s1 get t 61\n\
s1 get t 62\n\
s1 get t 63\n\
s1 get t 64\n\
s1 get t 65\n\
s1 create u plain\n\
s1 put u 01 01\n\
s1 put u 02 02\n\
s1 put u 03 03\n\
s1 put u 04 04\n\
s1 put u 05 05\n\
s1 put u 06 06\n\
s1 create v plain\n\
s1 put v 06 06\n\
s1 put v 05 05\n\
s1 put v 04 04\n\
s1 put v 03 03\n\
s1 put v 02 02\n\
s1 put v 01 01\n\
s1 rename u w\n\
s1 truncate t\n\
s1 list\n",
        "1 s1 ok 61 31\n\
2 s1 ok 62 32\n\
3 s1 ok 63 33\n\
4 s1 ok 64 34\n\
5 s1 ok 65 35\n\
6 s1 ok\n\
7 s1 ok\n\
8 s1 ok\n\
9 s1 ok\n\
10 s1 ok\n\
11 s1 ok\n\
12 s1 ok\n\
13 s1 ok\n\
14 s1 ok\n\
15 s1 ok\n\
16 s1 ok\n\
17 s1 ok\n\
18 s1 ok\n\
19 s1 ok\n\
20 s1 ok\n\
21 s1 ok\n\
22 s1 ok t v w\n\
end commits 16 databases 3 records 12\n",
    ),
    (
        b"s1 get t 61\n\
s1 get w 05\n\
s1 get v 03\n\
s1 remove v\n\
s1 put t 61 31\n\
s1 delete w 01\n\
s1 delete w 02\n\
s1 delete w 03\n\
s1 rename w v\n\
s1 list\n",
        "1 s1 notfound\n\
2 s1 ok 05 05\n\
3 s1 ok 03 03\n\
4 s1 ok\n\
5 s1 ok\n\
6 s1 ok\n\
7 s1 ok\n\
8 s1 ok\n\
9 s1 ok\n\
10 s1 ok t v\n\
end commits 6 databases 2 records 4\n",
    ),
    (
        b"s1 get t 61\n\
s1 get v 03\n\
s1 get v 04\n\
s1 get v 06\n\
s1 list\n",
        "1 s1 ok 61 31\n\
2 s1 notfound\n\
3 s1 ok 04 04\n\
4 s1 ok 06 06\n\
5 s1 ok t v\n\
end commits 0 databases 2 records 4\n",
    ),
];

// The disk that such a run leaves.
fn run_over(
    rt: &impl Abort,
    alloc: Global,
    args: &[&str],
    disk: MemDisk,
    script: &[u8],
    text: &str,
) -> Result<MemDisk, AllocError> {
    let ran = run_args(alloc, args, disk, script)?;
    assert_ran(rt, &ran, 0, text);
    Ok(disk_of(ran))
}

#[test]
fn few_records(rt: HostRuntime) -> Result<(), Fail> {
    let alloc = rt.alloc();
    let mut disk = MemDisk::new(alloc);
    for &(script, text) in &RUNS {
        disk = run_over(&rt, alloc, &RUN_NARROW, disk, script, text)?;
    }
    Ok(())
}

// The numbers of all records, in an order that looks like none.
fn shuffled(alloc: Global) -> Result<Vec<u32>, AllocError> {
    let mut numbers = Vec::new(alloc);
    let mut next: u32 = 0;
    for _ in 0..16_384u32 {
        next = next.wrapping_mul(1_229).wrapping_add(1) % 16_384;
        if next < RECORDS {
            numbers.push(next.wrapping_add(BASE))?;
        }
    }
    Ok(numbers)
}

// Whether the record of the number is left.
fn is_left(number: u32) -> bool {
    number % 2 == 1
}

// A script that puts all records, and then deletes those that are not left.
fn changing(alloc: Global) -> Result<String, AllocError> {
    let numbers = shuffled(alloc)?;
    let mut script = String::from_str(alloc, "s1 create t plain\n")?;
    for number in &numbers {
        script.push_str(format!(in alloc; "s1 put t {number} {number}\n")?.as_str())?;
    }
    for number in &numbers {
        if !is_left(*number) {
            script.push_str(format!(in alloc; "s1 delete t {number}\n")?.as_str())?;
        }
    }
    Ok(script)
}

// A script that reads all records in order.
fn reading(alloc: Global) -> Result<String, AllocError> {
    let mut script = String::new(alloc);
    for number in 100_000..110_000u32 {
        script.push_str(format!(in alloc; "s1 get t {number}\n")?.as_str())?;
    }
    Ok(script)
}

// What that writes, by the list of the records that are left.
fn listed(alloc: Global) -> Result<String, AllocError> {
    let mut text = String::new(alloc);
    for number in 100_000..110_000u32 {
        let line = number.wrapping_sub(99_999);
        if is_left(number) {
            text.push_str(format!(in alloc; "{line} s1 ok {number} {number}\n")?.as_str())?;
        } else {
            text.push_str(format!(in alloc; "{line} s1 notfound\n")?.as_str())?;
        }
    }
    text.push_str("end commits 0 databases 1 records 5000\n")?;
    Ok(text)
}

// All records are put, half of them are deleted, and the folder is opened again.
fn assert_many(rt: &impl Abort, alloc: Global, args: &[&str]) -> Result<(), AllocError> {
    let ran = run_args(
        alloc,
        args,
        MemDisk::new(alloc),
        changing(alloc)?.as_bytes(),
    )?;
    let end = "\nend commits 15001 databases 1 records 5000\n";
    assert!(rt; ran.text().ends_with(end) && ran.status == 0);
    let disk = disk_of(ran);
    drop(run_over(
        rt,
        alloc,
        args,
        disk,
        reading(alloc)?.as_bytes(),
        listed(alloc)?.as_str(),
    )?);
    Ok(())
}

#[test]
fn many_records_in_narrow_nodes(rt: HostRuntime) -> Result<(), Fail> {
    assert_many(&rt, rt.alloc(), &RUN_NARROW)?;
    Ok(())
}

#[test]
fn many_records_in_wide_nodes(rt: HostRuntime) -> Result<(), Fail> {
    assert_many(&rt, rt.alloc(), &RUN_WIDE)?;
    Ok(())
}

// Seven records, whose keys do not rise.
const UNSORTED: &[u8] = b"s1 create t plain\n\
s1 begin rr sync wait\n\
s1 put t 01 31\n\
s1 put t 02 31\n\
s1 put t 04 31\n\
s1 put t 05 31\n\
s1 put t 03 31\n\
s1 put t 06 31\n\
s1 put t 07 31\n\
s1 commit\n";

const UNSORTED_TEXT: &str = "1 s1 ok\n\
2 s1 ok txn 2\n\
3 s1 ok\n\
4 s1 ok\n\
5 s1 ok\n\
6 s1 ok\n\
7 s1 ok\n\
8 s1 ok\n\
9 s1 ok\n\
10 s1 ok\n\
end commits 2 databases 1 records 7\n";

// The nodes in which the log has images have the numbers up to 4. An opening without a checkpoint makes the catalog's node, 5, and that of the
// records, 6, which the fifth of these splits: 7 has 04 to 07 in the end, and 8 is the root. In the order of keys the seventh would split a node again.
const FLUSHES: &[u8] = b"m begin\nm flush\nm flush\nm flush\nm flush\nm flush\nm finish\n";

const FLUSHES_TEXT: &str = "1 m ok\n\
2 m flushed 5\n\
3 m flushed 6\n\
4 m flushed 7\n\
5 m flushed 8\n\
6 m nothing\n\
7 m ok\n\
end commits 0 databases 1 records 7\n";

#[test]
fn changes_are_redone_in_order(rt: HostRuntime) -> Result<(), Fail> {
    let alloc = rt.alloc();
    let ran = run_args(alloc, &RUN_NARROW, MemDisk::new(alloc), UNSORTED)?;
    assert_ran(&rt, &ran, 0, UNSORTED_TEXT);
    let again = run_args(alloc, &RUN_NARROW, disk_of(ran), FLUSHES)?;
    assert_ran(&rt, &again, 0, FLUSHES_TEXT);
    Ok(())
}
