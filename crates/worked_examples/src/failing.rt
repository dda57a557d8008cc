// Runs in which the disk, the input or the output fails.
use crate::fixture::{
    FIRST, FIRST_LOG, FIRST_TEXT, HEADER, RUN, Ran, assert_leaves, assert_ran, disk_of,
    holds_files, run_script, run_with,
};
use je_disk::{Disk, DiskErr};
use je_io::{MemSink, MemSource};
use mem_disk::MemDisk;
use std::alloc::{AllocError, Global};
use std::process::Abort;
use std::test::Fail;

// The first example over a disk of which this call fails.
fn run_failing(alloc: Global, call: u64) -> Result<Box<Ran>, AllocError> {
    let mut disk = MemDisk::new(alloc);
    disk.fail_calls(alloc, &[call])?;
    run_script(alloc, disk, FIRST)
}

// Whether opening again goes on so.
fn goes_on(alloc: Global, disk: MemDisk, after: &str) -> Result<bool, AllocError> {
    let again = run_script(alloc, disk, b"s1 get t 61\n")?;
    Ok(again.text().starts_with(after))
}

// Whether the first example, with this call of the disk failing, writes this text, and opening again
// goes on so.
fn fails_so(alloc: Global, call: u64, text: &str, after: &str) -> Result<bool, AllocError> {
    let ran = run_failing(alloc, call)?;
    let same = ran.status == 4 && ran.text() == text;
    Ok(same && goes_on(alloc, disk_of(ran), after)?)
}

// From this call on, the first with which it does not.
fn first_other(alloc: Global, call: u64, text: &str, after: &str) -> Result<u64, AllocError> {
    let mut call = call;
    for _ in 0..100 {
        if !fails_so(alloc, call, text, after)? {
            break;
        }
        call = call.saturating_add(1);
    }
    Ok(call)
}

// What is written where a call of the disk fails, and what opening again answers. The rows come in this
// order, each for one call or more.
static FAULTS: [(&str, &str); 6] = [
    ("fault disk\n", "1 s1 nodatabase\n"),
    (
        "1 s1 diskfault\n2 s1 invalid\n3 s2 invalid\nend commits 1 databases 1 records 0\nfault disk\n",
        "1 s1 nodatabase\n",
    ),
    (
        "1 s1 diskfault\n2 s1 invalid\n3 s2 invalid\nend commits 1 databases 1 records 0\nfault disk\n",
        "1 s1 notfound\n",
    ),
    (
        "1 s1 ok\n2 s1 diskfault\n3 s2 invalid\nend commits 2 databases 1 records 1\nfault disk\n",
        "1 s1 notfound\n",
    ),
    (
        "1 s1 ok\n2 s1 diskfault\n3 s2 invalid\nend commits 2 databases 1 records 1\nfault disk\n",
        "1 s1 ok 61 31\n",
    ),
    (
        "1 s1 ok\n2 s1 ok\n3 s2 ok 61 31\nend commits 2 databases 1 records 1\nfault disk\n",
        "1 s1 ok 61 31\n",
    ),
];

// The first example, with each of the disk's calls failing in turn, up to a run that makes no such call.
#[test]
fn failing_disk(rt: HostRuntime) -> Result<(), Fail> {
    let alloc = rt.alloc();
    let mut call = 1u64;
    for &(text, after) in &FAULTS {
        let next = first_other(alloc, call, text, after)?;
        assert!(rt; next > call, "call {call} is not {text}");
        call = next;
    }
    let ran = run_failing(alloc, call)?;
    assert_ran(&rt, &ran, 0, FIRST_TEXT);
    Ok(())
}

// A read that fails after so many good ones: no call was made on the disk, so that its first call, which
// is to fail, is still to come.
fn assert_input_fails(rt: &impl Abort, alloc: Global, good_reads: u64) -> Result<(), AllocError> {
    let mut disk = MemDisk::new(alloc);
    disk.fail_calls(alloc, &[1])?;
    let mut input = MemSource::failing(FIRST, good_reads);
    let mut ran = run_with(alloc, &RUN, disk, &mut input, MemSink::new(alloc))?;
    assert_ran(rt, &ran, 7, "fault input\n");
    assert!(rt; holds_files(alloc, &ran.disk, &[])?);
    assert!(rt; ran.disk.mount() == Err(DiskErr::Failed));
    Ok(())
}

// At once, and where the end would be.
#[test]
fn failing_input(rt: HostRuntime) -> Result<(), Fail> {
    assert_input_fails(&rt, rt.alloc(), 0)?;
    assert_input_fails(&rt, rt.alloc(), 1)?;
    Ok(())
}

// The longest input, a comment, and one that is one byte longer.
#[test]
fn long_input(rt: HostRuntime) -> Result<(), Fail> {
    let alloc = rt.alloc();
    let mut input = vec![in alloc; b'#'; 16_777_216]?;
    let text = "end commits 0 databases 0 records 0\n";
    assert_leaves(
        &rt,
        alloc,
        MemDisk::new(alloc),
        &input,
        0,
        text,
        &[(0, HEADER)],
    )?;
    input.push(b'#')?;
    let text = "fault input too long\n";
    assert_leaves(&rt, alloc, MemDisk::new(alloc), &input, 11, text, &[])?;
    Ok(())
}

// An output that takes ten bytes: they are the report's first, and all was done.
#[test]
fn failing_output(rt: HostRuntime) -> Result<(), Fail> {
    let alloc = rt.alloc();
    let mut input = MemSource::new(FIRST);
    let sink = MemSink::failing(alloc, 10);
    let ran = run_with(alloc, &RUN, MemDisk::new(alloc), &mut input, sink)?;
    assert_ran(&rt, &ran, 8, "1 s1 ok\n2 ");
    let text = "1 s1 ok 61 31\nend commits 0 databases 1 records 1\n";
    assert_leaves(
        &rt,
        alloc,
        disk_of(ran),
        b"s1 get t 61\n",
        0,
        text,
        &[(0, FIRST_LOG)],
    )?;
    Ok(())
}
