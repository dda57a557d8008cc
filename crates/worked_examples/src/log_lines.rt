// The log as text.
use crate::files::{HEADER_1, HEADER_9, NO_NUMBER};
use crate::fixture::{FIRST_LOG, HEADER, assert_ran, disk_with, holds_files, run_args, run_with};
use je_io::{MemSink, MemSource};
use std::alloc::{AllocError, Global};
use std::process::Abort;
use std::test::Fail;

const PRINT: [&str; 3] = ["printlog", "--home", "store"];

// The lines of the log that the first example leaves.
const FIRST_LINES: &str = "\
0x0/0x0 FileHeader size 26 prev 0x0\n\
0x0/0x1a Put size 36 prev 0x0 txn 1 db 0\n\
0x0/0x3e Commit size 22 prev 0x1a txn 1\n\
0x0/0x54 Put size 32 prev 0x3e txn 2 db 1\n\
0x0/0x74 Commit size 22 prev 0x54 txn 2\n";

// Those of the log with one byte of its first record's entry lacking.
const TORN_LINES: &str = "\
0x0/0x0 FileHeader size 26 prev 0x0\n\
0x0/0x1a Put size 36 prev 0x0 txn 1 db 0\n\
0x0/0x3e Commit size 22 prev 0x1a txn 1\n\
torn 0x0/0x54\n";

const TWO_HEADERS: &str = "\
0x0/0x0 FileHeader size 26 prev 0x0\n\
0x1/0x0 FileHeader size 26 prev 0x0\n";

// Printing the log of these files has this status, writes this text, and leaves the files as they are.
fn assert_prints(
    rt: &impl Abort,
    alloc: Global,
    held: &[(u32, &[u8])],
    status: u8,
    text: &str,
) -> Result<(), AllocError> {
    let ran = run_args(alloc, &PRINT, disk_with(alloc, held)?, b"")?;
    assert_ran(rt, &ran, status, text);
    assert!(rt; holds_files(alloc, &ran.disk, held)?, "{text}");
    Ok(())
}

#[test]
fn each_entry_has_a_line(rt: HostRuntime) -> Result<(), Fail> {
    let alloc = rt.alloc();
    assert_prints(&rt, alloc, &[(0, FIRST_LOG)], 0, FIRST_LINES)?;
    assert_prints(&rt, alloc, &[(0, HEADER), (1, HEADER_1)], 0, TWO_HEADERS)?;
    Ok(())
}

#[test]
fn a_torn_tail_has_a_line(rt: HostRuntime) -> Result<(), Fail> {
    let alloc = rt.alloc();
    assert_prints(&rt, alloc, &[(0, &FIRST_LOG[..115])], 0, TORN_LINES)?;
    assert_prints(&rt, alloc, &[(0, &FIRST_LOG[..100])], 0, TORN_LINES)?;
    assert_prints(&rt, alloc, &[(0, &FIRST_LOG[..25])], 0, "torn 0x0/0x0\n")?;
    Ok(())
}

#[test]
fn a_log_is_printed_whatever_it_means(rt: HostRuntime) -> Result<(), Fail> {
    let alloc = rt.alloc();
    let lines = "\
        0x0/0x0 FileHeader size 26 prev 0x0\n\
        0x0/0x1a Put size 36 prev 0x0 txn 1 db 0\n\
        0x0/0x3e Commit size 22 prev 0x1a txn 1\n";
    assert_prints(&rt, alloc, &[(0, NO_NUMBER)], 0, lines)?;
    Ok(())
}

#[test]
fn a_damaged_log_is_told(rt: HostRuntime) -> Result<(), Fail> {
    let alloc = rt.alloc();
    let mut bytes = Vec::from_slice(alloc, FIRST_LOG)?;
    bytes[30] ^= 1;
    let damaged = "fault damaged 0x0/0x1a\n";
    assert_prints(&rt, alloc, &[(0, &bytes), (1, HEADER_1)], 5, damaged)?;
    let other = "fault version 00000000.jdb 9\n";
    assert_prints(&rt, alloc, &[(0, HEADER_9)], 5, other)?;
    Ok(())
}

#[test]
fn no_log_is_told(rt: HostRuntime) -> Result<(), Fail> {
    assert_prints(&rt, rt.alloc(), &[], 10, "fault no environment\n")?;
    Ok(())
}

#[test]
fn the_input_is_not_read(rt: HostRuntime) -> Result<(), Fail> {
    let alloc = rt.alloc();
    let mut input = MemSource::failing(b"", 0);
    let disk = disk_with(alloc, &[(0, HEADER)])?;
    let ran = run_with(alloc, &PRINT, disk, &mut input, MemSink::new(alloc))?;
    assert_ran(&rt, &ran, 0, "0x0/0x0 FileHeader size 26 prev 0x0\n");
    Ok(())
}
