// What is wrong with files.
use crate::files::{HEADER_1, HEADER_9, NO_NUMBER, WITH_DUP, WITHOUT_PAIR};
use crate::fixture::{FIRST_LOG, HEADER, assert_ran, disk_with, holds_files, run_args, run_with};
use je_io::{MemSink, MemSource};
use std::alloc::{AllocError, Global};
use std::process::Abort;
use std::test::Fail;

const VERIFY: [&str; 3] = ["verify", "--home", "store"];

// A check of these files has this status, writes this text, and leaves the files as they are.
fn assert_checks(
    rt: &impl Abort,
    alloc: Global,
    held: &[(u32, &[u8])],
    status: u8,
    text: &str,
) -> Result<(), AllocError> {
    let ran = run_args(alloc, &VERIFY, disk_with(alloc, held)?, b"")?;
    assert_ran(rt, &ran, status, text);
    assert!(rt; holds_files(alloc, &ran.disk, held)?, "{text}");
    Ok(())
}

// Files in which nothing is wrong: a whole log, one of two files, and a torn one.
#[test]
fn nothing_is_found(rt: HostRuntime) -> Result<(), Fail> {
    let alloc = rt.alloc();
    let whole = "\
        file 00000000.jdb entries 5 bytes 138\n\
        database t records 1\n\
        verify ok\n";
    assert_checks(&rt, alloc, &[(0, FIRST_LOG)], 0, whole)?;
    let two = "\
        file 00000000.jdb entries 1 bytes 26\n\
        file 00000001.jdb entries 1 bytes 26\n\
        verify ok\n";
    assert_checks(&rt, alloc, &[(0, HEADER), (1, HEADER_1)], 0, two)?;
    let torn = "\
        file 00000000.jdb entries 3 bytes 84\n\
        database t records 0\n\
        verify ok\n";
    assert_checks(&rt, alloc, &[(0, &FIRST_LOG[..115])], 0, torn)?;
    let headless = "\
        file 00000000.jdb entries 0 bytes 0\n\
        verify ok\n";
    assert_checks(&rt, alloc, &[(0, &FIRST_LOG[..25])], 0, headless)?;
    Ok(())
}

// A record of the catalog, one of a database, and an index.
#[test]
fn what_is_wrong_is_left_out(rt: HostRuntime) -> Result<(), Fail> {
    let alloc = rt.alloc();
    let number = "\
        file 00000000.jdb entries 3 bytes 84\n\
        tree 0x0/0x1a\n\
        verify findings 1\n";
    assert_checks(&rt, alloc, &[(0, NO_NUMBER)], 9, number)?;
    let dup = "\
        file 00000000.jdb entries 5 bytes 139\n\
        database t records 0\n\
        tree 0x0/0x54\n\
        verify findings 1\n";
    assert_checks(&rt, alloc, &[(0, WITH_DUP)], 9, dup)?;
    let pair = "\
        file 00000000.jdb entries 5 bytes 138\n\
        file 00000001.jdb entries 3 bytes 96\n\
        database i records 0\n\
        database t records 1\n\
        index i\n\
        verify findings 1\n";
    assert_checks(&rt, alloc, &[(0, FIRST_LOG), (1, WITHOUT_PAIR)], 9, pair)?;
    Ok(())
}

// Each missing file, and what is wrong behind them.
#[test]
fn a_check_goes_on(rt: HostRuntime) -> Result<(), Fail> {
    let alloc = rt.alloc();
    let text = "\
        file 00000000.jdb entries 5 bytes 139\n\
        file 00000003.jdb entries 0 bytes 0\n\
        database t records 0\n\
        missing 0x1/0x0\n\
        missing 0x2/0x0\n\
        tree 0x0/0x54\n\
        verify findings 3\n";
    assert_checks(&rt, alloc, &[(0, WITH_DUP), (3, b"")], 9, text)?;
    Ok(())
}

#[test]
fn files_that_cannot_be_read_are_told(rt: HostRuntime) -> Result<(), Fail> {
    let alloc = rt.alloc();
    let mut bytes = Vec::from_slice(alloc, FIRST_LOG)?;
    bytes[30] ^= 1;
    let damaged = "fault damaged 0x0/0x1a\n";
    assert_checks(&rt, alloc, &[(0, &bytes), (1, HEADER_1)], 5, damaged)?;
    let other = "fault version 00000000.jdb 9\n";
    assert_checks(&rt, alloc, &[(0, HEADER_9)], 5, other)?;
    assert_checks(&rt, alloc, &[], 10, "fault no environment\n")?;
    Ok(())
}

#[test]
fn the_input_is_not_read(rt: HostRuntime) -> Result<(), Fail> {
    let alloc = rt.alloc();
    let mut input = MemSource::failing(b"", 0);
    let disk = disk_with(alloc, &[(0, HEADER)])?;
    let ran = run_with(alloc, &VERIFY, disk, &mut input, MemSink::new(alloc))?;
    let text = "file 00000000.jdb entries 1 bytes 26\nverify ok\n";
    assert_ran(&rt, &ran, 0, text);
    Ok(())
}
