// How much of a log is live.
use crate::files::{HEADER_1, HEADER_9, NO_NUMBER};
use crate::fixture::{
    FIRST_LOG, HEADER, assert_ran, disk_of, disk_with, holds_files, run_args, run_script,
};
use std::alloc::{AllocError, Global};
use std::process::Abort;
use std::test::Fail;

const STAT: [&str; 3] = ["stat", "--home", "store"];

// A count of these files has this status, writes this text, and leaves those files.
fn assert_counts(
    rt: &impl Abort,
    alloc: Global,
    held: &[(u32, &[u8])],
    status: u8,
    text: &str,
    left: &[(u32, &[u8])],
) -> Result<(), AllocError> {
    let ran = run_args(alloc, &STAT, disk_with(alloc, held)?, b"")?;
    assert_ran(rt, &ran, status, text);
    assert!(rt; holds_files(alloc, &ran.disk, left)?, "{text}");
    Ok(())
}

// A count of what a script leaves behind the first example's log.
fn assert_counts_after(
    rt: &impl Abort,
    alloc: Global,
    script: &[u8],
    text: &str,
) -> Result<(), AllocError> {
    let ran = run_script(alloc, disk_with(alloc, &[(0, FIRST_LOG)])?, script)?;
    let ran = run_args(alloc, &STAT, disk_of(ran), b"")?;
    assert_ran(rt, &ran, 0, text);
    Ok(())
}

#[test]
fn records_are_live(rt: HostRuntime) -> Result<(), Fail> {
    let alloc = rt.alloc();
    let one: [(u32, &[u8]); 1] = [(0, FIRST_LOG)];
    let text = "\
        files 1 bytes 138 live 68\n\
        file 00000000.jdb total 138 live 68 util 49\n\
        databases 1 records 1\n\
        last txn 2\n";
    assert_counts(&rt, alloc, &one, 0, text, &one)?;
    let two: [(u32, &[u8]); 2] = [(0, FIRST_LOG), (1, HEADER_1)];
    let text = "\
        files 2 bytes 164 live 68\n\
        file 00000000.jdb total 138 live 68 util 49\n\
        file 00000001.jdb total 26 live 0 util 0\n\
        databases 1 records 1\n\
        last txn 2\n";
    assert_counts(&rt, alloc, &two, 0, text, &two)?;
    Ok(())
}

// A record that was put again, and one that was deleted.
#[test]
fn what_was_replaced_is_not_live(rt: HostRuntime) -> Result<(), Fail> {
    let script = b"s1 put t 61 3233\ns1 put t 62 31\ns1 delete t 62\n";
    let text = "\
        files 1 bytes 300 live 69\n\
        file 00000000.jdb total 300 live 69 util 23\n\
        databases 1 records 1\n\
        last txn 5\n";
    assert_counts_after(&rt, rt.alloc(), script, text)?;
    Ok(())
}

// The images of a checkpoint's two nodes, and its records.
#[test]
fn nodes_are_live(rt: HostRuntime) -> Result<(), Fail> {
    let script = b"m begin\nm flush\nm flush\nm finish\n";
    let text = "\
        files 1 bytes 336 live 152\n\
        file 00000000.jdb total 336 live 152 util 45\n\
        databases 1 records 1\n\
        last txn 2\n";
    assert_counts_after(&rt, rt.alloc(), script, text)?;
    Ok(())
}

// A torn tail was cut off, and a header written, before anything is counted.
#[test]
fn what_is_left_is_counted(rt: HostRuntime) -> Result<(), Fail> {
    let alloc = rt.alloc();
    let torn: [(u32, &[u8]); 1] = [(0, &FIRST_LOG[..100])];
    let cut: [(u32, &[u8]); 1] = [(0, &FIRST_LOG[..84])];
    let text = "\
        files 1 bytes 84 live 36\n\
        file 00000000.jdb total 84 live 36 util 42\n\
        databases 1 records 0\n\
        last txn 1\n";
    assert_counts(&rt, alloc, &torn, 0, text, &cut)?;
    let headless: [(u32, &[u8]); 1] = [(0, &FIRST_LOG[..25])];
    let headed: [(u32, &[u8]); 1] = [(0, HEADER)];
    let text = "\
        files 1 bytes 26 live 0\n\
        file 00000000.jdb total 26 live 0 util 0\n\
        databases 0 records 0\n\
        last txn 0\n";
    assert_counts(&rt, alloc, &headless, 0, text, &headed)?;
    Ok(())
}

#[test]
fn what_cannot_be_opened_is_not_counted(rt: HostRuntime) -> Result<(), Fail> {
    let alloc = rt.alloc();
    assert_counts(&rt, alloc, &[], 10, "fault no environment\n", &[])?;
    let other: [(u32, &[u8]); 1] = [(0, HEADER_9)];
    let version = "fault version 00000000.jdb 9\n";
    assert_counts(&rt, alloc, &other, 5, version, &other)?;
    let number: [(u32, &[u8]); 1] = [(0, NO_NUMBER)];
    let tree = "fault tree 0x0/0x1a\n";
    assert_counts(&rt, alloc, &number, 5, tree, &number)?;
    Ok(())
}
