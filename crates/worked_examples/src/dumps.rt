// Databases as dumps.
use crate::files::HEADER_9;
use crate::fixture::{
    FIRST_LOG, HEADER, assert_ran, disk_of, disk_with, holds_files, run_args, run_script, run_with,
};
use je_io::{MemSink, MemSource};
use mem_disk::MemDisk;
use std::alloc::{AllocError, Global};
use std::process::Abort;
use std::test::Fail;

const DUMP: [&str; 5] = ["dump", "--home", "store", "--db", "t"];

const DUMP_PRINTED: [&str; 6] = ["dump", "--home", "store", "--db", "t", "--print"];

const DUMP_INDEX: [&str; 6] = ["dump", "--home", "store", "--db", "i", "--print"];

const NO_DATABASE: &str = "fault no database\n";

// The dumps of the log that the first example leaves.
const FIRST_DUMP: &str = "\
VERSION=3\n\
format=bytevalue\n\
type=btree\n\
dupsort=0\n\
HEADER=END\n \
61\n \
31\n\
DATA=END\n";

const FIRST_PRINTED: &str = "\
VERSION=3\n\
format=print\n\
type=btree\n\
dupsort=0\n\
HEADER=END\n \
a\n \
1\n\
DATA=END\n";

// A script that leaves an index and a database that has duplicates, an empty one and such as are not printed among them.
const SEVERAL: &[u8] = b"\
s1 create t dup\n\
s1 put t 6b 32\n\
s1 put t 6b 31\n\
s1 put t 6b 00\n\
s1 put t 5c -\n\
s1 create p plain\n\
s1 create i index p slice 1 1\n\
s1 put p 61 7879\n\
s1 put p 62 797a\n";

const SEVERAL_PRINTED: &str = "\
VERSION=3\n\
format=print\n\
type=btree\n\
dupsort=1\n\
HEADER=END\n \
\\\\\n \
\n \
k\n \
\\00\n \
k\n \
1\n \
k\n \
2\n\
DATA=END\n";

const INDEX_PRINTED: &str = "\
VERSION=3\n\
format=print\n\
type=btree\n\
dupsort=1\n\
HEADER=END\n \
y\n \
a\n \
z\n \
b\n\
DATA=END\n";

// A dump with these arguments of these files has this status, writes this text, and leaves those files.
fn assert_dumps(
    rt: &impl Abort,
    alloc: Global,
    args: &[&str],
    held: &[(u32, &[u8])],
    status: u8,
    text: &str,
    left: &[(u32, &[u8])],
) -> Result<(), AllocError> {
    let ran = run_args(alloc, args, disk_with(alloc, held)?, b"")?;
    assert_ran(rt, &ran, status, text);
    assert!(rt; holds_files(alloc, &ran.disk, left)?, "{text}");
    Ok(())
}

#[test]
fn a_database_is_dumped(rt: HostRuntime) -> Result<(), Fail> {
    let alloc = rt.alloc();
    let held: [(u32, &[u8]); 1] = [(0, FIRST_LOG)];
    assert_dumps(&rt, alloc, &DUMP, &held, 0, FIRST_DUMP, &held)?;
    assert_dumps(&rt, alloc, &DUMP_PRINTED, &held, 0, FIRST_PRINTED, &held)?;
    Ok(())
}

#[test]
fn duplicates_and_indexes_are_dumped(rt: HostRuntime) -> Result<(), Fail> {
    let alloc = rt.alloc();
    let made = run_script(alloc, MemDisk::new(alloc), SEVERAL)?;
    let ran = run_args(alloc, &DUMP_PRINTED, disk_of(made), b"")?;
    assert_ran(&rt, &ran, 0, SEVERAL_PRINTED);
    let ran = run_args(alloc, &DUMP_INDEX, disk_of(ran), b"")?;
    assert_ran(&rt, &ran, 0, INDEX_PRINTED);
    Ok(())
}

#[test]
fn what_is_not_there_is_told(rt: HostRuntime) -> Result<(), Fail> {
    let alloc = rt.alloc();
    let held: [(u32, &[u8]); 1] = [(0, FIRST_LOG)];
    assert_dumps(&rt, alloc, &DUMP_INDEX, &held, 10, NO_DATABASE, &held)?;
    assert_dumps(&rt, alloc, &DUMP, &[], 10, "fault no environment\n", &[])?;
    let empty: [(u32, &[u8]); 1] = [(0, HEADER)];
    assert_dumps(&rt, alloc, &DUMP, &empty, 10, NO_DATABASE, &empty)?;
    Ok(())
}

#[test]
fn a_dump_opens_the_environment(rt: HostRuntime) -> Result<(), Fail> {
    let alloc = rt.alloc();
    let torn: [(u32, &[u8]); 1] = [(0, &FIRST_LOG[..100])];
    let cut: [(u32, &[u8]); 1] = [(0, &FIRST_LOG[..84])];
    let text = "VERSION=3\nformat=bytevalue\ntype=btree\ndupsort=0\nHEADER=END\nDATA=END\n";
    assert_dumps(&rt, alloc, &DUMP, &torn, 0, text, &cut)?;
    let headless: [(u32, &[u8]); 1] = [(0, &FIRST_LOG[..25])];
    let headed: [(u32, &[u8]); 1] = [(0, HEADER)];
    assert_dumps(&rt, alloc, &DUMP, &headless, 10, NO_DATABASE, &headed)?;
    Ok(())
}

#[test]
fn files_that_cannot_be_opened_are_told(rt: HostRuntime) -> Result<(), Fail> {
    let alloc = rt.alloc();
    let other: [(u32, &[u8]); 1] = [(0, HEADER_9)];
    let unknown = "fault version 00000000.jdb 9\n";
    assert_dumps(&rt, alloc, &DUMP, &other, 5, unknown, &other)?;
    let gap: [(u32, &[u8]); 2] = [(0, FIRST_LOG), (2, b"")];
    let missing = "fault missing 0x1/0x0\n";
    assert_dumps(&rt, alloc, &DUMP, &gap, 5, missing, &gap)?;
    Ok(())
}

#[test]
fn the_input_of_a_dump_is_not_read(rt: HostRuntime) -> Result<(), Fail> {
    let alloc = rt.alloc();
    let mut input = MemSource::failing(b"", 0);
    let disk = disk_with(alloc, &[(0, FIRST_LOG)])?;
    let ran = run_with(alloc, &DUMP, disk, &mut input, MemSink::new(alloc))?;
    assert_ran(&rt, &ran, 0, FIRST_DUMP);
    Ok(())
}
