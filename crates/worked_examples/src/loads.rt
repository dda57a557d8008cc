// Dumps that are loaded.
use crate::crashes::{Prefixes, stop_at_each_call};
use crate::fixture::{
    FIRST_LOG, HEADER, assert_ran, disk_of, disk_with, holds_files, run_args, run_script, run_with,
    strings,
};
use je_io::{MemSink, MemSource};
use mem_disk::MemDisk;
use std::alloc::{AllocError, Global};
use std::process::Abort;
use std::test::Fail;

const LOAD: [&str; 5] = ["load", "--home", "store", "--db", "t"];

const LOAD_KEEPING: [&str; 6] = ["load", "--home", "store", "--db", "t", "--no-overwrite"];

const LOAD_INDEX: [&str; 5] = ["load", "--home", "store", "--db", "i"];

const DUMP: [&str; 6] = ["dump", "--home", "store", "--db", "t", "--print"];

// The pair that the first example puts, in digits of which some are upper case and with names that are read past.
const FIRST_PAIR: &[u8] = b"\
VERSION=3\n\
db_pagesize=4096\n\
HEADER=END\n \
61\n \
31\n\
DATA=END";

// A key, and data that is not printed as itself.
const ESCAPED: &str = "\
VERSION=3\n\
format=print\n\
type=btree\n\
dupsort=0\n\
HEADER=END\n \
a\n \
\\\\\\0a\n\
DATA=END\n";

// Two pairs, of which one has the key of the first example, and that pair twice.
const PLAIN: &[u8] = b"\
VERSION=3\n\
HEADER=END\n \
61\n \
3a\n \
62\n \
32\n \
62\n \
3B\n\
DATA=END\n";

// Pairs of a database with sorted duplicates, of which one comes twice.
const SORTED: &str = "\
VERSION=3\n\
format=print\n\
type=btree\n\
dupsort=1\n\
HEADER=END\n \
k\n \
2\n \
k\n \
1\n \
\n \
\n \
k\n \
2\n\
DATA=END\n";

// The same as they are dumped.
const SORTED_DUMP: &str = "\
VERSION=3\n\
format=print\n\
type=btree\n\
dupsort=1\n\
HEADER=END\n \
\n \
\n \
k\n \
1\n \
k\n \
2\n\
DATA=END\n";

// A load of this dump with these arguments over these files has this status, writes this text, and leaves those files.
fn assert_loads(
    rt: &impl Abort,
    alloc: Global,
    args: &[&str],
    held: &[(u32, &[u8])],
    dump: &[u8],
    status: u8,
    text: &str,
    left: &[(u32, &[u8])],
) -> Result<(), AllocError> {
    let ran = run_args(alloc, args, disk_with(alloc, held)?, dump)?;
    assert_ran(rt, &ran, status, text);
    assert!(rt; holds_files(alloc, &ran.disk, left)?, "{text}");
    Ok(())
}

// A database is made, and the pair put, as the first example does it.
#[test]
fn a_dump_is_loaded(rt: HostRuntime) -> Result<(), Fail> {
    let alloc = rt.alloc();
    let text = "loaded 1 kept 0\n";
    let left: [(u32, &[u8]); 1] = [(0, FIRST_LOG)];
    assert_loads(&rt, alloc, &LOAD, &[], FIRST_PAIR, 0, text, &left)?;
    Ok(())
}

#[test]
fn what_is_loaded_is_dumped(rt: HostRuntime) -> Result<(), Fail> {
    let alloc = rt.alloc();
    let ran = run_args(alloc, &LOAD, MemDisk::new(alloc), ESCAPED.as_bytes())?;
    assert_ran(&rt, &ran, 0, "loaded 1 kept 0\n");
    let ran = run_args(alloc, &LOAD_KEEPING, disk_of(ran), ESCAPED.as_bytes())?;
    assert_ran(&rt, &ran, 0, "loaded 0 kept 1\n");
    let ran = run_args(alloc, &DUMP, disk_of(ran), b"")?;
    assert_ran(&rt, &ran, 0, ESCAPED);
    Ok(())
}

// Of equal keys the last data stays; with `--no-overwrite` the first does.
#[test]
fn records_are_replaced_or_stay(rt: HostRuntime) -> Result<(), Fail> {
    let alloc = rt.alloc();
    let held: [(u32, &[u8]); 1] = [(0, FIRST_LOG)];
    let reading = b"s1 get t 61\ns1 get t 62\n";
    let ran = run_args(alloc, &LOAD, disk_with(alloc, &held)?, PLAIN)?;
    assert_ran(&rt, &ran, 0, "loaded 3 kept 0\n");
    let ran = run_script(alloc, disk_of(ran), reading)?;
    let text = "1 s1 ok 61 3a\n2 s1 ok 62 3b\nend commits 0 databases 1 records 2\n";
    assert_ran(&rt, &ran, 0, text);
    let ran = run_args(alloc, &LOAD_KEEPING, disk_with(alloc, &held)?, PLAIN)?;
    assert_ran(&rt, &ran, 0, "loaded 1 kept 2\n");
    let ran = run_script(alloc, disk_of(ran), reading)?;
    let text = "1 s1 ok 61 31\n2 s1 ok 62 32\nend commits 0 databases 1 records 2\n";
    assert_ran(&rt, &ran, 0, text);
    Ok(())
}

// A pair that is there is put again without a word; with `--no-overwrite` it is counted as kept.
#[test]
fn duplicates_are_loaded(rt: HostRuntime) -> Result<(), Fail> {
    let alloc = rt.alloc();
    let ran = run_args(alloc, &LOAD, MemDisk::new(alloc), SORTED.as_bytes())?;
    assert_ran(&rt, &ran, 0, "loaded 4 kept 0\n");
    let ran = run_args(alloc, &LOAD_KEEPING, disk_of(ran), SORTED.as_bytes())?;
    assert_ran(&rt, &ran, 0, "loaded 0 kept 4\n");
    let ran = run_args(alloc, &DUMP, disk_of(ran), b"")?;
    assert_ran(&rt, &ran, 0, SORTED_DUMP);
    let ran = run_args(alloc, &LOAD_KEEPING, MemDisk::new(alloc), SORTED.as_bytes())?;
    assert_ran(&rt, &ran, 0, "loaded 3 kept 1\n");
    Ok(())
}

// Dumps with their first bad lines.
static BAD: [(&[u8], &str); 6] = [
    (b"", "fault dump line 1\n"),
    (
        b"VERSION=3\nformat=print\ntype=btree\nHEADER=END\n a\nDATA=END\n",
        "fault dump line 6\n",
    ),
    (
        b"VERSION=3\nHEADER=END\n 61\n 3\nDATA=END\n",
        "fault dump line 4\n",
    ),
    (b"VERSION=3\nHEADER=END\n 61\n 31\n", "fault dump line 5\n"),
    (
        b"VERSION=3\ntype=hash\nHEADER=END\nDATA=END\n",
        "fault dump line 2\n",
    ),
    (
        b"VERSION=3\nHEADER=END\nDATA=END\n\n",
        "fault dump line 4\n",
    ),
];

// The disk is not touched: its first call, which is to fail, is still to come.
#[test]
fn bad_lines_are_told(rt: HostRuntime) -> Result<(), Fail> {
    let alloc = rt.alloc();
    for &(dump, text) in &BAD {
        let mut disk = MemDisk::new(alloc);
        disk.fail_calls(alloc, &[1])?;
        let ran = run_args(alloc, &LOAD, disk, dump)?;
        assert_ran(&rt, &ran, 3, text);
        assert!(rt; holds_files(alloc, &ran.disk, &[])?, "{text}");
    }
    Ok(())
}

// A database that keeps its records otherwise: the last line on duplicates is bad, or the one that ends the header.
#[test]
fn another_kind_is_told(rt: HostRuntime) -> Result<(), Fail> {
    let alloc = rt.alloc();
    let held: [(u32, &[u8]); 1] = [(0, FIRST_LOG)];
    let dump = b"VERSION=3\ndupsort=0\ndupsort=1\nformat=print\nHEADER=END\nDATA=END\n";
    let text = "fault dump line 3\n";
    assert_loads(&rt, alloc, &LOAD, &held, dump, 3, text, &held)?;
    let made = run_script(alloc, MemDisk::new(alloc), b"s1 create t dup\n")?;
    let ran = run_args(alloc, &LOAD, disk_of(made), FIRST_PAIR)?;
    assert_ran(&rt, &ran, 3, "fault dump line 3\n");
    Ok(())
}

// An index takes no pairs, whatever its dump says.
#[test]
fn an_index_is_not_loaded(rt: HostRuntime) -> Result<(), Fail> {
    let alloc = rt.alloc();
    let script = b"s1 create p plain\ns1 create i index p field 1 2c\n";
    let made = run_script(alloc, MemDisk::new(alloc), script)?;
    let ran = run_args(alloc, &LOAD_INDEX, disk_of(made), SORTED.as_bytes())?;
    assert_ran(&rt, &ran, 10, "fault no database\n");
    let ran = run_args(alloc, &LOAD_INDEX, disk_of(ran), ESCAPED.as_bytes())?;
    assert_ran(&rt, &ran, 10, "fault no database\n");
    Ok(())
}

// A dump without a pair makes its database; a torn tail is cut off, also where no pair is loaded.
#[test]
fn a_load_opens_the_environment(rt: HostRuntime) -> Result<(), Fail> {
    let alloc = rt.alloc();
    let empty = b"VERSION=3\nHEADER=END\nDATA=END\n";
    let made: [(u32, &[u8]); 1] = [(0, &FIRST_LOG[..84])];
    let text = "loaded 0 kept 0\n";
    assert_loads(&rt, alloc, &LOAD, &[], empty, 0, text, &made)?;
    let torn: [(u32, &[u8]); 1] = [(0, &FIRST_LOG[..100])];
    let text = "fault dump line 4\n";
    assert_loads(&rt, alloc, &LOAD, &torn, SORTED.as_bytes(), 3, text, &made)?;
    Ok(())
}

// The entries of the transaction with the last number, which makes a database.
const LAST_TXN: &[u8] = b"\
\x8e\x71\x08\x07\
\x02\
\x00\
\x00\x00\x00\x00\
\x00\x00\x00\x16\
\x7f\xff\xff\xff\xff\xff\xff\xff\
\x00\x00\x00\x00\
\x00\x01\
t\
\x00\x00\
\x00\x00\x00\x01\
\x00\
\x21\xe2\x07\xa0\
\x05\
\x00\
\x00\x00\x00\x1a\
\x00\x00\x00\x08\
\x7f\xff\xff\xff\xff\xff\xff\xff";

// A transaction that is refused: no pair is put, one by one, outside it.
#[test]
fn a_refused_transaction_ends_a_load(rt: HostRuntime) -> Result<(), Fail> {
    let alloc = rt.alloc();
    let mut log = Vec::from_slice(alloc, HEADER)?;
    log.extend_from_slice(LAST_TXN)?;
    let held: [(u32, &[u8]); 1] = [(0, &log)];
    let text = "fault ids ended\n";
    assert_loads(&rt, alloc, &LOAD, &held, FIRST_PAIR, 12, text, &held)?;
    assert_loads(&rt, alloc, &LOAD_INDEX, &held, FIRST_PAIR, 12, text, &held)?;
    Ok(())
}

// The disk stops at each call: what a crash leaves opens without a database, with one that is empty, or with all pairs.
#[test]
fn stops_in_a_load(rt: HostRuntime) -> Result<(), Fail> {
    let alloc = rt.alloc();
    let texts = [
        "1 s1 nodatabase\n2 s1 nodatabase\nend commits 0 databases 0 records 0\n",
        "1 s1 notfound\n2 s1 notfound\nend commits 0 databases 1 records 0\n",
        "1 s1 ok 61 3a\n2 s1 ok 62 3b\nend commits 0 databases 1 records 2\n",
    ];
    let reading = b"s1 get t 61\ns1 get t 62\n";
    let mut prefixes = Prefixes::new(alloc, reading, strings(alloc, &texts)?)?;
    assert!(rt; stop_at_each_call(&rt, alloc, &LOAD, PLAIN, &mut prefixes)? == Some(1));
    Ok(())
}

// An input that fails, and one that is too long.
#[test]
fn the_input_of_a_load_fails(rt: HostRuntime) -> Result<(), Fail> {
    let alloc = rt.alloc();
    let mut input = MemSource::failing(FIRST_PAIR, 0);
    let ran = run_with(
        alloc,
        &LOAD,
        MemDisk::new(alloc),
        &mut input,
        MemSink::new(alloc),
    )?;
    assert_ran(&rt, &ran, 7, "fault input\n");
    let long = vec![in alloc; b'#'; 16_777_217]?;
    let ran = run_args(alloc, &LOAD, MemDisk::new(alloc), &long)?;
    assert_ran(&rt, &ran, 11, "fault input too long\n");
    Ok(())
}
