// A run of the program in memory, and what it came to.
use je_io::{MemSink, MemSource, Source};
use je_lsn::FileNo;
use je_program::{Ended, run_je};
use mem_disk::MemDisk;
use std::alloc::{AllocError, Global};
use std::process::Abort;
use store_model::Event;

// What a run came to. It is handed out in a box, so that each way out of a test lets it go in one step.
#[derive(Drop)]
pub struct Ran {
    pub status: u8,
    pub output: MemSink,
    pub disk: MemDisk,
    pub journal: Vec<Event>,
}

impl Ran {
    // What was written.
    pub fn text(&self) -> &str {
        std::str::from_utf8(self.output.bytes()).unwrap_or("no text")
    }
}

// The disk that a run left.
pub fn disk_of(ran: Box<Ran>) -> MemDisk {
    let Ran { disk, .. } = Box::into_inner(ran);
    disk
}

// The arguments of a valid command line, and of one for log files of at most 4,096 bytes.
pub const RUN: [&str; 3] = ["run", "--home", "store"];

pub const RUN_SMALL: [&str; 5] = ["run", "--home", "store", "--file-max", "4096"];

// Those of one for nodes of at most four slots, and of one for nodes of at most 128 with log files of 65,536 bytes.
pub const RUN_NARROW: [&str; 7] = [
    "run",
    "--home",
    "store",
    "--file-max",
    "65536",
    "--fanout",
    "4",
];

pub const RUN_WIDE: [&str; 7] = [
    "run",
    "--home",
    "store",
    "--file-max",
    "65536",
    "--fanout",
    "128",
];

// A file's header, which is the whole log of an empty store.
pub const HEADER: &[u8] = b"\
\x0c\xb3\x01\x31\
\x01\
\x00\
\x00\x00\x00\x00\
\x00\x00\x00\x0c\
\x4a\x45\x4c\x47\
\x00\x00\x00\x01\
\x00\x00\x00\x00";

// The script of the first example, and what it writes.
pub const FIRST: &[u8] = b"s1 create t plain\ns1 put t 61 31\ns2 get t 61\n";

pub const FIRST_TEXT: &str =
    "1 s1 ok\n2 s1 ok\n3 s2 ok 61 31\nend commits 2 databases 1 records 1\n";

// The log that the first example leaves: the header, the database's record in the catalog with its
// commit, and the key's record with its commit.
pub const FIRST_LOG: &[u8] = b"\
\x0c\xb3\x01\x31\
\x01\
\x00\
\x00\x00\x00\x00\
\x00\x00\x00\x0c\
\x4a\x45\x4c\x47\
\x00\x00\x00\x01\
\x00\x00\x00\x00\
\x06\x14\x00\x90\
\x02\
\x00\
\x00\x00\x00\x00\
\x00\x00\x00\x16\
\x00\x00\x00\x00\x00\x00\x00\x01\
\x00\x00\x00\x00\
\x00\x01\
t\
\x00\x00\
\x00\x00\x00\x01\
\x00\
\x02\x07\x00\x29\
\x05\
\x00\
\x00\x00\x00\x1a\
\x00\x00\x00\x08\
\x00\x00\x00\x00\x00\x00\x00\x01\
\x09\x13\x00\xe9\
\x02\
\x00\
\x00\x00\x00\x3e\
\x00\x00\x00\x12\
\x00\x00\x00\x00\x00\x00\x00\x02\
\x00\x00\x00\x01\
\x00\x01\
a\
\x00\x00\
1\
\x04\xfa\x00\x64\
\x05\
\x00\
\x00\x00\x00\x54\
\x00\x00\x00\x08\
\x00\x00\x00\x00\x00\x00\x00\x02";

pub fn strings(alloc: Global, args: &[&str]) -> Result<Vec<String>, AllocError> {
    let mut strings = Vec::new(alloc);
    for word in args {
        strings.push(String::from_str(alloc, word)?)?;
    }
    Ok(strings)
}

// Runs the program with these arguments, this input and this output.
pub fn run_with<S: Source>(
    alloc: Global,
    args: &[&str],
    disk: MemDisk,
    input: &mut S,
    mut output: MemSink,
) -> Result<Box<Ran>, AllocError> {
    let args = strings(alloc, args)?;
    let Ended {
        status,
        cause: _,
        opened: _,
        disk,
        journal,
        opening: _,
        totals: _,
        records: _,
    } = run_je(alloc, &args, disk, input, &mut output);
    let ran = Ran {
        status,
        output,
        disk,
        journal,
    };
    Ok(Box::new(alloc, ran)?)
}

// Runs a script over a disk, with these arguments.
pub fn run_args(
    alloc: Global,
    args: &[&str],
    disk: MemDisk,
    script: &[u8],
) -> Result<Box<Ran>, AllocError> {
    let mut input = MemSource::new(script);
    run_with(alloc, args, disk, &mut input, MemSink::new(alloc))
}

// The same with log files of at most 4,096 bytes.
pub fn run_small(alloc: Global, disk: MemDisk, script: &[u8]) -> Result<Box<Ran>, AllocError> {
    run_args(alloc, &RUN_SMALL, disk, script)
}

// The same with the arguments of a valid command line.
pub fn run_script(alloc: Global, disk: MemDisk, script: &[u8]) -> Result<Box<Ran>, AllocError> {
    run_args(alloc, &RUN, disk, script)
}

// The disk that the first example leaves.
pub fn first_disk(rt: &impl Abort, alloc: Global) -> Result<MemDisk, AllocError> {
    let ran = run_script(alloc, MemDisk::new(alloc), FIRST)?;
    assert_ran(rt, &ran, 0, FIRST_TEXT);
    Ok(disk_of(ran))
}

// A disk whose files have these numbers and bytes.
pub fn disk_with(alloc: Global, held: &[(u32, &[u8])]) -> Result<MemDisk, AllocError> {
    let mut files = Vec::new(alloc);
    for (f, bytes) in held {
        files.push((FileNo(*f), Vec::from_slice(alloc, bytes)?))?;
    }
    MemDisk::with_files(alloc, files)
}

// Whether the disk has these files, and no others.
pub fn holds_files(
    alloc: Global,
    disk: &MemDisk,
    held: &[(u32, &[u8])],
) -> Result<bool, AllocError> {
    let files = disk.files(alloc)?;
    let mut same = files.len() == held.len();
    for ((f, bytes), (number, wanted)) in files.iter().zip(held) {
        same = same && f.0 == *number && bytes.as_slice() == *wanted;
    }
    Ok(same)
}

// A run has this status, and wrote this text.
pub fn assert_ran(rt: &impl Abort, ran: &Ran, status: u8, text: &str) {
    let found = ran.status;
    assert_eq!(rt; ran.text(), text);
    assert_eq!(rt; found, status);
}

// A script over this disk has this status, writes this text, and leaves these files.
pub fn assert_leaves(
    rt: &impl Abort,
    alloc: Global,
    disk: MemDisk,
    script: &[u8],
    status: u8,
    text: &str,
    left: &[(u32, &[u8])],
) -> Result<(), AllocError> {
    let ran = run_script(alloc, disk, script)?;
    assert_ran(rt, &ran, status, text);
    assert!(rt; holds_files(alloc, &ran.disk, left)?, "{text}");
    Ok(())
}

// So many bytes `1` in hexadecimal digits.
pub fn ones(alloc: Global, len: usize) -> Result<Vec<u8>, AllocError> {
    let mut digits = Vec::new(alloc);
    for _ in 0..len {
        digits.extend_from_slice(b"31")?;
    }
    Ok(digits)
}

// Writes a line that puts data of so many bytes `1` under a key, which is spelled in hexadecimal digits.
pub fn put_line(
    alloc: Global,
    script: &mut Vec<u8>,
    key: &[u8],
    len: usize,
) -> Result<(), AllocError> {
    for piece in [
        b"s1 put t ".as_slice(),
        key,
        b" ",
        &ones(alloc, len)?,
        b"\n",
    ] {
        script.extend_from_slice(piece)?;
    }
    Ok(())
}
