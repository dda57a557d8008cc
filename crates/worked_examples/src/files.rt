// Logs of several files, torn ones, and files that cannot be opened.
use crate::fixture::{
    FIRST_LOG, HEADER, Ran, assert_leaves, assert_ran, disk_of, disk_with, put_line, run_script,
    run_small,
};
use mem_disk::MemDisk;
use std::alloc::{AllocError, Global};
use std::process::Abort;
use std::test::Fail;

// The header of file 1.
pub const HEADER_1: &[u8] = b"\
\x0c\xb4\x01\x32\
\x01\
\x00\
\x00\x00\x00\x00\
\x00\x00\x00\x0c\
\x4a\x45\x4c\x47\
\x00\x00\x00\x01\
\x00\x00\x00\x01";

// The header of the last file that there may be, 0xfffffffe.
const HEADER_LAST: &[u8] = b"\
\x16\xa8\x05\x2c\
\x01\
\x00\
\x00\x00\x00\x00\
\x00\x00\x00\x0c\
\x4a\x45\x4c\x47\
\x00\x00\x00\x01\
\xff\xff\xff\xfe";

// The header of file 0 in version 9 of the format.
pub const HEADER_9: &[u8] = b"\
\x0c\xdb\x01\x39\
\x01\
\x00\
\x00\x00\x00\x00\
\x00\x00\x00\x0c\
\x4a\x45\x4c\x47\
\x00\x00\x00\x09\
\x00\x00\x00\x00";

// A log whose transaction 1 puts the database t into the catalog with number 0, which is none.
pub const NO_NUMBER: &[u8] = b"\
\x0c\xb3\x01\x31\
\x01\
\x00\
\x00\x00\x00\x00\
\x00\x00\x00\x0c\
\x4a\x45\x4c\x47\
\x00\x00\x00\x01\
\x00\x00\x00\x00\
\x06\x12\x00\x8f\
\x02\
\x00\
\x00\x00\x00\x00\
\x00\x00\x00\x16\
\x00\x00\x00\x00\x00\x00\x00\x01\
\x00\x00\x00\x00\
\x00\x01\
t\
\x00\x00\
\x00\x00\x00\x00\
\x00\
\x02\x07\x00\x29\
\x05\
\x00\
\x00\x00\x00\x1a\
\x00\x00\x00\x08\
\x00\x00\x00\x00\x00\x00\x00\x01";

// A log whose transaction 2 puts a record with a dup into the plain database t.
pub const WITH_DUP: &[u8] = b"\
\x0c\xb3\x01\x31\
\x01\
\x00\
\x00\x00\x00\x00\
\x00\x00\x00\x0c\
\x4a\x45\x4c\x47\
\x00\x00\x00\x01\
\x00\x00\x00\x00\
\x06\x14\x00\x90\
\x02\
\x00\
\x00\x00\x00\x00\
\x00\x00\x00\x16\
\x00\x00\x00\x00\x00\x00\x00\x01\
\x00\x00\x00\x00\
\x00\x01\
t\
\x00\x00\
\x00\x00\x00\x01\
\x00\
\x02\x07\x00\x29\
\x05\
\x00\
\x00\x00\x00\x1a\
\x00\x00\x00\x08\
\x00\x00\x00\x00\x00\x00\x00\x01\
\x0a\xaa\x01\x4f\
\x02\
\x00\
\x00\x00\x00\x3e\
\x00\x00\x00\x13\
\x00\x00\x00\x00\x00\x00\x00\x02\
\x00\x00\x00\x01\
\x00\x01\
a\
\x00\x01\
d\
1\
\x04\xfa\x00\x64\
\x05\
\x00\
\x00\x00\x00\x54\
\x00\x00\x00\x08\
\x00\x00\x00\x00\x00\x00\x00\x02";

// File 1 behind the log of the first example: an index i of t by the first byte of the data, which has
// not the pair of the one record there.
pub const WITHOUT_PAIR: &[u8] = b"\
\x0c\xb4\x01\x32\
\x01\
\x00\
\x00\x00\x00\x00\
\x00\x00\x00\x0c\
\x4a\x45\x4c\x47\
\x00\x00\x00\x01\
\x00\x00\x00\x01\
\x0e\x04\x00\x98\
\x02\
\x00\
\x00\x00\x00\x00\
\x00\x00\x00\x22\
\x00\x00\x00\x00\x00\x00\x00\x03\
\x00\x00\x00\x00\
\x00\x01\
i\
\x00\x00\
\x00\x00\x00\x02\
\x02\
\x00\x00\x00\x01\
\x00\x00\x00\x00\
\x00\x00\x00\x01\
\x02\x09\x00\x2b\
\x05\
\x00\
\x00\x00\x00\x1a\
\x00\x00\x00\x08\
\x00\x00\x00\x00\x00\x00\x00\x03";

// The log of the first example cut to each length: what it means, and what opening leaves of it, a
// header at least. From each of these lengths on that many bytes are left.
#[test]
fn torn_tail(rt: HostRuntime) -> Result<(), Fail> {
    let alloc = rt.alloc();
    let mut left = HEADER;
    for len in 0..139usize {
        let (cut, _) = FIRST_LOG.split_at(len);
        if [62, 84, 116, 138].contains(&len) {
            left = cut;
        }
        let text = match left.len() {
            26 | 62 => "end commits 0 databases 0 records 0\n",
            84 | 116 => "end commits 0 databases 1 records 0\n",
            _ => "end commits 0 databases 1 records 1\n",
        };
        let disk = disk_with(alloc, &[(0, cut)])?;
        assert_leaves(&rt, alloc, disk, b"", 0, text, &[(0, left)])?;
    }
    Ok(())
}

// Zeros behind the log of one database are a torn entry, and are cut off.
#[test]
fn zeros_at_the_end(rt: HostRuntime) -> Result<(), Fail> {
    let alloc = rt.alloc();
    let (front, _) = FIRST_LOG.split_at(84);
    let mut log = Vec::from_slice(alloc, front)?;
    log.extend_from_slice(&[0; 54])?;
    let disk = disk_with(alloc, &[(0, &log)])?;
    let text = "1 s1 notfound\nend commits 0 databases 1 records 0\n";
    assert_leaves(&rt, alloc, disk, b"s1 get t 61\n", 0, text, &[(0, front)])?;
    Ok(())
}

// Files that cannot be opened are left as they are, and the line says why.
fn assert_refused(
    rt: &impl Abort,
    alloc: Global,
    files: &[(u32, &[u8])],
    text: &str,
) -> Result<(), AllocError> {
    let disk = disk_with(alloc, files)?;
    assert_leaves(rt, alloc, disk, b"s1 get t 61\n", 5, text, files)
}

// Files, and why they cannot be opened.
static UNREADABLE: [(&[(u32, &[u8])], &str); 8] = [
    (&[(0, b""), (1, HEADER_1)], "fault damaged 0x0/0x0\n"),
    (&[(0, HEADER_1)], "fault damaged 0x0/0x0\n"),
    (&[(0, HEADER_9)], "fault version 00000000.jdb 9\n"),
    (&[(0, FIRST_LOG), (2, HEADER_1)], "fault damaged 0x2/0x0\n"),
    (&[(0, FIRST_LOG), (2, b"")], "fault missing 0x1/0x0\n"),
    (&[(0, NO_NUMBER)], "fault tree 0x0/0x1a\n"),
    (&[(0, WITH_DUP)], "fault tree 0x0/0x54\n"),
    (&[(0, FIRST_LOG), (1, WITHOUT_PAIR)], "fault index i\n"),
];

#[test]
fn unreadable_files(rt: HostRuntime) -> Result<(), Fail> {
    for &(files, text) in &UNREADABLE {
        assert_refused(&rt, rt.alloc(), files, text)?;
    }
    Ok(())
}

// A changed byte and a torn end in a file that is not the last one.
#[test]
fn damaged_files(rt: HostRuntime) -> Result<(), Fail> {
    let alloc = rt.alloc();
    let mut damaged = Vec::from_slice(alloc, FIRST_LOG)?;
    if let Some(byte) = damaged.get_mut(30) {
        *byte ^= 1;
    }
    let (cut, _) = FIRST_LOG.split_at(137);
    let next = (1, HEADER_1);
    assert_refused(
        &rt,
        alloc,
        &[(0, &damaged), next],
        "fault damaged 0x0/0x1a\n",
    )?;
    assert_refused(&rt, alloc, &[(0, cut), next], "fault damaged 0x0/0x74\n")?;
    Ok(())
}

// A last file without a whole header gets one, and nothing else is lost.
#[test]
fn headless_last_file(rt: HostRuntime) -> Result<(), Fail> {
    let alloc = rt.alloc();
    let (part, _) = HEADER_1.split_at(10);
    let left = [(0, FIRST_LOG), (1, HEADER_1)];
    let text = "1 s1 ok 61 31\nend commits 0 databases 1 records 1\n";
    for torn in [b"".as_slice(), part, HEADER_1] {
        let disk = disk_with(alloc, &[(0, FIRST_LOG), (1, torn)])?;
        assert_leaves(&rt, alloc, disk, b"s1 get t 61\n", 0, text, &left)?;
    }
    Ok(())
}

// A key in hexadecimal digits, and how long its data is.
type Put = (&'static [u8], usize);

// A run that makes t and puts these records, with log files of at most 4,096 bytes.
fn run_puts(alloc: Global, disk: MemDisk, puts: &[Put]) -> Result<Box<Ran>, AllocError> {
    let mut script = Vec::from_slice(alloc, b"s1 create t plain\n")?;
    for (key, len) in puts {
        put_line(alloc, &mut script, key, *len)?;
    }
    run_small(alloc, disk, &script)
}

// Whether the disk's files are so long, in order.
fn has_lengths(alloc: Global, disk: &MemDisk, wanted: &[usize]) -> Result<bool, AllocError> {
    let files = disk.files(alloc)?;
    let mut same = files.len() == wanted.len();
    for ((_, bytes), len) in files.iter().zip(wanted) {
        same = same && bytes.len() == *len;
    }
    Ok(same)
}

// Records that are put, how long the files are then, and how many commits and records there are. Files of
// 4,096 bytes: one that is filled to the last byte, one more entry, and an entry that is longer than a
// file, whose commit stands in the file behind it.
static SMALL: [(&[Put], &[usize], &str); 4] = [
    (
        &[(b"61", 3_959)],
        &[4_096],
        "end commits 2 databases 1 records 1\n",
    ),
    (
        &[(b"61", 3_960)],
        &[4_075, 48],
        "end commits 2 databases 1 records 1\n",
    ),
    (
        &[(b"61", 3_959), (b"62", 1)],
        &[4_096, 80],
        "end commits 3 databases 1 records 2\n",
    ),
    (
        &[(b"61", 3_959), (b"62", 5_000)],
        &[4_096, 5_057, 48],
        "end commits 3 databases 1 records 2\n",
    ),
];

// The disk that these records leave.
fn small_disk(
    rt: &impl Abort,
    alloc: Global,
    puts: &[Put],
    lengths: &[usize],
    text: &str,
) -> Result<MemDisk, AllocError> {
    let ran = run_puts(alloc, MemDisk::new(alloc), puts)?;
    let is_end = ran.text().ends_with(text);
    assert!(rt; is_end && has_lengths(alloc, &ran.disk, lengths)?, "{text}");
    Ok(disk_of(ran))
}

#[test]
fn small_files(rt: HostRuntime) -> Result<(), Fail> {
    let alloc = rt.alloc();
    for &(puts, lengths, text) in &SMALL {
        let disk = small_disk(&rt, alloc, puts, lengths, text)?;
        let again = run_script(alloc, disk, b"s1 delete t 61\n")?;
        assert!(rt;
            again
                .text()
                .starts_with("1 s1 ok\nend commits 1 databases 1 ")
        );
    }
    Ok(())
}

// The last file that there may be: what would begin a file behind it finds no room.
#[test]
fn last_file(rt: HostRuntime) -> Result<(), Fail> {
    let alloc = rt.alloc();
    let disk = disk_with(alloc, &[(0xffff_fffe, HEADER_LAST)])?;
    let ran = run_puts(alloc, disk, &[(b"61", 5_000)])?;
    let text = "1 s1 ok\n2 s1 logfull\nend commits 1 databases 1 records 0\nfault log full\n";
    assert_ran(&rt, &ran, 12, text);
    let again = run_script(alloc, disk_of(ran), b"s1 put t 61 31\n")?;
    let text = "1 s1 ok\nend commits 1 databases 1 records 1\n";
    assert_ran(&rt, &again, 0, text);
    Ok(())
}

// A script that makes t, puts 600 records from the greatest key down and the least 20 of them again with
// other data, and takes one out.
fn many_lines(alloc: Global) -> Result<String, AllocError> {
    let mut script = String::from_str(alloc, "s1 create t plain\n")?;
    for key in (1000..1600u16).rev() {
        script.push_str(&format!(in alloc; "s1 put t {key} 31\n")?)?;
    }
    for key in 1000..1020u16 {
        script.push_str(&format!(in alloc; "s1 put t {key} 32\n")?)?;
    }
    script.push_str("s1 delete t 1001\n")?;
    Ok(script)
}

// Records in no order, some put twice and one taken out, are found when the log is opened again.
#[test]
fn many_records(rt: HostRuntime) -> Result<(), Fail> {
    let alloc = rt.alloc();
    let script = many_lines(alloc)?;
    let ran = run_script(alloc, MemDisk::new(alloc), script.as_bytes())?;
    assert!(rt;
        ran.text()
            .ends_with("end commits 622 databases 1 records 599\n")
    );
    let reading = b"s1 get t 1000\ns1 get t 1001\ns1 get t 1599\n";
    let again = run_script(alloc, disk_of(ran), reading)?;
    let text =
        "1 s1 ok 1000 32\n2 s1 notfound\n3 s1 ok 1599 31\nend commits 0 databases 1 records 599\n";
    assert_ran(&rt, &again, 0, text);
    Ok(())
}
