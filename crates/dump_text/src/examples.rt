// Dumps that are read, dumps that are none, and the text of one.
use crate::{DumpErr, parse_dump, put_end, put_header, put_pair};
use je_io::MemSink;
use std::alloc::{AllocError, Global};
use text_out::OutBuffer;

type Text = &'static [u8];

/// A text, and the number of its first bad line, or 0.
#[derive(Clone, Copy)]
struct Row(Text, u32);

static TEXTS: [Row; 24] = [
    Row(b"VERSION=3\nHEADER=END\nDATA=END\n", 0),
    Row(b"VERSION=3\nHEADER=END\nDATA=END", 0),
    Row(
        b"VERSION=3\ndb_pagesize=4096\n=x\nHEADER=END\n 6B\n \nDATA=END\n",
        0,
    ),
    Row(
        b"VERSION=3\nformat=print\nHEADER=END\n a\\\\\\0a\n ~\nDATA=END\n",
        0,
    ),
    Row(
        b"VERSION=3\nformat=print\nformat=bytevalue\nHEADER=END\n 6b\n 64\nDATA=END\n",
        0,
    ),
    Row(b"", 1),
    Row(b"VERSION=2\n", 1),
    Row(b"VERSION=3\r\nHEADER=END\nDATA=END\n", 1),
    Row(b"VERSION=3\n", 2),
    Row(b"VERSION=3\nformat\nHEADER=END\nDATA=END\n", 2),
    Row(b"VERSION=3\nformat=hex\nHEADER=END\nDATA=END\n", 2),
    Row(b"VERSION=3\ntype=hash\nHEADER=END\nDATA=END\n", 2),
    Row(b"VERSION=3\ndupsort=2\nHEADER=END\nDATA=END\n", 2),
    Row(b"VERSION=3\nVERSION=4\nHEADER=END\nDATA=END\n", 2),
    Row(b"VERSION=3\nHEADER=1\nHEADER=END\nDATA=END\n", 2),
    Row(b"VERSION=3\nHEADER=END\n", 3),
    Row(b"VERSION=3\nHEADER=END\n6b\n 64\nDATA=END\n", 3),
    Row(b"VERSION=3\nHEADER=END\n 6b\n 6\nDATA=END\n", 4),
    Row(b"VERSION=3\nHEADER=END\n 6b\nDATA=END\n", 4),
    Row(b"VERSION=3\nHEADER=END\n 6b\n 64\n", 5),
    Row(b"VERSION=3\nHEADER=END\nDATA=END\n\n", 4),
    Row(b"VERSION=3\nHEADER=END\nDATA=END\nVERSION=3\n", 4),
    Row(
        b"VERSION=3\nformat=print\nHEADER=END\n a\\\n b\nDATA=END\n",
        4,
    ),
    Row(
        b"VERSION=3\nformat=print\nHEADER=END\n a\n \x7f\nDATA=END\n",
        5,
    ),
];

fn is_read(alloc: Global, row: Row) -> Result<bool, AllocError> {
    match parse_dump(alloc, row.0) {
        Ok(dump) => {
            drop(dump);
            Ok(row.1 == 0)
        }
        Err(DumpErr::BadDump { line }) => Ok(line == row.1),
        Err(DumpErr::Memory) => Err(AllocError),
    }
}

static PRINTED: Text =
    b"VERSION=3\nformat=print\ntype=btree\ndupsort=1\nHEADER=END\n a\\\\\n \\00~\\ff\nDATA=END\n";

static DIGITS: Text =
    b"VERSION=3\nformat=bytevalue\ntype=btree\ndupsort=0\nHEADER=END\n 615c\n 007eff\nDATA=END\n";

// A dump of one pair is written so.
fn is_written(alloc: Global, printed: bool, want: Text) -> bool {
    let mut sink = MemSink::new(alloc);
    let mut buffer = OutBuffer::new();
    put_header(&mut buffer, &mut sink, printed, printed);
    put_pair(&mut buffer, &mut sink, printed, b"a\\", b"\x00~\xff");
    put_end(&mut buffer, &mut sink);
    buffer.flush(&mut sink);
    sink.bytes() == want
}

// What was written is read: a key and its data, and where they stand.
fn is_read_back(alloc: Global, text: Text) -> Result<bool, DumpErr> {
    let dump = parse_dump(alloc, text)?;
    let right = match dump.pairs.as_slice() {
        [pair] => {
            pair.line == 6
                && pair.key.as_slice() == b"a\\".as_slice()
                && pair.value.as_slice() == b"\x00~\xff".as_slice()
        }
        _ => false,
    };
    let kind = dump.dup_line == 4;
    drop(dump);
    Ok(right && kind)
}

#[test]
fn the_first_bad_line_is_named(rt: HostRuntime) -> Result<(), AllocError> {
    for row in &TEXTS {
        assert!(&rt; is_read(rt.alloc(), *row)?);
    }
    Ok(())
}

#[test]
fn a_dump_is_written_and_read(rt: HostRuntime) {
    assert!(&rt; is_written(rt.alloc(), true, PRINTED));
    assert!(&rt; is_written(rt.alloc(), false, DIGITS));
    assert!(&rt; is_read_back(rt.alloc(), PRINTED) == Ok(true));
    assert!(&rt; is_read_back(rt.alloc(), DIGITS) == Ok(true));
}
