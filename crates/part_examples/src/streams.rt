// Reading whole inputs and writing whole texts, with faults on the way.
use crate::rows::first_wrong;
use je_io::{
    Failed, MemSink, MemSource, ReadErr, Sink, Source, StdSink, StdSource, read_all, write_all,
};
use std::alloc::Global;

// Whether this is read of the source.
fn reads<S: Source>(
    alloc: Global,
    source: &mut S,
    most: usize,
    want: &[u8],
) -> Result<bool, ReadErr> {
    let bytes = read_all(alloc, source, most)?;
    let same = bytes.as_slice() == want;
    drop(bytes);
    Ok(same)
}

// Whether a read of the source fails.
fn fails<S: Source>(alloc: Global, source: &mut S) -> bool {
    let read = read_all(alloc, source, 9);
    let failed = matches!(read, Err(ReadErr::Failed));
    drop(read);
    failed
}

const TEXT: &[u8] = b"seven b";

// The most bytes that are wanted, and what is read of TEXT.
static READS: [(usize, &[u8]); 5] = [
    (7, b"seven b"),
    (100, b"seven b"),
    (6, b"seven b"),
    (5, b"seven "),
    (0, b"s"),
];

// Whole, cut one byte behind the limit, and in small pieces; the same over a reader of the library.
fn reads_each(alloc: Global, most: usize, want: &[u8]) -> Result<bool, ReadErr> {
    let mut whole = MemSource::new(TEXT);
    let of_whole = reads(alloc, &mut whole, most, want)?;
    let mut slow = MemSource::slow(TEXT, 2);
    let of_slow = reads(alloc, &mut slow, most, want)?;
    let mut reader = StdSource::new(TEXT);
    let of_reader = reads(alloc, &mut reader, most, want)?;
    let faults = whole.faults().max(slow.faults()).max(reader.faults());
    Ok(of_whole && of_slow && of_reader && faults == 0)
}

#[test]
fn reads_to_the_end_or_the_limit(rt: HostRuntime) {
    let wrong = first_wrong(&READS, |&(most, want)| reads_each(rt.alloc(), most, want));
    assert_eq!(rt; wrong, Ok(None));
}

// A read that fails in the middle is answered, and the source goes on behind it.
#[test]
fn hands_a_fault_on(rt: HostRuntime) {
    let alloc = rt.alloc();
    let mut source = MemSource::failing(b"abcdef", 0);
    assert!(rt; fails(alloc, &mut source));
    assert!(rt; source.faults() == 1);
    assert!(rt; reads(alloc, &mut source, 9, b"abcdef") == Ok(true));
    let mut source = MemSource::failing(b"abcdef", 1);
    assert!(rt; fails(alloc, &mut source));
    assert!(rt; source.faults() == 1);
}

// A text that is written, whether that goes well, and then the sink's bytes and its faults.
type Row = (&'static [u8], bool, &'static [u8], u64);

static WHOLE: [Row; 3] = [
    (b"one", true, b"one", 0),
    (b"", true, b"one", 0),
    (b"two", true, b"onetwo", 0),
];

static SHORT: [Row; 3] = [
    (b"one", true, b"one", 0),
    (b"two", false, b"onet", 1),
    (b"more", false, b"onet", 2),
];

// The first row that does not come so.
fn wrong_write(sink: &mut MemSink, rows: &[Row]) -> Option<usize> {
    for (at, &(text, well, bytes, faults)) in rows.iter().enumerate() {
        let written = write_all(sink, text).is_ok();
        if (written, sink.bytes(), sink.faults()) != (well, bytes, faults) {
            return Some(at);
        }
    }
    None
}

#[test]
fn writes_all_or_the_first_bytes(rt: HostRuntime) {
    let mut sink = MemSink::new(rt.alloc());
    let wrong = wrong_write(&mut sink, &WHOLE);
    drop(sink);
    assert_eq!(rt; wrong, None);
    let mut sink = MemSink::failing(rt.alloc(), 4);
    let wrong = wrong_write(&mut sink, &SHORT);
    drop(sink);
    assert_eq!(rt; wrong, None);
}

// Over a writer of the library with room for three bytes.
#[test]
fn writes_to_a_writer(rt: HostRuntime) {
    let mut room = [0u8; 3];
    let mut sink = StdSink::new(room.as_mut_slice());
    let first = write_all(&mut sink, b"ab");
    let second = write_all(&mut sink, b"cd");
    let faults = sink.faults();
    let _ = sink;
    assert!(rt; (first, second, faults) == (Ok(()), Err(Failed), 1));
    assert!(rt; room == *b"abc");
}
