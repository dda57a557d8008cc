// The checksum, and the reading and putting of numbers.
use je_bytes::{Reader, Short, adler32, numbers_are_their_bytes, put_u16, put_u32, put_u64};
use std::alloc::AllocError;

// "Wikipedia" is the worked example of the encyclopedia's page on Adler-32; the others are a whole
// block of the greatest byte and more, as zlib sums them.
#[test]
fn sums_known_texts(rt: HostRuntime) {
    assert!(rt; adler32(b"") == 1);
    assert!(rt; adler32(b"Wikipedia") == 0x11e60398);
    assert!(rt; adler32(&[255; 5_000]) == 0x54b27596);
}

// The bytes of a log file's first header, as a format description gives them, and four more.
const BYTES: &[u8; 19] = b"\x01\x02\x03JELG\x00\x00\x00\x01\x00\x00\x00\x00tail";

fn read_fields(reader: &mut Reader<'_>) -> Result<(u8, u16, u32, u64), Short> {
    Ok((reader.u8()?, reader.u16()?, reader.u32()?, reader.u64()?))
}

// Whether these bytes are taken next.
fn takes(reader: &mut Reader<'_>, want: &[u8]) -> bool {
    match reader.take(want.len()) {
        Ok(bytes) => bytes == want,
        Err(Short) => false,
    }
}

#[test]
fn reads_fields(rt: HostRuntime) {
    let mut reader = Reader::new(BYTES);
    assert!(rt; read_fields(&mut reader) == Ok((1, 0x0203, 0x4a454c47, 1 << 32)));
    assert!(rt; reader.u64().is_err() && reader.take(5).is_err());
    assert!(rt; takes(&mut reader, b"ta"));
    assert!(rt; reader.rest() == b"il".as_slice());
}

fn put_fields(out: &mut Vec<u8>) -> Result<(), AllocError> {
    out.push(1)?;
    put_u16(out, 0x0203)?;
    put_u32(out, 0x4a454c47)?;
    put_u64(out, 1 << 32)
}

#[test]
fn puts_fields(rt: HostRuntime) {
    let mut out = Vec::new(rt.alloc());
    let put = put_fields(&mut out);
    let same = out.as_slice() == &BYTES[..15];
    drop(out);
    assert!(rt; put.is_ok() && same);
    numbers_are_their_bytes();
}
