// The names of log files, and places in the log.
use crate::rows::first_wrong;
use je_lsn::{FileNo, Lsn, file_name, parse_name};
use je_order::copy_of;
use std::alloc::{AllocError, Global};

static FILES: [(u32, &[u8]); 4] = [
    (0, b"00000000.jdb"),
    (10, b"0000000a.jdb"),
    (0x1234_cdef, b"1234cdef.jdb"),
    (0xffff_fffe, b"fffffffe.jdb"),
];

static OTHERS: [&[u8]; 7] = [
    b"",
    b"ffffffff.jdb",
    b"0000000A.jdb",
    b"0000000g.jdb",
    b"00000000.jdc",
    b"0000000.jdb",
    b"000000000.jdb",
];

#[test]
fn names_files(rt: HostRuntime) {
    let wrong = first_wrong(&FILES, |&(f, name)| {
        Ok::<bool, AllocError>(
            file_name(FileNo(f)).as_slice() == name && parse_name(name) == Some(FileNo(f)),
        )
    });
    assert_eq!(rt; wrong, Ok(None));
    let wrong = first_wrong(
        &OTHERS,
        |name| Ok::<bool, AllocError>(parse_name(name).is_none()),
    );
    assert_eq!(rt; wrong, Ok(None));
}

// Whether the place is printed so.
fn prints(alloc: Global, place: Lsn, want: &str) -> Result<bool, AllocError> {
    let text = place.to_string(alloc)?;
    let same = text.as_str() == want;
    drop(text);
    Ok(same)
}

#[test]
fn orders_and_prints_places(rt: HostRuntime) {
    let first = Lsn::new(FileNo(0), 0xffff_ffff);
    let later = Lsn::new(FileNo(0x1a), 0xb0);
    assert!(rt; first < later);
    assert!(rt; copy_of(&later) == Ok(later));
    let told = (later.as_u64(), later.file(), later.offset());
    assert!(rt; told == (0x1a_0000_00b0, FileNo(26), 176));
    assert!(rt; prints(rt.alloc(), later, "0x1a/0xb0") == Ok(true));
    assert!(rt; prints(rt.alloc(), Lsn::new(FileNo(0), 0), "0x0/0x0") == Ok(true));
}
