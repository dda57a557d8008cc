// The header of a dump.
ghost use Rattle.std.specs.Prelude.{◌≡◌};
ghost use Rattle.dump_text.specs.Grammar.{header_after, header_with, first_header, ended_header};

use text_lines::find_byte;

// What the header's lines said so far: whether data is printed, whether the database has sorted duplicates, and
// the number of the last line about that, 0 where there was none.
#[derive(Clone, Copy)]
pub struct DumpHeader {
    pub printed: bool,
    pub dup: bool,
    pub dup_line: u32,
}

// The header before any line.
pub fn first_header() -> DumpHeader
    ensures { result ≡ first_header }
{
    DumpHeader {
        printed: false,
        dup: false,
        dup_line: 0,
    }
}

// The header, where it ends with this line: with no line on duplicates, this one says that there are none.
pub fn ended_header(header: DumpHeader, line: u32) -> DumpHeader
    ensures { result ≡ ended_header header line }
{
    if header.dup_line == 0 {
        DumpHeader {
            dup_line: line,
            ..header
        }
    } else {
        header
    }
}

// The header after a line with this name and value, if there may be one.
fn header_with(header: DumpHeader, line: u32, name: &[u8], value: &[u8]) -> Option<DumpHeader>
    ensures { result ≡ header_with header line name.now value.now }
{
    if name == b"format".as_slice() {
        if value == b"bytevalue".as_slice() {
            Some(DumpHeader {
                printed: false,
                ..header
            })
        } else if value == b"print".as_slice() {
            Some(DumpHeader {
                printed: true,
                ..header
            })
        } else {
            None
        }
    } else if name == b"dupsort".as_slice() {
        if value == b"0".as_slice() {
            Some(DumpHeader {
                dup: false,
                dup_line: line,
                ..header
            })
        } else if value == b"1".as_slice() {
            Some(DumpHeader {
                dup: true,
                dup_line: line,
                ..header
            })
        } else {
            None
        }
    } else if name == b"type".as_slice() {
        if value == b"btree".as_slice() {
            Some(header)
        } else {
            None
        }
    } else if name == b"VERSION".as_slice() {
        if value == b"3".as_slice() {
            Some(header)
        } else {
            None
        }
    } else if name == b"HEADER".as_slice() {
        None
    } else {
        Some(header)
    }
}

// The header after a line of the header, if it may stand there.
pub fn header_after(header: DumpHeader, line: u32, text: &[u8]) -> Option<DumpHeader>
    ensures { result ≡ header_after header line text.now }
{
    match find_byte(b'=', text) {
        Some(at) => header_with(header, line, &text[..at], &text[at + 1..]),
        None => None,
    }
}
