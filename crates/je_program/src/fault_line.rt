// The line that tells why a program ended.
ghost use Rattle.std.specs.Prelude.{◌≡◌, ◌+◌, ◌++◌, ◌≤◌, codes, decimal, length, false};
ghost use Rattle.std.specs.Fmt.{digits};
ghost use Rattle.arrayvec.specs.ArrayVec.{array_vec_len};
ghost use Rattle.text_out.specs.Lsn.{lsn_text};
ghost use Rattle.je_program.specs.Program.{corruption_text, dump_fault, fault_text};

use crate::cause::Cause;
use arrayvec::ArrayVec;
use itoa::Buffer;
use je_lsn::{FileNo, Lsn, file_name};
use je_order::Word;
use log_replay::Corruption;
use text_out::write_hexadecimal;

// Puts bytes at the end of a line that has room for them.
fn put(line: &mut ArrayVec<u8, 80>, bytes: &[u8])
    requires room { array_vec_len line.old + length bytes.now ≤ 80 }
    ensures items { line.new.items ≡ line.old.items ++ bytes.now }
    ensures len { array_vec_len line.new ≡ array_vec_len line.old + length bytes.now }
{
    line.try_extend_from_slice(bytes).unwrap();
}

// Puts a number in decimal digits.
fn put_decimal(line: &mut ArrayVec<u8, 80>, number: u32)
    requires room { array_vec_len line.old + 10 ≤ 80 }
    ensures items { line.new.items ≡ line.old.items ++ decimal number }
    ensures len { array_vec_len line.new ≤ array_vec_len line.old + 10 }
{
    let mut digits = Buffer::new();
    put(line, digits.format(number).as_bytes());
}

// Puts a number in hexadecimal digits.
fn put_hexadecimal(line: &mut ArrayVec<u8, 80>, number: u32)
    requires room { array_vec_len line.old + 8 ≤ 80 }
    ensures items { line.new.items ≡ line.old.items ++ digits 16 false number }
    ensures len { array_vec_len line.new ≤ array_vec_len line.old + 8 }
{
    let mut piece = [0u8; 8];
    let start = write_hexadecimal(number, &mut piece);
    put(line, &piece[start..]);
}

// Puts an LSN.
fn put_lsn(line: &mut ArrayVec<u8, 80>, at: Lsn)
    requires room { array_vec_len line.old + 21 ≤ 80 }
    ensures items { line.new.items ≡ line.old.items ++ lsn_text at }
    ensures len { array_vec_len line.new ≤ array_vec_len line.old + 21 }
{
    put(line, b"0x");
    put_hexadecimal(line, at.file().0);
    put(line, b"/0x");
    put_hexadecimal(line, at.offset());
}

// A line of a text, an LSN and the line's end.
fn line_with_lsn(text: &[u8], at: Lsn) -> ArrayVec<u8, 80>
    requires { length text.now ≤ 32 }
    ensures { result.items ≡ text.now ++ lsn_text at ++ codes "\n" }
{
    let mut line = ArrayVec::new();
    put(&mut line, text);
    put_lsn(&mut line, at);
    put(&mut line, b"\n");
    line
}

// The line of a version that is not known.
fn line_of_version(file: FileNo, version: u32) -> ArrayVec<u8, 80>
    ensures { result.items ≡ corruption_text (Corruption.VersionUnknown file version) }
{
    let mut line = ArrayVec::new();
    put(&mut line, b"fault version ");
    put(&mut line, file_name(file).as_slice());
    put(&mut line, b" ");
    put_decimal(&mut line, version);
    put(&mut line, b"\n");
    line
}

// The line of files that cannot be opened.
fn line_of_corruption(corruption: &Corruption) -> ArrayVec<u8, 80>
    ensures { result.items ≡ corruption_text corruption.now }
{
    match corruption {
        Corruption::Damaged(at) => line_with_lsn(b"fault damaged ", *at),
        Corruption::Missing(at) => line_with_lsn(b"fault missing ", *at),
        Corruption::Tree(at) => line_with_lsn(b"fault tree ", *at),
        Corruption::VersionUnknown { file, version } => line_of_version(*file, *version),
    }
}

// The line of a script's bad line.
fn line_of_bad_line(number: u32) -> ArrayVec<u8, 80>
    ensures { result.items ≡ fault_text (Cause.BadScript number) }
{
    let mut line = ArrayVec::new();
    put(&mut line, b"fault script line ");
    put_decimal(&mut line, number);
    put(&mut line, b"\n");
    line
}

// The line of a dump's line that was not taken.
fn line_of_dump(number: u32) -> ArrayVec<u8, 80>
    ensures { result.items ≡ dump_fault number }
{
    let mut line = ArrayVec::new();
    put(&mut line, b"fault dump line ");
    put_decimal(&mut line, number);
    put(&mut line, b"\n");
    line
}

// The line of an index that has not the pairs of its primary's records.
fn line_of_index(name: &Word) -> ArrayVec<u8, 80>
    ensures { result.items ≡ fault_text (Cause.WrongIndex name.now) }
{
    let mut line = ArrayVec::new();
    put(&mut line, b"fault index ");
    put(&mut line, name.as_slice());
    put(&mut line, b"\n");
    line
}

// A line that is this text.
fn plain_line(text: &[u8]) -> ArrayVec<u8, 80>
    requires { length text.now ≤ 80 }
    ensures { result.items ≡ text.now }
{
    let mut line = ArrayVec::new();
    put(&mut line, text);
    line
}

/// The line that tells why a program ended, and nothing where all was done, or where a check had findings. It takes no memory.
pub fn fault_line(cause: &Cause) -> ArrayVec<u8, 80>
    ensures { result.items ≡ fault_text cause.now }
{
    match cause {
        Cause::Done | Cause::Findings => plain_line(b""),
        Cause::Usage => plain_line(b"fault usage\n"),
        Cause::BadScript { line } => line_of_bad_line(*line),
        Cause::BadDump { line } => line_of_dump(*line),
        Cause::Disk => plain_line(b"fault disk\n"),
        Cause::Unreadable(corruption) => line_of_corruption(corruption),
        Cause::WrongIndex(name) => line_of_index(name),
        Cause::Memory => plain_line(b"fault memory\n"),
        Cause::NoEnvironment => plain_line(b"fault no environment\n"),
        Cause::NoDatabase => plain_line(b"fault no database\n"),
        Cause::OtherKind { line } => line_of_dump(*line),
        Cause::RefusedPair { line } => line_of_dump(*line),
        Cause::Input => plain_line(b"fault input\n"),
        Cause::InputTooLong => plain_line(b"fault input too long\n"),
        Cause::LogFull => plain_line(b"fault log full\n"),
        Cause::IdsEnded => plain_line(b"fault ids ended\n"),
    }
}
