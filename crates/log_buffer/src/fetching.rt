// Entries as they are read back.
ghost use Rattle.std.specs.Prelude.{◌≡◌, ◌+◌, ◌≤◌, ◌<◌, ◌↔◌, true, Some, None, length, take, drop, IsTrue, IfOk};
ghost use Rattle.je_disk.specs.Causes.{HasFault, HasCause};
ghost use Rattle.je_disk.specs.Moments.{now};
ghost use Rattle.je_disk.specs.States.{content};
ghost use Rattle.log_entry.specs.declared.entry.Entry.{Entry as Appended};
ghost use Rattle.log_entry.specs.Reading.{number_at};
ghost use Rattle.log_entry.specs.Encoding.{size_of};
ghost use Rattle.std.specs.Int.{w32};
ghost use Rattle.log_buffer.specs.Log.{Encodes};
ghost use Rattle.log_buffer.specs.Reads.{IsOnlyRead};

use byteorder::{BigEndian, ByteOrder};
use je_disk::{Disk, DiskErr};
use je_lsn::FileNo;
use log_entry::{Decoded, Entry, decode_at};
use std::alloc::{AllocError, Global};

/// How many bytes of an entry say how long it is.
const HEAD: usize = 14;

/// The greatest length of an entry's body, in bytes.
const BODY_MAX: u32 = 20_000_004;

// The entry that stands at a place of these bytes.
pub(crate) fn entry_in(alloc: Global, bytes: &[u8], at: usize) -> Result<Option<Entry>, AllocError>
    requires { at ≤ length bytes.now }
    ensures { (entry : Appended) → Encodes (drop at bytes.now) entry → IfOk result (λ found. found ≡ Some entry) }
{
    match decode_at(alloc, bytes, at)? {
        Decoded::Whole { entry, .. } => Ok(Some(entry)),
        Decoded::Torn(_) => Ok(None),
    }
}

// Whether a file's bytes from an offset on fill this piece; then they do.
fn fill<D: Disk>(disk: &mut D, f: FileNo, at: u32, into: &mut [u8]) -> Result<bool, DiskErr>
    ensures whole { D.meaning.observable ≡ true → IfOk result (λ whole. IsTrue whole ↔ length into.old ≤ length (drop at (content (now (D.meaning.history disk.old)).reads f.0))) }
    ensures bytes { D.meaning.observable ≡ true → IfOk result (λ whole. whole ≡ true → into.new ≡ take (length into.old) (drop at (content (now (D.meaning.history disk.old)).reads f.0))) }
    ensures only_read { IsOnlyRead D.meaning disk.old disk.new }
    ensures cause { HasFault (D.meaning.faults disk.old) (D.meaning.faults disk.new) result }
{
    let len = into.len();
    let count = disk.read(f, u64::from(at), into)?;
    Ok(count == len)
}

// How many bytes an entry has, as its head says it; none where no entry is so long.
fn size_by(head: &[u8]) -> Option<usize>
    requires { HEAD ≤ length head.now }
    ensures within { number_at w32 10 head.now ≤ BODY_MAX → result ≡ Some (HEAD + number_at w32 10 head.now) }
    ensures beyond { BODY_MAX < number_at w32 10 head.now → result ≡ None }
{
    let len = BigEndian::read_u32(&head[10..]);
    if len > BODY_MAX {
        return None;
    }
    Some(HEAD + len as usize)
}

// How many bytes the entry has that stands at a place of a file.
fn size_at<D: Disk>(disk: &mut D, f: FileNo, at: u32) -> Result<Option<usize>, DiskErr>
    ensures found { (entry : Appended) → D.meaning.observable ≡ true → Encodes (drop at (content (now (D.meaning.history disk.old)).reads f.0)) entry → IfOk result (λ size. size ≡ Some (size_of entry)) }
    ensures only_read { IsOnlyRead D.meaning disk.old disk.new }
    ensures cause { HasFault (D.meaning.faults disk.old) (D.meaning.faults disk.new) result }
{
    let mut head = [0; HEAD];
    if !fill(disk, f, at, &mut head)? {
        return Ok(None);
    }
    Ok(size_by(&head))
}

// The entry that stands at a place of a file and fills this piece, into which its bytes are read.
fn entry_into<D: Disk>(
    alloc: Global,
    disk: &mut D,
    f: FileNo,
    at: u32,
    piece: &mut [u8],
) -> Result<Option<Entry>, DiskErr>
    ensures found { (entry : Appended) → D.meaning.observable ≡ true → length piece.old ≡ size_of entry → Encodes (drop at (content (now (D.meaning.history disk.old)).reads f.0)) entry → IfOk result (λ found. found ≡ Some entry) }
    ensures only_read { IsOnlyRead D.meaning disk.old disk.new }
    ensures cause { HasCause (D.meaning.faults disk.old) (D.meaning.faults disk.new) result }
{
    if !fill(disk, f, at, piece)? {
        return Ok(None);
    }
    let found = entry_in(alloc, piece, 0)?;
    Ok(found)
}

// The entry of this size that stands at a place of a file.
fn entry_of<D: Disk>(
    alloc: Global,
    disk: &mut D,
    f: FileNo,
    at: u32,
    size: usize,
) -> Result<Option<Entry>, DiskErr>
    ensures found { (entry : Appended) → D.meaning.observable ≡ true → size ≡ size_of entry → Encodes (drop at (content (now (D.meaning.history disk.old)).reads f.0)) entry → IfOk result (λ found. found ≡ Some entry) }
    ensures only_read { IsOnlyRead D.meaning disk.old disk.new }
    ensures cause { HasCause (D.meaning.faults disk.old) (D.meaning.faults disk.new) result }
{
    let mut bytes = Vec::new(alloc);
    bytes.resize(size, 0)?;
    entry_into(alloc, disk, f, at, bytes.as_mut_slice())
}

// The entry that stands at a place of a file: its head is read, and then all of it.
pub(crate) fn entry_at<D: Disk>(
    alloc: Global,
    disk: &mut D,
    f: FileNo,
    at: u32,
) -> Result<Option<Entry>, DiskErr>
    ensures found { (entry : Appended) → D.meaning.observable ≡ true → Encodes (drop at (content (now (D.meaning.history disk.old)).reads f.0)) entry → IfOk result (λ found. found ≡ Some entry) }
    ensures only_read { IsOnlyRead D.meaning disk.old disk.new }
    ensures cause { HasCause (D.meaning.faults disk.old) (D.meaning.faults disk.new) result }
{
    match size_at(disk, f, at)? {
        Some(size) => entry_of(alloc, disk, f, at, size),
        None => Ok(None),
    }
}
