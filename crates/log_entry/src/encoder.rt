// Entries as they are written.
ghost use Rattle.std.specs.Prelude.{◌≡◌, ◌≤◌, ◌+◌, ◌++◌, ℕ, length, vec_capacity, take, drop, IsOk, IfOk, OnOk, OnErr};
ghost use Rattle.std.specs.Int.{w32, to_be_bytes};
ghost use Rattle.je_bytes.specs.Adler.{adler32_of};
ghost use Rattle.log_entry.specs.Body.{IsEntry};
ghost use Rattle.log_entry.specs.Parts.{entry_by};
ghost use Rattle.log_entry.specs.Encoding.{encoding, head, summed, size_of};
ghost use Rattle.log_entry.specs.Writing.{Puts};

use crate::body_writer::body_size;
use crate::ref_writer::{put_ref_body, ref_body_size, ref_kind};
use crate::{Entry, EntryRef};
use byteorder::{BigEndian, ByteOrder};
use je_bytes::{adler32, put_u32};
use std::alloc::{AllocError, Global};

/// How many bytes an entry has before its body: the checksum, the kind, the flags, the prev field and the body's
/// length.
pub const HEAD_SIZE: u32 = 14;

/// How many bytes the entry's encoding has, whatever its prev field.
pub fn size(entry: &Entry) -> u32
    requires { IsEntry entry.now }
    ensures value { result ≡ size_of entry.now }
    ensures encoded { (prev : ℕ) → length (encoding entry.now prev) ≡ result }
{
    HEAD_SIZE + body_size(entry)
}

/// The same for an entry that is handed over by its parts.
pub fn ref_size(entry: &EntryRef<'_>) -> u32
    requires { IsEntry (entry_by entry.now) }
    ensures value { result ≡ size_of (entry_by entry.now) }
{
    HEAD_SIZE + ref_body_size(entry)
}

// Puts at the end what stands between the checksum and the body.
fn put_head(out: &mut Vec<u8>, kind: u8, prev: u32, len: u32) -> Result<(), AllocError>
    ensures { Puts (head kind prev len) result out.old.items out.new.items (vec_capacity out.old) (vec_capacity out.new) }
{
    out.push(kind)?;
    out.push(0)?;
    put_u32(out, prev)?;
    put_u32(out, len)
}

// Puts the entry at the end with 0 for its checksum.
fn put_unsigned(out: &mut Vec<u8>, entry: &EntryRef<'_>, prev: u32) -> Result<(), AllocError>
    requires { IsEntry (entry_by entry.now) }
    ensures { Puts (to_be_bytes w32 0 ++ summed (entry_by entry.now) prev) result out.old.items out.new.items (vec_capacity out.old) (vec_capacity out.new) }
{
    put_u32(out, 0)?;
    put_head(out, ref_kind(entry), prev, ref_body_size(entry))?;
    put_ref_body(out, entry)
}

// Writes the checksum of what follows the 4 bytes from an offset on into these.
fn sign(bytes: &mut [u8], start: usize)
    requires { start + 4 ≤ length bytes.old }
    ensures { bytes.new ≡ take start bytes.old ++ (to_be_bytes w32 (adler32_of (drop (start + 4) bytes.old)) ++ drop (start + 4) bytes.old) }
{
    let sum = adler32(&bytes[start + 4..]);
    BigEndian::write_u32(&mut bytes[start..], sum);
}

/// Puts the entry's encoding at the end, in the time of the entry alone. Running out of memory changes
/// nothing, and does not come where the vector has room for the encoding.
pub fn encode_onto(entry: &Entry, prev: u32, onto: &mut Vec<u8>) -> Result<(), AllocError>
    requires { IsEntry entry.now }
    ensures ok { OnOk result (onto.new.items ≡ onto.old.items ++ encoding entry.now prev) }
    ensures err { OnErr result (onto.new.items ≡ onto.old.items) }
    ensures fits { length onto.old.items + size_of entry.now ≤ vec_capacity onto.old → IsOk result }
    ensures capacity { vec_capacity onto.old ≤ vec_capacity onto.new }
{
    encode_ref_onto(&EntryRef::Whole(entry), prev, onto)
}

/// The same for an entry that is handed over by its parts.
pub fn encode_ref_onto(
    entry: &EntryRef<'_>,
    prev: u32,
    onto: &mut Vec<u8>,
) -> Result<(), AllocError>
    requires { IsEntry (entry_by entry.now) }
    ensures ok { OnOk result (onto.new.items ≡ onto.old.items ++ encoding (entry_by entry.now) prev) }
    ensures err { OnErr result (onto.new.items ≡ onto.old.items) }
    ensures fits { length onto.old.items + size_of (entry_by entry.now) ≤ vec_capacity onto.old → IsOk result }
    ensures capacity { vec_capacity onto.old ≤ vec_capacity onto.new }
{
    let start = onto.len();
    onto.reserve(ref_size(entry) as usize)?;
    match put_unsigned(onto, entry, prev) {
        Ok(()) => {
            sign(onto.as_mut_slice(), start);
            Ok(())
        }
        Err(error) => {
            onto.truncate(start);
            Err(error)
        }
    }
}

/// The entry's encoding. The only error is out of memory.
pub fn encode(alloc: Global, entry: &Entry, prev: u32) -> Result<Vec<u8>, AllocError>
    requires { IsEntry entry.now }
    ensures { IfOk result (λ bytes. bytes.items ≡ encoding entry.now prev) }
{
    let mut bytes = Vec::new(alloc);
    encode_onto(entry, prev, &mut bytes)?;
    Ok(bytes)
}
