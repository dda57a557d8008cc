// What bytes begin with.
ghost use Rattle.std.specs.Prelude.{◌≡◌, ◌==◌, ◌+◌, ◌≤◌, ℕ, ◌<◌, ◌^◌, ◌++◌, List, length, drop, take, IfOk, MatchResult};
ghost use Rattle.std.specs.Int.{w32};
ghost use Rattle.je_bytes.specs.Adler.{adler32_of};
ghost use Rattle.log_entry.specs.declared.entry.Entry.{Entry as Appended};
ghost use Rattle.log_entry.specs.declared.decoder.Decoded.TheVariants.{Whole, Torn as NotWhole};
ghost use Rattle.log_entry.specs.Body.{IsEntry};
ghost use Rattle.log_entry.specs.Encoding.{encoding, size_of};
ghost use Rattle.log_entry.specs.Reading.{decoded, number_at as number_there, whole_in, IsFound};

use crate::Entry;
use crate::body_reader::read_body;
use crate::encoder::HEAD_SIZE;
use byteorder::{BigEndian, ByteOrder};
use je_bytes::adler32;
use std::alloc::{AllocError, Global};

const HEAD: usize = HEAD_SIZE as usize;

/// What bytes begin with.
#[derive(Drop)]
pub enum Decoded {
    /// An entry, its prev field, and how many bytes its encoding has. Other bytes may follow.
    Whole { entry: Entry, prev: u32, len: usize },
    /// No entry.
    Torn(Torn),
}

/// Why bytes begin with no entry. The first of these that holds is the answer.
#[derive(Clone, Copy, PartialEq, Eq)]
pub enum Torn {
    /// There are fewer bytes than a header has, or than its body length says.
    Short,
    /// The checksum is another one.
    BadSum,
    /// The kind or the flags are no entry's, or the body is not one of that kind.
    BadKind,
}

// The number in the 4 bytes at an offset.
fn number_at(bytes: &[u8], at: usize) -> u32
    requires { at + 4 ≤ length bytes.now }
    ensures { result ≡ number_there w32 at bytes.now }
{
    BigEndian::read_u32(&bytes[at..])
}

// Whether the checksum is that of what follows it, with a body of this length.
fn is_sum_right(bytes: &[u8], len: usize) -> bool
    requires { 14 + len ≤ length bytes.now }
    ensures { result ≡ (number_there w32 0 bytes.now == adler32_of (take (10 + len) (drop 4 bytes.now))) }
{
    number_at(bytes, 0) == adler32(&bytes[4..][..10 + len])
}

// How long the body of the entry is that the bytes begin with, where they hold all of it and its checksum
// is right.
#[tactic(auto, unfolding(crate::specs::Reading::decoded))]
fn body_len(bytes: &[u8]) -> Result<usize, Torn>
    ensures { MatchResult result (λ len. (14 + len ≤ length bytes.now) × (decoded bytes.now ≡ whole_in len bytes.now)) (λ torn. decoded bytes.now ≡ NotWhole torn) }
{
    if bytes.len() < HEAD {
        return Err(Torn::Short);
    }
    let len = number_at(bytes, 10) as usize;
    if bytes.len() < HEAD + len {
        return Err(Torn::Short);
    }
    if !is_sum_right(bytes, len) {
        return Err(Torn::BadSum);
    }
    Ok(len)
}

// What bytes begin with that hold a whole body of this length and the right checksum.
fn decode_whole(alloc: Global, bytes: &[u8], len: usize) -> Result<Decoded, AllocError>
    requires { 14 + len ≤ length bytes.now }
    ensures { IfOk result (λ found. found ≡ whole_in len bytes.now) }
{
    if bytes[5] != 0 {
        return Ok(Decoded::Torn(Torn::BadKind));
    }
    let prev = number_at(bytes, 6);
    let Some(entry) = read_body(alloc, bytes[4], &bytes[HEAD..HEAD + len])? else {
        return Ok(Decoded::Torn(Torn::BadKind));
    };
    Ok(Decoded::Whole {
        entry,
        prev,
        len: HEAD + len,
    })
}

// What bytes begin with.
fn decode_front(alloc: Global, bytes: &[u8]) -> Result<Decoded, AllocError>
    ensures { IfOk result (λ found. found ≡ decoded bytes.now) }
{
    match body_len(bytes) {
        Ok(len) => decode_whole(alloc, bytes, len),
        Err(torn) => Ok(Decoded::Torn(torn)),
    }
}

/// What the bytes begin with. Bytes may follow the entry: the cost is that of the entry alone. The
/// only error is out of memory.
pub fn decode(alloc: Global, bytes: &[u8]) -> Result<Decoded, AllocError>
    ensures exact { IfOk result (λ found. found ≡ decoded bytes.now) }
    // What is found is what the bytes begin with.
    ensures found { IfOk result (IsFound bytes.now) }
    // An entry that the bytes begin with is found.
    ensures only { (e : Appended) (p : ℕ) (rest : List ℕ) → IsEntry e → p < 2 ^ 32 → bytes.now ≡ encoding e p ++ rest
        → IfOk result (λ found. found ≡ Whole e p (size_of e)) }
{
    decode_front(alloc, bytes)
}

/// The same for the bytes from an offset on, as in a file's bytes.
pub fn decode_at(alloc: Global, bytes: &[u8], at: usize) -> Result<Decoded, AllocError>
    requires { at ≤ length bytes.now }
    ensures exact { IfOk result (λ found. found ≡ decoded (drop at bytes.now)) }
    ensures found { IfOk result (IsFound (drop at bytes.now)) }
{
    decode(alloc, &bytes[at..])
}
