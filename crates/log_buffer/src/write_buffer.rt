// The bytes that are not written yet.
ghost use Rattle.std.specs.Prelude.{◌≡◌, ℕ, ◌+◌, ◌<◌, ◌≤◌, length, slice_index_or};

use crate::encoding::{encode_first, encode_header};
use je_lsn::FileNo;
use log_entry::{EntryRef, encode_ref_onto};
use std::alloc::{AllocError, Global};

/// The bytes that are not written yet, of one file or of several that follow one another: all in one
/// buffer, with the places where a next file begins.
#[derive(Drop)]
pub struct WriteBuffer {
    pub(crate) bytes: Vec<u8>,
    pub(crate) starts: Vec<usize>,
    ghost within: { (i : ℕ) → i < length starts.items → slice_index_or starts.items i (length bytes.items) < length bytes.items },
    ghost apart: { (i : ℕ) → i < length starts.items → slice_index_or starts.items i (length bytes.items) < slice_index_or starts.items (i + 1) (length bytes.items) },
}

impl WriteBuffer {
    ghost use Rattle.std.specs.Prelude.{◌≡◌, ◌==◌, ℕ, ◌+◌, ◌<◌, ◌≤◌, slice_index_or, [], ◌∷◌, ◌++◌, length, vec_capacity, IsOk, OnOk, OnErr};
    ghost use Rattle.log_entry.specs.Body.{IsEntry};
    ghost use Rattle.log_entry.specs.Parts.{entry_by};
    ghost use Rattle.log_entry.specs.Encoding.{encoding, size_of};
    ghost use Rattle.log_entry.specs.declared.entry.Entry.TheVariants.{FileHeader};
    ghost use Rattle.log_buffer.specs.Flip.{header_size};
    ghost use Rattle.log_buffer.specs.WriteBuffer.{start_of, stop_of, piece_of};

    /// No bytes. It takes no memory.
    pub fn new(alloc: Global) -> WriteBuffer
        ensures bytes { result.bytes.items ≡ [] }
        ensures starts { result.starts.items ≡ [] }
    {
        WriteBuffer {
            bytes: Vec::new(alloc),
            starts: Vec::new(alloc),
        }
    }

    /// How many bytes there are.
    pub fn len(&self) -> usize
        ensures { result ≡ length self.now.bytes.items }
    {
        self.bytes.len()
    }

    /// How many files begin in the write buffer.
    pub fn files(&self) -> usize
        ensures { result ≡ length self.now.starts.items }
    {
        self.starts.len()
    }

    /// Whether a next file begins at the front.
    pub fn begins_first(&self) -> bool
        ensures { result ≡ (slice_index_or self.now.starts.items 0 1 == 0) }
    {
        !self.starts.is_empty() && self.starts[0] == 0
    }

    /// The bytes of a piece: of the file that is on the disk for 0, of the i-th that begins in the
    /// write buffer for i.
    pub fn piece(&self, piece: usize) -> &[u8]
        requires { piece ≤ length self.now.starts.items }
        ensures { result.now ≡ piece_of self.now.bytes.items self.now.starts.items piece }
    {
        let start = self.start(piece);
        let end = self.stop(piece);
        &self.bytes.as_slice()[start..end]
    }

    // Where a piece begins.
    fn start(&self, piece: usize) -> usize
        requires { piece ≤ length self.now.starts.items }
        ensures { result ≡ start_of self.now.bytes.items self.now.starts.items piece }
    {
        if piece == 0 {
            0
        } else {
            self.starts[piece - 1]
        }
    }

    // Where it ends.
    fn stop(&self, piece: usize) -> usize
        ensures { result ≡ stop_of self.now.bytes.items self.now.starts.items piece }
    {
        if piece < self.starts.len() {
            self.starts[piece]
        } else {
            self.bytes.len()
        }
    }

    /// Puts an entry at the end of the last file's bytes. Running out of memory changes nothing.
    pub fn push(&mut self, entry: &EntryRef<'_>, prev: u32) -> Result<(), AllocError>
        requires { IsEntry (entry_by entry.now) }
        ensures ok { OnOk result (self.new.bytes.items ≡ self.old.bytes.items ++ encoding (entry_by entry.now) prev) }
        ensures err { OnErr result (self.new.bytes.items ≡ self.old.bytes.items) }
        ensures starts { self.new.starts ≡ self.old.starts }
        ensures fits { length self.old.bytes.items + size_of (entry_by entry.now) ≤ vec_capacity self.old.bytes → IsOk result }
        ensures bytes_capacity { vec_capacity self.old.bytes ≤ vec_capacity self.new.bytes }
    {
        encode_ref_onto(entry, prev, &mut self.bytes)
    }

    /// Puts a file's header at the end of the last file's bytes. Running out of memory changes
    /// nothing.
    pub fn push_header(&mut self, file: FileNo) -> Result<(), AllocError>
        ensures ok { OnOk result (self.new.bytes.items ≡ self.old.bytes.items ++ encoding (FileHeader 1 file.0) 0) }
        ensures err { OnErr result (self.new.bytes.items ≡ self.old.bytes.items) }
        ensures starts { self.new.starts ≡ self.old.starts }
    {
        encode_header(&mut self.bytes, file)
    }

    /// Begins a next file with its header and an entry. Running out of memory changes nothing.
    pub fn begin(&mut self, file: FileNo, entry: &EntryRef<'_>) -> Result<(), AllocError>
        requires { IsEntry (entry_by entry.now) }
        ensures ok { OnOk result (self.new.bytes.items ≡ self.old.bytes.items ++ (encoding (FileHeader 1 file.0) 0 ++ encoding (entry_by entry.now) 0)) }
        ensures begun { OnOk result (self.new.starts.items ≡ self.old.starts.items ++ length self.old.bytes.items ∷ []) }
        ensures err { OnErr result (self.new.bytes.items ≡ self.old.bytes.items) }
        ensures kept { OnErr result (self.new.starts.items ≡ self.old.starts.items) }
        ensures fits { length self.old.starts.items < vec_capacity self.old.starts → length self.old.bytes.items + (header_size + size_of (entry_by entry.now)) ≤ vec_capacity self.old.bytes → IsOk result }
        ensures capacity { vec_capacity self.old.starts ≤ vec_capacity self.new.starts }
        ensures bytes_capacity { vec_capacity self.old.bytes ≤ vec_capacity self.new.bytes }
    {
        self.starts.reserve(1)?;
        let start = self.bytes.len();
        encode_first(&mut self.bytes, file, entry)?;
        self.starts.push(start).unwrap();
        Ok(())
    }

    /// Makes room for so many bytes and so many files that begin.
    pub fn reserve(&mut self, bytes: usize, files: usize) -> Result<(), AllocError>
        ensures bytes { self.new.bytes.items ≡ self.old.bytes.items }
        ensures starts { self.new.starts.items ≡ self.old.starts.items }
        ensures room { OnOk result (length self.new.bytes.items + bytes ≤ vec_capacity self.new.bytes) }
        ensures bytes_capacity { vec_capacity self.old.bytes ≤ vec_capacity self.new.bytes }
        ensures capacity_stays { vec_capacity self.old.starts ≤ vec_capacity self.new.starts }
        ensures capacity { OnOk result (length self.new.starts.items + files ≤ vec_capacity self.new.starts) }
    {
        self.starts.reserve(files)?;
        self.bytes.reserve(bytes)
    }

    /// Lets all bytes go, and keeps the room.
    pub fn clear(&mut self)
        ensures bytes { self.new.bytes.items ≡ [] }
        ensures starts { self.new.starts.items ≡ [] }
        ensures bytes_capacity { vec_capacity self.new.bytes ≡ vec_capacity self.old.bytes }
        ensures capacity { vec_capacity self.new.starts ≡ vec_capacity self.old.starts }
    {
        self.starts.clear();
        self.bytes.clear();
    }
}
