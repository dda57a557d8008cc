// Entries that go into the write buffer.
ghost use Rattle.std.specs.Prelude.{◌≡◌, ◌≤◌, ◌<◌, ◌∷◌, [], ◌++◌, ℕ, List, Bool, true, false, Option, ◌↔◌, ◌+◌, ◌^◌, IfOk, OnOk, OnErr, IsOk, IsErrOf};
ghost use Rattle.je_disk.specs.Moments.{now};
ghost use Rattle.je_disk.specs.States.{State};
ghost use Rattle.je_lsn.specs.Naming.{last_file};
ghost use Rattle.log_entry.specs.Body.{IsEntry};
ghost use Rattle.log_entry.specs.Parts.{entry_by};
ghost use Rattle.log_entry.specs.Encoding.{size_of};
ghost use Rattle.log_file.specs.Scan.{may_follow};
ghost use Rattle.log_file.specs.Log.{Log};
ghost use Rattle.log_buffer.specs.Buffer.{disk_of, first_of, end_of, file_of, offset_of, last_of, file_max_of, has_failed, HasRoom, IsUnchanged};
ghost use Rattle.log_buffer.specs.Log.{HasLog, log_with};
ghost use Rattle.log_buffer.specs.Crash.{Holds, KeptThrough};
ghost use Rattle.log_buffer.specs.Growth.{Grew, Tried};
ghost use Rattle.log_buffer.specs.Flip.{header_size, placed_at, next_file, behind, end_after, pos_lsn};
ghost use Rattle.log_buffer.specs.Causes.{HasLogCause, FailsByFault};

use crate::{LogBuffer, LogErr, LogPos};
use je_disk::Disk;
use je_lsn::{FileNo, LAST_FILE, Lsn};
use log_entry::{Entry, EntryRef, ref_size};
use log_file::HEADER_SIZE;
use std::alloc::AllocError;

/// The write buffer is written out once it has more bytes than this.
const WRITE_BUFFER_MAX: usize = 1_048_576;

impl<D: Disk> LogBuffer<D> {
    /// Puts an entry at the end of the log, and answers where it stands. It is in the write buffer; a
    /// write buffer that then has more than 1,048,576 bytes is written out, which is the one way to a
    /// fault.
    pub fn append(&mut self, entry: &Entry) -> Result<Lsn, LogErr>
        requires entry { IsEntry entry.now }
        requires follows { may_follow entry.now ≡ true }
        ensures at { IfOk result (λ at. at ≡ pos_lsn (placed_at (file_max_of self.old) (end_of self.old) (size_of entry.now))) }
        ensures grew { OnOk result (Grew D.meaning self.old self.new (entry.now ∷ [])) }
        ensures tried { IsErrOf result LogErr.Fault → Tried D.meaning self.old self.new (entry.now ∷ []) }
        ensures full { has_failed self.old ≡ false → (IsErrOf result LogErr.Full ↔ last_file < (placed_at (file_max_of self.old) (end_of self.old) (size_of entry.now)).file) }
        ensures full_unchanged { IsErrOf result LogErr.Full → IsUnchanged self.old self.new }
        ensures memory_unchanged { IsErrOf result LogErr.Memory → IsUnchanged self.old self.new }
        ensures has_room { (sizes : List ℕ) → HasRoom self.old (size_of entry.now ∷ sizes) → IsErrOf result LogErr.Memory → ⊥ }
        ensures room { (sizes : List ℕ) → HasRoom self.old (size_of entry.now ∷ sizes) → OnOk result (HasRoom self.new sizes) }
        ensures not_damaged { IsErrOf result LogErr.Damaged → ⊥ }
        ensures cause { HasLogCause (has_failed self.old) (has_failed self.new) (D.meaning.faults (disk_of self.old)) (D.meaning.faults (disk_of self.new)) result }
        ensures still { has_failed self.old ≡ true → disk_of self.new ≡ disk_of self.old }
    {
        self.append_ref(&EntryRef::Whole(entry))
    }

    /// The same for an entry that is handed over by its parts: key and data are copied once, from where the
    /// caller has them into the write buffer.
    pub fn append_ref(&mut self, entry: &EntryRef<'_>) -> Result<Lsn, LogErr>
        requires entry { IsEntry (entry_by entry.now) }
        requires follows { may_follow (entry_by entry.now) ≡ true }
        ensures at { IfOk result (λ at. at ≡ pos_lsn (placed_at (file_max_of self.old) (end_of self.old) (size_of (entry_by entry.now)))) }
        ensures grew { OnOk result (Grew D.meaning self.old self.new (entry_by entry.now ∷ [])) }
        ensures tried { IsErrOf result LogErr.Fault → Tried D.meaning self.old self.new (entry_by entry.now ∷ []) }
        ensures full { has_failed self.old ≡ false → (IsErrOf result LogErr.Full ↔ last_file < (placed_at (file_max_of self.old) (end_of self.old) (size_of (entry_by entry.now))).file) }
        ensures full_unchanged { IsErrOf result LogErr.Full → IsUnchanged self.old self.new }
        ensures memory_unchanged { IsErrOf result LogErr.Memory → IsUnchanged self.old self.new }
        ensures has_room { (sizes : List ℕ) → HasRoom self.old (size_of (entry_by entry.now) ∷ sizes) → IsErrOf result LogErr.Memory → ⊥ }
        ensures room { (sizes : List ℕ) → HasRoom self.old (size_of (entry_by entry.now) ∷ sizes) → OnOk result (HasRoom self.new sizes) }
        ensures not_damaged { IsErrOf result LogErr.Damaged → ⊥ }
        ensures cause { HasLogCause (has_failed self.old) (has_failed self.new) (D.meaning.faults (disk_of self.old)) (D.meaning.faults (disk_of self.new)) result }
        ensures still { has_failed self.old ≡ true → disk_of self.new ≡ disk_of self.old }
    {
        let size = ref_size(entry);
        let pos = self.next_pos(size)?;
        self.put(entry, size, pos)?;
        self.write_long()?;
        Ok(Lsn::new(FileNo(pos.file), pos.offset as u32))
    }

    /// The same where `reserve` has made room for the entry: the one error is Fault.
    pub fn append_reserved(&mut self, entry: &EntryRef<'_>) -> Result<Lsn, LogErr>
        requires entry { IsEntry (entry_by entry.now) }
        requires follows { may_follow (entry_by entry.now) ≡ true }
        requires works { has_failed self.old ≡ false }
        requires room { (sizes : List ℕ) × HasRoom self.old (size_of (entry_by entry.now) ∷ sizes) }
        requires fits { (placed_at (file_max_of self.old) (end_of self.old) (size_of (entry_by entry.now))).file ≤ last_file }
        ensures at { IfOk result (λ at. at ≡ pos_lsn (placed_at (file_max_of self.old) (end_of self.old) (size_of (entry_by entry.now)))) }
        ensures grew { OnOk result (Grew D.meaning self.old self.new (entry_by entry.now ∷ [])) }
        ensures tried { OnErr result (Tried D.meaning self.old self.new (entry_by entry.now ∷ [])) }
        ensures room { (sizes : List ℕ) → HasRoom self.old (size_of (entry_by entry.now) ∷ sizes) → OnOk result (HasRoom self.new sizes) }
        ensures by_fault { FailsByFault result }
        ensures cause { HasLogCause (has_failed self.old) (has_failed self.new) (D.meaning.faults (disk_of self.old)) (D.meaning.faults (disk_of self.new)) result }
    {
        self.append_ref(entry)
    }

    // Where an entry of so many bytes goes.
    fn next_pos(&self, size: u32) -> Result<LogPos, LogErr>
        ensures pos { IfOk result (λ pos. pos ≡ placed_at (file_max_of self.now) (end_of self.now) size) }
        ensures file { IfOk result (λ pos. pos.file ≤ last_file) }
        ensures offset { IfOk result (λ pos. pos.offset < 2 ^ 32) }
        ensures works { OnOk result (has_failed self.now ≡ false) }
        ensures full { has_failed self.now ≡ false → (IsErrOf result LogErr.Full ↔ last_file < (placed_at (file_max_of self.now) (end_of self.now) size).file) }
        ensures fault { IsErrOf result LogErr.Fault ↔ has_failed self.now ≡ true }
        ensures not_memory { IsErrOf result LogErr.Memory → ⊥ }
        ensures not_damaged { IsErrOf result LogErr.Damaged → ⊥ }
    {
        if self.failed {
            return Err(LogErr::Fault);
        }
        let pos = self.pos().placed(self.file_max, size);
        if pos.file > LAST_FILE {
            return Err(LogErr::Full);
        }
        Ok(pos)
    }

    // Where the log ends.
    pub(crate) fn pos(&self) -> LogPos
        ensures end { result ≡ end_of self.now }
        ensures bound { result.offset < 2 ^ 32 }
    {
        LogPos {
            file: self.file.0,
            offset: u64::from(self.offset),
        }
    }

    // Writes a long write buffer out.
    fn write_long(&mut self) -> Result<(), LogErr>
        ensures grew { OnOk result (Grew D.meaning self.old self.new []) }
        ensures tried { OnErr result (Tried D.meaning self.old self.new []) }
        ensures room { (sizes : List ℕ) → HasRoom self.old sizes → OnOk result (HasRoom self.new sizes) }
        ensures by_fault { FailsByFault result }
        ensures cause { has_failed self.old ≡ false → HasLogCause (has_failed self.old) (has_failed self.new) (D.meaning.faults (disk_of self.old)) (D.meaning.faults (disk_of self.new)) result }
    {
        if self.unwritten.len() > WRITE_BUFFER_MAX {
            return self.write_out();
        }
        Ok(())
    }

    // Puts an entry into the write buffer, at its place.
    fn put(&mut self, entry: &EntryRef<'_>, size: u32, pos: LogPos) -> Result<(), AllocError>
        requires entry { IsEntry (entry_by entry.now) }
        requires follows { may_follow (entry_by entry.now) ≡ true }
        requires size { size ≡ size_of (entry_by entry.now) }
        requires pos { pos ≡ placed_at (file_max_of self.old) (end_of self.old) (size_of (entry_by entry.now)) }
        requires file { pos.file ≤ last_file }
        ensures grew { OnOk result (Grew D.meaning self.old self.new (entry_by entry.now ∷ [])) }
        ensures unchanged { OnErr result (IsUnchanged self.old self.new) }
        ensures fits { (sizes : List ℕ) → HasRoom self.old (size_of (entry_by entry.now) ∷ sizes) → IsOk result }
        ensures room { (sizes : List ℕ) → HasRoom self.old (size_of (entry_by entry.now) ∷ sizes) → OnOk result (HasRoom self.new sizes) }
        ensures disk { disk_of self.new ≡ disk_of self.old }
        ensures failed { has_failed self.new ≡ has_failed self.old }
    {
        if pos.file == self.file.0 {
            self.put_last(entry, size)
        } else {
            self.put_next(entry, size)
        }
    }

    // Puts an entry into the write buffer, at the end of the last file.
    fn put_last(&mut self, entry: &EntryRef<'_>, size: u32) -> Result<(), AllocError>
        requires entry { IsEntry (entry_by entry.now) }
        requires follows { may_follow (entry_by entry.now) ≡ true }
        requires size { size ≡ size_of (entry_by entry.now) }
        requires fits { offset_of self.old + size_of (entry_by entry.now) < 2 ^ 32 }
        ensures log { (observable : Bool) (state : State) (log : Log) → HasLog observable state self.old log → OnOk result (HasLog observable state self.new (log_with (file_of self.old) (entry_by entry.now) log)) }
        ensures holds { (observable : Bool) (state : State) (log removed : Log) (least : ℕ) (begun : Option ℕ) → HasLog observable state self.old log → Holds log removed least begun (first_of self.old) state
            → OnOk result (Holds (log_with (file_of self.old) (entry_by entry.now) log) removed least begun (first_of self.new) state) }
        ensures end { OnOk result (end_of self.new ≡ behind (end_of self.old) (size_of (entry_by entry.now))) }
        ensures last { OnOk result (last_of self.new ≡ offset_of self.old) }
        ensures unchanged { OnErr result (IsUnchanged self.old self.new) }
        ensures fits { (sizes : List ℕ) → HasRoom self.old (size_of (entry_by entry.now) ∷ sizes) → IsOk result }
        ensures room { (sizes : List ℕ) → HasRoom self.old (size_of (entry_by entry.now) ∷ sizes) → OnOk result (HasRoom self.new sizes) }
        ensures disk { disk_of self.new ≡ disk_of self.old }
        ensures failed { has_failed self.new ≡ has_failed self.old }
        ensures file_max { file_max_of self.new ≡ file_max_of self.old }
    {
        self.unwritten.push(entry, self.last)?;
        self.last = self.offset;
        self.offset += size;
        Ok(())
    }

    // Puts an entry into the write buffer, behind the header of a next file.
    fn put_next(&mut self, entry: &EntryRef<'_>, size: u32) -> Result<(), AllocError>
        requires entry { IsEntry (entry_by entry.now) }
        requires follows { may_follow (entry_by entry.now) ≡ true }
        requires size { size ≡ size_of (entry_by entry.now) }
        requires file { file_of self.old < last_file }
        ensures log { (observable : Bool) (state : State) (log : Log) → HasLog observable state self.old log → OnOk result (HasLog observable state self.new (log_with (file_of self.old + 1) (entry_by entry.now) log)) }
        ensures holds { (observable : Bool) (state : State) (log removed : Log) (least : ℕ) (begun : Option ℕ) → HasLog observable state self.old log → Holds log removed least begun (first_of self.old) state
            → OnOk result (Holds (log_with (file_of self.old + 1) (entry_by entry.now) log) removed least begun (first_of self.new) state) }
        ensures end { OnOk result (end_of self.new ≡ behind (next_file (end_of self.old)) (size_of (entry_by entry.now))) }
        ensures last { OnOk result (last_of self.new ≡ header_size) }
        ensures unchanged { OnErr result (IsUnchanged self.old self.new) }
        ensures fits { (sizes : List ℕ) → HasRoom self.old (size_of (entry_by entry.now) ∷ sizes) → IsOk result }
        ensures room { (sizes : List ℕ) → HasRoom self.old (size_of (entry_by entry.now) ∷ sizes) → OnOk result (HasRoom self.new sizes) }
        ensures disk { disk_of self.new ≡ disk_of self.old }
        ensures failed { has_failed self.new ≡ has_failed self.old }
        ensures file_max { file_max_of self.new ≡ file_max_of self.old }
    {
        let next = FileNo(self.file.0 + 1);
        self.unwritten.begin(next, entry)?;
        self.file = next;
        self.last = HEADER_SIZE;
        self.offset = HEADER_SIZE + size;
        Ok(())
    }
}
