// Buffers that begin and end.
ghost use Rattle.std.specs.Prelude.{◌≡◌, ◌≤◌, ◌<◌, ◌/◌, ◌%◌, ◌^◌, ◌*◌, ◌++◌, ◌∷◌, [], true, false, None, length, IfOk, IfErr};
ghost use Rattle.je_disk.specs.Moments.{now};
ghost use Rattle.je_disk.specs.States.{synced_crash_states};
ghost use Rattle.je_lsn.specs.Naming.{last_file};
ghost use Rattle.log_entry.specs.Encoding.{encoding};
ghost use Rattle.log_entry.specs.declared.entry.Entry.TheVariants.{FileHeader};
ghost use Rattle.log_file.specs.Log.{Log, IsLog, entries_of};
ghost use Rattle.log_buffer.specs.Buffer.{disk_of, first_of, end_of, last_of, file_max_of, has_failed, unwritten_of, IsWritten};
ghost use Rattle.log_buffer.specs.Log.{HasLog, EndsAt, ReadAs, ReadAsBut};
ghost use Rattle.log_buffer.specs.Crash.{Holds};
ghost use Rattle.log_buffer.specs.Flip.{pos_lsn, header_size};

use crate::LogBuffer;
use crate::write_buffer::WriteBuffer;
use je_disk::Disk;
use je_lsn::{FileNo, Lsn};
use log_file::HEADER_SIZE;
use std::alloc::{AllocError, Global};

impl<D: Disk> LogBuffer<D> {
    /// A buffer with nothing to write over a log that stands on the disk. The log ends at the LSN `at`;
    /// `last` is the offset of that file's last entry, 0 where it holds its header alone. A file is
    /// longer than `file_max` bytes only where it holds one entry behind its header. It takes no memory.
    pub fn resume(alloc: Global, disk: D, at: Lsn, last: u32, file_max: u32) -> LogBuffer<D>
        requires file { at / 2 ^ 32 ≤ last_file }
        requires file_max { file_max ≤ 2 ^ 30 }
        ensures disk { disk_of result ≡ disk }
        ensures end { pos_lsn (end_of result) ≡ at }
        ensures last { last_of result ≡ last }
        ensures file_max { file_max_of result ≡ file_max }
        ensures not_failed { has_failed result ≡ false }
        ensures written { IsWritten result }
        ensures log { (log : Log) → IsLog log → EndsAt log (at / 2 ^ 32) (at % 2 ^ 32) last → ReadAs D.meaning.observable (now (D.meaning.history disk)).reads log
            → HasLog D.meaning.observable (now (D.meaning.history disk)) result log }
        ensures holds { D.meaning.observable ≡ true → (log : Log) → IsLog log → EndsAt log (at / 2 ^ 32) (at % 2 ^ 32) last → ReadAs D.meaning.observable (now (D.meaning.history disk)).reads log
            → (now (D.meaning.history disk)).crash_states ≡ synced_crash_states (now (D.meaning.history disk)).reads → Holds log [] (length (entries_of log)) None (first_of result) (now (D.meaning.history disk)) }
    {
        let file = at.file();
        let offset = at.offset();
        LogBuffer {
            disk,
            unwritten: WriteBuffer::new(alloc),
            file,
            offset,
            last,
            flushed_len: offset,
            file_max,
            failed: false,
        }
    }

    /// The same where the last file has no header yet, as it is not there or is empty: the header goes
    /// into the write buffer. Where memory runs out the disk is handed back.
    pub fn create(alloc: Global, disk: D, file: FileNo, file_max: u32) -> Result<LogBuffer<D>, D>
        requires file { file.0 ≤ last_file }
        requires file_max { file_max ≤ 2 ^ 30 }
        ensures disk { IfOk result (λ buffer. disk_of buffer ≡ disk) }
        ensures end { IfOk result (λ buffer. end_of buffer ≡ record { file = file.0; offset = header_size }) }
        ensures last { IfOk result (λ buffer. last_of buffer ≡ 0) }
        ensures file_max { IfOk result (λ buffer. file_max_of buffer ≡ file_max) }
        ensures not_failed { IfOk result (λ buffer. has_failed buffer ≡ false) }
        ensures log { (before : Log) → IsLog (before ++ (file.0, []) ∷ []) → ReadAsBut D.meaning.observable file.0 (now (D.meaning.history disk)).reads before
            → IfOk result (λ buffer. HasLog D.meaning.observable (now (D.meaning.history disk)) buffer (before ++ (file.0, []) ∷ [])) }
        ensures holds { D.meaning.observable ≡ true → (before : Log) → IsLog (before ++ (file.0, []) ∷ []) → ReadAsBut D.meaning.observable file.0 (now (D.meaning.history disk)).reads before → (now (D.meaning.history disk)).crash_states ≡ synced_crash_states (now (D.meaning.history disk)).reads
            → IfOk result (λ buffer. Holds (before ++ (file.0, []) ∷ []) [] (length (entries_of before)) None (first_of buffer) (now (D.meaning.history disk))) }
        ensures handed_back { IfErr result (λ given. given ≡ disk) }
    {
        match header_unwritten(alloc, file) {
            Ok(unwritten) => Ok(LogBuffer {
                disk,
                unwritten,
                file,
                offset: HEADER_SIZE,
                last: 0,
                flushed_len: 0,
                file_max,
                failed: false,
            }),
            Err(_) => Err(disk),
        }
    }

    /// The disk, with the write buffer let go.
    pub fn into_disk(self) -> D
        ensures { result ≡ disk_of self }
    {
        let LogBuffer {
            disk,
            unwritten: _,
            file: _,
            offset: _,
            last: _,
            flushed_len: _,
            file_max: _,
            failed: _,
        } = self;
        disk
    }
}

// A write buffer that holds a file's header.
fn header_unwritten(alloc: Global, file: FileNo) -> Result<WriteBuffer, AllocError>
    ensures bytes { IfOk result (λ unwritten. unwritten.bytes.items ≡ encoding (FileHeader 1 file.0) 0) }
    ensures starts { IfOk result (λ unwritten. unwritten.starts.items ≡ []) }
{
    let mut unwritten = WriteBuffer::new(alloc);
    unwritten.push_header(file)?;
    Ok(unwritten)
}
