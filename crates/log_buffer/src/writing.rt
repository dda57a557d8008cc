// The write buffer as it is written out.
ghost use Rattle.std.specs.Prelude.{◌≡◌, ◌<◌, ◌≤◌, ℕ, List, [], true, false, length, ◌-◌, Option, OnOk, OnErr, IfOk};
ghost use Rattle.je_disk.specs.Causes.{HasFault};
ghost use Rattle.je_disk.specs.Moments.{now, Passes};
ghost use Rattle.je_disk.specs.States.{created, synced, appended};
ghost use Rattle.log_file.specs.Log.{Log};
ghost use Rattle.log_buffer.specs.Buffer.{disk_of, first_of, end_of, last_of, file_max_of, has_failed, joined, HasRoom, IsWritten};
ghost use Rattle.log_buffer.specs.WriteBuffer.{bytes_for};
ghost use Rattle.log_buffer.specs.Log.{HasLog, ReadAs};
ghost use Rattle.log_buffer.specs.Crash.{Holds, KeptThrough};
ghost use Rattle.log_buffer.specs.Growth.{Grew, Tried};
ghost use Rattle.log_buffer.specs.Writing.{IsUnwrittenOf, IsPutBehind, IsMadeNext, IsPutNext, put_behind};
ghost use Rattle.log_buffer.specs.Causes.{HasLogCause, FailsByFault};

use crate::write_buffer::WriteBuffer;
use crate::{LogBuffer, LogErr};
use je_disk::{Disk, DiskErr};
use je_lsn::FileNo;

// Writes bytes behind a file's; where there are none the disk is not touched.
fn write_behind<D: Disk>(disk: &mut D, f: FileNo, bytes: &[u8]) -> Result<(), DiskErr>
    ensures state { D.meaning.observable ≡ true → OnOk result (now (D.meaning.history disk.new) ≡ put_behind f.0 bytes.now (now (D.meaning.history disk.old))) }
    ensures moments { D.meaning.observable ≡ true → Passes (D.meaning.history disk.old) (D.meaning.history disk.new) (IsPutBehind f.0 bytes.now (now (D.meaning.history disk.old))) }
    ensures cause { HasFault (D.meaning.faults disk.old) (D.meaning.faults disk.new) result }
    ensures sync_out { D.meaning.sync_out disk.new ≡ D.meaning.sync_out disk.old }
    ensures read_out { D.meaning.read_out disk.new ≡ D.meaning.read_out disk.old }
    ensures read_of { D.meaning.read_of disk.new ≡ D.meaning.read_of disk.old }
{
    if bytes.is_empty() {
        return Ok(());
    }
    disk.append(f, bytes)
}

// Makes a next file, only after a sync of what was written before.
fn make_file<D: Disk>(disk: &mut D, f: FileNo) -> Result<(), DiskErr>
    ensures state { D.meaning.observable ≡ true → OnOk result (now (D.meaning.history disk.new) ≡ created f.0 (synced (now (D.meaning.history disk.old)))) }
    ensures moments { D.meaning.observable ≡ true → Passes (D.meaning.history disk.old) (D.meaning.history disk.new) (IsMadeNext f.0 (now (D.meaning.history disk.old))) }
    ensures cause { HasFault (D.meaning.faults disk.old) (D.meaning.faults disk.new) result }
    ensures sync_out { D.meaning.sync_out disk.new ≡ D.meaning.sync_out disk.old }
    ensures read_out { D.meaning.read_out disk.new ≡ D.meaning.read_out disk.old }
    ensures read_of { D.meaning.read_of disk.new ≡ D.meaning.read_of disk.old }
{
    disk.sync_now()?;
    disk.create(f)
}

// Writes a file that begins in the write buffer.
fn write_file<D: Disk>(disk: &mut D, f: FileNo, piece: &[u8]) -> Result<(), DiskErr>
    requires { 0 < length piece.now }
    ensures state { D.meaning.observable ≡ true → OnOk result (now (D.meaning.history disk.new) ≡ appended f.0 piece.now (created f.0 (synced (now (D.meaning.history disk.old))))) }
    ensures moments { D.meaning.observable ≡ true → Passes (D.meaning.history disk.old) (D.meaning.history disk.new) (IsPutNext f.0 piece.now (now (D.meaning.history disk.old))) }
    ensures cause { HasFault (D.meaning.faults disk.old) (D.meaning.faults disk.new) result }
    ensures sync_out { D.meaning.sync_out disk.new ≡ D.meaning.sync_out disk.old }
    ensures read_out { D.meaning.read_out disk.new ≡ D.meaning.read_out disk.old }
    ensures read_of { D.meaning.read_of disk.new ≡ D.meaning.read_of disk.old }
{
    make_file(disk, f)?;
    disk.append(f, piece)
}

// Writes the write buffer, whose last piece belongs to the file `last`.
fn write_unwritten<D: Disk>(disk: &mut D, unwritten: &WriteBuffer, last: u32) -> Result<(), DiskErr>
    requires { length unwritten.now.starts.items ≤ last }
    ensures done { D.meaning.observable ≡ true → OnOk result ((f : ℕ) → (now (D.meaning.history disk.new)).reads f ≡ joined ((now (D.meaning.history disk.old)).reads f) (bytes_for unwritten.now.bytes.items unwritten.now.starts.items last f)) }
    ensures crash { D.meaning.observable ≡ true → (log removed : Log) (least : ℕ) (begun : Option ℕ) → IsUnwrittenOf log (now (D.meaning.history disk.old)).reads (bytes_for unwritten.now.bytes.items unwritten.now.starts.items last) (last - length unwritten.now.starts.items) → Holds log removed least begun (last - length unwritten.now.starts.items) (now (D.meaning.history disk.old))
        → KeptThrough (D.meaning.history disk.old) (D.meaning.history disk.new) log removed least }
    ensures holds { D.meaning.observable ≡ true → (log removed : Log) (least : ℕ) (begun : Option ℕ) → IsUnwrittenOf log (now (D.meaning.history disk.old)).reads (bytes_for unwritten.now.bytes.items unwritten.now.starts.items last) (last - length unwritten.now.starts.items) → Holds log removed least begun (last - length unwritten.now.starts.items) (now (D.meaning.history disk.old))
        → OnOk result (Holds log removed least begun last (now (D.meaning.history disk.new))) }
    ensures cause { HasFault (D.meaning.faults disk.old) (D.meaning.faults disk.new) result }
    ensures sync_out { D.meaning.sync_out disk.new ≡ D.meaning.sync_out disk.old }
    ensures read_out { D.meaning.read_out disk.new ≡ D.meaning.read_out disk.old }
    ensures read_of { D.meaning.read_of disk.new ≡ D.meaning.read_of disk.old }
{
    let count = unwritten.files() as u32;
    let first = last - count;
    write_behind(disk, FileNo(first), unwritten.piece(0))?;
    for i in 0..count {
        let piece = i + 1;
        write_file(disk, FileNo(first + piece), unwritten.piece(piece as usize))?;
    }
    Ok(())
}

impl<D: Disk> LogBuffer<D> {
    /// Writes the write buffer out: then it is empty, and each file is whole on the disk. A file that
    /// begins in the write buffer is made only after the one before it was written whole and a sync of
    /// it has finished.
    pub fn write_out(&mut self) -> Result<(), LogErr>
        ensures written { OnOk result (IsWritten self.new) }
        ensures whole { (log : Log) → HasLog D.meaning.observable (now (D.meaning.history (disk_of self.old))) self.old log → OnOk result (ReadAs D.meaning.observable (now (D.meaning.history (disk_of self.new))).reads log) }
        ensures grew { OnOk result (Grew D.meaning self.old self.new []) }
        ensures tried { OnErr result (Tried D.meaning self.old self.new []) }
        ensures end { end_of self.new ≡ end_of self.old }
        ensures last { last_of self.new ≡ last_of self.old }
        ensures room { (sizes : List ℕ) → HasRoom self.old sizes → OnOk result (HasRoom self.new sizes) }
        ensures file_max { file_max_of self.new ≡ file_max_of self.old }
        ensures by_fault { FailsByFault result }
        ensures cause { HasLogCause (has_failed self.old) (has_failed self.new) (D.meaning.faults (disk_of self.old)) (D.meaning.faults (disk_of self.new)) result }
        ensures still { has_failed self.old ≡ true → disk_of self.new ≡ disk_of self.old }
    {
        if self.failed {
            return Err(LogErr::Fault);
        }
        self.failed = true;
        match write_unwritten(&mut self.disk, &self.unwritten, self.file.0) {
            Ok(()) => {
                self.unwritten.clear();
                self.flushed_len = self.offset;
                self.failed = false;
                Ok(())
            }
            Err(_) => Err(LogErr::Fault),
        }
    }
}
