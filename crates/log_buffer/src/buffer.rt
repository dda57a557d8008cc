// The log buffer.
ghost use Rattle.std.specs.Prelude.{ℕ, ◌≤◌, ◌^◌, length};

use crate::write_buffer::WriteBuffer;
use je_lsn::FileNo;

/// The end of a log over a disk: what was appended and is not written yet, and where the log ends.
///
/// A buffer begins by `resume` or `create`. Entries go into its write buffer by `append`, which writes
/// the write buffer out once it is long, as `write_out` does; `sync_begin` writes it out and begins a
/// sync. After a fault of the disk the buffer has failed: it touches the disk no more, and each call
/// answers Fault.
pub struct LogBuffer<D> {
    /// The disk below.
    pub(crate) disk: D,
    /// What was appended and is not on the disk yet.
    pub(crate) unwritten: WriteBuffer,
    /// The last file.
    pub(crate) file: FileNo,
    /// The offset in the last file at which the log ends, in bytes.
    pub(crate) offset: u32,
    /// The offset of the last file's last entry, 0 where it holds its header alone.
    pub(crate) last: u32,
    /// How many bytes the file at whose end the write buffer begins has on the disk.
    pub(crate) flushed_len: u32,
    /// The greatest size in bytes of a file that holds more than one entry behind its header.
    pub(crate) file_max: u32,
    /// Whether a call met a fault of the disk.
    pub(crate) failed: bool,
    ghost last_file: { file.0 ≤ 0xfffffffe },
    ghost max: { file_max ≤ 2 ^ 30 },
    ghost files: { length unwritten.starts.items ≤ file.0 },
}
