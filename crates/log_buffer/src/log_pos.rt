// Places of the log, and where an entry goes.
ghost use Rattle.std.specs.Prelude.{◌≡◌, ◌+◌, ◌<◌, ◌^◌};

use log_file::HEADER_SIZE;

/// A place of the log: a file's number, which may be one past the last, and an offset there in bytes.
#[derive(Clone, Copy, Debug, PartialEq, Eq)]
pub struct LogPos {
    pub file: u32,
    pub offset: u64,
}

impl LogPos {
    ghost use Rattle.log_buffer.specs.Flip.{placed_at, behind};

    /// Where an entry of so many bytes stands, in a log that ends here: here, where it ends at a file's
    /// greatest size or before it, or where the file holds its header alone; else behind the header of
    /// the next file.
    pub fn placed(self, file_max: u32, size: u32) -> LogPos
        requires file { self.file + 1 < 2 ^ 32 }
        requires offset { self.offset < 2 ^ 33 }
        ensures { result ≡ placed_at file_max self size }
    {
        if self.offset + u64::from(size) <= u64::from(file_max)
            || self.offset == u64::from(HEADER_SIZE)
        {
            self
        } else {
            LogPos {
                file: self.file + 1,
                offset: u64::from(HEADER_SIZE),
            }
        }
    }

    /// So many bytes further in the same file.
    pub fn behind(self, size: u32) -> LogPos
        requires { self.offset < 2 ^ 33 }
        ensures { result ≡ behind self size }
    {
        LogPos {
            file: self.file,
            offset: self.offset + u64::from(size),
        }
    }
}
