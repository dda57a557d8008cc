// A folder is one disk's at a time.
use std::fs::File;
use std::io;

/// What can be locked of an open folder. The lock stays as long as this handle is open: no other handle of the folder
/// gets it, be it of this process or of another one. Where a process ends, the system gives its locks back.
pub trait FolderLock {
    /// Locks the folder for this handle, without waiting. An error where another handle has the lock.
    fn lock_folder(&self) -> io::Result<()>;
}

impl FolderLock for File {
    fn lock_folder(&self) -> io::Result<()> {
        Ok(self.try_lock()?)
    }
}
