//! A disk that is a folder. It stands on `je_disk`, over std's files. It is not observable, since no
//! contract can say what a file holds: proved are its safety, the causes of its errors, which jobs are
//! out, and that the end of a sync job that noted a failure is a fault; the rest is for its readers and
//! its tests. Room is set aside behind the bytes of a file that grows, so most syncs find the file's length as it
//! was; each open file keeps its own length. A sync job has handles of its own of what is to be synced, and a
//! read job has one of its file. The folder is locked from the mount on, or from its making, so that no second disk is over it.
#![tactic(auto)]

pub mod dir;
pub mod dir_path;
pub mod folder;
pub mod folder_lock;
pub mod job;
pub mod opened;
pub mod pending;
pub mod pieces;

pub use dir::DirDisk;
pub use folder_lock::FolderLock;
pub use job::{DirDone, DirJob, DirReadDone, DirReadJob};
