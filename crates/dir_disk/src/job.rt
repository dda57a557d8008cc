// The jobs of a folder.
ghost use Rattle.std.specs.Prelude.{◌≡◌, [], length, take, IsNone, IfSome, IfOk};

use crate::opened::Scope;
use je_disk::{ReadDone, ReadJob, SyncDone, SyncJob};
use std::alloc::Global;
use std::fs::OpenFile;
use std::io;
use std::io::Read;
use std::sync::Arc;
use std::sync::atomic::AtomicBool;
use std::sync::atomic::Ordering::SeqCst;

/// Whether a sync of the system has failed. The system may have let go what it could not write, and
/// may say of a later sync that it worked: so no later one is trusted.
pub type Lost = Arc<AtomicBool, Global>;

/// A handle of a file or of a folder that is to be synced, and what of it. A file's jobs share one handle.
#[derive(Drop)]
pub struct Target<F> {
    pub(crate) file: Arc<F, Global>,
    pub(crate) scope: Scope,
}

/// A sync that was begun: handles of the files, and of the folders, that are to be synced.
pub struct DirJob<F> {
    pub(crate) number: u64,
    pub(crate) targets: Vec<Target<F>>,
    pub(crate) lost: Lost,
}

/// A sync that has run, and whether it worked.
pub struct DirDone {
    number: u64,
    worked: bool,
}

/// The reading of a file that was begun: a handle of its own, none where the file was not there, and how many
/// bytes it may have.
pub struct DirReadJob<F> {
    pub(crate) number: u64,
    pub(crate) alloc: Global,
    pub(crate) file: Option<F>,
    pub(crate) limit: u64,
}

/// The reading of a file that has run: its bytes, or why there are none.
pub struct DirReadDone {
    number: u64,
    bytes: io::Result<Vec<u8>>,
}

/// Syncs a file, or its bytes alone, and notes a failure.
pub fn sync_file<F: OpenFile>(file: &F, scope: Scope, lost: &Lost) -> io::Result<()> {
    let answer = match scope {
        Scope::Bytes => file.sync_data(),
        Scope::Whole => file.sync_all(),
    };
    if answer.is_err() {
        lost.store(true, SeqCst);
    }
    answer
}

/// Syncs files in their order, and notes a failure, after which it syncs no more.
pub fn sync_all<F: OpenFile>(targets: &[Target<F>], lost: &Lost) -> io::Result<()> {
    for target in targets {
        sync_file(&*target.file, target.scope, lost)?;
    }
    Ok(())
}

/// The bytes of a file that is read from its beginning, so many at most; none where there is no file.
pub fn whole<F: Read + Drop>(alloc: Global, file: Option<F>, limit: u64) -> io::Result<Vec<u8>>
    ensures none { IsNone file → IfOk result (λ bytes. bytes.items ≡ []) }
    ensures all { IfSome file (λ file. IfSome (F.remaining file) (λ left. IfOk result (λ bytes. bytes.items ≡ take limit left))) }
{
    let mut bytes = Vec::new(alloc);
    let Some(mut file) = file else {
        return Ok(bytes);
    };
    file.read_to_end(&mut bytes)?;
    bytes.truncate(limit as usize);
    Ok(bytes)
}

impl<F> DirJob<F> {
    /// How many files and folders are to be synced.
    pub fn due(&self) -> usize
        ensures { result ≡ length self.now.targets.items }
    {
        self.targets.len()
    }
}

impl<F: OpenFile + Drop> SyncJob for DirJob<F> {
    type Done = DirDone;

    ghost job_number = { λ job. job.number };

    fn number(&self) -> u64 {
        self.number
    }

    fn run(self) -> DirDone {
        let DirJob {
            number,
            targets,
            lost,
        } = self;
        let worked = sync_all(targets.as_slice(), &lost).is_ok();
        DirDone { number, worked }
    }
}

impl DirDone {
    /// Spends it, and says whether the sync worked.
    pub(crate) fn worked(self) -> bool
        ensures { result ≡ self.worked }
    {
        let DirDone { number: _, worked } = self;
        worked
    }
}

impl SyncDone for DirDone {
    ghost done_number = { λ done. done.number };

    fn number(&self) -> u64 {
        self.number
    }

    fn give_up(self) {
        self.worked();
    }
}

impl<F: Read + Drop> ReadJob for DirReadJob<F> {
    type Done = DirReadDone;

    ghost job_number = { λ job. job.number };

    fn number(&self) -> u64 {
        self.number
    }

    fn run(self) -> DirReadDone {
        let DirReadJob {
            number,
            alloc,
            file,
            limit,
        } = self;
        DirReadDone {
            number,
            bytes: whole(alloc, file, limit),
        }
    }
}

impl DirReadDone {
    /// Spends it, and hands out the bytes.
    pub(crate) fn bytes(self) -> io::Result<Vec<u8>>
        ensures { result ≡ self.bytes }
    {
        let DirReadDone { number: _, bytes } = self;
        bytes
    }
}

impl ReadDone for DirReadDone {
    ghost done_number = { λ done. done.number };

    fn number(&self) -> u64 {
        self.number
    }

    fn give_up(self) {
        drop(self.bytes());
    }
}
