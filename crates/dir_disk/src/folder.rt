// The folder and its open files.
ghost use Rattle.std.specs.Prelude.{◌≡◌, ◌≤◌, [], false, length, string_bytes, IfOk, IsErr};
ghost use Rattle.je_disk.specs.States.{AreRisingNumbers};

use crate::dir_path::DirPath;
use crate::folder_lock::FolderLock;
use crate::job::{DirJob, DirReadJob, Lost, Target, sync_all, sync_file, whole};
use crate::opened::{Opened, Scope};
use crate::pending::{Pending, Stage};
use crate::pieces::in_order;
use je_lsn::FileNo;
use std::alloc::{AllocError, Global};
use std::collections::BTreeMap;
use std::io;
use std::io::{Error, ErrorKind};
use std::rt::Files;
use std::sync::Arc;
use std::sync::atomic::AtomicBool;
use std::sync::atomic::Ordering::SeqCst;

// Beyond this many open files, those that are not needed are closed.
const MOST_OPEN: usize = 64;

/// The file of the read job that is out, and whether it was changed since the job began.
#[derive(Clone, Copy)]
struct Reading {
    file: FileNo,
    is_changed: bool,
}

/// The folder, and what has to be done at the next sync.
#[derive(Drop)]
pub struct Folder<R: Files + AllocGlobal + Clone + Drop> {
    dir_path: DirPath<R>,
    files: BTreeMap<u32, Opened<R::File>>,
    // the folder's entries
    entries: Pending,
    // the folder's own name, in the folder above
    name: Pending,
    // no sync has been finished since the mount, so files of earlier runs may not be stable
    is_unflushed: bool,
    lost: Lost,
    reading: Option<Reading>,
    // the folder, locked
    held: Option<R::File>,
}

fn lost_data() -> Error {
    Error::from(ErrorKind::Other)
}

// Puts a folder behind other targets, where the system gave a handle of it.
fn push_folder<F: Drop>(
    targets: &mut Vec<Target<F>>,
    alloc: Global,
    opened: io::Result<F>,
) -> io::Result<()> {
    let file = Arc::new(alloc, opened?)?;
    targets.push(Target {
        file,
        scope: Scope::Whole,
    })?;
    Ok(())
}

impl<R: Files + AllocGlobal + Clone + Drop> Folder<R>
where
    R::File: FolderLock,
{
    pub fn new(rt: &R, path: &str) -> Result<Folder<R>, AllocError>
        ensures path { IfOk result (λ folder. string_bytes folder.dir_path.path ≡ path.now) }
    {
        let lost = Arc::new(rt.alloc(), AtomicBool::new(false))?;
        let dir_path = DirPath::new(rt, path)?;
        Ok(Folder {
            dir_path,
            files: BTreeMap::new(rt.alloc()),
            entries: Pending::Nothing,
            name: Pending::Nothing,
            is_unflushed: true,
            lost,
            reading: None,
            held: None,
        })
    }

    // Locks the folder, where it is there and not locked yet.
    fn hold(&mut self) -> io::Result<()> {
        if self.held.is_some() || !self.dir_path.is_there()? {
            return Ok(());
        }
        let folder = self.dir_path.folder()?;
        folder.lock_folder()?;
        self.held = Some(folder);
        Ok(())
    }

    /// Forgets the open files, and gives the room behind their bytes back first. Then locks the folder, until this is let
    /// go. A folder that is not there is no error; anything else of its name is, and so is an empty name, a file in it
    /// that is not ours to touch, or that another process has the folder's lock.
    pub fn mount(&mut self) -> io::Result<()>
        ensures empty { string_bytes self.old.dir_path.path ≡ [] → IsErr result }
    {
        self.trim()?;
        self.files.clear();
        self.entries = Pending::Nothing;
        self.name = Pending::Nothing;
        self.is_unflushed = true;
        self.reading = None;
        self.dir_path.is_there()?;
        self.dir_path.check_entries()?;
        self.hold()
    }

    /// The numbers of the log files, rising; none where there is no folder.
    pub fn list(&self, alloc: Global) -> io::Result<Vec<FileNo>>
        ensures { IfOk result (λ files. AreRisingNumbers files.items) }
    {
        let numbers = self.dir_path.numbers(alloc)?;
        Ok(in_order(alloc, &numbers)?)
    }

    // Opens a file, where it is there.
    fn open(&mut self, f: FileNo) -> io::Result<()> {
        if self.files.contains_key(&f.0) {
            return Ok(());
        }
        match self.dir_path.file(f)? {
            Some(file) => self.keep(f, Opened::found(file)?),
            None => Ok(()),
        }
    }

    fn keep(&mut self, f: FileNo, opened: Opened<R::File>) -> io::Result<()> {
        if self.files.len() >= MOST_OPEN {
            self.files.retain(|_, opened| opened.is_needed());
        }
        self.files.insert(f.0, opened)?;
        Ok(())
    }

    // Gives the room behind the bytes of the open files back.
    fn trim(&mut self) -> io::Result<()>
        ensures { self.new.dir_path ≡ self.old.dir_path }
    {
        for opened in self.files.values_mut() {
            opened.trim()?;
        }
        Ok(())
    }

    // The read job that is out for this file has to read it again at its end.
    fn note_change(&mut self, f: FileNo) {
        if let Some(reading) = &mut self.reading {
            if reading.file == f {
                reading.is_changed = true;
            }
        }
    }

    /// Makes a file that is not there, and the folder too, and locks it, where it is not there.
    pub fn create(&mut self, f: FileNo) -> io::Result<()> {
        self.open(f)?;
        if self.files.contains_key(&f.0) {
            return Ok(());
        }
        self.note_change(f);
        let made = match self.dir_path.make(f)? {
            None => {
                self.dir_path.make_folder()?;
                self.name = Pending::Sync;
                self.hold()?;
                self.dir_path.make(f)?
            }
            made => made,
        };
        self.entries = Pending::Sync;
        match made {
            Some(file) => self.keep(f, Opened::made(file)),
            None => Err(Error::from(ErrorKind::NotFound)),
        }
    }

    /// Puts bytes at a file's end.
    pub fn append(&mut self, f: FileNo, bytes: &[u8]) -> io::Result<()> {
        self.create(f)?;
        self.note_change(f);
        match self.files.get_mut(&f.0) {
            Some(opened) => opened.append(bytes),
            None => Err(Error::from(ErrorKind::NotFound)),
        }
    }

    /// Cuts a file to a length, where it is longer.
    pub fn cut(&mut self, f: FileNo, len: u64) -> io::Result<()> {
        if self.len(f)? <= len {
            return Ok(());
        }
        self.note_change(f);
        match self.files.get_mut(&f.0) {
            Some(opened) => opened.cut(len),
            None => Ok(()),
        }
    }

    /// Takes a file away, where it is there.
    pub fn remove(&mut self, f: FileNo) -> io::Result<()> {
        self.note_change(f);
        if self.dir_path.remove(f)? {
            self.entries = Pending::Sync;
            self.files.remove(&f.0);
        }
        Ok(())
    }

    /// How many bytes a file has; 0 where it is not there.
    pub fn len(&mut self, f: FileNo) -> io::Result<u64> {
        self.open(f)?;
        match self.files.get(&f.0) {
            Some(opened) => Ok(opened.len()),
            None => Ok(0),
        }
    }

    /// Reads a file's bytes from an offset into the front of a piece; none where it is not there.
    pub fn read(&mut self, f: FileNo, at: u64, into: &mut [u8]) -> io::Result<usize>
        ensures { IfOk result (λ count. count ≤ length into.old) }
    {
        // no file reaches past the greatest offset that a seek takes
        if at > i64::MAX as u64 {
            return Ok(0);
        }
        self.open(f)?;
        match self.files.get_mut(&f.0) {
            Some(opened) => opened.read(at, into),
            None => Ok(0),
        }
    }

    // How many bytes a file may have: where it is not open no room is set aside behind it.
    fn limit(&self, f: FileNo) -> u64 {
        match self.files.get(&f.0) {
            Some(opened) => opened.len(),
            None => u64::MAX,
        }
    }

    /// Begins to read a whole file.
    pub fn begin_read(&mut self, number: u64, f: FileNo) -> io::Result<DirReadJob<R::File>>
        ensures { IfOk result (λ job. job.number ≡ number) }
    {
        let file = self.dir_path.reader(f)?;
        self.reading = Some(Reading {
            file: f,
            is_changed: false,
        });
        Ok(DirReadJob {
            number,
            alloc: self.dir_path.alloc(),
            file,
            limit: self.limit(f),
        })
    }

    /// Ends a reading, with what the job read, or with the file's bytes now where it was changed since.
    pub fn end_read(&mut self, alloc: Global, bytes: io::Result<Vec<u8>>) -> io::Result<Vec<u8>> {
        match self.reading.take() {
            Some(reading) if reading.is_changed => {
                drop(bytes);
                let file = self.dir_path.reader(reading.file)?;
                whole(alloc, file, self.limit(reading.file))
            }
            _ => bytes,
        }
    }

    /// Gives the room behind the files' bytes back. Makes stable each file that was written to, then the folder where
    /// a file was made in it or taken away, then the folder above it where the folder was made. The first sync after
    /// a mount makes all stable. Once the system has failed to sync, no sync works.
    pub fn sync(&mut self) -> io::Result<()> {
        self.trim()?;
        let targets = self.targets()?;
        self.finish(sync_all(targets.as_slice(), &self.lost))?;
        self.follow(Stage::Begun);
        self.follow(Stage::Ended { worked: true });
        Ok(())
    }

    /// Begins a sync job, of the same files and folders. The room behind the files' bytes stays, so of most files
    /// their bytes alone are to be synced.
    pub fn begin_sync(&mut self, number: u64) -> io::Result<DirJob<R::File>>
        ensures { IfOk result (λ job. job.number ≡ number) }
    {
        self.follow(Stage::Ended { worked: false });
        let targets = self.targets()?;
        let lost = Arc::try_clone(&self.lost)?;
        self.follow(Stage::Begun);
        Ok(DirJob {
            number,
            targets,
            lost,
        })
    }

    /// Ends a sync job that has worked or failed. What was done since it began is due still.
    pub fn end_sync(&mut self, worked: bool) -> io::Result<()>
        ensures failed { worked ≡ false → IsErr result }
    {
        self.follow(Stage::Ended { worked });
        self.finish(if worked { Ok(()) } else { Err(lost_data()) })
    }

    /// No sync job is out: what it was to make stable is due again.
    pub fn give_up_sync(&mut self) {
        self.follow(Stage::Ended { worked: false });
    }

    fn finish(&self, answer: io::Result<()>) -> io::Result<()>
        ensures failed { IsErr answer → IsErr result }
    {
        answer?;
        if self.lost.load(SeqCst) {
            return Err(lost_data());
        }
        Ok(())
    }

    // Handles of all that is due: of the files, of the folder, of the folder above.
    fn targets(&mut self) -> io::Result<Vec<Target<R::File>>> {
        if self.is_unflushed {
            self.flush()?;
            self.is_unflushed = false;
        }
        let alloc = self.dir_path.alloc();
        let mut targets = Vec::new(alloc);
        for opened in self.files.values_mut() {
            if let Some(scope) = opened.due() {
                let file = opened.handle(alloc)?;
                targets.push(Target { file, scope })?;
            }
        }
        if self.entries.is_due() {
            push_folder(&mut targets, alloc, self.dir_path.folder())?;
        }
        if self.name.is_due() {
            push_folder(&mut targets, alloc, self.dir_path.above())?;
        }
        Ok(targets)
    }

    // What earlier runs made, wrote or took away may not be stable yet, the folder itself included.
    fn flush(&mut self) -> io::Result<()> {
        if !self.dir_path.is_there()? {
            return Ok(());
        }
        let files = self.list(self.dir_path.alloc())?;
        for f in &files {
            if let Some(file) = self.dir_path.reader(*f)? {
                sync_file(&file, Scope::Whole, &self.lost)?;
            }
        }
        self.entries = Pending::Sync;
        self.name = Pending::Sync;
        Ok(())
    }

    // The sync job reaches a stage, for all that it is to make stable.
    fn follow(&mut self, stage: Stage) {
        for opened in self.files.values_mut() {
            opened.follow(stage);
        }
        self.entries.follow(stage);
        self.name.follow(stage);
    }
}
