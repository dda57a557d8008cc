// The folder by its path.
use je_lsn::{FileNo, file_name, parse_name};
use std::alloc::{AllocError, Global};
use std::collections::BTreeSet;
use std::fs::{DirEntry, OpenOptions};
use std::io::{Error, ErrorKind};
use std::path::Path;
use std::rt::Files;
use std::{fs, io};

// Berkeley DB Java Edition makes a file of this name in each of its environments. Its log files have names as ours.
const JE_LOCK_FILE: &str = "je.lck";

/// A folder's path, with the calls of the system that take one.
#[derive(Drop)]
pub struct DirPath<R: Files + AllocGlobal + Clone + Drop> {
    rt: R,
    path: String,
}

// What the system gave; none where it answered that there is no file or folder of that path.
fn if_there<T>(answer: io::Result<T>) -> io::Result<Option<T>> {
    match answer {
        Ok(found) => Ok(Some(found)),
        Err(e) if e.kind() == ErrorKind::NotFound => Ok(None),
        Err(e) => Err(e),
    }
}

// An error at Berkeley DB Java Edition's lock file, and where a log file's name is no regular file's: a symbolic
// link's (which is not followed), a folder's, a device's.
fn check_entry<R: Files>(entry: &DirEntry<R>) -> io::Result<()> {
    let name = entry.file_name();
    if name == JE_LOCK_FILE {
        return Err(Error::from(ErrorKind::AlreadyExists));
    }
    if parse_name(name.as_bytes()).is_some() && !entry.file_type()?.is_file() {
        return Err(Error::from(ErrorKind::InvalidInput));
    }
    Ok(())
}

impl<R: Files + AllocGlobal + Clone + Drop> DirPath<R> {
    ghost use Rattle.std.specs.Prelude.{◌≡◌, [], IfOk, IsErr, string_bytes};

    pub fn new(rt: &R, path: &str) -> Result<DirPath<R>, AllocError>
        ensures path { IfOk result (λ dir_path. string_bytes dir_path.path ≡ path.now) }
    {
        Ok(DirPath {
            rt: rt.clone()?,
            path: String::from_str(rt.alloc(), path)?,
        })
    }

    pub fn alloc(&self) -> Global {
        self.rt.alloc()
    }

    // The path, by which every call of the system goes. An empty one, as a variable of a shell gives that is not
    // set, names no folder: it is not the current one.
    fn path(&self) -> io::Result<&str>
        ensures empty { string_bytes self.now.path ≡ [] → IsErr result }
    {
        if self.path.is_empty() {
            return Err(Error::from(ErrorKind::InvalidFilename));
        }
        Ok(self.path.as_str())
    }

    fn path_of(&self, f: FileNo) -> io::Result<String> {
        let name = file_name(f);
        let Ok(name) = std::str::from_utf8(name.as_slice()) else {
            return Err(Error::from(ErrorKind::InvalidFilename));
        };
        let folder = self.path()?;
        Ok(format!(in self.rt.alloc(); "{folder}/{name}")?)
    }

    /// Whether the folder is there. Anything else of its name is an error, and so is an empty name.
    pub fn is_there(&self) -> io::Result<bool>
        ensures empty { string_bytes self.now.path ≡ [] → IsErr result }
    {
        let path = self.path()?;
        match if_there(self.rt.metadata(path))? {
            Some(found) if found.is_dir() => Ok(true),
            Some(_) => Err(Error::from(ErrorKind::NotADirectory)),
            None => Ok(false),
        }
    }

    /// An error where the folder has a file that is not ours to touch. Nothing is opened or changed; a folder that is
    /// not there has none.
    pub fn check_entries(&self) -> io::Result<()> {
        let Some(entries) = if_there(fs::read_dir(&self.rt, self.path()?))? else {
            return Ok(());
        };
        for entry in entries {
            match entry {
                Ok(entry) => check_entry(&entry)?,
                // a name that is no text is no log file's
                Err(e) if e.kind() == ErrorKind::InvalidFilename => {}
                Err(e) => return Err(e),
            }
        }
        Ok(())
    }

    pub fn make_folder(&self) -> io::Result<()> {
        fs::create_dir(&self.rt, self.path()?)
    }

    /// The folder itself, to be synced.
    pub fn folder(&self) -> io::Result<R::File> {
        OpenOptions::new().read(true).open(&self.rt, self.path()?)
    }

    /// The folder above this one, to be synced.
    pub fn above(&self) -> io::Result<R::File> {
        let above = match Path::new(self.path()?).parent() {
            Some(above) if !above.as_os_str().is_empty() => above.as_str(),
            _ => ".",
        };
        OpenOptions::new().read(true).open(&self.rt, above)
    }

    /// The numbers of the log files; none where there is no folder.
    pub fn numbers(&self, alloc: Global) -> io::Result<BTreeSet<u32>> {
        let mut numbers = BTreeSet::new(alloc);
        let Some(entries) = if_there(fs::read_dir(&self.rt, self.path()?))? else {
            return Ok(numbers);
        };
        for entry in entries {
            match entry {
                Ok(entry) => {
                    if let Some(f) = parse_name(entry.file_name().as_bytes()) {
                        numbers.insert(f.0)?;
                    }
                }
                // a name that is no text is no log file's
                Err(e) if e.kind() == ErrorKind::InvalidFilename => {}
                Err(e) => return Err(e),
            }
        }
        Ok(numbers)
    }

    // Opens a file; none where there is no file, or no folder, of that path.
    fn open(&self, f: FileNo, options: &OpenOptions) -> io::Result<Option<R::File>> {
        let path = self.path_of(f)?;
        if_there(options.open(&self.rt, path.as_str()))
    }

    /// A file that is there, for reading and for writing.
    pub fn file(&self, f: FileNo) -> io::Result<Option<R::File>> {
        self.open(f, OpenOptions::new().read(true).write(true))
    }

    /// A file that is there, for reading alone, with a position of its own.
    pub fn reader(&self, f: FileNo) -> io::Result<Option<R::File>> {
        self.open(f, OpenOptions::new().read(true))
    }

    /// A new file, for reading and for writing; none where the folder is not there.
    pub fn make(&self, f: FileNo) -> io::Result<Option<R::File>> {
        self.open(
            f,
            OpenOptions::new().read(true).write(true).create_new(true),
        )
    }

    /// Takes a file's name away, and answers whether the file was there.
    pub fn remove(&self, f: FileNo) -> io::Result<bool> {
        let path = self.path_of(f)?;
        let removed = if_there(fs::remove_file(&self.rt, path.as_str()))?;
        Ok(removed.is_some())
    }
}
