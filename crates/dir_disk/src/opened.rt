// A file that is open.
ghost use Rattle.std.specs.Prelude.{◌≡◌, ◌≤◌, ◌+◌, length, IfOk, OnOk, OnErr};

use crate::pending::{Pending, Stage};
use crate::pieces::fill_from;
use je_disk::extended;
use std::alloc::Global;
use std::fs::OpenFile;
use std::io;
use std::io::{Error, ErrorKind, Read, Seek, SeekFrom, Write};
use std::sync::Arc;

/// What a sync has to make stable of a file.
#[derive(Clone, Copy, PartialEq, Eq)]
pub enum Scope {
    /// Its bytes: its length on the disk has not changed.
    Bytes,
    /// Its bytes and its length.
    Whole,
}

/// A file that is open for reading and for writing. Its own bytes come first; behind them there may be room on the
/// disk, which reads as zeros and is no part of the file. As long as bytes are put into that room, the file's length
/// on the disk stays the same, and a sync of its bytes is enough.
#[derive(Drop)]
pub struct Opened<F> {
    file: F,
    // how many bytes it has
    len: u64,
    // where it ends on the disk, with the room behind its bytes
    end: u64,
    // its bytes
    data: Pending,
    // its length on the disk
    size: Pending,
    // where the next byte is written, if that is known
    position: Option<u64>,
    // the handle that its sync jobs share, once there was one
    shared: Option<Arc<F, Global>>,
}

impl<F> Opened<F> {
    /// A new file, which is empty.
    pub fn made(file: F) -> Opened<F>
        ensures { result.len ≡ 0 }
    {
        Opened {
            file,
            len: 0,
            end: 0,
            data: Pending::Nothing,
            size: Pending::Sync,
            position: None,
            shared: None,
        }
    }

    /// How many bytes it has.
    pub fn len(&self) -> u64
        ensures { result ≡ self.now.len }
    {
        self.len
    }

    /// What the next sync has to make stable of it; none where it is stable.
    pub fn due(&self) -> Option<Scope> {
        if self.size.is_due() {
            Some(Scope::Whole)
        } else if self.data.is_due() {
            Some(Scope::Bytes)
        } else {
            None
        }
    }

    /// Whether it has to stay open: it is not stable, or there is room behind its bytes.
    pub fn is_needed(&self) -> bool {
        self.due().is_some() || self.len < self.end
    }

    /// The sync job that is out reaches a stage.
    pub(crate) fn follow(&mut self, stage: Stage) {
        self.data.follow(stage);
        self.size.follow(stage);
    }
}

impl<F: Read + Write + Seek + OpenFile + Drop> Opened<F> {
    /// A file that was there, with all the bytes that it has on the disk.
    pub fn found(file: F) -> io::Result<Opened<F>> {
        let len = file.metadata()?.len();
        Ok(Opened {
            file,
            len,
            end: len,
            data: Pending::Nothing,
            size: Pending::Nothing,
            position: None,
            shared: None,
        })
    }

    /// A handle for a sync job. All of the file's jobs share one, so it is made once.
    pub fn handle(&mut self, alloc: Global) -> io::Result<Arc<F, Global>> {
        if let Some(shared) = &self.shared {
            return Ok(Arc::try_clone(shared)?);
        }
        let shared = Arc::new(alloc, self.file.try_clone()?)?;
        let handle = Arc::try_clone(&shared)?;
        self.shared = Some(shared);
        Ok(handle)
    }

    /// Puts bytes behind its own, and sets room aside first where they would pass its end on the disk. A call that
    /// fails adds none.
    pub fn append(&mut self, bytes: &[u8]) -> io::Result<()>
        ensures ok { OnOk result (self.new.len ≡ self.old.len + length bytes.now) }
        ensures room { OnOk result (self.new.len ≤ self.new.end) }
        ensures err { OnErr result (self.new.len ≡ self.old.len) }
    {
        let Some(len) = self.len.checked_add(bytes.len() as u64) else {
            return Err(Error::from(ErrorKind::FileTooLarge));
        };
        self.make_room(len)?;
        self.data = Pending::Sync;
        self.go_to_end()?;
        self.file.write_all(bytes)?;
        self.len = len;
        self.position = Some(len);
        Ok(())
    }

    // What is written next stands behind its bytes. Until that is done it is not known where the next byte is written.
    fn go_to_end(&mut self) -> io::Result<()>
        ensures len { self.new.len ≡ self.old.len }
        ensures end { self.new.end ≡ self.old.end }
    {
        let position = self.position;
        self.position = None;
        if position != Some(self.len) {
            self.file.seek(SeekFrom::Start(self.len))?;
        }
        Ok(())
    }

    // So many bytes have room.
    fn make_room(&mut self, len: u64) -> io::Result<()>
        ensures room { OnOk result (len ≤ self.new.end) }
        ensures len { self.new.len ≡ self.old.len }
    {
        if len <= self.end {
            return Ok(());
        }
        let Some(end) = extended(len) else {
            return Err(Error::from(ErrorKind::FileTooLarge));
        };
        self.set_end(end)
    }

    // Its end on the disk, which the next sync makes stable.
    fn set_end(&mut self, end: u64) -> io::Result<()>
        ensures end { OnOk result (self.new.end ≡ end) }
        ensures len { self.new.len ≡ self.old.len }
    {
        self.size = Pending::Sync;
        self.file.set_len(end)?;
        self.end = end;
        Ok(())
    }

    /// Cuts it to a length, where it has more bytes. No room is left behind them.
    pub fn cut(&mut self, len: u64) -> io::Result<()>
        ensures { OnOk result (self.new.len ≤ len) }
    {
        if self.len <= len {
            return Ok(());
        }
        self.set_end(len)?;
        self.len = len;
        Ok(())
    }

    /// Gives the room behind its bytes back.
    pub fn trim(&mut self) -> io::Result<()>
        ensures end { OnOk result (self.new.end ≤ self.new.len) }
        ensures len { self.new.len ≡ self.old.len }
    {
        if self.end <= self.len {
            return Ok(());
        }
        self.set_end(self.len)
    }

    /// Reads its bytes from an offset into the front of a piece, and answers how many.
    pub fn read(&mut self, at: u64, into: &mut [u8]) -> io::Result<usize>
        ensures { IfOk result (λ count. count ≤ length into.old) }
    {
        if self.len <= at {
            return Ok(0);
        }
        let left = (self.len - at) as usize;
        let count = into.len().min(left);
        self.position = None;
        fill_from(&mut self.file, at, &mut into[..count])
    }
}
