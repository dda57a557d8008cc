// What a database has under a name.
ghost use Rattle.std.specs.Prelude.{◌≡◌, None};
ghost use Rattle.record_map.specs.Cells.{change_at, is_as_shown, is_same_version, fresh, shown_by, with_version, committed};
ghost use Rattle.node_core.specs.declared.slot.Version.TheVariants.{There};

use crate::{Data, Write};
use je_lsn::{FileNo, Lsn};
use node_core::Version;

/// What a database has under a name: what is committed of the record, what the last image of its BIN
/// shows, and the change of an active transaction. It begins with a change that is not committed, or with a version
/// that opening found; each Commit gives it a new version.
#[derive(Drop)]
pub struct Cell {
    /// What is committed.
    pub version: Version,
    /// What the last image of the BIN shows, where that image is older than `touched`. Else the image
    /// shows `version`, so that logging the BIN writes no cell.
    pub shown: Version,
    /// The LSN of the Commit that gave the cell its version; 0 before the first.
    pub touched: Lsn,
    /// The committed data, where a record is committed.
    pub data: Data,
    /// The change of the one active transaction that changed the record, its last one.
    pub write: Option<Box<Write>>,
}

// Whether the version is that of a record that was logged at the LSN.
fn is_there(version: Version, at: Lsn) -> bool
    ensures { result ≡ is_same_version version (There at) }
{
    match version {
        Version::There(lsn) => lsn.as_u64() == at.as_u64(),
        Version::Deleted | Version::Unset => false,
    }
}

/// Whether two versions are the same.
pub fn is_same_version(a: Version, b: Version) -> bool
    ensures { result ≡ is_same_version a b }
{
    match b {
        Version::There(at) => is_there(a, at),
        Version::Deleted => matches!(a, Version::Deleted),
        Version::Unset => matches!(a, Version::Unset),
    }
}

impl Cell {
    /// The cell of a name of which nothing is committed. It takes no memory.
    pub fn new() -> Cell
        ensures { result ≡ fresh }
    {
        Cell {
            version: Version::Unset,
            shown: Version::Unset,
            touched: Lsn::new(FileNo(0), 0),
            data: Data::empty(),
            write: None,
        }
    }

    /// The LSN of the cell's change, if it has one.
    pub fn written(&self) -> Option<Lsn>
        ensures { result ≡ change_at self.now }
    {
        match &self.write {
            Some(write) => Some(write.at),
            None => None,
        }
    }

    /// Whether the last image of the cell's BIN, which is at `last`, says of it what is committed.
    pub fn is_as_shown(&self, last: &Option<Lsn>) -> bool
        ensures { result ≡ is_as_shown last.now self.now }
    {
        is_same_version(self.shown_by(last), self.version)
    }

    /// What the last image of the cell's BIN shows of it, if that image is at `last`; where the BIN has no image,
    /// what is kept for it.
    pub fn shown_by(&self, last: &Option<Lsn>) -> Version
        ensures { result ≡ shown_by last.now self.now }
    {
        match last {
            Some(at) if *at >= self.touched => self.version,
            _ => self.shown,
        }
    }

    /// Commits a version with its data, by the Commit at `at`. The last image of the cell's BIN is at `last`.
    pub fn set_version(&mut self, version: Version, data: Data, at: Lsn, last: &Option<Lsn>)
        ensures { self.new ≡ with_version version «data» at last.now self.old }
    {
        self.shown = self.shown_by(last);
        self.version = version;
        self.data = data;
        self.touched = at;
    }

    /// Commits the cell's change, if it has one, by the Commit at `at`. The last image of the cell's
    /// BIN is at `last`.
    pub fn commit(&mut self, at: Lsn, last: &Option<Lsn>)
        ensures { self.new ≡ committed at last.now self.old }
    {
        let Some(write) = self.write.take() else {
            return;
        };
        let Write {
            txn: _,
            at: lsn,
            value,
        } = Box::into_inner(write);
        match value {
            Some(data) => self.set_version(Version::There(lsn), data, at, last),
            None => self.set_version(Version::Deleted, Data::empty(), at, last),
        }
    }
}
