// The places of entries that are to be appended.
ghost use Rattle.std.specs.Prelude.{◌≡◌, ◌≤◌, ◌++◌, ◌∷◌, [], ℕ, List};
ghost use Rattle.je_lsn.specs.Naming.{last_file};
ghost use Rattle.log_buffer.specs.Buffer.{end_of, file_max_of};
ghost use Rattle.log_buffer.specs.declared.log_pos.LogPos.{LogPos};
ghost use Rattle.log_buffer.specs.Flip.{end_after, placed_at, pos_lsn};
ghost use Rattle.log_buffer.specs.NextPlaces.{IsBehind, IsTakenAt};

use crate::{LogBuffer, NextPlace};
use je_disk::Disk;
use je_lsn::{FileNo, LAST_FILE, Lsn};

impl<D: Disk> LogBuffer<D> {
    /// Where the next entries go.
    pub fn next_place(&self) -> NextPlace
        ensures { IsBehind (file_max_of self.now) (end_of self.now) [] result }
    {
        NextPlace {
            end: self.pos(),
            file_max: self.file_max,
        }
    }
}

impl NextPlace {
    /// Where the next entry stands, of so many bytes; the one after it goes behind that. Where the log has
    /// passed its last file the LSN names no entry.
    pub fn take(&mut self, size: u32) -> Lsn
        ensures at { (file_max : ℕ) (end : LogPos) (sizes : List ℕ) → IsBehind file_max end sizes self.old → IsTakenAt file_max end sizes size result }
        ensures next { (file_max : ℕ) (end : LogPos) (sizes : List ℕ) → IsBehind file_max end sizes self.old → IsBehind file_max end (sizes ++ size ∷ []) self.new }
    {
        self.step(size)
    }

    // The same, by where the log ends.
    fn step(&mut self, size: u32) -> Lsn
        ensures max { self.new.file_max ≡ self.old.file_max }
        ensures at { self.old.end.file ≤ last_file → result ≡ pos_lsn (placed_at self.old.file_max self.old.end size) }
        ensures end { self.old.end.file ≤ last_file → self.new.end ≡ end_after self.old.file_max self.old.end size }
    {
        if self.end.file > LAST_FILE {
            return Lsn::new(FileNo(self.end.file), 0);
        }
        let at = self.end.placed(self.file_max, size);
        self.end = at.behind(size);
        Lsn::new(FileNo(at.file), at.offset as u32)
    }
}
