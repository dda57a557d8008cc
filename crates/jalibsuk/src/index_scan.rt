// The records of a scan of an index.
ghost use Rattle.std.specs.Prelude.{◌≡◌};
ghost use Rattle.std.specs.Iterator.{at_most};
ghost use Rattle.jalibsuk.specs.Told.{index_record_told};
ghost use Rattle.jalibsuk.specs.Scans.{Closes, Steps};

use crate::answered::found_in_index_of;
use crate::walk::{Walk, left_after, next_of};
use crate::walking::is_past;
use crate::{Env, Error, IndexRecord};
use je_disk::Disk;

/// The records of an index that `Env::scan_index` reads, one by one. It ends behind the last one, and behind an error. Its cursor is closed where it is let go.
pub struct IndexScan<'e, 'k, D: Disk> {
    pub(crate) env: &'e mut Env<D>,
    pub(crate) walk: Walk<'k>,
}

impl<'e, 'k, D: Disk> Iterator for IndexScan<'e, 'k, D> {
    type Item = Result<IndexRecord, Error>;

    ghost next_gives = { λ s r t. Steps D.meaning index_record_told s.env.now t.env.now s.walk t.walk r × (t.env.ghost_name ≡ s.env.ghost_name) };

    ghost remaining = { λ s. at_most s.walk.left };

    /// The next record, or none behind the last one. Errors as `Env::seek_index`.
    fn next(&mut self) -> Option<Result<IndexRecord, Error>> {
        if self.walk.left == 0 {
            return None;
        }
        let Walk {
            session,
            number,
            direction,
            keys,
            seek,
            left,
        } = self.walk;
        let answered = self.env.move_cursor(session, number, seek, false);
        let item = if is_past(&keys, &answered) {
            drop(answered);
            None
        } else {
            found_in_index_of(answered).transpose()
        };
        self.walk.seek = next_of(direction);
        self.walk.left = left_after(left, &item);
        item
    }
}

impl<'e, 'k, D: Disk> Drop for IndexScan<'e, 'k, D> {
    fn drop(self)
        ensures closes { Closes D.meaning self.entry.env.now.environment self.exit.0.now.environment self.entry.walk.session self.entry.walk.number }
        ensures names { self.exit.0.now.names ≡ self.entry.env.now.names }
    {
        let IndexScan { env, walk } = self;
        drop(env.shut(walk.session, walk.number));
    }
}
