// Scans of a transaction.
ghost use Rattle.std.specs.Prelude.{◌≡◌, IfOk, IfErr, Ok, Err};
ghost use Rattle.std.specs.Borrow.{sem, RestsIfErr};
ghost use Rattle.jalibsuk.specs.contracts.env.Env.{the_row};
ghost use Rattle.jalibsuk.specs.Named.{name_of_handle};
ghost use Rattle.jalibsuk.specs.Scans.{Walks};

use crate::{Db, Direction, Env, Error, Index, IndexScan, Keys, Scan, Txn};
use je_disk::Disk;

impl<D: Disk + Drop> Env<D> {
    /// The records of a database that have one of these keys, in that order, as the transaction sees them: `for record in env.scan(..)?`. Each item
    /// is a record or the error that ends the scan. A scan has a cursor while it is there. Errors: `TooManyCursors`, `NoDatabase`, `Conflict`, `TooLong`, `Invalid`, `Memory`.
    pub fn scan<'e, 'k>(
        &'e mut self,
        txn: &Txn,
        db: Db,
        keys: Keys<'k>,
        direction: Direction,
    ) -> Result<Scan<'e, 'k, D>, Error>
        ensures* refused { sem 𝓛 (RestsIfErr (the_row D.row D.Job.row D.ReadJob.row D.Job.Done.row D.ReadJob.Done.row D.Disk D.Job.SyncJob D.Job.Done.SyncDone D.ReadJob.ReadJob D.ReadJob.Done.ReadDone) self.entry (λ s. s.env.ghost_name) result (λ last. IfErr result (λ e. Walks D.meaning direction keys.entry self.old.environment last.environment txn.now.session (name_of_handle db.number self.old.names) (Err e)) × (last.names ≡ self.old.names))) }
        ensures walks { IfOk result (λ s. Walks D.meaning direction keys.entry self.old.environment s.env.now.environment txn.now.session (name_of_handle db.number self.old.names) (Ok s.walk)) }
        ensures names { IfOk result (λ s. s.env.now.names ≡ self.old.names) }
        ensures lent { IfOk result (λ s. s.env.ghost_name ≡ self.entry.ghost_name) }
    {
        match self.begin_walk(txn.session, db.number, keys, direction) {
            Ok(walk) => Ok(Scan { env: self, walk }),
            Err(error) => Err(error),
        }
    }

    /// The records that an index has under these keys, in that order, each with the key under which the index has it and its own key. `NotAnIndex` where
    /// the name is that of a database. Other errors as `scan`.
    pub fn scan_index<'e, 'k>(
        &'e mut self,
        txn: &Txn,
        index: Index,
        keys: Keys<'k>,
        direction: Direction,
    ) -> Result<IndexScan<'e, 'k, D>, Error>
        ensures* refused { sem 𝓛 (RestsIfErr (the_row D.row D.Job.row D.ReadJob.row D.Job.Done.row D.ReadJob.Done.row D.Disk D.Job.SyncJob D.Job.Done.SyncDone D.ReadJob.ReadJob D.ReadJob.Done.ReadDone) self.entry (λ s. s.env.ghost_name) result (λ last. IfErr result (λ e. Walks D.meaning direction keys.entry self.old.environment last.environment txn.now.session (name_of_handle index.number self.old.names) (Err e)) × (last.names ≡ self.old.names))) }
        ensures walks { IfOk result (λ s. Walks D.meaning direction keys.entry self.old.environment s.env.now.environment txn.now.session (name_of_handle index.number self.old.names) (Ok s.walk)) }
        ensures names { IfOk result (λ s. s.env.now.names ≡ self.old.names) }
        ensures lent { IfOk result (λ s. s.env.ghost_name ≡ self.entry.ghost_name) }
    {
        match self.begin_walk(txn.session, index.number, keys, direction) {
            Ok(walk) => Ok(IndexScan { env: self, walk }),
            Err(error) => Err(error),
        }
    }
}
