// Transactions.
ghost use Rattle.std.specs.Prelude.{◌≡◌};
ghost use Rattle.jalibsuk.specs.Stepped.{HasEnded};
ghost use Rattle.jalibsuk.specs.Methods.{Begins, Commits, Finishes, Syncs};

use crate::beginning::begin;
use crate::settling::{commit, sync_all};
use crate::syncing::end;
use crate::{Env, Error, Txn, TxnOptions};
use je_disk::Disk;

impl<D: Disk + Drop> Env<D> {
    /// Begins a transaction, which never waits for a lock. Several may be open at once. Errors: `TooManyTransactions`, `IdsEnded`, `Invalid`,
    /// `Memory`; none begins.
    pub fn begin(&mut self, options: TxnOptions) -> Result<Txn, Error>
        ensures begins { Begins D.meaning self.old.environment self.new.environment options.isolation options.durability result }
        ensures names { self.new.names ≡ self.old.names }
    {
        begin(&mut self.environment, self.alloc, options)
    }

    /// Commits the transaction: its changes are there for all that begins later, and they are as durable as its options ask. Where it fails the
    /// transaction is aborted, but for `DiskFault`: its changes may or may not be there after opening again. Other errors: `Invalid`, `Memory`.
    pub fn commit(&mut self, txn: Txn) -> Result<(), Error>
        ensures commits { Commits D.meaning self.old.environment self.new.environment txn.session result }
        ensures names { self.new.names ≡ self.old.names }
    {
        let Txn { session } = txn;
        commit(&mut self.environment, self.alloc, session)
    }

    /// Ends the transaction without its changes. It takes no memory.
    pub fn abort(&mut self, txn: Txn)
        ensures ends { HasEnded D.meaning self.old.environment self.new.environment txn.session }
        ensures names { self.new.names ≡ self.old.names }
    {
        let Txn { session } = txn;
        end(&mut self.environment, session);
    }

    /// Ends the transaction by what was done in it: commits it where that is `Ok`, and gives the value; else aborts it, and gives the error. Errors
    /// of the commit as `commit`.
    pub fn finish<T: Drop>(&mut self, txn: Txn, done: Result<T, Error>) -> Result<T, Error>
        ensures finishes { Finishes D.meaning self.old.environment self.new.environment txn.session done result }
        ensures names { self.new.names ≡ self.old.names }
    {
        match done {
            Ok(value) => match self.commit(txn) {
                Ok(()) => Ok(value),
                Err(error) => {
                    drop(value);
                    Err(error)
                }
            },
            Err(error) => {
                self.abort(txn);
                Err(error)
            }
        }
    }

    /// Makes each commit so far durable, whatever its transaction's options. Errors: `DiskFault`, `Invalid`.
    pub fn sync(&mut self) -> Result<(), Error>
        ensures syncs { Syncs D.meaning self.old.environment self.new.environment result }
        ensures names { self.new.names ≡ self.old.names }
    {
        sync_all(&mut self.environment)
    }
}
