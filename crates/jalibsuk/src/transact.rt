// Work that is tried again.
use crate::{Env, Error, Txn, TxnOptions};
use je_disk::Disk;

/// What a transaction does, for `Env::transact`.
pub trait Work<D: Disk> {
    /// What it gives.
    type Output: Drop;

    /// Does it once, in the transaction.
    fn run(&mut self, env: &mut Env<D>, txn: &Txn) -> Result<Self::Output, Error>;
}

// Whether a transaction met another one's lock.
fn is_conflict<T>(done: &Result<T, Error>) -> bool {
    match done {
        Err(Error::Conflict { .. } | Error::Deadlock) => true,
        Ok(_) | Err(_) => false,
    }
}

impl<D: Disk + Drop> Env<D> {
    /// Does work in a transaction, and commits it; where the work fails it aborts it. Where that met another transaction's lock it begins anew, with a transaction
    /// of its own each time, at most so many times in all, and at least once. Errors: those of the work, and of `begin` and `commit`.
    pub fn transact<W: Work<D>>(
        &mut self,
        options: TxnOptions,
        times: u32,
        work: &mut W,
    ) -> Result<W::Output, Error> {
        for _ in 1..times {
            let done = self.transact_once(options, work);
            if !is_conflict(&done) {
                return done;
            }
            drop(done);
        }
        self.transact_once(options, work)
    }

    // Does work in one transaction.
    fn transact_once<W: Work<D>>(
        &mut self,
        options: TxnOptions,
        work: &mut W,
    ) -> Result<W::Output, Error> {
        let txn = self.begin(options)?;
        let done = work.run(self, &txn);
        self.finish(txn, done)
    }
}
