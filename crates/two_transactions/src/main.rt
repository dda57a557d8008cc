//! Two transactions that are open at once, and each adds one to the same count. The second one meets the first one's lock, is
//! aborted, and is tried again behind the first one's commit. It stands on `jalibsuk` and `dir_disk`.
#![tactic(auto)]

use dir_disk::DirDisk;
use jalibsuk::{Db, Env, Error, Kind, Options, Txn, TxnOptions, Work};
use je_disk::Disk;
use std::io;

// Adds one to the count, and gives it as it is then.
fn add<D: Disk + Drop>(env: &mut Env<D>, txn: &Txn, visits: Db) -> Result<u8, Error> {
    let found = env.get_for_update(txn, visits, b"today")?;
    let before = found.and_then(|record| record.data.as_slice().first().copied());
    let count = before.unwrap_or(0).wrapping_add(1);
    env.put(txn, visits, b"today", &[count]).map(|()| count)
}

// The same as the work of a transaction that may be tried again.
#[derive(Drop)]
struct Visit {
    visits: Db,
}

impl<D: Disk + Drop> Work<D> for Visit {
    type Output = u8;

    fn run(&mut self, env: &mut Env<D>, txn: &Txn) -> Result<u8, Error> {
        add(env, txn, self.visits)
    }
}

// Both transactions. Whether the second one was tried again, and the count at the end.
fn work<D: Disk + Drop>(env: &mut Env<D>) -> Result<(bool, u8), Error> {
    env.create_db(b"visits", Kind::Plain)?;
    let visits = env.db(b"visits")?;
    let mut second = Visit { visits };
    let first = env.begin(TxnOptions::default())?;
    let added = add(env, &first, visits);
    let tried = env.transact(TxnOptions::default(), 1, &mut second);
    env.finish(first, added)?;
    if let Err(Error::Conflict { .. }) = tried {
        let count = env.transact(TxnOptions::default(), 3, &mut second)?;
        return Ok((true, count));
    }
    tried.map(|count| (false, count))
}

fn main(rt: HostRuntime) -> io::Result<()> {
    let disk = DirDisk::new(&rt, "visits")?;
    let mut env = match Env::open(rt.alloc(), disk, Options::default()) {
        Ok(env) => env,
        Err(error) => return println!(rt; "not opened: {error}"),
    };
    let worked = work(&mut env);
    match (worked, env.close()) {
        (Ok((again, count)), Ok(())) => println!(rt; "{count} visits, tried again: {again}"),
        (Err(error), _) | (_, Err(error)) => println!(rt; "stopped: {error}"),
    }
}
