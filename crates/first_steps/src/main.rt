//! First steps with the store: a program that opens an environment in the folder `fruit`, puts three records in one
//! transaction, and reads one of them in a second one. It stands on `jalibsuk` and `dir_disk`.
#![tactic(auto)]

use dir_disk::DirDisk;
use jalibsuk::{Db, Disk, Env, Error, Kind, Options, Record, Txn, TxnOptions};
use std::io;

// The changes of the first transaction.
fn fill<D: Disk + Drop>(env: &mut Env<D>, txn: &Txn, stock: Db) -> Result<(), Error> {
    env.put(txn, stock, b"apple", b"red")?;
    env.put(txn, stock, b"lemon", b"yellow")?;
    env.put(txn, stock, b"plum", b"blue")
}

// Makes a database, unless an earlier run has made it. Fills it in one transaction, and reads in another one.
fn work<D: Disk + Drop>(env: &mut Env<D>) -> Result<Option<Record>, Error> {
    match env.create_db(b"stock", Kind::Plain) {
        Ok(()) | Err(Error::NameTaken) => {}
        Err(error) => return Err(error),
    }
    let stock = env.db(b"stock")?;
    let writing = env.begin(TxnOptions::default())?;
    let filled = fill(env, &writing, stock);
    env.finish(writing, filled)?;
    let reading = env.begin(TxnOptions::default())?;
    let found = env.get(&reading, stock, b"lemon");
    env.finish(reading, found)
}

fn main(rt: HostRuntime) -> io::Result<()> {
    let disk = DirDisk::new(&rt, "fruit")?;
    let mut env = match Env::open(rt.alloc(), disk, Options::default()) {
        Ok(env) => env,
        Err(error) => return println!(rt; "not opened: {error}"),
    };
    let worked = work(&mut env);
    let closed = env.close();
    match worked.and_then(|found| closed.map(|()| found)) {
        Ok(Some(record)) => {
            let data = String::from_utf8_lossy(rt.alloc(), record.data.as_slice())?;
            println!(rt; "a lemon is {data}")
        }
        Ok(None) => println!(rt; "there is no lemon"),
        Err(error) => println!(rt; "stopped: {error}"),
    }
}
