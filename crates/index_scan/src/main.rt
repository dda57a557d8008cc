//! An index, and a scan of a range of its keys: a program that finds what is in stock by its colour, which is the first field of
//! the data. It stands on `jalibsuk` and `dir_disk`.
#![tactic(auto)]

use dir_disk::DirDisk;
use jalibsuk::{
    Db, Direction, Disk, Env, Error, Extract, Index, Keys, Kind, Options, Txn, TxnOptions,
};
use std::rt::Runtime;

fn fill<D: Disk + Drop>(env: &mut Env<D>, txn: &Txn, stock: Db) -> Result<(), Error> {
    env.put(txn, stock, b"apple", b"red,12")?;
    env.put(txn, stock, b"cherry", b"red,200")?;
    env.put(txn, stock, b"lemon", b"yellow,7")?;
    env.put(txn, stock, b"lime", b"green,9")
}

// Prints what has a colour from green on, in front of the colours that begin with an s.
fn print<R: Runtime + AllocGlobal, D: Disk + Drop>(
    rt: &R,
    env: &mut Env<D>,
    txn: &Txn,
    colours: Index,
) -> anyhow::Result<()> {
    let range = Keys::Between(b"green", b"s");
    for record in env.scan_index(txn, colours, range, Direction::Forward)? {
        let record = record?;
        let colour = String::from_utf8_lossy(rt.alloc(), record.key.as_slice())?;
        let name = String::from_utf8_lossy(rt.alloc(), record.primary_key.as_slice())?;
        println!(rt; "{colour}: {name}")?;
    }
    Ok(())
}

fn work<R: Runtime + AllocGlobal, D: Disk + Drop>(rt: &R, env: &mut Env<D>) -> anyhow::Result<()> {
    env.create_db(b"stock", Kind::Plain)?;
    let colour = Extract::Field {
        number: 0,
        separator: b',',
    };
    env.create_index(b"colours", b"stock", colour)?;
    let stock = env.db(b"stock")?;
    let colours = env.index(b"colours")?;
    let writing = env.begin(TxnOptions::default())?;
    let filled = fill(env, &writing, stock);
    env.finish(writing, filled)?;
    let reading = env.begin(TxnOptions::default())?;
    let printed = print(rt, env, &reading, colours);
    env.commit(reading)?;
    printed
}

fn main(rt: HostRuntime) -> anyhow::Result<()> {
    let disk = DirDisk::new(&rt, "colours")?;
    let mut env = Env::open(rt.alloc(), disk, Options::default())?;
    let worked = work(&rt, &mut env);
    env.close()?;
    worked
}
