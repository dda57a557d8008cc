// What the program times.
use crate::keys::{data, draw, key};
use jalibsuk::{
    Db, Direction, Disk, Durability, Env, Error, Isolation, Keys, Kind, Txn, TxnOptions,
};

// How many keys are put again and again.
const FEW: u64 = 1000;

/// A workload, over a number N of calls.
#[derive(Clone, Copy)]
pub enum Workload {
    /// N puts in one synced transaction.
    Bulk,
    /// N puts, each in a transaction of its own that is not synced.
    NoSync,
    /// N puts outside a transaction, each synced.
    AutoSync,
    /// N puts of 1,000 keys, each in a transaction of its own that is not synced.
    Overwrite,
    /// N gets in one transaction.
    Reads,
    /// N gets outside a transaction.
    ReadsAuto,
    /// All records, from the first to the last, in one transaction.
    Scan,
    /// Opening and closing alone.
    Open,
}

// Options of a transaction that is not synced.
fn unsynced() -> TxnOptions {
    TxnOptions {
        isolation: Isolation::RepeatableRead,
        durability: Durability::NoSync,
    }
}

// Puts the records of the numbers below N.
fn put_all<D: Disk + Drop>(env: &mut Env<D>, txn: &Txn, db: Db, number: u32) -> Result<u32, Error> {
    for i in 0..number {
        let i = u64::from(i);
        env.put(txn, db, &key(i), &data(i))?;
    }
    Ok(number)
}

fn bulk<D: Disk + Drop>(env: &mut Env<D>, db: Db, number: u32) -> Result<u32, Error> {
    let txn = env.begin(TxnOptions::default())?;
    let done = put_all(env, &txn, db, number);
    env.finish(txn, done)
}

// Puts the record of a number in a transaction of its own.
fn put_one<D: Disk + Drop>(env: &mut Env<D>, db: Db, name: u64, value: u64) -> Result<(), Error> {
    let txn = env.begin(unsynced())?;
    let done = env.put(&txn, db, &key(name), &data(value));
    env.finish(txn, done)
}

fn put_each<D: Disk + Drop>(
    env: &mut Env<D>,
    db: Db,
    number: u32,
    keys: u64,
) -> Result<u32, Error> {
    for i in 0..number {
        let i = u64::from(i);
        let name = if i < keys { i } else { draw(i, keys) };
        put_one(env, db, name, i)?;
    }
    Ok(number)
}

fn put_outside<D: Disk + Drop>(env: &mut Env<D>, db: Db, number: u32) -> Result<u32, Error> {
    for i in 0..number {
        let i = u64::from(i);
        env.put_now(db, &key(i), &data(i))?;
    }
    Ok(number)
}

// Gets N records of those with numbers below N, and gives how many are there.
fn get_all<D: Disk + Drop>(env: &mut Env<D>, txn: &Txn, db: Db, number: u32) -> Result<u32, Error> {
    let mut found = 0u32;
    for i in 0..number {
        let name = draw(u64::from(i), u64::from(number));
        if env.get(txn, db, &key(name))?.is_some() {
            found = found.saturating_add(1);
        }
    }
    Ok(found)
}

fn reads<D: Disk + Drop>(env: &mut Env<D>, db: Db, number: u32) -> Result<u32, Error> {
    let txn = env.begin(TxnOptions {
        isolation: Isolation::ReadCommitted,
        durability: Durability::Sync,
    })?;
    let done = get_all(env, &txn, db, number);
    env.finish(txn, done)
}

fn get_outside<D: Disk + Drop>(env: &mut Env<D>, db: Db, number: u32) -> Result<u32, Error> {
    let mut found = 0u32;
    for i in 0..number {
        let name = draw(u64::from(i), u64::from(number));
        if env.get_now(db, &key(name))?.is_some() {
            found = found.saturating_add(1);
        }
    }
    Ok(found)
}

// Reads all records, and gives how many there are.
fn scan_all<D: Disk + Drop>(env: &mut Env<D>, txn: &Txn, db: Db) -> Result<u32, Error> {
    let mut found = 0u32;
    for record in env.scan(txn, db, Keys::All, Direction::Forward)? {
        drop(record?);
        found = found.saturating_add(1);
    }
    Ok(found)
}

fn scan<D: Disk + Drop>(env: &mut Env<D>, db: Db) -> Result<u32, Error> {
    let txn = env.begin(TxnOptions::default())?;
    let done = scan_all(env, &txn, db);
    env.finish(txn, done)
}

// The database of the workloads, which is made where it is missing.
fn open_db<D: Disk + Drop>(env: &mut Env<D>) -> Result<Db, Error> {
    match env.create_db(b"t", Kind::Plain) {
        Ok(()) | Err(Error::NameTaken) => env.db(b"t"),
        Err(error) => Err(error),
    }
}

impl Workload {
    /// Runs it, and gives how many of its calls found or put a record.
    pub fn run<D: Disk + Drop>(self, env: &mut Env<D>, number: u32) -> Result<u32, Error> {
        let db = open_db(env)?;
        match self {
            Workload::Bulk => bulk(env, db, number),
            Workload::NoSync => put_each(env, db, number, u64::from(number)),
            Workload::AutoSync => put_outside(env, db, number),
            Workload::Overwrite => put_each(env, db, number, FEW),
            Workload::Reads => reads(env, db, number),
            Workload::ReadsAuto => get_outside(env, db, number),
            Workload::Scan => scan(env, db),
            Workload::Open => Ok(0),
        }
    }
}
