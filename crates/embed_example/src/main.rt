//! A program that embeds the store. It opens the environment in the folder that its argument names, and makes a
//! database there and an index of it. It commits one transaction, with a sync, and aborts another one, and prints what
//! each call answers. It stands on `environment`, `dir_disk` and `store_model`.
#![tactic(auto)]

ghost use Rattle.embed_example.specs.Usable.{IsUsable};

mod session;
mod trouble;

use dir_disk::DirDisk;
use je_disk::Disk;
use je_order::{Octets, Word};
use session::Session;
use std::alloc::{AllocError, Global};
use std::rt::Runtime;
use std::{env, io};
use store_model::{Answer, Call, Durability, Extract, Index, Isolation, Kind, PutMode};
use trouble::Trouble;

fn stock(alloc: Global) -> Result<Word, AllocError> {
    Word::from_slice(alloc, b"stock")
}

fn colours(alloc: Global) -> Result<Word, AllocError> {
    Word::from_slice(alloc, b"colours")
}

fn octets(alloc: Global, text: &str) -> Result<Octets, AllocError> {
    Octets::from_slice(alloc, text.as_bytes())
}

fn put(alloc: Global, key: &str, value: &str) -> Result<Call, AllocError> {
    Ok(Call::Put {
        db: stock(alloc)?,
        key: octets(alloc, key)?,
        value: octets(alloc, value)?,
        mode: PutMode::Overwrite,
    })
}

fn get(alloc: Global, db: Word, key: &str) -> Result<Call, AllocError> {
    Ok(Call::Get {
        db,
        key: octets(alloc, key)?,
        rmw: false,
    })
}

// Makes the index: it finds what is in stock by the first of the data's words, which commas part.
fn create_index(alloc: Global) -> Result<Call, AllocError> {
    let index = Index {
        primary: stock(alloc)?,
        extract: Extract::Field {
            number: 0,
            separator: b',',
        },
    };
    Ok(Call::CreateIndex {
        db: colours(alloc)?,
        index,
    })
}

// Begins a transaction that no other one disturbs, and whose commit is synced.
fn begin() -> Call {
    Call::Begin {
        level: Isolation::Serializable,
        durability: Durability::Sync,
        wait: true,
    }
}

// Prints a record.
fn print_record<R: Runtime + AllocGlobal>(rt: &R, key: &Octets, value: &Octets) -> io::Result<()> {
    let key = String::from_utf8_lossy(rt.alloc(), key.as_slice())?;
    let value = String::from_utf8_lossy(rt.alloc(), value.as_slice())?;
    println!(rt; "{key} {value}")
}

// Prints an answer.
fn print<R: Runtime + AllocGlobal>(rt: &R, answer: &Answer) -> io::Result<()> {
    match answer {
        Answer::Rec { key, value }
        | Answer::IndexRec {
            key: _,
            primary_key: key,
            value,
        } => print_record(rt, key, value),
        Answer::Txn { txn } => println!(rt; "transaction {}", txn.0),
        Answer::Durable { commit } => println!(rt; "commit {commit} is durable"),
        Answer::Done => println!(rt; "done"),
        Answer::NotFound => println!(rt; "not found"),
        Answer::NameTaken => println!(rt; "the database is there"),
        _ => println!(rt; "not done"),
    }
}

// Gives a call, and prints what it answers.
fn give<R: Runtime + AllocGlobal, D: Disk + Drop>(
    rt: &R,
    session: &mut Session<D>,
    call: &Call,
) -> Result<(), Trouble>
    requires here { IsUsable D.meaning session.old.environment }
    ensures here { IsUsable D.meaning session.new.environment }
{
    let answer = session.execute(call)?;
    print(rt, &answer)?;
    Ok(())
}

// Two transactions: the first is committed, and the second one aborted. Behind them the index has the first one's record.
fn give_calls<R: Runtime + AllocGlobal, D: Disk + Drop>(
    rt: &R,
    session: &mut Session<D>,
) -> Result<(), Trouble>
    requires { IsUsable D.meaning session.old.environment }
{
    let alloc = rt.alloc();
    let create = Call::Create {
        db: stock(alloc)?,
        kind: Kind::Plain,
    };
    give(rt, session, &create)?;
    give(rt, session, &create_index(alloc)?)?;
    give(rt, session, &begin())?;
    give(rt, session, &put(alloc, "apple", "red,12")?)?;
    give(rt, session, &get(alloc, stock(alloc)?, "apple")?)?;
    give(rt, session, &Call::Commit)?;
    give(rt, session, &begin())?;
    give(rt, session, &put(alloc, "apple", "green,11")?)?;
    give(rt, session, &get(alloc, colours(alloc)?, "red")?)?;
    give(rt, session, &Call::Abort)?;
    give(rt, session, &get(alloc, colours(alloc)?, "red")?)
}

// Opens the environment, gives the calls, and closes it.
fn run<R: Runtime + AllocGlobal, D: Disk + Drop>(rt: &R, disk: D) -> Result<(), Trouble> {
    let mut session = Session::open(rt.alloc(), disk)?;
    let given = give_calls(rt, &mut session);
    if session.close() {
        println!(rt; "the disk failed")?;
    }
    given
}

fn main(rt: HostRuntime) -> io::Result<()> {
    let mut args = env::args(&rt)?;
    let _program = args.next();
    let Some(folder) = args.next() else {
        return println!(rt; "the folder of an environment is to be named");
    };
    let disk = DirDisk::new(&rt, folder.as_str())?;
    match run(&rt, disk) {
        Ok(()) => Ok(()),
        Err(Trouble::Print(error)) => Err(error),
        Err(Trouble::Memory) => println!(rt; "out of memory"),
        Err(Trouble::Open(_)) => println!(rt; "the environment was not opened"),
    }
}
