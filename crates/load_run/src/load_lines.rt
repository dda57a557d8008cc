// The lines of a load.
ghost use Rattle.std.specs.Prelude.{◌≡◌, ◌++◌, map, IfOk, OnOk};
ghost use Rattle.load_run.specs.Lines.{begin_line, commit_line, create_lines, kind_of_dump, load_lines, load_mode, put_line};

use dump_text::{Dump, DumpPair};
use je_order::{Word, copy_of};
use std::alloc::{AllocError, Global};
use store_model::{Call, Durability, Isolation, Kind, PutMode, ScriptLine};

// The kind of the database that a dump is of.
fn kind_of_dump(dup: bool) -> Kind
    ensures { result ≡ kind_of_dump dup }
{
    if dup { Kind::Dup } else { Kind::Plain }
}

// How the pairs are put.
fn load_mode(no_overwrite: bool, dup: bool) -> PutMode
    ensures { result ≡ load_mode no_overwrite dup }
{
    if !no_overwrite {
        PutMode::Overwrite
    } else if dup {
        PutMode::NoDupData
    } else {
        PutMode::NoOverwrite
    }
}

// The line that begins the transaction of a load.
fn begin_line() -> ScriptLine
    ensures { result ≡ begin_line }
{
    ScriptLine::Session {
        session: 1,
        line: 0,
        call: Call::Begin {
            level: Isolation::RepeatableRead,
            durability: Durability::Sync,
            wait: true,
        },
    }
}

// The line that commits it.
fn commit_line() -> ScriptLine
    ensures { result ≡ commit_line }
{
    ScriptLine::Session {
        session: 1,
        line: 0,
        call: Call::Commit,
    }
}

// Adds the line that makes the database, where one is to be made.
fn push_create(
    lines: &mut Vec<ScriptLine>,
    make: bool,
    db: &Word,
    kind: Kind,
) -> Result<(), AllocError>
    ensures { OnOk result (lines.new.items ≡ lines.old.items ++ create_lines make db.now kind) }
{
    if !make {
        return Ok(());
    }
    let db = copy_of(db)?;
    lines.push(ScriptLine::Session {
        session: 1,
        line: 0,
        call: Call::Create { db, kind },
    })?;
    Ok(())
}

// The line that puts a pair.
fn put_line(db: &Word, mode: PutMode, pair: DumpPair) -> Result<ScriptLine, AllocError>
    ensures { IfOk result (λ line. line ≡ put_line db.now mode pair) }
{
    let db = copy_of(db)?;
    let DumpPair { line, key, value } = pair;
    Ok(ScriptLine::Session {
        session: 1,
        line,
        call: Call::Put {
            db,
            key,
            value,
            mode,
        },
    })
}

// Adds the lines that put the pairs, in order.
fn push_puts(
    lines: &mut Vec<ScriptLine>,
    db: &Word,
    mode: PutMode,
    pairs: Vec<DumpPair>,
) -> Result<(), AllocError>
    ensures { OnOk result (lines.new.items ≡ lines.old.items ++ map (put_line db.now mode) pairs.items) }
{
    for pair in pairs {
        let line = put_line(db, mode, pair)?;
        lines.push(line)?;
    }
    Ok(())
}

/// The lines that load a dump into a database of that name: the line that makes it where `make` says so, the beginning
/// of a transaction, a put for each pair, and the commit, all of session 1. A put has the number of its key's line, and
/// the others 0. With `no_overwrite` what the database has stays: in a plain database the data of each key, in one with
/// sorted duplicates each pair. The only error is out of memory.
pub fn lines_of_dump(
    alloc: Global,
    make: bool,
    db: &Word,
    no_overwrite: bool,
    dump: Dump,
) -> Result<Vec<ScriptLine>, AllocError>
    ensures { IfOk result (λ lines. lines.items ≡ load_lines make db.now no_overwrite dump) }
{
    let Dump {
        dup,
        dup_line: _,
        pairs,
    } = dump;
    let mut lines = Vec::new(alloc);
    lines.reserve(pairs.len().saturating_add(3))?;
    push_create(&mut lines, make, db, kind_of_dump(dup))?;
    lines.push(begin_line())?;
    let mode = load_mode(no_overwrite, dup);
    push_puts(&mut lines, db, mode, pairs.into_vec())?;
    lines.push(commit_line())?;
    Ok(lines)
}
