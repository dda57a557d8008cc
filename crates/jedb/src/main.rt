//! The program `jedb`: it hands `je_program`'s top call its arguments, the folder that they name, the
//! standard input and the standard output, and ends with the status that it gives. It decides nothing
//! itself. It stands on `je_program`, `dir_disk` and `je_io`.
#![tactic(auto)]

use dir_disk::{DirDisk, FolderLock};
use je_io::{StdSink, StdSource};
use je_program::{Cause, Ended, home, run_je};
use std::alloc::AllocError;
use std::fs::OpenOptions;
use std::io::ErrorKind;
use std::mem::forget;
use std::process::ExitCode;
use std::rt::{Files, Runtime};
use std::{env, io};

// The arguments behind the program's own name; none at all where one of them is no text.
fn args_of<R: Runtime + AllocGlobal>(rt: &R) -> Result<Vec<String>, AllocError> {
    match env::args(rt) {
        Ok(args) => args.skip(1).collect(rt.alloc()),
        Err(e) if e.kind() == ErrorKind::OutOfMemory => Err(AllocError),
        Err(_) => Ok(Vec::new(rt.alloc())),
    }
}

// The disk over the folder that the arguments name; over none where they name none, and are refused.
fn disk_of<R: Runtime + AllocGlobal>(rt: &R, args: &[String]) -> Result<DirDisk<R>, AllocError>
where
    R::File: FolderLock,
{
    match home(rt.alloc(), args)? {
        Some(folder) => DirDisk::new(rt, folder.as_str()),
        None => DirDisk::new(rt, ""),
    }
}

// Open files that can be neither read nor written to. A process that was started without one of its
// standard streams gives that stream's number to the next file that it opens: were that the log, the
// report would be written behind its last entry. So these are opened first, and held to the end; one
// that cannot be opened is left out.
#[derive(Drop)]
struct HeldFiles<F> {
    first: io::Result<F>,
    second: io::Result<F>,
    third: io::Result<F>,
}

// A folder can be opened, and gives no bytes and takes none.
fn placeholder<R: Files>(rt: &R) -> io::Result<R::File> {
    OpenOptions::new().read(true).open(rt, "/")
}

fn placeholders<R: Files>(rt: &R) -> HeldFiles<R::File> {
    HeldFiles {
        first: placeholder(rt),
        second: placeholder(rt),
        third: placeholder(rt),
    }
}

// Runs the program, and gives its status. Out of memory before the top call is the one error.
fn run<R: Runtime + AllocGlobal>(rt: &R) -> Result<u8, AllocError>
where
    R::File: Send + Sync + FolderLock,
{
    let held = placeholders(rt);
    let args = args_of(rt)?;
    let disk = disk_of(rt, &args)?;
    let mut input = StdSource::new(rt.reader());
    let mut output = StdSink::new(io::writer(rt));
    let ended = run_je(rt.alloc(), &args, disk, &mut input, &mut output);
    let Ended {
        status,
        cause: _,
        opened: _,
        disk: _,
        journal,
        opening,
        totals: _,
        records,
    } = ended;
    drop(held);
    // The process ends here, and its memory with it: nothing is given back value by value.
    forget(journal);
    forget(opening);
    forget(records);
    Ok(status)
}

fn main(rt: HostRuntime) -> ExitCode {
    match run(&rt) {
        Ok(status) => ExitCode::from(status),
        Err(_) => ExitCode::from(Cause::Memory.status()),
    }
}
