//! A program for timing the store by calls, with no script to read and no report to write. It stands on `jalibsuk` and `dir_disk`, takes a workload, a
//! number N and a folder as arguments, and prints how many of its calls were answered. Workloads: `bulk`, N puts in one synced transaction;
//! `nosync`, N puts, each in a transaction of its own that is not synced; `autosync`, N puts outside a transaction; `overwrite`, N puts of 1,000 keys, as
//! `nosync`; `reads`, N gets in one transaction over the store of `bulk`; `reads_auto`, the same outside one; `scan`, all its records, first to last; `open`, nothing.
#![tactic(auto)]

mod keys;
mod workloads;

use crate::workloads::Workload;
use dir_disk::DirDisk;
use jalibsuk::{Env, Options};
use std::{env, io};

// The workload of that name.
fn workload_of(name: &str) -> Option<Workload> {
    match name {
        "bulk" => Some(Workload::Bulk),
        "nosync" => Some(Workload::NoSync),
        "autosync" => Some(Workload::AutoSync),
        "overwrite" => Some(Workload::Overwrite),
        "reads" => Some(Workload::Reads),
        "reads_auto" => Some(Workload::ReadsAuto),
        "scan" => Some(Workload::Scan),
        "open" => Some(Workload::Open),
        _ => None,
    }
}

fn main(rt: HostRuntime) -> io::Result<()> {
    let mut args = env::args(&rt)?;
    let _program = args.next();
    let (Some(name), Some(number), Some(folder)) = (args.next(), args.next(), args.next()) else {
        return println!(rt; "call_bench WORKLOAD N FOLDER");
    };
    let Some(workload) = workload_of(name.as_str()) else {
        return println!(rt; "no such workload");
    };
    let number = number.as_str().parse::<u32>().unwrap_or(0);
    let disk = DirDisk::new(&rt, folder.as_str())?;
    let mut env = match Env::open(rt.alloc(), disk, Options::default()) {
        Ok(env) => env,
        Err(error) => return println!(rt; "not opened: {error}"),
    };
    let worked = workload.run(&mut env, number);
    match (worked, env.close()) {
        (Ok(count), Ok(())) => println!(rt; "{count}"),
        (Err(error), _) | (_, Err(error)) => println!(rt; "stopped: {error}"),
    }
}
