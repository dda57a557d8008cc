//! A program for timing the locks from outside. It stands on the lock crates, takes a case and a number
//! N as arguments, and prints one count. Cases: `own`, N locks of one transaction taken and released;
//! `many`, N transactions with 100 locks each; `made`, a chain of N waiters; `chain`, the same and one
//! search for a cycle along it.
#![tactic(auto)]

mod cases;

use std::alloc::{AllocError, Global};
use std::{env, io};

// The count of a case, or 0 for a word that is no case.
fn count_of(alloc: Global, case: &str, number: u32) -> Result<u64, AllocError> {
    match case {
        "own" => cases::own(alloc, number),
        "many" => cases::many(alloc, number),
        "made" => cases::chain(alloc, number, false),
        "chain" => cases::chain(alloc, number, true),
        _ => Ok(0),
    }
}

fn main(rt: HostRuntime) -> io::Result<()> {
    let mut args = env::args(&rt)?;
    let _program = args.next();
    let (Some(case), Some(number)) = (args.next(), args.next()) else {
        return println!(rt; "0");
    };
    let number = number.as_str().parse::<u32>().unwrap_or(0);
    let count = count_of(rt.alloc(), case.as_str(), number)?;
    println!(rt; "{count}")
}
