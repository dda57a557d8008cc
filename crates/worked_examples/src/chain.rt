// As many sessions as a script may have, in one chain: each waits for a record of the next one, and the commits let them go
// on one after another, from the last one to the first.
use crate::fixture::{assert_ran, run_script};
use mem_disk::MemDisk;
use std::alloc::{AllocError, Global};
use std::test::Fail;

// Each of 64 sessions begins, puts a record of its own, and then, but for the last one, asks for that of the next.
fn chain(alloc: Global) -> Result<String, AllocError> {
    let mut script = String::from_str(alloc, "s1 create t plain\n")?;
    for session in 1..65u32 {
        script.push_str(format!(in alloc; "s{session} begin rr sync wait\n")?.as_str())?;
    }
    for session in 1..65u32 {
        let key = session.wrapping_add(10);
        script.push_str(format!(in alloc; "s{session} put t {key} 31\n")?.as_str())?;
    }
    for session in 1..64u32 {
        let key = session.wrapping_add(11);
        script.push_str(format!(in alloc; "s{session} put t {key} 32\n")?.as_str())?;
    }
    for turn in 0..64u32 {
        let session = 64u32.wrapping_sub(turn);
        script.push_str(format!(in alloc; "s{session} commit\n")?.as_str())?;
    }
    Ok(script)
}

// What comes before the first commit: the transactions have the numbers from 2 on, and no wait closes a cycle.
fn waits(alloc: Global) -> Result<String, AllocError> {
    let mut text = String::from_str(alloc, "1 s1 ok\n")?;
    for session in 1..65u32 {
        let txn = session.wrapping_add(1);
        text.push_str(format!(in alloc; "{txn} s{session} ok txn {txn}\n")?.as_str())?;
    }
    for session in 1..65u32 {
        let line = session.wrapping_add(65);
        text.push_str(format!(in alloc; "{line} s{session} ok\n")?.as_str())?;
    }
    for session in 1..64u32 {
        let line = session.wrapping_add(129);
        let key = session.wrapping_add(11);
        let owner = session.wrapping_add(2);
        text.push_str(format!(in alloc;
            "{line} s{session} waiting t {key} by {owner}\n"
        )?.as_str())?;
    }
    Ok(text)
}

// What the commits write: behind each of them the call of the session before goes on, and no other.
fn commits(alloc: Global, text: &mut String) -> Result<(), AllocError> {
    for turn in 0..64u32 {
        let line = turn.wrapping_add(193);
        let session = 64u32.wrapping_sub(turn);
        text.push_str(format!(in alloc; "{line} s{session} ok\n")?.as_str())?;
        if session == 1 {
            return Ok(());
        }
        let asked = session.wrapping_add(128);
        let before = session.wrapping_sub(1);
        text.push_str(format!(in alloc; "{asked} s{before} ok\n")?.as_str())?;
    }
    Ok(())
}

#[test]
fn all_sessions_in_one_chain(rt: HostRuntime) -> Result<(), Fail> {
    let alloc = rt.alloc();
    let mut text = waits(alloc)?;
    commits(alloc, &mut text)?;
    text.push_str("end commits 65 databases 1 records 64\n")?;
    let ran = run_script(alloc, MemDisk::new(alloc), chain(alloc)?.as_bytes())?;
    assert_ran(&rt, &ran, 0, text.as_str());
    Ok(())
}
