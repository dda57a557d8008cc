// What scripts write, and which bytes they leave.
use crate::fixture::{
    FIRST, FIRST_LOG, FIRST_TEXT, HEADER, RUN, assert_leaves, assert_ran, first_disk, holds_files,
    ones, put_line, run_args, run_script,
};
use mem_disk::MemDisk;
use std::alloc::{AllocError, Global};
use std::process::Abort;
use std::test::Fail;

#[test]
fn empty_folder(rt: HostRuntime) -> Result<(), Fail> {
    let alloc = rt.alloc();
    let disk = MemDisk::new(alloc);
    let text = "end commits 0 databases 0 records 0\n";
    assert_leaves(&rt, alloc, disk, b"", 0, text, &[(0, HEADER)])?;
    Ok(())
}

// Scripts over the file that the first example leaves.
static SCRIPTS: [(&[u8], &str); 3] = [
    (b"", "end commits 0 databases 1 records 1\n"),
    (
        b"s1 get t 61\ns1 get u 61\ns1 create t plain\ns1 create u plain\n",
        "1 s1 ok 61 31\n2 s1 nodatabase\n3 s1 nametaken\n4 s1 ok\nend commits 1 databases 2 records 1\n",
    ),
    (
        b"s3 delete t 61\ns3 delete t 61\ns4 get t 61\n",
        "1 s3 ok\n2 s3 notfound\n3 s4 notfound\nend commits 1 databases 1 records 0\n",
    ),
];

// The first example, and then those scripts.
#[test]
fn create_put_get(rt: HostRuntime) -> Result<(), Fail> {
    let alloc = rt.alloc();
    let disk = MemDisk::new(alloc);
    assert_leaves(&rt, alloc, disk, FIRST, 0, FIRST_TEXT, &[(0, FIRST_LOG)])?;
    for &(script, text) in &SCRIPTS {
        let ran = run_script(alloc, first_disk(&rt, alloc)?, script)?;
        assert_ran(&rt, &ran, 0, text);
    }
    Ok(())
}

// Invalid arguments and scripts outside the grammar, with the status and what is written.
static WRONG: [(&[&str], &[u8], u8, &str); 12] = [
    (&[], FIRST, 2, "fault usage\n"),
    (&["run"], FIRST, 2, "fault usage\n"),
    (&["run", "--home"], FIRST, 2, "fault usage\n"),
    (&["run", "--hom", "store"], FIRST, 2, "fault usage\n"),
    (&["run", "--home", "store", "x"], FIRST, 2, "fault usage\n"),
    (
        &["run", "--home", "store", "--file-max", "4095"],
        FIRST,
        2,
        "fault usage\n",
    ),
    (
        &["run", "--home", "store", "--file-max", "x"],
        FIRST,
        2,
        "fault usage\n",
    ),
    (
        &["run", "--home", "store", "--fanout", "3"],
        FIRST,
        2,
        "fault usage\n",
    ),
    (
        &["run", "--home", "store", "--fanout", "129"],
        FIRST,
        2,
        "fault usage\n",
    ),
    (&RUN, b"s1 put t 6 31\n", 3, "fault script line 1\n"),
    (
        &RUN,
        b"s1 create t plain\n\n# t\ns1 get t\n",
        3,
        "fault script line 4\n",
    ),
    (&RUN, b"s0 get t 61", 3, "fault script line 1\n"),
];

// Nothing is done to the disk.
fn assert_refused(
    rt: &impl Abort,
    alloc: Global,
    args: &[&str],
    script: &[u8],
    status: u8,
    text: &str,
) -> Result<(), AllocError> {
    let ran = run_args(alloc, args, MemDisk::new(alloc), script)?;
    assert_ran(rt, &ran, status, text);
    assert!(rt; holds_files(alloc, &ran.disk, &[])?);
    Ok(())
}

#[test]
fn words_and_scripts(rt: HostRuntime) -> Result<(), Fail> {
    for &(args, script, status, text) in &WRONG {
        assert_refused(&rt, rt.alloc(), args, script, status, text)?;
    }
    Ok(())
}

// How long a key and its data are.
static LENGTHS: [(usize, usize); 5] = [
    (4_096, 1),
    (4_097, 1),
    (1, 65_536),
    (1, 65_537),
    (4_097, 65_537),
];

// A script that puts a record of each of these lengths.
fn long_script(alloc: Global) -> Result<Vec<u8>, AllocError> {
    let mut script = Vec::from_slice(alloc, b"s1 create t plain\n")?;
    for &(key_len, len) in &LENGTHS {
        put_line(alloc, &mut script, &ones(alloc, key_len)?, len)?;
    }
    Ok(script)
}

// The longest keys and data, and those that are one byte longer.
#[test]
fn long_keys(rt: HostRuntime) -> Result<(), Fail> {
    let alloc = rt.alloc();
    let ran = run_script(alloc, MemDisk::new(alloc), &long_script(alloc)?)?;
    let text =
        "1 s1 ok\n2 s1 ok\n3 s1 toolong 4097\n4 s1 ok\n5 s1 toolong 65537\n6 s1 toolong 4097\nend commits 3 databases 1 records 2\n";
    assert_ran(&rt, &ran, 0, text);
    Ok(())
}

// A script that makes 1,001 databases.
fn many_creations(alloc: Global) -> Result<String, AllocError> {
    let mut script = String::new(alloc);
    for number in 1..1002u32 {
        script.push_str(format!(in alloc; "s1 create d{number} plain\n")?.as_str())?;
    }
    Ok(script)
}

#[test]
fn thousand_databases(rt: HostRuntime) -> Result<(), Fail> {
    let alloc = rt.alloc();
    let script = many_creations(alloc)?;
    let ran = run_script(alloc, MemDisk::new(alloc), script.as_bytes())?;
    let end = "\n1000 s1 ok\n1001 s1 toomany 1000\nend commits 1000 databases 1000 records 0\n";
    assert!(rt; ran.text().ends_with(end) && ran.status == 0);
    Ok(())
}
