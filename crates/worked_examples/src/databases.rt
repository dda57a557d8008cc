// Databases of both kinds that are listed, renamed, emptied and removed, and records that are put only where there is none.
use crate::fixture::{assert_ran, disk_of, run_script};
use mem_disk::MemDisk;
use std::alloc::{AllocError, Global};
use std::process::Abort;
use std::test::Fail;

// Scripts over one folder, each run opening what the one before it left, and what they write.
static RUNS: [(&[u8], &str); 6] = [
    (
        b"s1 create pears plain\n\
s1 create apples plain\n\
s2 create figs plain\n\
s1 list\n\
s1 put apples 61 31\n\
s1 putno apples 61 32\n\
s1 putno apples 62 32\n\
s1 get apples 61\n\
s2 put figs 61 33\n\
s2 putno figs - -\n\
s1 put pears 00 ff\n\
s1 rename apples quinces\n\
s1 list\n\
s1 get apples 61\n\
s1 get quinces 62\n\
s1 rename pears figs\n\
s1 rename apples figs\n\
s1 rename quinces quinces\n\
s1 truncate figs\n\
s2 get figs 61\n\
s2 putno figs 61 34\n\
s3 remove pears\n\
s3 remove pears\n\
s3 truncate pears\n\
s3 putno pears 00 00\n\
s3 list\n",
        "1 s1 ok\n\
2 s1 ok\n\
3 s2 ok\n\
4 s1 ok apples figs pears\n\
5 s1 ok\n\
6 s1 keyexist\n\
7 s1 ok\n\
8 s1 ok 61 31\n\
9 s2 ok\n\
10 s2 ok\n\
11 s1 ok\n\
12 s1 ok\n\
13 s1 ok figs pears quinces\n\
14 s1 nodatabase\n\
15 s1 ok 62 32\n\
16 s1 nametaken\n\
17 s1 nodatabase\n\
18 s1 nametaken\n\
19 s1 ok\n\
20 s2 notfound\n\
21 s2 ok\n\
22 s3 ok\n\
23 s3 nodatabase\n\
24 s3 nodatabase\n\
25 s3 nodatabase\n\
26 s3 ok figs quinces\n\
end commits 12 databases 2 records 3\n",
    ),
    (
        b"s1 list\n\
s1 get quinces 61\n\
s1 get figs -\n\
s1 get figs 61\n\
s1 create apples plain\n\
s1 get apples 61\n\
s1 rename figs pears\n\
s1 get pears 61\n\
s1 truncate quinces\n\
s1 remove apples\n\
s1 list\n",
        "1 s1 ok figs quinces\n\
2 s1 ok 61 31\n\
3 s1 notfound\n\
4 s1 ok 61 34\n\
5 s1 ok\n\
6 s1 notfound\n\
7 s1 ok\n\
8 s1 ok 61 34\n\
9 s1 ok\n\
10 s1 ok\n\
11 s1 ok pears quinces\n\
end commits 4 databases 2 records 1\n",
    ),
    (
        b"s1 list\n\
s1 get pears 61\n\
s1 get quinces 61\n\
s1 remove pears\n\
s1 remove quinces\n\
s1 list\n",
        "1 s1 ok pears quinces\n\
2 s1 ok 61 34\n\
3 s1 notfound\n\
4 s1 ok\n\
5 s1 ok\n\
6 s1 ok\n\
end commits 2 databases 0 records 0\n",
    ),
    (
        b"s1 list\n",
        "1 s1 ok\nend commits 0 databases 0 records 0\n",
    ),
    (
        b"s1 create d dup\n\
s1 put d 6b 33\n\
s1 put d 6b 31\n\
s1 put d 6b 31\n\
s1 putnodup d 6b 31\n\
s1 putnodup d 6b 32\n\
s1 putno d 6b 34\n\
s1 putno d 6c 31\n\
s1 get d 6b\n\
s1 getboth d 6b 32\n\
s1 getboth d 6b 34 rmw\n\
s1 create p plain\n\
s1 putnodup p 61 31\n\
s1 put p 61 31\n\
s1 getboth p 61 31\n\
s1 getboth p 61 32\n",
        "1 s1 ok\n\
2 s1 ok\n\
3 s1 ok\n\
4 s1 ok\n\
5 s1 keyexist\n\
6 s1 ok\n\
7 s1 keyexist\n\
8 s1 ok\n\
9 s1 ok 6b 31\n\
10 s1 ok 6b 32\n\
11 s1 notfound\n\
12 s1 ok\n\
13 s1 onlyonduplicates\n\
14 s1 ok\n\
15 s1 ok 61 31\n\
16 s1 notfound\n\
end commits 8 databases 2 records 5\n",
    ),
    (
        b"s1 get d 6b\n\
s1 getboth d 6b 33\n\
s1 delete d 6b\n\
s1 get d 6b\n\
s1 get d 6c\n\
s1 truncate d\n\
s1 get d 6c\n\
s1 list\n",
        "1 s1 ok 6b 31\n\
2 s1 ok 6b 33\n\
3 s1 ok\n\
4 s1 notfound\n\
5 s1 ok 6c 31\n\
6 s1 ok\n\
7 s1 notfound\n\
8 s1 ok d p\n\
end commits 2 databases 2 records 1\n",
    ),
];

// The disk that such a run leaves.
fn run_over(
    rt: &impl Abort,
    alloc: Global,
    disk: MemDisk,
    script: &[u8],
    text: &str,
) -> Result<MemDisk, AllocError> {
    let ran = run_script(alloc, disk, script)?;
    assert_ran(rt, &ran, 0, text);
    Ok(disk_of(ran))
}

#[test]
fn several_databases(rt: HostRuntime) -> Result<(), Fail> {
    let alloc = rt.alloc();
    let mut disk = MemDisk::new(alloc);
    for &(script, text) in &RUNS {
        disk = run_over(&rt, alloc, disk, script, text)?;
    }
    Ok(())
}
