// Locks of calls on indexes, and of the pairs that a change of a primary brings and takes.
use crate::fixture::{RUN_NARROW, assert_ran, disk_of, run_args, run_script};
use mem_disk::MemDisk;
use std::alloc::Global;
use std::test::Fail;

// A key that a serializable read did not find in an index cannot be brought there by a put in the primary.
// A read for writing waits for the writer of a pair, and then keeps others from the pair's record.
// A primary is not in use for a new index, nor an index for a truncate or a remove, while a transaction has written there.
static INDEX_LOCKS: [(&[u8], &str); 3] = [
    (
        b"s1 create p plain\n\
s1 put p 31 612c62\n\
s1 create i index p field 1 2c\n\
s1 begin ser sync wait\n\
s1 get i 61\n\
s2 put p 32 612c61\n\
s1 commit\n",
        "1 s1 ok\n\
2 s1 ok\n\
3 s1 ok\n\
4 s1 ok txn 4\n\
5 s1 notfound\n\
6 s2 waiting i 62 31 by 4\n\
7 s1 ok\n\
6 s2 ok\n\
end commits 4 databases 2 records 4\n",
    ),
    (
        b"s1 create p plain\n\
s1 create i index p slice 0 1\n\
s1 put p 31 61\n\
s1 begin rr sync wait\n\
s1 put p 31 62\n\
s2 begin ru sync wait\n\
s2 get i 61\n\
s2 get i 62\n\
s2 get i 62 rmw\n\
s1 abort\n\
s2 get i 61 rmw\n\
s3 put p 31 63\n\
s2 commit\n\
s3 get i 63\n",
        "1 s1 ok\n\
2 s1 ok\n\
3 s1 ok\n\
4 s1 ok txn 4\n\
5 s1 ok\n\
6 s2 ok txn 5\n\
7 s2 notfound\n\
8 s2 ok 62 31 62\n\
9 s2 waiting i 62 31 by 4\n\
10 s1 ok\n\
9 s2 notfound\n\
11 s2 ok 61 31 61\n\
12 s3 waiting p 31 by 5\n\
13 s2 ok\n\
12 s3 ok\n\
14 s3 ok 63 31 63\n\
end commits 4 databases 2 records 2\n",
    ),
    (
        b"s1 create p plain\n\
s1 create i index p slice 0 1\n\
s1 begin rr sync wait\n\
s1 put p 31 61\n\
s2 create j index p slice 0 1\n\
s2 truncate i\n\
s2 remove i\n\
s1 commit\n\
s2 truncate i\n\
s2 create j index p slice 0 1\n\
s2 get j 61\n",
        "1 s1 ok\n\
2 s1 ok\n\
3 s1 ok txn 3\n\
4 s1 ok\n\
5 s2 inuse 3\n\
6 s2 inuse 3\n\
7 s2 inuse 3\n\
8 s1 ok\n\
9 s2 readonlyindex\n\
10 s2 ok\n\
11 s2 ok 61 31 61\n\
end commits 4 databases 3 records 3\n",
    ),
];

// Each call waits for, or is refused by, whoever has its pair or its record.
#[test]
fn index_locks(rt: HostRuntime) -> Result<(), Fail> {
    let alloc: Global = rt.alloc();
    for &(script, text) in &INDEX_LOCKS {
        let ran = run_script(alloc, MemDisk::new(alloc), script)?;
        assert_ran(&rt, &ran, 0, text);
    }
    Ok(())
}

// Two indexes whose pairs fill several nodes; and, when they are opened again, a put that wants a place in both, where the index
// that was made first comes first, whatever their names.
static REOPENED: [(&[u8], &str); 2] = [
    (
        b"s1 create p plain\n\
s1 put p 31 6161\n\
s1 put p 32 6261\n\
s1 put p 33 6361\n\
s1 put p 34 6461\n\
s1 put p 35 6561\n\
s1 put p 36 6661\n\
s1 create z index p slice 0 1\n\
s1 create a index p slice 1 1\n\
s1 get z 64\n\
s1 begin rr sync wait\n\
s1 open c1 a\n\
s1 cur c1 last\n\
s1 count c1\n\
s1 commit\n",
        "1 s1 ok\n\
2 s1 ok\n\
3 s1 ok\n\
4 s1 ok\n\
5 s1 ok\n\
6 s1 ok\n\
7 s1 ok\n\
8 s1 ok\n\
9 s1 ok\n\
10 s1 ok 64 34 6461\n\
11 s1 ok txn 11\n\
12 s1 ok\n\
13 s1 ok 61 36 6661\n\
14 s1 ok 6\n\
15 s1 ok\n\
end commits 9 databases 3 records 18\n",
    ),
    (
        b"s1 begin ser sync wait\n\
s1 get z 67\n\
s1 get a 62\n\
s2 put p 37 6763\n\
s1 commit\n\
s2 get a 63\n",
        "1 s1 ok txn 10\n\
2 s1 notfound\n\
3 s1 notfound\n\
4 s2 waiting z end by 10\n\
5 s1 ok\n\
4 s2 ok\n\
6 s2 ok 63 37 6763\n\
end commits 1 databases 3 records 21\n",
    ),
];

// The indexes of a primary keep the order of their databases' numbers.
#[test]
fn indexes_in_order(rt: HostRuntime) -> Result<(), Fail> {
    let alloc: Global = rt.alloc();
    let mut disk = MemDisk::new(alloc);
    for &(script, text) in &REOPENED {
        let ran = run_args(alloc, &RUN_NARROW, disk, script)?;
        assert_ran(&rt, &ran, 0, text);
        disk = disk_of(ran);
    }
    drop(disk);
    Ok(())
}
