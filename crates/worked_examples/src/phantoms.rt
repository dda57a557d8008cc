// Records that would come into what a transaction has read: serializable keeps them out, repeatable read does not.
use crate::fixture::{assert_ran, run_script};
use mem_disk::MemDisk;
use std::alloc::Global;
use std::test::Fail;

// A read between two records, and then puts of other sessions before its range, inside it, at its end and behind it. At
// serializable the two that come into the range wait, and the read gives the same again; at repeatable read they do not, and
// it finds a record. In the third run a name that ended a range goes, since its writer aborts: the read that waited for it ends
// its range at the next one.
static PHANTOMS: [(&[u8], &str); 3] = [
    (
        b"s1 create t plain\n\
s1 put t 61 31\n\
s1 put t 63 33\n\
s1 put t 65 35\n\
s1 begin ser sync wait\n\
s1 get t 62\n\
s2 put t 60 30\n\
s3 put t 62 32\n\
s4 put t 63 36\n\
s5 put t 64 34\n\
s1 get t 62\n\
s1 commit\n",
        "1 s1 ok\n\
2 s1 ok\n\
3 s1 ok\n\
4 s1 ok\n\
5 s1 ok txn 5\n\
6 s1 notfound\n\
7 s2 ok\n\
8 s3 waiting t 63 by 5\n\
9 s4 waiting t 63 by 5\n\
10 s5 ok\n\
11 s1 notfound\n\
12 s1 ok\n\
8 s3 ok\n\
9 s4 ok\n\
end commits 8 databases 1 records 6\n",
    ),
    (
        b"s1 create t plain\n\
s1 put t 61 31\n\
s1 put t 63 33\n\
s1 put t 65 35\n\
s1 begin rr sync wait\n\
s1 get t 62\n\
s2 put t 60 30\n\
s3 put t 62 32\n\
s4 put t 63 36\n\
s5 put t 64 34\n\
s1 get t 62\n\
s1 commit\n",
        "1 s1 ok\n\
2 s1 ok\n\
3 s1 ok\n\
4 s1 ok\n\
5 s1 ok txn 5\n\
6 s1 notfound\n\
7 s2 ok\n\
8 s3 ok\n\
9 s4 ok\n\
10 s5 ok\n\
11 s1 ok 62 32\n\
12 s1 ok\n\
end commits 8 databases 1 records 6\n",
    ),
    (
        b"s1 create t plain\n\
s1 put t 63 33\n\
s2 begin rr sync wait\n\
s2 put t 62 32\n\
s1 begin ser sync wait\n\
s1 get t 61\n\
s2 abort\n\
s3 put t 6201 31\n\
s1 get t 61\n\
s1 commit\n",
        "1 s1 ok\n\
2 s1 ok\n\
3 s2 ok txn 3\n\
4 s2 ok\n\
5 s1 ok txn 4\n\
6 s1 waiting t 62 by 3\n\
7 s2 ok\n\
6 s1 notfound\n\
8 s3 waiting t 63 by 4\n\
9 s1 notfound\n\
10 s1 ok\n\
8 s3 ok\n\
end commits 3 databases 1 records 2\n",
    ),
];

#[test]
fn phantoms_wait(rt: HostRuntime) -> Result<(), Fail> {
    let alloc: Global = rt.alloc();
    for &(script, text) in &PHANTOMS {
        let ran = run_script(alloc, MemDisk::new(alloc), script)?;
        assert_ran(&rt, &ran, 0, text);
    }
    Ok(())
}
