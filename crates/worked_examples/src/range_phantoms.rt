// Records that would come into a range that a cursor has passed: serializable keeps them out, repeatable read does not.
use crate::fixture::{assert_ran, run_script};
use mem_disk::MemDisk;
use std::alloc::Global;
use std::test::Fail;

// A cursor passes a range, and then other sessions put records before it, inside it, at its end and behind it. At serializable
// those that come into it wait, and the motions give the same again; at repeatable read they do not, and a motion finds one. The
// record at the end is locked at both. In the third run the cursor goes backwards from the last record, so that the end of the
// database is shut too. Then the same of the duplicates of a key, and their count. In the last run a name inside the range goes,
// since its writer aborts: the motion that waited for it passes on, and the gap where it was is shut.
static RANGES: [(&[u8], &str); 6] = [
    (
        b"s1 create t plain\n\
s1 put t 61 31\n\
s1 put t 63 33\n\
s1 put t 65 35\n\
s1 begin ser sync wait\n\
s1 open c1 t\n\
s1 cur c1 range 62\n\
s1 cur c1 next\n\
s2 put t 60 30\n\
s3 put t 64 34\n\
s4 put t 65 36\n\
s5 put t 66 37\n\
s1 cur c1 range 62\n\
s1 cur c1 next\n\
s1 commit\n",
        "1 s1 ok\n\
2 s1 ok\n\
3 s1 ok\n\
4 s1 ok\n\
5 s1 ok txn 5\n\
6 s1 ok\n\
7 s1 ok 63 33\n\
8 s1 ok 65 35\n\
9 s2 ok\n\
10 s3 waiting t 65 by 5\n\
11 s4 waiting t 65 by 5\n\
12 s5 ok\n\
13 s1 ok 63 33\n\
14 s1 ok 65 35\n\
15 s1 ok\n\
10 s3 ok\n\
11 s4 ok\n\
end commits 8 databases 1 records 6\n",
    ),
    (
        b"s1 create t plain\n\
s1 put t 61 31\n\
s1 put t 63 33\n\
s1 put t 65 35\n\
s1 begin rr sync wait\n\
s1 open c1 t\n\
s1 cur c1 range 62\n\
s1 cur c1 next\n\
s2 put t 60 30\n\
s3 put t 64 34\n\
s4 put t 65 36\n\
s5 put t 66 37\n\
s1 cur c1 range 62\n\
s1 cur c1 next\n\
s1 commit\n",
        "1 s1 ok\n\
2 s1 ok\n\
3 s1 ok\n\
4 s1 ok\n\
5 s1 ok txn 5\n\
6 s1 ok\n\
7 s1 ok 63 33\n\
8 s1 ok 65 35\n\
9 s2 ok\n\
10 s3 ok\n\
11 s4 waiting t 65 by 5\n\
12 s5 ok\n\
13 s1 ok 63 33\n\
14 s1 ok 64 34\n\
15 s1 ok\n\
11 s4 ok\n\
end commits 8 databases 1 records 6\n",
    ),
    (
        b"s1 create t plain\n\
s1 put t 61 31\n\
s1 put t 63 33\n\
s1 put t 65 35\n\
s1 begin ser sync wait\n\
s1 open c1 t\n\
s1 cur c1 last\n\
s1 cur c1 prev\n\
s2 put t 60 30\n\
s3 put t 64 34\n\
s4 put t 66 37\n\
s1 cur c1 last\n\
s1 cur c1 prev\n\
s1 commit\n",
        "1 s1 ok\n\
2 s1 ok\n\
3 s1 ok\n\
4 s1 ok\n\
5 s1 ok txn 5\n\
6 s1 ok\n\
7 s1 ok 65 35\n\
8 s1 ok 63 33\n\
9 s2 ok\n\
10 s3 waiting t 65 by 5\n\
11 s4 waiting t end by 5\n\
12 s1 ok 65 35\n\
13 s1 ok 63 33\n\
14 s1 ok\n\
10 s3 ok\n\
11 s4 ok\n\
end commits 7 databases 1 records 6\n",
    ),
    (
        b"s1 create d dup\n\
s1 put d 61 31\n\
s1 put d 61 33\n\
s1 put d 62 31\n\
s1 begin ser sync wait\n\
s1 open c1 d\n\
s1 cur c1 key 61\n\
s1 cur c1 nextdup\n\
s1 cur c1 nextdup\n\
s1 count c1\n\
s2 put d 61 32\n\
s3 put d 61 34\n\
s4 put d 62 32\n\
s1 cur c1 nextdup\n\
s1 count c1\n\
s1 commit\n",
        "1 s1 ok\n\
2 s1 ok\n\
3 s1 ok\n\
4 s1 ok\n\
5 s1 ok txn 5\n\
6 s1 ok\n\
7 s1 ok 61 31\n\
8 s1 ok 61 33\n\
9 s1 notfound\n\
10 s1 ok 2\n\
11 s2 waiting d 61 33 by 5\n\
12 s3 waiting d 62 31 by 5\n\
13 s4 ok\n\
14 s1 notfound\n\
15 s1 ok 2\n\
16 s1 ok\n\
11 s2 ok\n\
12 s3 ok\n\
end commits 7 databases 1 records 6\n",
    ),
    (
        b"s1 create d dup\n\
s1 put d 61 31\n\
s1 put d 61 33\n\
s1 put d 62 31\n\
s1 begin rr sync wait\n\
s1 open c1 d\n\
s1 cur c1 key 61\n\
s1 cur c1 nextdup\n\
s1 cur c1 nextdup\n\
s1 count c1\n\
s2 put d 61 32\n\
s3 put d 61 34\n\
s4 put d 62 32\n\
s1 cur c1 nextdup\n\
s1 count c1\n\
s1 commit\n",
        "1 s1 ok\n\
2 s1 ok\n\
3 s1 ok\n\
4 s1 ok\n\
5 s1 ok txn 5\n\
6 s1 ok\n\
7 s1 ok 61 31\n\
8 s1 ok 61 33\n\
9 s1 notfound\n\
10 s1 ok 2\n\
11 s2 ok\n\
12 s3 ok\n\
13 s4 ok\n\
14 s1 ok 61 34\n\
15 s1 ok 4\n\
16 s1 ok\n\
end commits 7 databases 1 records 6\n",
    ),
    (
        b"s1 create t plain\n\
s1 put t 61 31\n\
s1 put t 63 33\n\
s2 begin rr sync wait\n\
s2 put t 62 32\n\
s1 begin ser sync wait\n\
s1 open c1 t\n\
s1 cur c1 first\n\
s1 cur c1 next\n\
s2 abort\n\
s3 put t 6201 34\n\
s1 cur c1 prev\n\
s1 cur c1 next\n\
s1 commit\n",
        "1 s1 ok\n\
2 s1 ok\n\
3 s1 ok\n\
4 s2 ok txn 4\n\
5 s2 ok\n\
6 s1 ok txn 5\n\
7 s1 ok\n\
8 s1 ok 61 31\n\
9 s1 waiting t 62 by 4\n\
10 s2 ok\n\
9 s1 ok 63 33\n\
11 s3 waiting t 63 by 5\n\
12 s1 ok 61 31\n\
13 s1 ok 63 33\n\
14 s1 ok\n\
11 s3 ok\n\
end commits 4 databases 1 records 3\n",
    ),
];

#[test]
fn phantoms_of_ranges_wait(rt: HostRuntime) -> Result<(), Fail> {
    let alloc: Global = rt.alloc();
    for &(script, text) in &RANGES {
        let ran = run_script(alloc, MemDisk::new(alloc), script)?;
        assert_ran(&rt, &ran, 0, text);
    }
    Ok(())
}
