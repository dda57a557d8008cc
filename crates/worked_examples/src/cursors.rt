// Cursors: what they are opened on, where they move, and what is written and deleted where they stand.
use crate::fixture::{assert_ran, run_script};
use mem_disk::MemDisk;
use std::alloc::Global;
use std::test::Fail;

// Cursors on a plain database: a name that another transaction wrote is waited for, a database with a cursor is in use, and
// cursors are opened where others stand and moved by each motion. Cursors on a database with duplicates, at read committed and
// without waiting. And a cursor that deletes the record where it stands.
static CURSORS: [(&[u8], &str); 3] = [
    (
        b"s1 create v plain\n\
s1 put v 61 31\n\
s2 begin rr sync wait\n\
s2 put v 62 32\n\
s1 begin ser sync wait\n\
s1 open c1 v\n\
s1 cur c1 first\n\
s1 cur c1 next\n\
s2 abort\n\
s1 remove v\n\
s3 remove v\n\
s3 rename v w\n\
s1 open c1 v\n\
s1 open c2 v\n\
s1 dup c1 c2\n\
s1 dup c1 c3\n\
s1 dup c5 c4\n\
s1 cur c3 current\n\
s1 close c3\n\
s1 close c3\n\
s1 cur c4 first\n\
s1 cur c2 current\n\
s1 cur c2 nextdup\n\
s1 cputnodup c2 61 31\n\
s1 cput c2 62 33\n\
s1 cur c2 current rmw\n\
s1 cur c1 next\n\
s1 cputcur c2 3434\n\
s1 cur c1 current\n\
s1 cur c2 prev\n\
s1 cdel c2\n\
s1 count c2\n\
s1 cur c2 next\n\
s1 cur c2 nextnodup\n\
s1 cputno c2 62 35\n\
s1 cur c2 range 61\n\
s1 cur c2 both 62 3434\n\
s1 cur c2 bothrange 62 3434\n\
s1 cur c2 bothrange 62 33\n\
s1 cur c2 last\n\
s1 cur c2 key 63\n\
s3 get v 62\n\
s1 abort\n\
s3 remove v\n\
s1 close c1\n\
s1 open c1 t\n\
s1 cur c1 first\n",
        "1 s1 ok\n\
2 s1 ok\n\
3 s2 ok txn 3\n\
4 s2 ok\n\
5 s1 ok txn 4\n\
6 s1 ok\n\
7 s1 ok 61 31\n\
8 s1 waiting v 62 by 3\n\
9 s2 ok\n\
8 s1 notfound\n\
10 s1 intxn 4\n\
11 s3 inuse 4\n\
12 s3 inuse 4\n\
13 s1 nametaken\n\
14 s1 ok\n\
15 s1 nametaken\n\
16 s1 ok\n\
17 s1 nocursor\n\
18 s1 ok 61 31\n\
19 s1 ok\n\
20 s1 nocursor\n\
21 s1 nocursor\n\
22 s1 noposition\n\
23 s1 noposition\n\
24 s1 onlyonduplicates\n\
25 s1 ok\n\
26 s1 ok 62 33\n\
27 s1 ok 62 33\n\
28 s1 ok\n\
29 s1 ok 62 3434\n\
30 s1 ok 61 31\n\
31 s1 ok\n\
32 s1 keyempty\n\
33 s1 ok 62 3434\n\
34 s1 notfound\n\
35 s1 keyexist\n\
36 s1 ok 62 3434\n\
37 s1 ok 62 3434\n\
38 s1 ok 62 3434\n\
39 s1 notfound\n\
40 s1 ok 62 3434\n\
41 s1 notfound\n\
42 s3 waiting v 62 by 4\n\
43 s1 ok\n\
42 s3 notfound\n\
44 s3 ok\n\
45 s1 nocursor\n\
46 s1 notxn\n\
47 s1 nocursor\n\
end commits 3 databases 0 records 0\n",
    ),
    (
        b"s1 create d dup\n\
s1 put d 61 31\n\
s1 put d 61 32\n\
s1 put d 62 31\n\
s1 begin rc nosync nowait\n\
s1 open c1 d\n\
s1 cur c1 last\n\
s1 cur c1 prevnodup\n\
s1 cur c1 prevdup\n\
s1 cur c1 prevdup\n\
s1 cur c1 nextdup\n\
s1 cur c1 nextdup\n\
s1 cur c1 nextnodup\n\
s1 cputcur c1 33\n\
s1 cputnodup c1 61 32\n\
s1 cputnodup c1 61 33\n\
s1 count c1\n\
s1 cur c1 bothrange 61 3132\n\
s1 cdel c1\n\
s1 cur c1 prev\n\
s2 begin rr nosync wait\n\
s2 get d 62\n\
s1 cput c1 62 31\n\
s1 cput c1 62 32\n\
s2 cur c1 first\n\
s1 commit\n\
s2 commit\n\
s3 get d 62\n",
        "1 s1 ok\n\
2 s1 ok\n\
3 s1 ok\n\
4 s1 ok\n\
5 s1 ok txn 5\n\
6 s1 ok\n\
7 s1 ok 62 31\n\
8 s1 ok 61 32\n\
9 s1 ok 61 31\n\
10 s1 notfound\n\
11 s1 ok 61 32\n\
12 s1 notfound\n\
13 s1 ok 62 31\n\
14 s1 notonduplicates\n\
15 s1 keyexist\n\
16 s1 ok\n\
17 s1 ok 3\n\
18 s1 ok 61 32\n\
19 s1 ok\n\
20 s1 ok 61 31\n\
21 s2 ok txn 6\n\
22 s2 ok 62 31\n\
23 s1 unavailable 6\n\
24 s1 ok\n\
25 s2 nocursor\n\
26 s1 ok\n\
27 s2 ok\n\
28 s3 ok 62 31\n\
end commits 5 databases 1 records 4\n",
    ),
    (
        b"s1 create d dup\n\
s1 put d 6b 31\n\
s1 put d 6b 32\n\
s1 put d 6b 33\n\
s1 putnodup d 6b 32\n\
s1 begin rr sync wait\n\
s1 open c1 d\n\
s1 cur c1 key 6b\n\
s1 count c1\n\
s1 cdel c1\n\
s1 cur c1 current\n\
s1 cur c1 next\n\
s1 commit\n\
s1 delete d 6b\n\
s1 get d 6b\n",
        "1 s1 ok\n\
2 s1 ok\n\
3 s1 ok\n\
4 s1 ok\n\
5 s1 keyexist\n\
6 s1 ok txn 6\n\
7 s1 ok\n\
8 s1 ok 6b 31\n\
9 s1 ok 3\n\
10 s1 ok\n\
11 s1 keyempty\n\
12 s1 ok 6b 32\n\
13 s1 ok\n\
14 s1 ok\n\
15 s1 notfound\n\
end commits 6 databases 1 records 0\n",
    ),
];

// Each call at a cursor answers by where the cursor stands.
#[test]
fn cursors(rt: HostRuntime) -> Result<(), Fail> {
    let alloc: Global = rt.alloc();
    for &(script, text) in &CURSORS {
        let ran = run_script(alloc, MemDisk::new(alloc), script)?;
        assert_ran(&rt, &ran, 0, text);
    }
    Ok(())
}
