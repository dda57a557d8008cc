// Indexes: made and filled, kept up with their primary, read, deleted by, and walked by cursors.
use crate::fixture::{assert_ran, ones, run_script};
use mem_disk::MemDisk;
use std::alloc::{AllocError, Global};
use std::test::Fail;

// An index by a field of the data follows its primary.
// An index is filled as it is made, and its primary cannot be removed.
// Updates that change one of two indexes, both, and none; a delete by one takes the pair of the other out.
// Empty keys, records without a key, and what no index can be made of.
// A cursor among the duplicates of a key while the primary changes, and changes that are given up.
static INDEXES: [(&[u8], &str); 5] = [
    (
        b"s1 create p plain\n\
s1 create i index p field 1 2c\n\
s1 put p 31 612c62\n\
s1 get i 62\n\
s1 put p 31 632c62\n\
s1 get i 62\n\
s1 put p 31 632c64\n\
s1 get i 62\n\
s1 get i 64\n\
s1 put p 31 63\n\
s1 get i 64\n\
s1 put i 61 61\n",
        "1 s1 ok\n\
2 s1 ok\n\
3 s1 ok\n\
4 s1 ok 62 31 612c62\n\
5 s1 ok\n\
6 s1 ok 62 31 632c62\n\
7 s1 ok\n\
8 s1 notfound\n\
9 s1 ok 64 31 632c64\n\
10 s1 ok\n\
11 s1 notfound\n\
12 s1 readonlyindex\n\
end commits 6 databases 2 records 1\n",
    ),
    (
        b"s1 create p plain\n\
s1 put p 31 616263\n\
s1 put p 32 6162\n\
s1 create i index p slice 1 2\n\
s1 get i 6263\n\
s1 remove p\n\
s1 delete i 6263\n\
s1 get p 31\n",
        "1 s1 ok\n\
2 s1 ok\n\
3 s1 ok\n\
4 s1 ok\n\
5 s1 ok 6263 31 616263\n\
6 s1 hasindex\n\
7 s1 ok\n\
8 s1 notfound\n\
end commits 5 databases 2 records 1\n",
    ),
    (
        b"s1 create p plain\n\
s1 put p 31 612c62\n\
s1 create i index p field 0 2c\n\
s1 create j index p field 1 2c\n\
s1 put p 31 612c63\n\
s1 get i 61\n\
s1 get j 62\n\
s1 get j 63\n\
s1 put p 31 622c64\n\
s1 get i 61\n\
s1 get i 62\n\
s1 get j 64\n\
s1 put p 31 622c642c65\n\
s1 get j 64\n\
s1 truncate p\n\
s1 truncate i\n\
s1 rename p q\n\
s1 delete j 64\n\
s1 get i 62\n\
s1 get q 31\n\
s1 remove i\n\
s1 remove q\n\
s1 remove j\n\
s1 remove q\n",
        "1 s1 ok\n\
2 s1 ok\n\
3 s1 ok\n\
4 s1 ok\n\
5 s1 ok\n\
6 s1 ok 61 31 612c63\n\
7 s1 notfound\n\
8 s1 ok 63 31 612c63\n\
9 s1 ok\n\
10 s1 notfound\n\
11 s1 ok 62 31 622c64\n\
12 s1 ok 64 31 622c64\n\
13 s1 ok\n\
14 s1 ok 64 31 622c642c65\n\
15 s1 hasindex\n\
16 s1 readonlyindex\n\
17 s1 ok\n\
18 s1 ok\n\
19 s1 notfound\n\
20 s1 notfound\n\
21 s1 ok\n\
22 s1 hasindex\n\
23 s1 ok\n\
24 s1 ok\n\
end commits 12 databases 0 records 0\n",
    ),
    (
        b"s1 create p plain\n\
s1 create d dup\n\
s1 create i index p field 1 2c\n\
s1 create j index p slice 1 2\n\
s1 create k index d slice 0 1\n\
s1 create k index i slice 0 1\n\
s1 create k index u slice 0 1\n\
s1 create i index p slice 0 1\n\
s1 put p 31 2c\n\
s1 put p 32 -\n\
s1 put p 33 612c62\n\
s1 get i -\n\
s1 getboth i - 31\n\
s1 getboth i - 32\n\
s1 get j 2c62\n\
s1 get j 2c\n\
s1 putnodup i 61 61\n\
s1 delete i 63\n",
        "1 s1 ok\n\
2 s1 ok\n\
3 s1 ok\n\
4 s1 ok\n\
5 s1 nodatabase\n\
6 s1 nodatabase\n\
7 s1 nodatabase\n\
8 s1 nametaken\n\
9 s1 ok\n\
10 s1 ok\n\
11 s1 ok\n\
12 s1 ok - 31 2c\n\
13 s1 ok - 31 2c\n\
14 s1 notfound\n\
15 s1 ok 2c62 33 612c62\n\
16 s1 notfound\n\
17 s1 readonlyindex\n\
18 s1 notfound\n\
end commits 7 databases 4 records 6\n",
    ),
    (
        b"s1 create p plain\n\
s1 create i index p slice 0 1\n\
s1 put p 31 6161\n\
s1 put p 32 6162\n\
s1 put p 33 6163\n\
s1 begin rc sync wait\n\
s1 open c1 i\n\
s1 cur c1 first\n\
s1 count c1\n\
s2 put p 32 6262\n\
s1 cur c1 nextdup\n\
s1 cur c1 next\n\
s2 delete p 32\n\
s1 cur c1 current\n\
s1 count c1\n\
s1 cputcur c1 61\n\
s1 cput c1 61 31\n\
s1 cur c1 prev\n\
s1 cdel c1\n\
s2 get p 33\n\
s1 commit\n\
s2 get i 61\n\
s1 begin ser sync wait\n\
s1 delete i 61\n\
s1 get p 31\n\
s1 get i 61\n\
s1 create j index p slice 0 1\n\
s1 abort\n\
s1 get i 61\n",
        "1 s1 ok\n\
2 s1 ok\n\
3 s1 ok\n\
4 s1 ok\n\
5 s1 ok\n\
6 s1 ok txn 6\n\
7 s1 ok\n\
8 s1 ok 61 31 6161\n\
9 s1 ok 3\n\
10 s2 ok\n\
11 s1 ok 61 33 6163\n\
12 s1 ok 62 32 6262\n\
13 s2 ok\n\
14 s1 keyempty\n\
15 s1 keyempty\n\
16 s1 readonlyindex\n\
17 s1 readonlyindex\n\
18 s1 ok 61 33 6163\n\
19 s1 ok\n\
20 s2 waiting p 33 by 6\n\
21 s1 ok\n\
20 s2 notfound\n\
22 s2 ok 61 31 6161\n\
23 s1 ok txn 11\n\
24 s1 ok\n\
25 s1 notfound\n\
26 s1 notfound\n\
27 s1 intxn 11\n\
28 s1 ok\n\
29 s1 ok 61 31 6161\n\
end commits 8 databases 2 records 2\n",
    ),
];

// Each call by an index is answered from its primary's records.
#[test]
fn indexes(rt: HostRuntime) -> Result<(), Fail> {
    let alloc: Global = rt.alloc();
    for &(script, text) in &INDEXES {
        let ran = run_script(alloc, MemDisk::new(alloc), script)?;
        assert_ran(&rt, &ran, 0, text);
    }
    Ok(())
}

// Pieces of a script, each with how many bytes `1` stand behind it. Fields that are longer than a key, as long as one, and shorter: an index is filled with the first of them, and gets the others.
// A key that is longer than one may be is refused.
static LONG_FIELDS: [(&str, usize); 10] = [
    ("s1 create p plain\ns1 put p 61 ", 4_097),
    ("\ns1 create i index p field 0 2c\ns1 put p 62 ", 4_096),
    ("2c32\ns1 put p 63 ", 4_095),
    ("\ns1 getboth i ", 4_096),
    (" 61\ns1 get i ", 4_095),
    ("\ns1 get i ", 4_097),
    ("\ns1 put p 63 32", 4_096),
    ("\ns1 get i ", 4_095),
    ("\ns1 delete i ", 4_096),
    ("\ns1 get p 61\ns1 get p 62\n", 0),
];

// What it writes, in such pieces.
static LONG_FIELDS_TEXT: [(&str, usize); 5] = [
    (
        "1 s1 ok\n2 s1 ok\n3 s1 ok\n4 s1 ok\n5 s1 ok\n6 s1 ok ",
        4_096,
    ),
    (" 61 ", 4_097),
    ("\n7 s1 ok ", 4_095),
    (" 63 ", 4_095),
    (
        "\n8 s1 toolong 4097\n9 s1 ok\n10 s1 notfound\n11 s1 ok\n12 s1 notfound\n13 s1 notfound\n\
end commits 7 databases 2 records 2\n",
        0,
    ),
];

// The text of these pieces.
fn text_of(alloc: Global, pieces: &[(&str, usize)]) -> Result<Vec<u8>, AllocError> {
    let mut text = Vec::new(alloc);
    for (piece, len) in pieces {
        text.extend_from_slice(piece.as_bytes())?;
        text.extend_from_slice(&ones(alloc, *len)?)?;
    }
    Ok(text)
}

// A key is at most the first 4,096 bytes of its field.
#[test]
fn long_fields(rt: HostRuntime) -> Result<(), Fail> {
    let alloc: Global = rt.alloc();
    let script = text_of(alloc, &LONG_FIELDS)?;
    let text = text_of(alloc, &LONG_FIELDS_TEXT)?;
    let ran = run_script(alloc, MemDisk::new(alloc), &script)?;
    assert_ran(
        &rt,
        &ran,
        0,
        std::str::from_utf8(&text).unwrap_or("no text"),
    );
    Ok(())
}
