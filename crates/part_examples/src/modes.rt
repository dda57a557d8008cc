// Which types of locks conflict, and what an upgrade comes to.
use crate::rows::first_wrong;
use lock_mode::LockType::{self, RangeInsert, RangeRead, RangeWrite, Read, Write};
use lock_mode::{conflicts, upgrade};

// What is held, and whether each type that is asked waits: read, write, and range read, write and insert.
static WAITS: [(LockType, &[bool]); 4] = [
    (Read, &[false, true, false, true, false]),
    (Write, &[true, true, true, true, false]),
    (RangeRead, &[false, true, false, true, true]),
    (RangeWrite, &[true, true, true, true, true]),
];

fn waits(held: LockType) -> [bool; 5] {
    [
        conflicts(held, Read),
        conflicts(held, Write),
        conflicts(held, RangeRead),
        conflicts(held, RangeWrite),
        conflicts(held, RangeInsert),
    ]
}

#[test]
fn conflicts_as_the_table(rt: HostRuntime) {
    assert_eq!(rt;
        first_wrong(
            &WAITS,
            |row| Ok::<bool, ()>(waits(row.0).as_slice() == row.1)
        ),
        Ok(None)
    );
}

// What is held, and what it comes to with each type that is asked, in the same order.
static UPGRADED: [(LockType, &[LockType]); 4] = [
    (Read, &[Read, Write, RangeRead, RangeWrite, Read]),
    (Write, &[Write, Write, RangeWrite, RangeWrite, Write]),
    (
        RangeRead,
        &[RangeRead, RangeWrite, RangeRead, RangeWrite, RangeRead],
    ),
    (
        RangeWrite,
        &[RangeWrite, RangeWrite, RangeWrite, RangeWrite, RangeWrite],
    ),
];

fn upgraded(held: LockType) -> [LockType; 5] {
    [
        upgrade(held, Read),
        upgrade(held, Write),
        upgrade(held, RangeRead),
        upgrade(held, RangeWrite),
        upgrade(held, RangeInsert),
    ]
}

#[test]
fn upgrades_as_the_table(rt: HostRuntime) {
    assert_eq!(rt;
        first_wrong(
            &UPGRADED,
            |row| Ok::<bool, ()>(upgraded(row.0).as_slice() == row.1)
        ),
        Ok(None)
    );
}
