// Soaks.
use crate::fixture::{assert_ran, run_args};
use mem_disk::MemDisk;
use std::test::Fail;

const SOAK: [&str; 5] = ["soak", "--home", "store", "--seed", "1"];

#[test]
fn a_soak_is_the_same_each_time(rt: HostRuntime) -> Result<(), Fail> {
    let alloc = rt.alloc();
    let first = run_args(alloc, &SOAK, MemDisk::new(alloc), b"")?;
    let again = run_args(alloc, &SOAK, MemDisk::new(alloc), b"")?;
    assert!(&rt;
        first
            .text()
            .starts_with("soak seed 1 lines 4402\nend commits ")
    );
    assert!(&rt; first.text().split('\n').count() == 3);
    assert!(&rt; first.status == 0);
    assert_ran(&rt, &again, 0, first.text());
    Ok(())
}
