// Numbers and lines worked out by hand.
use crate::drawing::next_number;
use crate::soak;
use std::alloc::{AllocError, Global};
use store_model::{Call, Isolation, ScriptLine, Step};

static NUMBERS: [u32; 4] = [1_015_568_748, 1_586_005_467, 2_165_703_038, 3_027_450_565];

fn begins(line: &ScriptLine, by: u8, wanted: Isolation) -> bool {
    match line {
        ScriptLine::Session {
            session,
            call: Call::Begin { level, .. },
            ..
        } => *session == by && *level == wanted,
        _ => false,
    }
}

fn puts(line: &ScriptLine, by: u8, wanted: u8, data: u8) -> bool {
    match line {
        ScriptLine::Session {
            session,
            call: Call::Put { key, value, .. },
            ..
        } => *session == by
            && key.as_slice() == [wanted].as_slice()
            && value.as_slice() == [data].as_slice(),
        _ => false,
    }
}

fn syncs(given: &ScriptLine, number: u32) -> bool {
    match given {
        ScriptLine::Maintenance {
            line,
            step: Step::Sync,
        } => *line == number,
        _ => false,
    }
}

// The first calls of seed 1, and its last line.
fn has_its_lines(alloc: Global) -> Result<bool, AllocError> {
    let plan = soak(alloc, 1)?;
    let right = match plan.lines.as_slice() {
        [_, _, third, fourth, fifth, between @ .., last] => {
            between.len() == 4_396
                && begins(third, 1, Isolation::ReadUncommitted)
                && begins(fourth, 3, Isolation::Serializable)
                && puts(fifth, 1, 0x16, 0x62)
                && syncs(last, 4_402)
        }
        _ => false,
    };
    drop(plan);
    Ok(right)
}

#[test]
fn numbers_follow_the_seed(rt: HostRuntime) {
    let mut number = 1;
    for wanted in &NUMBERS {
        number = next_number(number);
        assert!(&rt; number == *wanted);
    }
}

#[test]
fn a_soak_has_its_lines(rt: HostRuntime) -> Result<(), AllocError> {
    assert!(&rt; has_its_lines(rt.alloc())?);
    Ok(())
}
