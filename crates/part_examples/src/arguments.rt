// The arguments of the command line.
use command_line::{Command, parse};
use std::alloc::{AllocError, Global};

// The arguments of a line, which single blanks part.
fn split(alloc: Global, line: &str) -> Result<Vec<String>, AllocError> {
    let mut args = Vec::new(alloc);
    for word in line.split(' ') {
        args.push(String::from_str(alloc, word)?)?;
    }
    Ok(args)
}

// Lines whose arguments are valid, with the folder, the file length and the number of slots that they give.
static RIGHT: [(&str, &str, u32, u32); 20] = [
    ("run --home d", "d", 10_000_000, 128),
    ("run --home=d", "d", 10_000_000, 128),
    ("run --home=", "", 10_000_000, 128),
    ("run --home=-d", "-d", 10_000_000, 128),
    ("run --home -", "-", 10_000_000, 128),
    ("run --home d --", "d", 10_000_000, 128),
    ("run --home run", "run", 10_000_000, 128),
    ("run --home=--file-max", "--file-max", 10_000_000, 128),
    ("run --home d --file-max 4096", "d", 4_096, 128),
    ("run --home d --file-max=8192", "d", 8_192, 128),
    (
        "run --file-max 1073741824 --home d",
        "d",
        1_073_741_824,
        128,
    ),
    ("run --file-max=9999999 --home=d", "d", 9_999_999, 128),
    ("run --home d --file-max +4096", "d", 4_096, 128),
    ("run --home d --file-max=004096", "d", 4_096, 128),
    ("run --home d --fanout 4", "d", 10_000_000, 4),
    ("run --home d --fanout=64", "d", 10_000_000, 64),
    ("run --fanout 128 --home d --file-max 4096", "d", 4_096, 128),
    ("run --file-max 4096 --fanout +5 --home d", "d", 4_096, 5),
    ("run --fanout=0005 --file-max=4096 --home=d", "d", 4_096, 5),
    ("run --home=--fanout", "--fanout", 10_000_000, 128),
];

// Lines whose arguments are invalid.
static WRONG: [&str; 91] = [
    "run",
    "run --home",
    "--home d",
    "run --home d --home e",
    "run --home d extra",
    "run --home d -- --",
    "help",
    "run --help",
    "Run --home d",
    "",
    "ru --home d",
    "run --hom d",
    "run -h",
    "help run",
    "--help",
    "run --home -d",
    "run d",
    "run -- --home d",
    "-- run --home d",
    "--home d run",
    "jedb run --home d",
    "run --file-max 8192",
    "run --home d --file-max",
    "run --home d --file-max=",
    "run --home d --file-max 4095",
    "run --home d --file-max 1073741825",
    "run --home d --file-max 4294971392",
    "run --home d --file-max -1",
    "run --home d --file-max=-1",
    "run --home d --file-max=-4096",
    "run --home d --file-max 5k",
    "run --home d --file-max ++4096",
    "run --home d --file-max 0x1000",
    "run --home d --file-max 8192 --file-max 8192",
    "run --home d --file-max 8192 16384",
    "run --home d --file_max 8192",
    "--file-max 8192 run --home d",
    "run --home d --fanout",
    "run --home d --fanout 3",
    "run --home d --fanout 129",
    "run --home d --fanout=-4",
    "run --home d --fanout 4294967300",
    "run --home d --fanout 8 --fanout 8",
    "run --fanout 8",
    "run --home d --seed 1",
    "soak --home d",
    "soak --seed 1",
    "soak --home d --seed",
    "soak --home d --seed=",
    "soak --home d --seed -1",
    "soak --home d --seed=-1",
    "soak --home d --seed 4294967296",
    "soak --home d --seed 1 --seed 1",
    "soak --home d --seed 1 --fanout 3",
    "soak --home d --seed 1 extra",
    "soak --help",
    "printlog",
    "printlog d",
    "printlog --home d --home d",
    "printlog --home d --file-max 4096",
    "printlog --home d --seed 1",
    "run printlog --home d",
    "verify",
    "verify d",
    "verify --home d --db t",
    "verify --home d --file-max 4096",
    "verify verify --home d",
    "stat",
    "stat --home d --home d",
    "stat --home d --print",
    "stat --home d --fanout 4",
    "stat stat --home d",
    "dump --home d",
    "dump --db t",
    "dump --home d --db",
    "dump --home d --db=",
    "dump --home d --db T",
    "dump --home d --db a.b",
    "dump --home d --db -",
    "dump --home d --db t --db t",
    "dump --home d --db t --print --print",
    "dump --home d --db t --print=1",
    "dump --home d --db t --file-max 4096",
    "dump --home d --db abcdefghijklmnopqrstuvwxyz_0123456789_abcdefghijklmnopqrstuvwxyz_0",
    "dump --home d --db t --no-overwrite",
    "load --home d",
    "load --db t",
    "load --home d --db T",
    "load --home d --db t --print",
    "load --home d --db t --no-overwrite --no-overwrite",
    "load --home d --db t --no-overwrite=1",
];

// Lines of a dump that are valid, with the database that they name, and whether its bytes are shown as themselves.
static DUMPS: [(&str, &str, bool); 5] = [
    ("dump --home d --db t", "t", false),
    ("dump --db=_0 --home=d --", "_0", false),
    ("dump --home d --db print --print", "print", true),
    ("dump --print --db t --home d", "t", true),
    (
        "dump --home d --db abcdefghijklmnopqrstuvwxyz_0123456789_abcdefghijklmnopqrstuvwxyz",
        "abcdefghijklmnopqrstuvwxyz_0123456789_abcdefghijklmnopqrstuvwxyz",
        false,
    ),
];

// Lines of a load that are valid, with the database that they name, and whether records that are there stay.
static LOADS: [(&str, &str, bool); 3] = [
    ("load --home d --db t", "t", false),
    ("load --no-overwrite --db=_0 --home=d --", "_0", true),
    ("load --home d --db load --no-overwrite", "load", true),
];

// Lines of a soak that are valid, with the seed, the file length and the number of slots that they give.
static SOAKS: [(&str, u32, u32, u32); 6] = [
    ("soak --home d --seed 1", 1, 10_000_000, 128),
    ("soak --seed=0 --home d", 0, 10_000_000, 128),
    (
        "soak --home=d --seed=4294967295",
        4_294_967_295,
        10_000_000,
        128,
    ),
    ("soak --home d --seed +007", 7, 10_000_000, 128),
    ("soak --home d --seed=-0", 0, 10_000_000, 128),
    (
        "soak --fanout 4 --seed 2 --file-max 4096 --home d",
        2,
        4_096,
        4,
    ),
];

fn gives(
    alloc: Global,
    line: &str,
    home: &str,
    file_max: u32,
    fanout: u32,
) -> Result<bool, AllocError> {
    let args = split(alloc, line)?;
    let Some(found) = parse(alloc, args.as_slice())? else {
        return Ok(false);
    };
    Ok(
        found.home.as_str() == home
            && match &found.command {
                Command::Run(settings) => settings.file_max == file_max
                    && settings.fanout == fanout,
                _ => false,
            },
    )
}

fn soaks(
    alloc: Global,
    line: &str,
    wanted: u32,
    file_max: u32,
    fanout: u32,
) -> Result<bool, AllocError> {
    let args = split(alloc, line)?;
    let Some(found) = parse(alloc, args.as_slice())? else {
        return Ok(false);
    };
    Ok(match &found.command {
        Command::Soak { seed, settings } => {
            *seed == wanted && settings.file_max == file_max && settings.fanout == fanout
        }
        _ => false,
    })
}

fn dumps(alloc: Global, line: &str, name: &str, wanted: bool) -> Result<bool, AllocError> {
    let args = split(alloc, line)?;
    let Some(found) = parse(alloc, args.as_slice())? else {
        return Ok(false);
    };
    Ok(match &found.command {
        Command::Dump { db, printed } => db.as_slice() == name.as_bytes() && *printed == wanted,
        _ => false,
    })
}

fn loads(alloc: Global, line: &str, name: &str, wanted: bool) -> Result<bool, AllocError> {
    let args = split(alloc, line)?;
    let Some(found) = parse(alloc, args.as_slice())? else {
        return Ok(false);
    };
    Ok(match &found.command {
        Command::Load { db, no_overwrite } => {
            db.as_slice() == name.as_bytes() && *no_overwrite == wanted
        }
        _ => false,
    })
}

fn prints(alloc: Global, line: &str, home: &str) -> Result<bool, AllocError> {
    let args = split(alloc, line)?;
    let Some(found) = parse(alloc, args.as_slice())? else {
        return Ok(false);
    };
    Ok(found.home.as_str() == home && matches!(found.command, Command::PrintLog))
}

fn verifies(alloc: Global, line: &str, home: &str) -> Result<bool, AllocError> {
    let args = split(alloc, line)?;
    let Some(found) = parse(alloc, args.as_slice())? else {
        return Ok(false);
    };
    Ok(found.home.as_str() == home && matches!(found.command, Command::Verify))
}

fn counts(alloc: Global, line: &str, home: &str) -> Result<bool, AllocError> {
    let args = split(alloc, line)?;
    let Some(found) = parse(alloc, args.as_slice())? else {
        return Ok(false);
    };
    Ok(found.home.as_str() == home && matches!(found.command, Command::Stat))
}

fn are_wrong(alloc: Global, args: &[String]) -> Result<bool, AllocError> {
    Ok(parse(alloc, args)?.is_none())
}

fn is_wrong(alloc: Global, line: &str) -> Result<bool, AllocError> {
    let args = split(alloc, line)?;
    let wrong = are_wrong(alloc, args.as_slice());
    drop(args);
    wrong
}

#[test]
fn right_words_give_the_options(rt: HostRuntime) {
    for &(line, home, file_max, fanout) in &RIGHT {
        assert!(rt;
            gives(rt.alloc(), line, home, file_max, fanout) == Ok(true),
            "{line}"
        );
    }
}

#[test]
fn right_words_give_a_soak(rt: HostRuntime) {
    for &(line, seed, file_max, fanout) in &SOAKS {
        assert!(rt;
            soaks(rt.alloc(), line, seed, file_max, fanout) == Ok(true),
            "{line}"
        );
    }
}

#[test]
fn right_words_dump_a_database(rt: HostRuntime) {
    for &(line, name, printed) in &DUMPS {
        assert!(rt;
            dumps(rt.alloc(), line, name, printed) == Ok(true),
            "{line}"
        );
    }
}

#[test]
fn right_words_load_a_dump(rt: HostRuntime) {
    for &(line, name, no_overwrite) in &LOADS {
        assert!(rt;
            loads(rt.alloc(), line, name, no_overwrite) == Ok(true),
            "{line}"
        );
    }
}

#[test]
fn right_words_print_the_log(rt: HostRuntime) {
    assert!(rt; prints(rt.alloc(), "printlog --home d", "d") == Ok(true));
    assert!(rt; prints(rt.alloc(), "printlog --home=run --", "run") == Ok(true));
}

#[test]
fn right_words_check_and_count(rt: HostRuntime) {
    assert!(rt; verifies(rt.alloc(), "verify --home d", "d") == Ok(true));
    assert!(rt; verifies(rt.alloc(), "verify --home=stat --", "stat") == Ok(true));
    assert!(rt; counts(rt.alloc(), "stat --home d", "d") == Ok(true));
    assert!(rt; counts(rt.alloc(), "stat --home=verify --", "verify") == Ok(true));
}

#[test]
fn other_words_are_wrong(rt: HostRuntime) {
    let none: [String; 0] = [];
    assert!(rt; are_wrong(rt.alloc(), none.as_slice()) == Ok(true));
    for line in &WRONG {
        assert!(rt; is_wrong(rt.alloc(), line) == Ok(true), "{line}");
    }
}
