// From arguments to a command.
ghost use Rattle.std.specs.Prelude.{◌≡◌, IfOk, IfSome, false, is_some, map, option_and_then, option_map, string_bytes};
ghost use Rattle.clap.specs.declared.builder.command.Command.TheViews.{out-Command};
ghost use Rattle.clap.specs.Matches.{found_of};
ghost use Rattle.clap.specs.Simple.{app_of, subcommand_of, subcommand_rows_of};
ghost use Rattle.clap.specs.Walk.{first_of, rows_of, rule_of};
ghost use Rattle.command_line.specs.Arguments.{HasSettings, command_in, command_of as command_named, db_of, db_option, dump_command, dump_named, fanout_option, file_max_option, folder_command, home_in, home_of, home_option, is_given, is_parsed, is_taken, jedb, load_command, load_named, no_overwrite_option, parsed_line, number_of, print_option, run_command, run_of, seed_option, settings_of, soak_command, soak_from};

use crate::command::{Command, CommandLine, RunSettings};
use clap::error::ErrorKind;
use clap::{Arg, ArgAction, ArgMatches, value_parser};
use je_order::Word;
use std::alloc::{AllocError, Global};

// `--home DIR`.
fn home<'a>(alloc: Global) -> Arg<'a>
    ensures rule { rule_of result ≡ home_option }
    ensures local { result.global ≡ false }
{
    Arg::new(alloc, "home").long("home").required(true)
}

// `--db NAME`.
fn db<'a>(alloc: Global) -> Arg<'a>
    ensures rule { rule_of result ≡ db_option }
    ensures local { result.global ≡ false }
{
    Arg::new(alloc, "db").long("db").required(true)
}

// `--print`.
fn print<'a>(alloc: Global) -> Arg<'a>
    ensures rule { rule_of result ≡ print_option }
    ensures local { result.global ≡ false }
{
    Arg::new(alloc, "print")
        .long("print")
        .action(ArgAction::SetTrue)
}

// `--no-overwrite`.
fn no_overwrite<'a>(alloc: Global) -> Arg<'a>
    ensures rule { rule_of result ≡ no_overwrite_option }
    ensures local { result.global ≡ false }
{
    Arg::new(alloc, "no-overwrite")
        .long("no-overwrite")
        .action(ArgAction::SetTrue)
}

// `--file-max N`.
fn file_max<'a>(alloc: Global) -> Arg<'a>
    ensures rule { rule_of result ≡ file_max_option }
    ensures local { result.global ≡ false }
{
    Arg::new(alloc, "file-max")
        .long("file-max")
        .value_parser(value_parser!(u32).range(4_096..=1_073_741_824))
        .default_value("10000000")
}

// `--fanout N`.
fn fanout<'a>(alloc: Global) -> Arg<'a>
    ensures rule { rule_of result ≡ fanout_option }
    ensures local { result.global ≡ false }
{
    Arg::new(alloc, "fanout")
        .long("fanout")
        .value_parser(value_parser!(u32).range(4..=128))
        .default_value("128")
}

// `--seed N`.
fn seed<'a>(alloc: Global) -> Arg<'a>
    ensures rule { rule_of result ≡ seed_option }
    ensures local { result.global ≡ false }
{
    Arg::new(alloc, "seed")
        .long("seed")
        .value_parser(value_parser!(u32))
        .required(true)
}

// `run`.
fn run_command<'a>(alloc: Global) -> Result<clap::Command<'a>, AllocError>
    ensures app { IfOk result (λ command. app_of command ≡ run_command) }
    ensures local { IfOk result (λ command. (out-Command command).has_globals ≡ false) }
{
    clap::Command::new(alloc, "run")
        .arg(home(alloc))?
        .arg(file_max(alloc))?
        .arg(fanout(alloc))
}

// `soak`.
fn soak_command<'a>(alloc: Global) -> Result<clap::Command<'a>, AllocError>
    ensures app { IfOk result (λ command. app_of command ≡ soak_command) }
    ensures local { IfOk result (λ command. (out-Command command).has_globals ≡ false) }
{
    clap::Command::new(alloc, "soak")
        .arg(home(alloc))?
        .arg(seed(alloc))?
        .arg(file_max(alloc))?
        .arg(fanout(alloc))
}

// A command of this name that takes the folder alone.
fn folder_command<'a>(alloc: Global, name: &'a str) -> Result<clap::Command<'a>, AllocError>
    ensures app { IfOk result (λ command. app_of command ≡ folder_command name.now) }
    ensures local { IfOk result (λ command. (out-Command command).has_globals ≡ false) }
{
    clap::Command::new(alloc, name).arg(home(alloc))
}

// `dump`.
fn dump_command<'a>(alloc: Global) -> Result<clap::Command<'a>, AllocError>
    ensures app { IfOk result (λ command. app_of command ≡ dump_command) }
    ensures local { IfOk result (λ command. (out-Command command).has_globals ≡ false) }
{
    clap::Command::new(alloc, "dump")
        .arg(home(alloc))?
        .arg(db(alloc))?
        .arg(print(alloc))
}

// `load`.
fn load_command<'a>(alloc: Global) -> Result<clap::Command<'a>, AllocError>
    ensures app { IfOk result (λ command. app_of command ≡ load_command) }
    ensures local { IfOk result (λ command. (out-Command command).has_globals ≡ false) }
{
    clap::Command::new(alloc, "load")
        .arg(home(alloc))?
        .arg(db(alloc))?
        .arg(no_overwrite(alloc))
}

// The command line that the program has.
fn jedb_command<'a>(alloc: Global) -> Result<clap::Command<'a>, AllocError>
    ensures { IfOk result (λ command. app_of command ≡ jedb) }
{
    let jedb = clap::Command::new(alloc, "jedb")
        .no_binary_name(true)
        .subcommand_required(true);
    jedb.subcommand(run_command(alloc)?)?
        .subcommand(soak_command(alloc)?)?
        .subcommand(folder_command(alloc, "printlog")?)?
        .subcommand(dump_command(alloc)?)?
        .subcommand(load_command(alloc)?)?
        .subcommand(folder_command(alloc, "verify")?)?
        .subcommand(folder_command(alloc, "stat")?)
}

// What a parse of the arguments finds, and None where it refuses them.
fn found_in<'a>(alloc: Global, args: &'a [String]) -> Result<Option<ArgMatches<'a>>, AllocError>
    ensures parsed { IfOk result (λ found. is_some found ≡ is_parsed (map string_bytes args.now)) }
    ensures found { IfOk result (λ found. IfSome found (λ m. subcommand_rows_of m ≡ subcommand_of jedb (map string_bytes args.now))) }
{
    match jedb_command(alloc)?.try_get_matches_from(args) {
        Ok(found) => Ok(Some(found)),
        Err(error) => {
            let kind = error.kind();
            drop(error);
            match kind {
                ErrorKind::OutOfMemory => Err(AllocError),
                _ => Ok(None),
            }
        }
    }
}

// The value of `--home`, in what a parse found.
fn home_given<'a>(found: &ArgMatches<'a>) -> Option<&'a str>
    ensures { option_map (λ home. home.now) result ≡ home_of (subcommand_rows_of found.now) }
{
    let (_, given) = found.subcommand()?;
    given.get_str("home")
}

// The number of an option, in what a parse found of a command's arguments.
fn number_given<'a>(given: &ArgMatches<'a>, name: &str) -> Option<u32>
    ensures { result ≡ number_of name.now (rows_of (found_of given.now)) }
{
    given.get_one::<u32>(name)
}

// The settings, in what a parse found of a command's arguments.
fn settings_given<'a>(given: &ArgMatches<'a>) -> Option<RunSettings>
    ensures { result ≡ settings_of (rows_of (found_of given.now)) }
{
    let file_max = number_given(given, "file-max")?;
    let fanout = number_given(given, "fanout")?;
    Some(RunSettings { file_max, fanout })
}

// `run` with its options.
fn run_given<'a>(given: &ArgMatches<'a>) -> Option<Command>
    ensures { result ≡ run_of (rows_of (found_of given.now)) }
{
    let settings = settings_given(given)?;
    Some(Command::Run(settings))
}

// `soak` with its options.
fn soak_given<'a>(given: &ArgMatches<'a>) -> Option<Command>
    ensures { result ≡ soak_from (rows_of (found_of given.now)) }
{
    let seed = number_given(given, "seed")?;
    let settings = settings_given(given)?;
    Some(Command::Soak { seed, settings })
}

// The text of an option, in what a parse found of a command's arguments.
fn text_given<'a>(given: &ArgMatches<'a>, name: &str) -> Option<&'a str>
    ensures { option_map (λ text. text.now) result ≡ first_of name.now (rows_of (found_of given.now)) }
{
    given.get_str(name)
}

// Whether an option without a value is given.
fn is_given<'a>(given: &ArgMatches<'a>, name: &str) -> bool
    ensures { result ≡ is_given name.now (rows_of (found_of given.now)) }
{
    match text_given(given, name) {
        Some(value) => value == "true",
        None => false,
    }
}

// The database that is named, if the name is one of a database.
fn db_given<'a>(alloc: Global, given: &ArgMatches<'a>) -> Result<Option<Word>, AllocError>
    ensures { IfOk result (λ db. db ≡ db_of (rows_of (found_of given.now))) }
{
    let Some(db) = text_given(given, "db") else {
        return Ok(None);
    };
    if !Word::is_word(db.as_bytes()) {
        return Ok(None);
    }
    Ok(Some(Word::from_slice(alloc, db.as_bytes())?))
}

// `dump` with its options.
fn dump_given<'a>(alloc: Global, given: &ArgMatches<'a>) -> Result<Option<Command>, AllocError>
    ensures { IfOk result (λ command. command ≡ dump_named (rows_of (found_of given.now))) }
{
    let Some(db) = db_given(alloc, given)? else {
        return Ok(None);
    };
    let printed = is_given(given, "print");
    Ok(Some(Command::Dump { db, printed }))
}

// `load` with its options.
fn load_given<'a>(alloc: Global, given: &ArgMatches<'a>) -> Result<Option<Command>, AllocError>
    ensures { IfOk result (λ command. command ≡ load_named (rows_of (found_of given.now))) }
{
    let Some(db) = db_given(alloc, given)? else {
        return Ok(None);
    };
    let no_overwrite = is_given(given, "no-overwrite");
    Ok(Some(Command::Load { db, no_overwrite }))
}

// The command of this name with its options.
fn command_named<'a>(
    alloc: Global,
    name: &str,
    given: &ArgMatches<'a>,
) -> Result<Option<Command>, AllocError>
    ensures { IfOk result (λ command. command ≡ command_named (name.now, rows_of (found_of given.now))) }
{
    if name == "run" {
        return Ok(run_given(given));
    }
    if name == "soak" {
        return Ok(soak_given(given));
    }
    if name == "dump" {
        return dump_given(alloc, given);
    }
    if name == "load" {
        return load_given(alloc, given);
    }
    if name == "verify" {
        return Ok(Some(Command::Verify));
    }
    if name == "stat" {
        return Ok(Some(Command::Stat));
    }
    Ok(Some(Command::PrintLog))
}

// The command, in what a parse found.
fn command_given<'a>(alloc: Global, found: &ArgMatches<'a>) -> Result<Option<Command>, AllocError>
    ensures { IfOk result (λ command. command ≡ option_and_then command_named (subcommand_rows_of found.now)) }
{
    match found.subcommand() {
        Some((name, given)) => command_named(alloc, name, given),
        None => Ok(None),
    }
}

// The folder and the command, in what a parse found.
fn line_given<'a>(alloc: Global, found: &ArgMatches<'a>) -> Result<Option<CommandLine>, AllocError>
    ensures { IfOk result (λ line. option_map (λ l. (string_bytes l.home, l.command)) line ≡ parsed_line (subcommand_rows_of found.now)) }
{
    let Some(home) = home_given(found) else {
        return Ok(None);
    };
    let home = String::from_str(alloc, home)?;
    let Some(command) = command_given(alloc, found)? else {
        return Ok(None);
    };
    Ok(Some(CommandLine { home, command }))
}

/// The folder and the command that the arguments after the program's name give, and None where these are invalid.
/// Right are `run --home DIR`, with or without `--file-max N` and `--fanout N`; the same with `soak` and `--seed N`;
/// `dump --home DIR --db NAME`, with or without `--print`, where NAME is a database's name; `load --home DIR --db NAME`,
/// with or without `--no-overwrite`; and `printlog --home DIR`, `verify --home DIR` and `stat --home DIR`.
/// The options come in any order, with `--name=VALUE` for `--name VALUE`, and `--` may end the arguments. A value that begins with `-` and is not `-` itself needs the `=`. A number is decimal, with `+` or
/// zeros before it or not: `--file-max` is from 4,096 to 1,073,741,824, and 10,000,000 where it is not given; `--fanout`
/// from 4 to 128, and 128 where it is not given; `--seed` from 0 to 4,294,967,295. Other arguments, an option given
/// twice and a request for help are wrong. The only error is out of memory.
pub fn parse(alloc: Global, args: &[String]) -> Result<Option<CommandLine>, AllocError>
    ensures right { IfOk result (λ line. is_some line ≡ is_taken (map string_bytes args.now)) }
    ensures home { IfOk result (λ line. option_map (λ l. string_bytes l.home) line ≡ home_in (map string_bytes args.now)) }
    ensures command { IfOk result (λ line. option_map (λ l. l.command) line ≡ command_in (map string_bytes args.now)) }
    ensures bounded { IfOk result (λ line. IfSome line (λ l. HasSettings l.command)) }
{
    match found_in(alloc, args)? {
        Some(found) => line_given(alloc, &found),
        None => Ok(None),
    }
}
