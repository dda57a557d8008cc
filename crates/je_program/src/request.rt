// What a program is to do.
ghost use Rattle.std.specs.Prelude.{◌≡◌, ◌≤◌, ℕ, List, Option, Some, false, true, map, string_bytes, IfErr, IfOk};
ghost use Rattle.command_line.specs.Arguments.{AreSettings, HasSettings, command_in};
ghost use Rattle.command_line.specs.declared.command.Command.TheVariants.{Load, Run, Soak};
ghost use Rattle.je_program.specs.declared.cause.Cause.{Cause as Why};
ghost use Rattle.je_program.specs.Commands.{ends_load, ends_script, reads_input};
ghost use Rattle.je_program.specs.Program.{IsNoRequest, StopsReading};
ghost use Rattle.je_program.specs.Request.{IsConfig, IsNoCommand, IsRequestOf};

use crate::cause::Cause;
use crate::reading::{read_dump, read_script};
use crate::text::Text;
use command_line::{Command, CommandLine, RunSettings, parse};
use dump_text::Dump;
use environment::Config;
use je_io::Source;
use je_order::Word;
use soak_plan::soak;
use std::alloc::Global;
use store_model::RunPlan;

/// What a program is to do: to run a plan over an environment that is opened so, and then to write this; to dump a
/// database; to load a dump into one; to print the log; to check the files; or to count the log's use.
pub enum Request {
    Life {
        config: Config,
        plan: RunPlan,
        text: Text,
    },
    Dump {
        db: Word,
        printed: bool,
    },
    Load {
        db: Word,
        no_overwrite: bool,
        dump: Dump,
    },
    PrintLog,
    Verify,
    Stat,
}

// How an environment is opened with these settings.
fn config_of(settings: RunSettings) -> Config
    requires { AreSettings settings }
    ensures is { IsConfig result }
    ensures file_max { result.file_max ≡ settings.file_max }
{
    Config {
        file_max: settings.file_max,
        fanout: settings.fanout,
    }
}

// What `run` is to do.
fn run_request<S: Source>(
    alloc: Global,
    settings: RunSettings,
    input: &mut S,
) -> Result<Request, Cause>
    requires { AreSettings settings }
    ensures is { IfOk result (IsRequestOf (Some (Run settings)) (S.left input.old) (S.left input.new)) }
    ensures none { IfErr result (λ cause. StopsReading (S.left input.old) (S.faults input.old) (S.faults input.new) cause) }
    ensures no_dump { IfErr result (λ cause. ends_script cause ≡ true) }
    ensures never_falls { S.faults input.old ≤ S.faults input.new }
{
    let plan = read_script(alloc, input)?;
    Ok(Request::Life {
        config: config_of(settings),
        plan,
        text: Text::Report,
    })
}

// What `soak` is to do.
fn soak_request(alloc: Global, seed: u32, settings: RunSettings) -> Result<Request, Cause>
    requires { AreSettings settings }
    ensures is { (left : Option (List ℕ)) → IfOk result (IsRequestOf (Some (Soak seed settings)) left left) }
    ensures none { IfErr result (λ cause. cause ≡ Why.Memory) }
{
    let plan = soak(alloc, seed)?;
    Ok(Request::Life {
        config: config_of(settings),
        plan,
        text: Text::SoakEnd { seed },
    })
}

// What `load` is to do.
fn load_request<S: Source>(
    alloc: Global,
    db: Word,
    no_overwrite: bool,
    input: &mut S,
) -> Result<Request, Cause>
    ensures is { IfOk result (IsRequestOf (Some (Load db no_overwrite)) (S.left input.old) (S.left input.new)) }
    ensures none { IfErr result (λ cause. StopsReading (S.left input.old) (S.faults input.old) (S.faults input.new) cause) }
    ensures no_script { IfErr result (λ cause. ends_load cause ≡ true) }
    ensures never_falls { S.faults input.old ≤ S.faults input.new }
{
    let dump = read_dump(alloc, input)?;
    Ok(Request::Load {
        db,
        no_overwrite,
        dump,
    })
}

// The command that the arguments give, or why they give none.
fn command_of(alloc: Global, args: &[String]) -> Result<Command, Cause>
    ensures is { IfOk result (λ command. command_in (map string_bytes args.now) ≡ Some command) }
    ensures bounded { IfOk result (λ command. HasSettings command) }
    ensures none { IfErr result (IsNoCommand (command_in (map string_bytes args.now))) }
{
    match parse(alloc, args)? {
        Some(CommandLine { home, command }) => {
            drop(home);
            Ok(command)
        }
        None => Err(Cause::Usage),
    }
}

// What a command is to do.
fn request_of<S: Source>(alloc: Global, command: Command, input: &mut S) -> Result<Request, Cause>
    requires { HasSettings command }
    ensures is { IfOk result (IsRequestOf (Some command) (S.left input.old) (S.left input.new)) }
    ensures none { IfErr result (IsNoRequest (Some command) (S.left input.old) (S.faults input.old) (S.faults input.new)) }
    ensures unread { reads_input (Some command) ≡ false → input.new ≡ input.old }
    ensures never_falls { S.faults input.old ≤ S.faults input.new }
{
    match command {
        Command::Run(settings) => run_request(alloc, settings, input),
        Command::Soak { seed, settings } => soak_request(alloc, seed, settings),
        Command::Dump { db, printed } => Ok(Request::Dump { db, printed }),
        Command::Load { db, no_overwrite } => load_request(alloc, db, no_overwrite, input),
        Command::PrintLog => Ok(Request::PrintLog),
        Command::Verify => Ok(Request::Verify),
        Command::Stat => Ok(Request::Stat),
    }
}

/// The request that the arguments and the input make, or why they make none. The input is read only
/// where the arguments are those of a command that reads it.
pub fn read_request<S: Source>(
    alloc: Global,
    args: &[String],
    input: &mut S,
) -> Result<Request, Cause>
    ensures is { IfOk result (IsRequestOf (command_in (map string_bytes args.now)) (S.left input.old) (S.left input.new)) }
    ensures none { IfErr result (IsNoRequest (command_in (map string_bytes args.now)) (S.left input.old) (S.faults input.old) (S.faults input.new)) }
    ensures unread { reads_input (command_in (map string_bytes args.now)) ≡ false → input.new ≡ input.old }
    ensures never_falls { S.faults input.old ≤ S.faults input.new }
{
    let command = command_of(alloc, args)?;
    request_of(alloc, command, input)
}
