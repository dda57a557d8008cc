// Reading the input.
ghost use Rattle.std.specs.Prelude.{◌≡◌, ◌≤◌, true, IfOk, IfErr};
ghost use Rattle.std.specs.List.{list_all};
ghost use Rattle.script_text.specs.Grammar.{is_line};
ghost use Rattle.je_program.specs.Commands.{ReadsDump, ReadsPlan, ends_load, ends_script};
ghost use Rattle.je_program.specs.Program.{StopsReading};

use crate::cause::Cause;
use dump_text::{Dump, DumpErr, parse_dump};
use je_io::{ReadErr, Source, read_all};
use script_text::{ParseErr, parse};
use std::alloc::Global;
use store_model::RunPlan;

/// The most bytes that an input may have.
pub const MOST_INPUT: usize = 16_777_216;

impl From<ReadErr> for Cause {
    ghost use Rattle.std.specs.Prelude.{◌≡◌};
    ghost use Rattle.je_program.specs.Reading.{cause_of_reading};

    ghost from_gives = { λ failure cause. cause ≡ cause_of_reading failure };

    fn from(failure: ReadErr) -> Cause {
        match failure {
            ReadErr::Failed => Cause::Input,
            ReadErr::Memory => Cause::Memory,
        }
    }
}

/// The script that the input is, read to its end; or why it is none. An input that is too long is read
/// one byte past the limit.
pub fn read_script<S: Source>(alloc: Global, input: &mut S) -> Result<RunPlan, Cause>
    ensures read { IfOk result (λ plan. ReadsPlan (S.left input.old) (S.left input.new) plan) }
    ensures lines { IfOk result (λ plan. list_all is_line plan.lines ≡ true) }
    ensures stopped { IfErr result (λ cause. StopsReading (S.left input.old) (S.faults input.old) (S.faults input.new) cause) }
    ensures no_dump { IfErr result (λ cause. ends_script cause ≡ true) }
    ensures never_falls { S.faults input.old ≤ S.faults input.new }
{
    let bytes = read_all(alloc, input, MOST_INPUT)?;
    if MOST_INPUT < bytes.len() {
        return Err(Cause::InputTooLong);
    }
    match parse(alloc, &bytes) {
        Ok(plan) => Ok(plan),
        Err(ParseErr::BadScript { line }) => Err(Cause::BadScript { line }),
        Err(ParseErr::Memory) => Err(Cause::Memory),
    }
}

/// The dump that the input is, read to its end; or why it is none. An input that is too long is read one byte past the
/// limit. The bytes are let go before it is given.
pub fn read_dump<S: Source>(alloc: Global, input: &mut S) -> Result<Dump, Cause>
    ensures read { IfOk result (λ dump. ReadsDump (S.left input.old) (S.left input.new) dump) }
    ensures stopped { IfErr result (λ cause. StopsReading (S.left input.old) (S.faults input.old) (S.faults input.new) cause) }
    ensures no_script { IfErr result (λ cause. ends_load cause ≡ true) }
    ensures never_falls { S.faults input.old ≤ S.faults input.new }
{
    let bytes = read_all(alloc, input, MOST_INPUT)?;
    if MOST_INPUT < bytes.len() {
        return Err(Cause::InputTooLong);
    }
    match parse_dump(alloc, &bytes) {
        Ok(dump) => Ok(dump),
        Err(DumpErr::BadDump { line }) => Err(Cause::BadDump { line }),
        Err(DumpErr::Memory) => Err(Cause::Memory),
    }
}
