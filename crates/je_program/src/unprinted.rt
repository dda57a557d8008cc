// A program's work, up to its output.
ghost use Rattle.std.specs.Prelude.{◌≡◌, false, map, string_bytes};
ghost use Rattle.command_line.specs.Arguments.{command_in};
ghost use Rattle.je_program.specs.Commands.{reads_input};
ghost use Rattle.je_program.specs.Unprinted.{ComesTo};

use crate::dumping::dump;
use crate::loading::load;
use crate::print_log::print_log;
use crate::request::{Request, read_request};
use crate::run_result::{RunResult, run_plan, unopened};
use crate::stat::stat;
use crate::text::Text;
use crate::verify::verify;
use je_disk::Disk;
use je_io::Source;
use std::alloc::Global;

/// What a program came to before its output is written, and what it has to write before its fault line.
pub struct Unprinted<D> {
    pub run: RunResult<D>,
    pub text: Text,
}

/// Does all that a program does but its output: looks at its arguments, reads its input if the command has
/// one, and does what the command asks for over the disk.
pub fn run_unprinted<D: Disk, S: Source>(
    alloc: Global,
    args: &[String],
    disk: D,
    input: &mut S,
) -> Unprinted<D>
    ensures comes { ComesTo (command_in (map string_bytes args.now)) D.meaning (S.left input.old) (S.left input.new) (S.faults input.old) (S.faults input.new) disk result.run result.text }
    ensures unread { reads_input (command_in (map string_bytes args.now)) ≡ false → input.new ≡ input.old }
{
    match read_request(alloc, args, input) {
        Ok(Request::Life { config, plan, text }) => Unprinted {
            run: run_plan(alloc, disk, config, plan),
            text,
        },
        Ok(Request::Dump { db, printed }) => dump(alloc, disk, &db, printed),
        Ok(
            Request::Load {
                db,
                no_overwrite,
                dump,
            },
        ) => load(alloc, disk, &db, no_overwrite, dump),
        Ok(Request::PrintLog) => print_log(alloc, disk),
        Ok(Request::Verify) => verify(alloc, disk),
        Ok(Request::Stat) => stat(alloc, disk),
        Err(cause) => Unprinted {
            run: unopened(alloc, cause, disk),
            text: Text::Nothing,
        },
    }
}
