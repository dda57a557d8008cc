// The program's arguments.
ghost use Rattle.std.specs.Prelude.{◌≡◌, IfOk, is_some, map, option_map, string_bytes};
ghost use Rattle.command_line.specs.Arguments.{home_in, is_taken};

use command_line::parse;
use std::alloc::{AllocError, Global};

/// The folder that valid arguments name, and None exactly where the arguments are invalid. The only
/// error is out of memory.
pub fn home(alloc: Global, args: &[String]) -> Result<Option<String>, AllocError>
    ensures home { IfOk result (λ folder. option_map string_bytes folder ≡ home_in (map string_bytes args.now)) }
    ensures right { IfOk result (λ folder. is_some folder ≡ is_taken (map string_bytes args.now)) }
{
    match parse(alloc, args)? {
        Some(line) => Ok(Some(line.home)),
        None => Ok(None),
    }
}
