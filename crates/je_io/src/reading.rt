// Reading a whole input.
ghost use Rattle.std.specs.Prelude.{◌≡◌, ◌≤◌, ◌+◌, vec_len, IfOk, OnErr, IsErrOf};
ghost use Rattle.je_order.specs.Counts.{HasRisen};
ghost use Rattle.je_io.specs.Source.{TakesAll, LosesSome};

use crate::{Failed, Source};
use std::alloc::{AllocError, Global};

/// Why an input was not read.
#[derive(Clone, Copy, Debug, PartialEq, Eq)]
pub enum ReadErr {
    /// A fault of the source; its count of faults rose.
    Failed,
    /// Out of memory.
    Memory,
}

impl From<Failed> for ReadErr {
    ghost use Rattle.je_io.specs.declared.reading.ReadErr.{ReadErr};

    ghost from_gives = { λ _ e. e ≡ ReadErr.Failed };

    fn from(_: Failed) -> ReadErr {
        ReadErr::Failed
    }
}

impl From<AllocError> for ReadErr {
    ghost use Rattle.je_io.specs.declared.reading.ReadErr.{ReadErr};

    ghost from_gives = { λ _ e. e ≡ ReadErr.Memory };

    fn from(_: AllocError) -> ReadErr {
        ReadErr::Memory
    }
}

// How many bytes are asked for at a time.
const PIECE: usize = 16_384;

/// The bytes of the input up to its end, or its first `most + 1` bytes where it has more: a result
/// longer than `most` says that the input is too long. After an error some bytes were read and are
/// lost.
pub fn read_all<S: Source>(alloc: Global, input: &mut S, most: usize) -> Result<Vec<u8>, ReadErr>
    ensures bound { IfOk result (λ bytes. vec_len bytes ≤ most + 1) }
    ensures observed { IfOk result (λ bytes. TakesAll (S.left input.old) (S.left input.new) most bytes.items) }
    ensures lost { OnErr result (LosesSome (S.left input.old) (S.left input.new)) }
    ensures never_falls { S.faults input.old ≤ S.faults input.new }
    ensures cause { IsErrOf result ReadErr.Failed → HasRisen (S.faults input.old) (S.faults input.new) }
{
    let mut bytes = Vec::new(alloc);
    let mut piece = [0u8; PIECE];
    while bytes.len() <= most {
        let room = if most - bytes.len() < PIECE {
            most - bytes.len() + 1
        } else {
            PIECE
        };
        let count = input.read(&mut piece[..room])?;
        if count == 0 {
            return Ok(bytes);
        }
        bytes.extend_from_slice(&piece[..count])?;
    }
    Ok(bytes)
}
