// Room for copies of cycles.
ghost use Rattle.std.specs.Prelude.{ℕ, ◌≡◌, ◌+◌, length, suc, IfOk};
ghost use Rattle.sessions.specs.Spares.{HasSpare};

use je_order::{List, TxnId};
use std::alloc::{AllocError, Global};

// So many buffers and one more, each with room for so many transactions.
pub(crate) fn buffers_of(alloc: Global, size: usize) -> Result<Vec<Vec<TxnId>>, AllocError>
    ensures { IfOk result (λ buffers. HasSpare size (size + 1) buffers.items) }
{
    let mut buffers = Vec::new(alloc);
    buffers.push(Vec::with_capacity(alloc, size)?)?;
    for _ in 0..size {
        buffers.push(Vec::with_capacity(alloc, size)?)?;
    }
    Ok(buffers)
}

// A copy of a cycle, in one of the buffers. It takes no memory.
pub(crate) fn copied(buffers: &mut Vec<Vec<TxnId>>, cycle: &[TxnId]) -> List<TxnId>
    requires { HasSpare (length cycle.now) 1 buffers.old.items }
    ensures copy { result ≡ cycle.now }
    ensures left { (size count : ℕ) → HasSpare size (suc count) buffers.old.items → HasSpare size count buffers.new.items }
{
    match buffers.pop() {
        None => unreachable!(),
        Some(buffer) => {
            let mut buffer = buffer;
            buffer.extend_from_slice(cycle).unwrap();
            List::from_vec(buffer)
        }
    }
}
