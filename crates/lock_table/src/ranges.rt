// Those that asked for a lock of a range type.
ghost use Rattle.std.specs.Prelude.{◌≡◌, true, OnOk};
ghost use Rattle.je_order.specs.declared.txn_id.TxnId.{TxnId};
ghost use Rattle.lock_table.specs.Locks.{is_range};
ghost use Rattle.lock_table.specs.Table.{is_among, IsRangeOf};

use crate::Lock;
use je_order::TxnId;
use lock_mode::LockType;
use std::alloc::AllocError;
use std::collections::BTreeSet;

// Whether the type locks the gap before the record too.
fn is_ranged(mode: LockType) -> bool
    ensures { result ≡ is_range mode }
{
    matches!(mode, LockType::RangeRead | LockType::RangeWrite)
}

// Notes that a transaction asks for a lock, if it is of a range type. Nobody is taken out.
pub(crate) fn note_range(ranging: &mut BTreeSet<TxnId>, lock: Lock) -> Result<(), AllocError>
    ensures kept { (t : TxnId) → is_among ranging.old t ≡ true → is_among ranging.new t ≡ true }
    ensures noted { OnOk result (IsRangeOf (is_among ranging.new) lock) }
{
    if is_ranged(lock.mode) {
        let _ = ranging.insert(lock.txn)?;
    }
    Ok(())
}
