// The databases where locks are asked for.
ghost use Rattle.std.specs.Prelude.{◌≡◌, ℕ, true, OnOk};
ghost use Rattle.lock_table.specs.Table.{is_used, AreUsed};
ghost use Rattle.lock_table.specs.Records.{queue_at};

use crate::RecordId;
use crate::queue::Queue;
use std::alloc::AllocError;
use std::collections::{BTreeSet, HashMap};

// Notes that a lock is asked for in a database. None is taken out.
pub(crate) fn note_db(dbs: &mut BTreeSet<u32>, db: u32) -> Result<(), AllocError>
    ensures kept { (d : ℕ) → is_used dbs.old d ≡ true → is_used dbs.new d ≡ true }
    ensures noted { OnOk result (is_used dbs.new db ≡ true) }
{
    let _ = dbs.insert(db)?;
    Ok(())
}

// Forgets the databases once no record has an owner or a wait.
pub(crate) fn forget_dbs(dbs: &mut BTreeSet<u32>, queues: &HashMap<RecordId, Queue>)
    requires { AreUsed (is_used dbs.old) (λ r. queue_at r queues.now.entries) }
    ensures { AreUsed (is_used dbs.new) (λ r. queue_at r queues.now.entries) }
{
    if queues.is_empty() {
        dbs.clear();
    }
}
