// The map of what transactions changed.
ghost use Rattle.std.specs.Prelude.{◌≡◌, ◌==◌, not, if◌then◌else◌, OnOk, OnErr};
ghost use Rattle.je_order.specs.declared.txn_id.TxnId.{TxnId};
ghost use Rattle.je_order.specs.Transactions.{is_same_txn};
ghost use Rattle.lock_table.specs.Table.{at_txn};
ghost use Rattle.active_txns.specs.Own.{counts_at, if_counted, counts_added as with_more, none_counted as no_changes};

use crate::OwnCounts;
use crate::counting::{add_counts, none_counted};
use je_order::TxnId;
use std::alloc::AllocError;
use std::collections::BTreeMap;

// The counts of a transaction's changes.
pub(crate) fn read_at(own: &BTreeMap<TxnId, OwnCounts>, txn: TxnId) -> OwnCounts
    ensures { result ≡ counts_at txn own.now.entries }
{
    match own.get(&txn) {
        Some(counts) => *counts,
        None => none_counted(),
    }
}

// Counts more changes of a transaction. Running out of memory changes nothing.
pub(crate) fn push_at(
    own: &mut BTreeMap<TxnId, OwnCounts>,
    txn: TxnId,
    more: OwnCounts,
) -> Result<(), AllocError>
    ensures counts { OnOk result ((t : TxnId) → counts_at t own.new.entries ≡ (if is_same_txn txn t then with_more (counts_at txn own.old.entries) more else counts_at t own.old.entries)) }
    ensures err { OnErr result (own.new.entries ≡ own.old.entries) }
{
    let Some(all) = add_counts(read_at(own, txn), more) else {
        return Err(AllocError);
    };
    own.insert(txn, all)?;
    Ok(())
}

// Sets the counts of a transaction that has some. It takes no memory.
pub(crate) fn set_at(own: &mut BTreeMap<TxnId, OwnCounts>, txn: TxnId, counts: OwnCounts)
    ensures { (t : TxnId) → counts_at t own.new.entries ≡ (if is_same_txn txn t then if_counted (at_txn txn own.old.entries) counts else counts_at t own.old.entries) }
{
    if let Some(found) = own.get_mut(&txn) {
        *found = counts;
    }
}

// Takes out what a transaction changed. It takes no memory.
pub(crate) fn remove_at(own: &mut BTreeMap<TxnId, OwnCounts>, txn: TxnId)
    ensures { (t : TxnId) → counts_at t own.new.entries ≡ (if is_same_txn txn t then no_changes else counts_at t own.old.entries) }
{
    let _ = own.remove(&txn);
}
