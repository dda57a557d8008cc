// The map of what transactions under way wrote.
ghost use Rattle.std.specs.Prelude.{◌≡◌, ◌<◌, ◌+◌, ◌^◌, ◌++◌, true, length, OnOk, IfOk, if◌then◌else◌};
ghost use Rattle.je_order.specs.declared.txn_id.TxnId.{TxnId as Txn};
ghost use Rattle.je_order.specs.Transactions.{is_same_txn};
ghost use Rattle.environment.specs.Written.{HasRoomAt, IsRoomFor, first_at, first_for, first_noted, had_at, names_at};

use crate::written::OwnNames;
use je_lsn::Lsn;
use je_order::TxnId;
use record_tree::TreeName;
use std::alloc::{AllocError, Global};
use std::collections::BTreeMap;

// Whether the sum of two numbers is one.
fn is_number(a: u64, b: u64) -> bool
    ensures { result ≡ true → a + b < 2 ^ 64 }
{
    b <= u64::MAX - a
}

// No names, with room for so many.
fn room_for(alloc: Global, count: usize) -> Result<OwnNames, AllocError>
    ensures { IfOk result (λ own. IsRoomFor own count) }
{
    let mut names = Vec::new(alloc);
    names.reserve(count)?;
    Ok(OwnNames {
        names,
        had: 0,
        first: Lsn::from_u64(0),
    })
}

// The first LSN of a transaction that has these names: the one that it had, or this one where it has none.
fn first_behind(names: &[TreeName], had: Lsn, first: Lsn) -> Lsn
    ensures { result ≡ first_for names.now had first }
{
    match names {
        [] => first,
        [_, ..] => had,
    }
}

// Makes room for names more of a transaction, so many of which had a record. Nothing else changes.
pub(crate) fn make_room_at(
    written: &mut BTreeMap<TxnId, OwnNames>,
    alloc: Global,
    txn: TxnId,
    count: usize,
    had: u64,
) -> Result<(), AllocError>
    ensures names { (t : Txn) → names_at t written.new.entries ≡ names_at t written.old.entries }
    ensures had { (t : Txn) → had_at t written.new.entries ≡ had_at t written.old.entries }
    ensures firsts { (t : Txn) → first_at t written.new.entries ≡ first_at t written.old.entries }
    ensures room { OnOk result (HasRoomAt txn count had written.new.entries) }
{
    if let Some(found) = written.get_mut(&txn) {
        if !is_number(found.had, had) {
            return Err(AllocError);
        }
        return found.names.reserve(count);
    }
    let own = room_for(alloc, count)?;
    written.insert(txn, own)?;
    Ok(())
}

// Puts names at the end of a transaction's, for which there is room: the first of their changes was logged at `first`. It takes no memory.
pub(crate) fn append_at(
    written: &mut BTreeMap<TxnId, OwnNames>,
    txn: TxnId,
    names: Vec<TreeName>,
    had: u64,
    first: Lsn,
)
    requires room { HasRoomAt txn (length names.items) had written.old.entries }
    ensures names { (t : Txn) → names_at t written.new.entries ≡ (if is_same_txn txn t then names_at txn written.old.entries ++ names.items else names_at t written.old.entries) }
    ensures had { (t : Txn) → had_at t written.new.entries ≡ (if is_same_txn txn t then had_at txn written.old.entries + had else had_at t written.old.entries) }
    ensures firsts { (t : Txn) → first_at t written.new.entries
        ≡ (if is_same_txn txn t then first_noted (names_at txn written.old.entries ++ names.items) (first_for (names_at txn written.old.entries) (first_at txn written.old.entries) first) else first_at t written.old.entries) }
{
    let mut names = names;
    match written.get_mut(&txn) {
        Some(found) => {
            found.first = first_behind(found.names.as_slice(), found.first, first);
            found.names.append(&mut names).unwrap();
            found.had += had;
        }
        None => unreachable!(),
    }
}
