// The names of the handles, where databases are removed or have another name.
ghost use Rattle.std.specs.Prelude.{◌≡◌, IfOk, OnErr, Option as Maybe, if◌then◌else◌};
ghost use Rattle.store_model.specs.declared.call.Call.{Call as Asked};
ghost use Rattle.jalibsuk.specs.Usable.{IsUsable};
ghost use Rattle.jalibsuk.specs.Named.{IsMade, is_of_name, names_after};
ghost use Rattle.jalibsuk.specs.Told.{done_in};
ghost use Rattle.jalibsuk.specs.Methods.{CallsNow};

use crate::Error;
use crate::answered::done_of;
use crate::settling::give_now;
use environment::Environment;
use je_disk::Disk;
use je_order::{Word, cmp_bytes, copy_of};
use std::alloc::{AllocError, Global};
use store_model::Call;

// Whether an entry has that name.
fn is_of_name(entry: &Option<Word>, name: &[u8]) -> bool
    ensures { result ≡ is_of_name name.now entry.now }
{
    match entry {
        Some(own) => cmp_bytes(own.as_slice(), name).is_eq(),
        None => false,
    }
}

// A copy of an entry.
fn copy_entry(entry: &Option<Word>) -> Result<Option<Word>, AllocError>
    ensures { IfOk result (λ copy. copy ≡ entry.now) }
{
    match entry {
        Some(name) => Ok(Some(copy_of(name)?)),
        None => Ok(None),
    }
}

// An entry, or the one that is to stand for it if it has that name.
fn entry_after(
    entry: &Option<Word>,
    name: &[u8],
    to: &Option<Word>,
) -> Result<Option<Word>, AllocError>
    ensures { IfOk result (λ after. after ≡ (if is_of_name name.now entry.now then to.now else entry.now)) }
{
    if is_of_name(entry, name) {
        copy_entry(to)
    } else {
        copy_entry(entry)
    }
}

// The names once the database of that name has another one, or was removed.
pub(crate) fn names_after(
    alloc: Global,
    names: &[Option<Word>],
    name: &[u8],
    to: &Option<Word>,
) -> Result<Vec<Option<Word>>, AllocError>
    ensures { IfOk result (λ after. after.items ≡ names_after name.now to.now names.now) }
{
    let mut after = Vec::new(alloc);
    for entry in names {
        after.push(entry_after(entry, name, to)?)?;
    }
    Ok(after)
}

// Gives a call of its own. Once it is done the handles have these names.
pub(crate) fn give_renaming<D: Disk>(
    environment: &mut Environment<D>,
    alloc: Global,
    call: Result<Call, Error>,
    names: &mut Vec<Option<Word>>,
    after: Vec<Option<Word>>,
) -> Result<(), Error>
    requires usable { IsUsable D.meaning environment.old }
    ensures usable { IsUsable D.meaning environment.new }
    ensures calls { (asked : Maybe Asked) → IsMade asked call → CallsNow D.meaning done_in environment.old environment.new asked result }
    ensures names { IfOk result (λ u. names.new.items ≡ after.items) }
    ensures same { OnErr result (names.new.items ≡ names.old.items) }
{
    match done_of(give_now(environment, alloc, call)) {
        Ok(()) => {
            *names = after;
            Ok(())
        }
        Err(error) => Err(error),
    }
}
