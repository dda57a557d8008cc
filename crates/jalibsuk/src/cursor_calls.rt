// Calls at cursors.
ghost use Rattle.std.specs.Prelude.{◌≡◌, Some, option_map};
ghost use Rattle.store_model.specs.declared.call.Call.TheVariants.{CPut as PutsAt, CPutCur as PutsCurrent, Cur as Moves, Open as Opens};
ghost use Rattle.store_model.specs.declared.motion.Motion.TheVariants.{Both as BothOf, BothRange as BothFrom};
ghost use Rattle.jalibsuk.specs.Cursors.{motion_by};
ghost use Rattle.jalibsuk.specs.Named.{IsMade, name_of_handle};

use crate::named::name_of;
use crate::{Error, Seek};
use je_order::{Octets, Word};
use std::alloc::Global;
use store_model::{Call, Motion, PutMode};

// To the record of a key and data.
fn both(alloc: Global, key: &[u8], value: &[u8]) -> Result<Motion, Error>
    ensures { IsMade (Some (BothOf key.now value.now)) result }
{
    let key = Octets::from_slice(alloc, key)?;
    let value = Octets::from_slice(alloc, value)?;
    Ok(Motion::Both { key, value })
}

// To the first record of a key from some data on.
fn both_range(alloc: Global, key: &[u8], value: &[u8]) -> Result<Motion, Error>
    ensures { IsMade (Some (BothFrom key.now value.now)) result }
{
    let key = Octets::from_slice(alloc, key)?;
    let value = Octets::from_slice(alloc, value)?;
    Ok(Motion::BothRange { key, value })
}

// The model's motion.
fn motion_by(alloc: Global, seek: Seek) -> Result<Motion, Error>
    ensures { IsMade (Some (motion_by seek.entry)) result }
{
    match seek {
        Seek::First => Ok(Motion::First),
        Seek::Last => Ok(Motion::Last),
        Seek::Next => Ok(Motion::Next),
        Seek::Prev => Ok(Motion::Prev),
        Seek::NextDup => Ok(Motion::NextDup),
        Seek::PrevDup => Ok(Motion::PrevDup),
        Seek::NextNoDup => Ok(Motion::NextNoDup),
        Seek::PrevNoDup => Ok(Motion::PrevNoDup),
        Seek::Current => Ok(Motion::Current),
        Seek::Key(key) => {
            let key = Octets::from_slice(alloc, key)?;
            Ok(Motion::Key { key })
        }
        Seek::Range(key) => {
            let key = Octets::from_slice(alloc, key)?;
            Ok(Motion::Range { key })
        }
        Seek::Both(key, value) => both(alloc, key, value),
        Seek::BothRange(key, value) => both_range(alloc, key, value),
    }
}

// Moves a cursor, and reads the record there.
pub(crate) fn cur(alloc: Global, number: u8, seek: Seek, rmw: bool) -> Result<Call, Error>
    ensures { IsMade (Some (Moves number (motion_by seek.entry) rmw)) result }
{
    let motion = motion_by(alloc, seek)?;
    Ok(Call::Cur {
        cursor: number,
        motion,
        rmw,
    })
}

// Sets the data where a cursor stands.
pub(crate) fn put_current(alloc: Global, number: u8, value: &[u8]) -> Result<Call, Error>
    ensures { IsMade (Some (PutsCurrent number value.now)) result }
{
    let value = Octets::from_slice(alloc, value)?;
    Ok(Call::CPutCur {
        cursor: number,
        value,
    })
}

// Puts a record at a cursor.
pub(crate) fn put_at(
    alloc: Global,
    number: u8,
    key: &[u8],
    value: &[u8],
    mode: PutMode,
) -> Result<Call, Error>
    ensures { IsMade (Some (PutsAt number key.now value.now mode)) result }
{
    let key = Octets::from_slice(alloc, key)?;
    let value = Octets::from_slice(alloc, value)?;
    Ok(Call::CPut {
        cursor: number,
        key,
        value,
        mode,
    })
}

// Opens a cursor on the database of a handle.
pub(crate) fn open(names: &[Option<Word>], handle: usize, number: u8) -> Result<Call, Error>
    ensures { IsMade (option_map (λ n. Opens number n) (name_of_handle handle names.now)) result }
{
    let db = name_of(names, handle)?;
    Ok(Call::Open { cursor: number, db })
}
