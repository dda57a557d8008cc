// A copy of a call.
ghost use Rattle.std.specs.Prelude.{◌≡◌, IfOk};
ghost use Rattle.standing_laws.specs.Right.{MayWait};
ghost use Rattle.store_model.specs.declared.call.Call.TheVariants.{Get, GetBoth, Put, Delete, Count, Cur, CPutCur, CDel, CPut};
ghost use Rattle.store_model.specs.declared.motion.Motion.TheVariants.{Key, Range, Both, BothRange};

use je_order::{Octets, Word, copy_of};
use std::alloc::AllocError;
use store_model::{Call, Motion, PutMode};

fn copy_get(db: &Word, key: &Octets, rmw: bool) -> Result<Call, AllocError>
    ensures { IfOk result (λ copy. copy ≡ Get db.now key.now rmw) }
{
    let db = copy_of(db)?;
    let key = copy_of(key)?;
    Ok(Call::Get { db, key, rmw })
}

fn copy_get_both(db: &Word, key: &Octets, value: &Octets, rmw: bool) -> Result<Call, AllocError>
    ensures { IfOk result (λ copy. copy ≡ GetBoth db.now key.now value.now rmw) }
{
    let db = copy_of(db)?;
    let key = copy_of(key)?;
    let value = copy_of(value)?;
    Ok(Call::GetBoth {
        db,
        key,
        value,
        rmw,
    })
}

fn copy_put(db: &Word, key: &Octets, value: &Octets, mode: PutMode) -> Result<Call, AllocError>
    ensures { IfOk result (λ copy. copy ≡ Put db.now key.now value.now mode) }
{
    let db = copy_of(db)?;
    let key = copy_of(key)?;
    let value = copy_of(value)?;
    Ok(Call::Put {
        db,
        key,
        value,
        mode,
    })
}

fn copy_delete(db: &Word, key: &Octets) -> Result<Call, AllocError>
    ensures { IfOk result (λ copy. copy ≡ Delete db.now key.now) }
{
    let db = copy_of(db)?;
    let key = copy_of(key)?;
    Ok(Call::Delete { db, key })
}

fn copy_key(key: &Octets) -> Result<Motion, AllocError>
    ensures { IfOk result (λ copy. copy ≡ Key key.now) }
{
    Ok(Motion::Key { key: copy_of(key)? })
}

fn copy_range(key: &Octets) -> Result<Motion, AllocError>
    ensures { IfOk result (λ copy. copy ≡ Range key.now) }
{
    Ok(Motion::Range { key: copy_of(key)? })
}

fn copy_both(key: &Octets, value: &Octets) -> Result<Motion, AllocError>
    ensures { IfOk result (λ copy. copy ≡ Both key.now value.now) }
{
    let key = copy_of(key)?;
    let value = copy_of(value)?;
    Ok(Motion::Both { key, value })
}

fn copy_both_range(key: &Octets, value: &Octets) -> Result<Motion, AllocError>
    ensures { IfOk result (λ copy. copy ≡ BothRange key.now value.now) }
{
    let key = copy_of(key)?;
    let value = copy_of(value)?;
    Ok(Motion::BothRange { key, value })
}

// A copy of a motion.
fn copy_motion(motion: &Motion) -> Result<Motion, AllocError>
    ensures { IfOk result (λ copy. copy ≡ motion.now) }
{
    match motion {
        Motion::First => Ok(Motion::First),
        Motion::Last => Ok(Motion::Last),
        Motion::Next => Ok(Motion::Next),
        Motion::Prev => Ok(Motion::Prev),
        Motion::NextDup => Ok(Motion::NextDup),
        Motion::PrevDup => Ok(Motion::PrevDup),
        Motion::NextNoDup => Ok(Motion::NextNoDup),
        Motion::PrevNoDup => Ok(Motion::PrevNoDup),
        Motion::Current => Ok(Motion::Current),
        Motion::Key { key } => copy_key(key),
        Motion::Range { key } => copy_range(key),
        Motion::Both { key, value } => copy_both(key, value),
        Motion::BothRange { key, value } => copy_both_range(key, value),
    }
}

fn copy_move(cursor: u8, motion: &Motion, rmw: bool) -> Result<Call, AllocError>
    ensures { IfOk result (λ copy. copy ≡ Cur cursor motion.now rmw) }
{
    let motion = copy_motion(motion)?;
    Ok(Call::Cur {
        cursor,
        motion,
        rmw,
    })
}

fn copy_put_here(cursor: u8, value: &Octets) -> Result<Call, AllocError>
    ensures { IfOk result (λ copy. copy ≡ CPutCur cursor value.now) }
{
    let value = copy_of(value)?;
    Ok(Call::CPutCur { cursor, value })
}

fn copy_cursor_put(
    cursor: u8,
    key: &Octets,
    value: &Octets,
    mode: PutMode,
) -> Result<Call, AllocError>
    ensures { IfOk result (λ copy. copy ≡ CPut cursor key.now value.now mode) }
{
    let key = copy_of(key)?;
    let value = copy_of(value)?;
    Ok(Call::CPut {
        cursor,
        key,
        value,
        mode,
    })
}

// A copy of a call that may wait. The only error is out of memory.
pub(crate) fn copy_call(call: &Call) -> Result<Call, AllocError>
    requires { MayWait call.now }
    ensures { IfOk result (λ copy. copy ≡ call.now) }
{
    match call {
        Call::Get { db, key, rmw } => copy_get(db, key, *rmw),
        Call::GetBoth {
            db,
            key,
            value,
            rmw,
        } => copy_get_both(db, key, value, *rmw),
        Call::Put {
            db,
            key,
            value,
            mode,
        } => copy_put(db, key, value, *mode),
        Call::Delete { db, key } => copy_delete(db, key),
        Call::Count { cursor } => Ok(Call::Count { cursor: *cursor }),
        Call::Cur {
            cursor,
            motion,
            rmw,
        } => copy_move(*cursor, motion, *rmw),
        Call::CPutCur { cursor, value } => copy_put_here(*cursor, value),
        Call::CDel { cursor } => Ok(Call::CDel { cursor: *cursor }),
        Call::CPut {
            cursor,
            key,
            value,
            mode,
        } => copy_cursor_put(*cursor, key, value, *mode),
        _ => unreachable!(),
    }
}
