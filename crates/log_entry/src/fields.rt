// Fields of bodies that are no plain numbers. Where memory runs out, part of a field may stand at the
// end; it does not where the vector has room.
ghost use Rattle.std.specs.Prelude.{◌≡◌, ◌<◌, ◌^◌, length, vec_capacity, IfOk, MatchOption, Some, None};
ghost use Rattle.log_entry.specs.Fields.{IsName, string, name_bytes, string_in, name_in, version_bytes, version_in, optional_bytes, optional_in};
ghost use Rattle.log_entry.specs.Writing.{Puts};

use je_bytes::{Reader, put_u16, put_u64};
use je_lsn::Lsn;
use je_order::{KEY_LIMIT, Name, Octets};
use std::alloc::{AllocError, Global};

#[tactic(auto, unfolding(crate::specs::Fields::string_in))]
fn read_string<'a>(reader: &mut Reader<'a>) -> Option<&'a [u8]>
    ensures { MatchOption result (string_in reader.old ≡ None) (λ bytes. string_in reader.old ≡ Some (bytes.now, reader.new)) }
{
    let len = reader.u16().ok()? as usize;
    if len > KEY_LIMIT {
        return None;
    }
    reader.take(len).ok()
}

// A name's key and its dup.
#[tactic(auto, unfolding(crate::specs::Fields::name_in))]
pub(crate) fn read_strings<'a>(reader: &mut Reader<'a>) -> Option<(&'a [u8], &'a [u8])>
    ensures { MatchOption result (name_in reader.old ≡ None) (λ found. name_in reader.old ≡ Some (record { key = found.0.now; dup = found.1.now }, reader.new)) }
{
    let key = read_string(reader)?;
    let dup = read_string(reader)?;
    Some((key, dup))
}

// The name of this key and this dup.
pub(crate) fn name_of(alloc: Global, key: &[u8], dup: &[u8]) -> Result<Name, AllocError>
    ensures { IfOk result (λ name. name ≡ record { key = key.now; dup = dup.now }) }
{
    Ok(Name {
        key: Octets::from_slice(alloc, key)?,
        dup: Octets::from_slice(alloc, dup)?,
    })
}

pub(crate) fn read_name(alloc: Global, reader: &mut Reader<'_>) -> Result<Option<Name>, AllocError>
    ensures { IfOk result (λ found. MatchOption found (name_in reader.old ≡ None) (λ name. name_in reader.old ≡ Some (name, reader.new))) }
{
    let Some((key, dup)) = read_strings(reader) else {
        return Ok(None);
    };
    Ok(Some(name_of(alloc, key, dup)?))
}

fn put_string(out: &mut Vec<u8>, bytes: &[u8]) -> Result<(), AllocError>
    requires { length bytes.now < 2 ^ 16 }
    ensures { Puts (string bytes.now) result out.old.items out.new.items (vec_capacity out.old) (vec_capacity out.new) }
{
    put_u16(out, bytes.len() as u16)?;
    out.extend_from_slice(bytes)
}

// The name of this key and this dup.
pub(crate) fn put_strings(out: &mut Vec<u8>, key: &[u8], dup: &[u8]) -> Result<(), AllocError>
    requires { IsName (record { key = key.now; dup = dup.now }) }
    ensures { Puts (name_bytes (record { key = key.now; dup = dup.now })) result out.old.items out.new.items (vec_capacity out.old) (vec_capacity out.new) }
{
    put_string(out, key)?;
    put_string(out, dup)
}

pub(crate) fn put_name(out: &mut Vec<u8>, name: &Name) -> Result<(), AllocError>
    requires { IsName name.now }
    ensures { Puts (name_bytes name.now) result out.old.items out.new.items (vec_capacity out.old) (vec_capacity out.new) }
{
    put_strings(out, name.key.as_slice(), name.dup.as_slice())
}

#[tactic(auto, unfolding(crate::specs::Fields::version_in))]
pub(crate) fn read_version(reader: &mut Reader<'_>) -> Option<Option<Lsn>>
    ensures { MatchOption result (version_in reader.old ≡ None) (λ version. version_in reader.old ≡ Some (version, reader.new)) }
{
    let state = reader.u8().ok()?;
    let lsn = reader.u64().ok()?;
    match (state, lsn) {
        (0, _) => Some(Some(Lsn::from_u64(lsn))),
        (1, 0) => Some(None),
        _ => None,
    }
}

pub(crate) fn put_version(out: &mut Vec<u8>, version: Option<Lsn>) -> Result<(), AllocError>
    ensures { Puts (version_bytes version) result out.old.items out.new.items (vec_capacity out.old) (vec_capacity out.new) }
{
    match version {
        Some(lsn) => {
            out.push(0)?;
            put_u64(out, lsn.as_u64())
        }
        None => {
            out.push(1)?;
            put_u64(out, 0)
        }
    }
}

#[tactic(auto, unfolding(crate::specs::Fields::optional_in))]
pub(crate) fn read_optional(reader: &mut Reader<'_>) -> Option<Option<Lsn>>
    ensures { MatchOption result (optional_in reader.old ≡ None) (λ found. optional_in reader.old ≡ Some (found, reader.new)) }
{
    match reader.u64().ok()? {
        0 => Some(None),
        lsn => Some(Some(Lsn::from_u64(lsn))),
    }
}

pub(crate) fn put_optional(out: &mut Vec<u8>, lsn: Option<Lsn>) -> Result<(), AllocError>
    ensures { Puts (optional_bytes lsn) result out.old.items out.new.items (vec_capacity out.old) (vec_capacity out.new) }
{
    match lsn {
        Some(lsn) => put_u64(out, lsn.as_u64()),
        None => put_u64(out, 0),
    }
}
