// How a database keeps its records, as the catalog has it.
ghost use Rattle.std.specs.Prelude.{◌≡◌, ◌++◌, ◌∷◌, [], OnOk};
ghost use Rattle.db_catalog.specs.declared.db_kind.DbKind.TheVariants.{SliceIndex, FieldIndex};
ghost use Rattle.db_catalog.specs.Catalog.{kind_bytes, is_slice, ended, slice_in, field_in, kind_in};

use je_bytes::{Reader, put_u32};
use std::alloc::AllocError;
use store_model::{MOST_OFFSET, MOST_SLICE};

/// How a database keeps its records.
#[derive(Clone, Copy, PartialEq, Eq)]
pub enum DbKind {
    /// One record for each key: the byte 0.
    Plain,
    /// Several records for a key, each with data of its own: the byte 1.
    Dup,
    /// An index of the plain database with the number `primary`: its keys are the `len` bytes (1 to
    /// 4,096) at `offset` (at most 65,535) of the primary's data. The byte 2, and the three numbers.
    SliceIndex {
        primary: u32,
        offset: u32,
        len: u32,
    },
    /// An index of the plain database with the number `primary`: its keys are the field with that
    /// number, from 0, of the primary's data, cut at each byte `separator`. The byte 3, the two
    /// numbers and the separator.
    FieldIndex {
        primary: u32,
        number: u32,
        separator: u8,
    },
}

/// Puts the kind's bytes at the end. Where memory runs out, part of them may stand there.
pub(crate) fn put_kind(out: &mut Vec<u8>, kind: &DbKind) -> Result<(), AllocError>
    ensures { OnOk result (out.new.items ≡ out.old.items ++ kind_bytes kind.now) }
{
    match kind {
        DbKind::Plain => put_byte(out, 0),
        DbKind::Dup => put_byte(out, 1),
        DbKind::SliceIndex {
            primary,
            offset,
            len,
        } => put_slice(out, *primary, *offset, *len),
        DbKind::FieldIndex {
            primary,
            number,
            separator,
        } => put_field(out, *primary, *number, *separator),
    }
}

fn put_byte(out: &mut Vec<u8>, byte: u8) -> Result<(), AllocError>
    ensures { OnOk result (out.new.items ≡ out.old.items ++ byte ∷ []) }
{
    out.push(byte)?;
    Ok(())
}

fn put_slice(out: &mut Vec<u8>, primary: u32, offset: u32, len: u32) -> Result<(), AllocError>
    ensures { OnOk result (out.new.items ≡ out.old.items ++ kind_bytes (SliceIndex primary offset len)) }
{
    put_byte(out, 2)?;
    put_u32(out, primary)?;
    put_u32(out, offset)?;
    put_u32(out, len)
}

fn put_field(out: &mut Vec<u8>, primary: u32, number: u32, separator: u8) -> Result<(), AllocError>
    ensures { OnOk result (out.new.items ≡ out.old.items ++ kind_bytes (FieldIndex primary number separator)) }
{
    put_byte(out, 3)?;
    put_u32(out, primary)?;
    put_u32(out, number)?;
    put_byte(out, separator)
}

// Whether a slice is within its limits.
fn is_slice(offset: u32, len: u32) -> bool
    ensures { result ≡ is_slice offset len }
{
    offset <= MOST_OFFSET && 0 < len && len <= MOST_SLICE
}

// A kind, where no byte is left behind it.
fn ended(kind: DbKind, rest: &[u8]) -> Option<DbKind>
    ensures { result ≡ ended kind rest.now }
{
    if rest.is_empty() { Some(kind) } else { None }
}

#[tactic(auto, unfolding(crate::specs::Catalog::slice_in))]
fn read_slice(bytes: &[u8]) -> Option<DbKind>
    ensures { result ≡ slice_in bytes.now }
{
    let mut reader = Reader::new(bytes);
    let primary = reader.u32().ok()?;
    let offset = reader.u32().ok()?;
    let len = reader.u32().ok()?;
    if !is_slice(offset, len) {
        return None;
    }
    let kind = DbKind::SliceIndex {
        primary,
        offset,
        len,
    };
    ended(kind, reader.rest())
}

#[tactic(auto, unfolding(crate::specs::Catalog::field_in))]
fn read_field(bytes: &[u8]) -> Option<DbKind>
    ensures { result ≡ field_in bytes.now }
{
    let mut reader = Reader::new(bytes);
    let primary = reader.u32().ok()?;
    let number = reader.u32().ok()?;
    let separator = reader.u8().ok()?;
    let kind = DbKind::FieldIndex {
        primary,
        number,
        separator,
    };
    ended(kind, reader.rest())
}

/// The kind of a byte, whose fields are all of the bytes behind it.
#[tactic(auto, unfolding(crate::specs::Catalog::kind_in))]
pub(crate) fn read_kind(kind: u8, bytes: &[u8]) -> Option<DbKind>
    ensures { result ≡ kind_in kind bytes.now }
{
    match kind {
        0 => ended(DbKind::Plain, bytes),
        1 => ended(DbKind::Dup, bytes),
        2 => read_slice(bytes),
        3 => read_field(bytes),
        _ => None,
    }
}
