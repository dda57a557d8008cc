// A name that is looked for.
ghost use Rattle.std.specs.Prelude.{◌≡◌, [], IfOk};
ghost use Rattle.je_order.specs.Order.{name_cmp};
ghost use Rattle.store_model.specs.Store.{named, name_of};
ghost use Rattle.cursor_je.specs.Looks.{name_in};

use je_order::{Name, Octets, cmp_bytes};
use std::alloc::{AllocError, Global};
use std::cmp::Ordering;
use store_model::Kind;

/// A name by its key and its dup, which lie elsewhere.
#[derive(Clone, Copy)]
pub struct NameRef<'a> {
    pub key: &'a [u8],
    pub dup: &'a [u8],
}

/// The name of a key alone.
pub fn key_name<'a>(key: &'a [u8]) -> NameRef<'a>
    ensures { name_in result ≡ named key.now [] }
{
    NameRef { key, dup: b"" }
}

/// The name of the record of a key and data.
pub fn pair_name<'a>(kind: Kind, key: &'a [u8], value: &'a [u8]) -> NameRef<'a>
    ensures { name_in result ≡ name_of kind (key.now, value.now) }
{
    match kind {
        Kind::Plain => key_name(key),
        Kind::Dup => NameRef { key, dup: value },
    }
}

/// The same name, by reference.
pub fn name_ref<'a>(name: &'a Name) -> NameRef<'a>
    ensures { name_in result ≡ name.now }
{
    NameRef {
        key: name.key.as_slice(),
        dup: name.dup.as_slice(),
    }
}

impl<'a> NameRef<'a> {
    /// Name order.
    pub fn cmp_name(&self, other: &NameRef<'_>) -> Ordering
        ensures { result ≡ name_cmp (name_in self.now) (name_in other.now) }
    {
        cmp_bytes(self.key, other.key).then(cmp_bytes(self.dup, other.dup))
    }

    /// A copy of the name.
    pub fn to_name(&self, alloc: Global) -> Result<Name, AllocError>
        ensures { IfOk result (λ name. name ≡ name_in self.now) }
    {
        Ok(Name {
            key: Octets::from_slice(alloc, self.key)?,
            dup: Octets::from_slice(alloc, self.dup)?,
        })
    }
}
