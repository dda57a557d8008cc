// A record that was found.
ghost use Rattle.std.specs.Prelude.{◌≡◌};
ghost use Rattle.store_model.specs.Store.{name_of};
ghost use Rattle.cursor_je.specs.Looks.{name_in, pair_in};

use crate::NameRef;
use crate::name_ref::pair_name;
use store_model::Kind;

/// A record by its key and its data, which lie where it was found. In a database of sorted duplicates
/// the data is the dup of its name.
#[derive(Clone, Copy)]
pub struct RecordRef<'a> {
    pub key: &'a [u8],
    pub value: &'a [u8],
}

/// The name of a record.
pub fn record_name<'a>(kind: Kind, found: &RecordRef<'a>) -> NameRef<'a>
    ensures { name_in result ≡ name_of kind (pair_in found.now) }
{
    pair_name(kind, found.key, found.value)
}
