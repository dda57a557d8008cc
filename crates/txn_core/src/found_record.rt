// A record that was found in memory.
ghost use Rattle.std.specs.Prelude.{◌≡◌, option_map};
ghost use Rattle.cursor_je.specs.Looks.{pair_in, taken_in};
ghost use Rattle.log_replay.specs.Rows.{pair_of};
ghost use Rattle.txn_core.specs.Views.{pairs_found};

use cursor_je::RecordRef;
use record_map::{Data, SortKey};
use store_model::Kind;

// The record of a name and its data, in a database of that kind.
fn record_of<'a>(kind: Kind, name: &'a SortKey, held: &'a Data) -> RecordRef<'a>
    ensures { pair_in result ≡ pair_of kind (name.now, held.now) }
{
    match kind {
        Kind::Plain => RecordRef {
            key: name.key(),
            value: held.as_slice(),
        },
        Kind::Dup => RecordRef {
            key: name.key(),
            value: name.dup(),
        },
    }
}

/// The record that was found, if any, as its key and its data.
pub fn record_found<'a>(kind: Kind, found: Option<(&'a SortKey, &'a Data)>) -> Option<RecordRef<'a>>
    ensures { taken_in result ≡ pairs_found kind (option_map (λ p. (p.0.now, p.1.now)) found.entry) }
{
    match found {
        None => None,
        Some((name, held)) => Some(record_of(kind, name, held)),
    }
}
