// The pairs that an index has for the records of its primary.
ghost use Rattle.std.specs.Prelude.{◌≡◌, ◌++◌, List, OnOk, OnErr};
ghost use Rattle.store_model.specs.declared.extract.Extract.{Extract as By};
ghost use Rattle.store_model.specs.declared.kind.Kind.TheVariants.{Plain};
ghost use Rattle.store_model.specs.Store.{Pair, HasRisingNames};
ghost use Rattle.store_model.specs.Indexes.{index_pairs};
ghost use Rattle.secondary.specs.Pairs.{keyed, keyed_pairs, pairs_in};

use crate::{KeyPair, key_in};
use std::alloc::AllocError;
use store_model::Extract;

/// Puts the pair of a record, if its data has a key, behind the others. No bytes are copied. Out of memory changes nothing.
pub fn push_pair<'a>(
    pairs: &mut Vec<KeyPair<'a>>,
    extract: &Extract,
    primary_key: &'a [u8],
    value: &'a [u8],
) -> Result<(), AllocError>
    ensures ok { OnOk result (pairs_in pairs.new.items ≡ pairs_in pairs.old.items ++ keyed extract.now (primary_key.now, value.now)) }
    ensures err { OnErr result (pairs.new.items ≡ pairs.old.items) }
{
    let Some(key) = key_in(extract, value) else {
        return Ok(());
    };
    pairs.push(KeyPair { key, primary_key })?;
    Ok(())
}

/// Puts the pairs of records into the order in which an index has them, in n log n comparisons. It takes no memory.
pub fn sort_pairs(pairs: &mut Vec<KeyPair<'_>>)
    ensures { (extract : By) (records : List Pair) → HasRisingNames Plain records → pairs_in pairs.old.items ≡ keyed_pairs extract records → pairs_in pairs.new.items ≡ index_pairs extract records }
{
    pairs.sort_unstable_by(|pair, other| pair.cmp_pair(other));
}
