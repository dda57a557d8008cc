// The indexes of an environment.
ghost use Rattle.std.specs.Prelude.{◌≡◌, ℕ, None, Some, OnOk, OnErr, IfOk, true, map};
ghost use Rattle.record_tree.specs.Stored.{lent, values_of};
ghost use Rattle.log_replay.specs.Rows.{are_distinct, catalog_index, catalog_number};
ghost use Rattle.index_map.specs.Made.{Made, AreIndexesOf, made_in, no_made, primary_in, with_made};
ghost use Rattle.index_map.specs.Map.{HasIndexes};

use crate::FoundIndex;
use crate::lists::{list_of, put_in, take_out};
use db_catalog::CATALOG;
use log_replay::{index_of, number_of};
use record_tree::{Loads, RecordRef};
use std::alloc::{AllocError, Global};
use std::collections::BTreeMap;

/// The indexes of an environment: the primary of each, and those of each primary by rising number. A look at it takes
/// the time of its depth.
#[derive(Drop)]
pub struct IndexMap {
    pub(crate) primaries: BTreeMap<u32, u32>,
    pub(crate) indexes: BTreeMap<u32, Vec<FoundIndex>>,
}

impl IndexMap {
    /// No indexes. It takes no memory.
    pub fn new(alloc: Global) -> IndexMap
        ensures { HasIndexes no_made result }
    {
        IndexMap {
            primaries: BTreeMap::new(alloc),
            indexes: BTreeMap::new(alloc),
        }
    }

    /// The number of the primary of an index; None where the database of that number is no index.
    pub fn primary(&self, number: u32) -> Option<u32>
        ensures { (made : Made) → HasIndexes made self.now → result ≡ primary_in made number }
    {
        match self.primaries.get(&number) {
            Some(primary) => Some(*primary),
            None => None,
        }
    }

    /// The indexes of the database of a number, by rising number.
    pub fn indexes(&self, primary: u32) -> &[FoundIndex]
        ensures { (made : Made) → HasIndexes made self.now → AreIndexesOf made primary result.now }
    {
        list_of(&self.indexes, primary)
    }

    /// Puts an index with a new number. Out of memory changes nothing.
    pub fn add(&mut self, alloc: Global, primary: u32, index: FoundIndex) -> Result<(), AllocError>
        ensures ok { (made : Made) → HasIndexes made self.old → made index.number ≡ None → OnOk result (HasIndexes (with_made index.number (Some (primary, index.extract)) made) self.new) }
        ensures err { (made : Made) → HasIndexes made self.old → made index.number ≡ None → OnErr result (HasIndexes made self.new) }
    {
        self.primaries.insert(index.number, primary)?;
        match put_in(alloc, &mut self.indexes, primary, index) {
            Ok(()) => Ok(()),
            Err(error) => {
                self.primaries.remove(&index.number);
                Err(error)
            }
        }
    }

    /// Takes the index of a number out, if there is one. It takes no memory.
    pub fn remove(&mut self, number: u32)
        ensures { (made : Made) → HasIndexes made self.old → HasIndexes (with_made number None made) self.new }
    {
        if let Some(primary) = self.primaries.remove(&number) {
            take_out(&mut self.indexes, primary, number);
        }
    }

    // Puts the index that a catalog record with a new number makes, if it makes one.
    fn add_made(&mut self, alloc: Global, value: &[u8]) -> Result<(), AllocError>
        ensures { (made : Made) → HasIndexes made self.old → made (catalog_number value.now) ≡ None
            → OnOk result (HasIndexes (with_made (catalog_number value.now) (catalog_index value.now) made) self.new) }
    {
        let Some((primary, extract)) = index_of(value) else {
            return Ok(());
        };
        let index = FoundIndex {
            number: number_of(value),
            extract,
        };
        self.add(alloc, primary, index)
    }

    // The indexes that catalog records make.
    fn made_by(alloc: Global, records: &[RecordRef<'_>]) -> Result<IndexMap, AllocError>
        ensures { are_distinct (map (λ r. catalog_number r.1) (lent records.now)) ≡ true → IfOk result (HasIndexes (made_in (lent records.now))) }
    {
        let mut map = IndexMap::new(alloc);
        for record in records {
            map.add_made(alloc, record.value)?;
        }
        Ok(map)
    }

    /// The indexes of an environment with these trees. Their catalog is read once, where it lies.
    pub fn read<T: Loads>(alloc: Global, trees: &T) -> Result<IndexMap, AllocError>
        ensures { are_distinct (map (λ r. catalog_number r.1) (values_of (T.stored trees.now 0))) ≡ true → IfOk result (HasIndexes (made_in (values_of (T.stored trees.now 0)))) }
    {
        let records = trees.lend_records(alloc, CATALOG)?;
        IndexMap::made_by(alloc, &records)
    }
}
