// The names of databases by their numbers.
ghost use Rattle.std.specs.Prelude.{◌≡◌, ◌++◌, ◌∷◌, [], ℕ, List, None, Some, OnOk, OnErr, IfOk, option_map};
ghost use Rattle.record_tree.specs.Stored.{lent, values_of};
ghost use Rattle.log_replay.specs.Rows.{Row};
ghost use Rattle.db_names.specs.Names.{Names, HasNames, names_in, no_names, with_name};

use db_catalog::CATALOG;
use je_order::Word;
use log_replay::number_of;
use record_tree::{Loads, RecordRef};
use std::alloc::{AllocError, Global};
use std::collections::BTreeMap;

/// The names of databases by their numbers. A look at it takes the time of its depth.
#[derive(Drop)]
pub struct DbNames {
    pub(crate) by_number: BTreeMap<u32, Word>,
}

impl DbNames {
    /// No names. It takes no memory.
    pub fn new(alloc: Global) -> DbNames
        ensures { HasNames no_names result }
    {
        DbNames {
            by_number: BTreeMap::new(alloc),
        }
    }

    /// The name of the database of a number.
    pub fn name(&self, number: u32) -> Option<&Word>
        ensures { (names : Names) → HasNames names self.now → option_map (λ n. n.now) result ≡ names number }
    {
        self.by_number.get(&number)
    }

    /// Gives a number this name. Out of memory changes nothing.
    pub fn put(&mut self, number: u32, name: Word) -> Result<(), AllocError>
        ensures ok { (names : Names) → HasNames names self.old → OnOk result (HasNames (with_name number (Some name) names) self.new) }
        ensures err { (names : Names) → HasNames names self.old → OnErr result (HasNames names self.new) }
    {
        self.by_number.insert(number, name)?;
        Ok(())
    }

    /// Gives a number that has a name another one. It takes no memory.
    pub fn rename(&mut self, number: u32, name: Word)
        ensures { (names : Names) (was : List ℕ) → HasNames names self.old → names number ≡ Some was → HasNames (with_name number (Some name) names) self.new }
    {
        if let Some(place) = self.by_number.get_mut(&number) {
            *place = name;
        }
    }

    /// Takes the name of a number away, if it has one. It takes no memory.
    pub fn remove(&mut self, number: u32)
        ensures { (names : Names) → HasNames names self.old → HasNames (with_name number None names) self.new }
    {
        self.by_number.remove(&number);
    }

    // Puts the name that a catalog record has behind others, unless its number has one. A catalog's names are words; were one none,
    // this would run out of memory.
    fn put_named(&mut self, alloc: Global, row: RecordRef<'_>) -> Result<(), AllocError>
        ensures { (catalog : List Row) → HasNames (names_in catalog) self.old → OnOk result (HasNames (names_in (catalog ++ (row.entry.name.now, row.entry.value.now) ∷ [])) self.new) }
    {
        let number = number_of(row.value);
        if self.name(number).is_some() {
            return Ok(());
        }
        let text = row.name.key();
        if !Word::is_word(text) {
            return Err(AllocError);
        }
        let name = Word::from_slice(alloc, text)?;
        self.put(number, name)
    }

    // The names that catalog records have.
    fn named_by(alloc: Global, records: &[RecordRef<'_>]) -> Result<DbNames, AllocError>
        ensures { IfOk result (HasNames (names_in (lent records.now))) }
    {
        let mut names = DbNames::new(alloc);
        for record in records {
            names.put_named(alloc, *record)?;
        }
        Ok(names)
    }

    /// The names of an environment with these trees. Their catalog is read once, where it lies.
    pub fn read<T: Loads>(alloc: Global, trees: &T) -> Result<DbNames, AllocError>
        ensures { IfOk result (HasNames (names_in (values_of (T.stored trees.now 0)))) }
    {
        let records = trees.lend_records(alloc, CATALOG)?;
        DbNames::named_by(alloc, &records)
    }
}
