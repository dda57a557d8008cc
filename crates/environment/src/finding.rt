// Finding a database by its name.
ghost use Rattle.std.specs.Prelude.{◌≡◌, ℕ, None, find, is_some, option_map};
ghost use Rattle.je_disk.specs.Moments.{now};
ghost use Rattle.je_order.specs.Order.{is_same_bytes};
ghost use Rattle.store_model.specs.Store.{database_of};
ghost use Rattle.je_answers.specs.Standing.{Standing};
ghost use Rattle.log_replay.specs.Rows.{catalog_index, catalog_kind, catalog_number};
ghost use Rattle.txn_core.specs.Known.{committed};
ghost use Rattle.environment.specs.Databases.{IsFoundIn, rows_held};
ghost use Rattle.environment.specs.Whole.{IsAt, disk_of};

use crate::environment::Environment;
use crate::found_database::FoundDatabase;
use db_catalog::CATALOG;
use je_disk::Disk;
use je_order::{Word, cmp_bytes};
use log_replay::{index_of, kind_of, number_of};
use record_map::{Data, EdgeRef};
use record_tree::Records;
use txn_core::reading::next;

fn is_same(a: &[u8], b: &[u8]) -> bool
    ensures { result ≡ is_same_bytes a.now b.now }
{
    cmp_bytes(a, b).is_eq()
}

// The catalog's record of a database of that name. It goes over the catalog.
fn find_row<'a, T: Records>(trees: &'a T, name: &Word) -> Option<&'a Data>
    ensures { option_map (λ d. d.now) result ≡ option_map (λ r. r.1) (find (λ r. is_same_bytes r.0.key name.now) (committed (T.cells trees.now) 0)) }
{
    let mut from = EdgeRef::First;
    'catalog: while let Some((at, held)) = next(trees, CATALOG, from) {
        if is_same(at.key(), name.as_slice()) {
            return Some(held);
        }
        from = EdgeRef::Behind(at);
    }
    None
}

// What a record of the catalog tells.
fn found_by(held: &[u8]) -> FoundDatabase
    ensures number { result.number ≡ catalog_number held.now }
    ensures kind { result.kind ≡ catalog_kind held.now }
    ensures index { result.is_index ≡ is_some (catalog_index held.now) }
{
    FoundDatabase {
        number: number_of(held),
        kind: kind_of(held),
        is_index: index_of(held).is_some(),
    }
}

impl<D: Disk> Environment<D> {
    /// The database of that name in the committed store, until a fault came; None exactly where there is none. It takes
    /// no memory, and the time of a walk over the names of the databases.
    pub fn find_database(&self, name: &Word) -> Option<FoundDatabase>
        ensures { (most : ℕ) (st : Standing) → IsAt most D.meaning.observable (now (D.meaning.history (disk_of self.now))) self.now st → st.fault ≡ None
            → IsFoundIn (rows_held self.now) (database_of name.now st.store) result }
    {
        match find_row(&self.engine.trees, name) {
            Some(held) => Some(found_by(held.as_slice())),
            None => None,
        }
    }
}
