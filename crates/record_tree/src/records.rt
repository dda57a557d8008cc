// The records of an environment's trees.
ghost use Rattle.std.specs.Prelude.{◌≡◌, ◌≤◌, ◌==◌, ◌||◌, ◌+◌, ℕ, suc, length, List, [], ◌∷◌, ◌++◌, Option, Some, None, is_some, count_by, Ok, Err, IfOk, OnOk, IfErr, OnErr, IfSome, IsOk, option_map, Bool, true, false, if◌then◌else◌};
ghost use Rattle.je_order.specs.declared.name.Name.{Name};
ghost use Rattle.log_entry.specs.declared.entry.Entry.{Entry};
ghost use Rattle.log_entry.specs.declared.entry.Entry.TheVariants.{Commit};
ghost use Rattle.record_map.specs.Cells.{value_at, IsRising, first_of as first_cell, last_of, from_edge, below_edge, edge_of};
ghost use Rattle.record_tree.specs.declared.tree_err.TreeErr.{TreeErr as Reason};
ghost use Rattle.record_tree.specs.Occupied.{AllCells, occupied_by, write_in, IsFreeFor, AreFewNew, AreWritten, after_commit, after_abort, HasChangedAll, AreSame};
ghost use Rattle.record_tree.specs.declared.tree_change.TreeChange.{TreeChange};
ghost use Rattle.std.specs.List.{AllByRecursion};
ghost use Rattle.log_entry.specs.Body.{IsEntry};
ghost use Rattle.record_tree.specs.Logged.{entry_for, most_entries, LogsChanges, is_made, IsFront, IsEndOf, IsLimit, IsUndone};

use crate::{Lacks, TreeChange, TreeErr, TreeName};
use je_lsn::Lsn;
use je_order::TxnId;
use record_map::{Cell, EdgeRef, SortKey};
use std::alloc::Global;

/// The records of an environment's trees, as transactions read and change them. An implementation names what its
/// cells are, what its log got, and which limit a change would meet.
pub trait Records {
    /// The occupied names of each database with what they have.
    ghost cells: { Self → AllCells };

    /// Whether a database of that number has a tree.
    ghost has_tree: { Self → ℕ → Bool };

    /// The log got these entries between one value and another; it failed with these on the way.
    ghost grew: { Self → Self → List Entry → Type 0 };

    ghost tried: { Self → Self → List Entry → Type 0 };

    /// The limit that changes, with so many Commits owed, would meet.
    ghost limit: { Self → List TreeChange → ℕ → Option Reason };

    /// The log has room for so many Commits.
    ghost has_room: { Self → ℕ → Type 0 };

    /// How many nodes wait for their images: they were split while no entry could be logged.
    ghost waits: { Self → ℕ };

    /// The LSN that the log gives the first of some entries that is no image of a node, if it gets them.
    ghost first_of: { Self → List Entry → Option ℕ };

    /// The cell of the name, where it is occupied, with the name as it is held.
    fn get(&self, db: u32, name: &SortKey) -> Result<Option<(&SortKey, &Cell)>, Lacks>
        ensures name { IfOk result (λ found. IfSome found (λ p. p.0.now ≡ name.now)) }
        ensures found { IfOk result (λ found. option_map (λ p. occupied_by p.1.now) found ≡ value_at name.now (cells self.now db)) }
        ensures here { IsOk result }
        ensures rising { IsRising (cells self.now db) };

    /// The first occupied name that is not below the edge.
    fn next(&self, db: u32, from: EdgeRef<'_>) -> Result<Option<(&SortKey, &Cell)>, Lacks>
        ensures found { IfOk result (λ found. option_map (λ p. (p.0.now, occupied_by p.1.now)) found ≡ first_cell (from_edge (edge_of from.entry) (cells self.now db))) }
        ensures here { IsOk result }
        ensures rising { IsRising (cells self.now db) };

    /// The last occupied name below the edge.
    fn last_below(&self, db: u32, upto: EdgeRef<'_>) -> Result<Option<(&SortKey, &Cell)>, Lacks>
        ensures found { IfOk result (λ found. option_map (λ p. (p.0.now, occupied_by p.1.now)) found ≡ last_of (below_edge (edge_of upto.entry) (cells self.now db))) }
        ensures here { IsOk result }
        ensures rising { IsRising (cells self.now db) };

    /// How many names of a database have committed data. It goes over the occupied names once.
    fn count_records(&self, db: u32) -> usize
        ensures { result ≡ count_by (λ e. is_some e.1.value) (cells self.now db) };

    /// Changes names for the transaction, and logs the changes in order, each behind the images of the nodes that
    /// are split for it. Room for `owed` Commits is left, that of the transaction among them. A database that a
    /// change makes has an empty tree then. An image of a node that waited for it may be among the others. Of the changes of
    /// each database at most one is of a name that is not occupied. It gives the LSN of the first change. An error but Fault leaves all as it was.
    fn write_all(
        &mut self,
        alloc: Global,
        txn: TxnId,
        changes: &[TreeChange],
        owed: u32,
    ) -> Result<Option<Lsn>, TreeErr>
        requires trees { AllByRecursion (λ c. has_tree self.old c.db ≡ true) changes.now }
        requires free { AllByRecursion (λ c. IsFreeFor txn (write_in (value_at c.name (cells self.old c.db)))) changes.now }
        requires few { AreFewNew (cells self.old) changes.now }
        requires new { AllByRecursion (λ c. IfSome c.makes (λ d. has_tree self.old d ≡ false)) changes.now }
        requires entries { AllByRecursion (λ c. IsEntry (entry_for txn c.db c.name c.value)) changes.now }
        ensures cells { OnOk result (AreWritten txn changes.now (cells self.old) (cells self.new)) }
        ensures trees { OnOk result ((d : ℕ) → has_tree self.new d ≡ (is_made d changes.now || has_tree self.old d)) }
        ensures grew { IfOk result (λ first. (entries : List Entry) × LogsChanges txn changes.now entries × grew self.old self.new entries × (length entries + waits self.new ≤ waits self.old + most_entries (length changes.now)) × (first ≡ first_of self.old entries)) }
        ensures left { OnOk result (has_room self.new owed) }
        ensures tried { IsEndOf Reason.Fault result ((entries : List Entry) × (front : List Entry) × LogsChanges txn changes.now entries × IsFront front entries × tried self.old self.new front) }
        ensures limited { IfErr result (λ e. IsLimit e → limit self.old changes.now owed ≡ Some e) }
        ensures room { OnOk result (limit self.old changes.now owed ≡ None) }
        ensures fault_room { IsEndOf Reason.Fault result (limit self.old changes.now owed ≡ None) }
        ensures same { IfErr result (λ e. IsUndone e → AreSame (cells self.old) (cells self.new) × ((d : ℕ) → has_tree self.new d ≡ has_tree self.old d) × grew self.old self.new [] × (waits self.new ≡ waits self.old)) };

    /// Commits the changes of these names, which are those of the transaction, and logs its Commit, for which
    /// there is room. No other transaction has a change of these names. It takes no memory, and the one error is Fault.
    fn commit(&mut self, txn: TxnId, names: &[TreeName]) -> Result<(), TreeErr>
        requires room { (owed : ℕ) × has_room self.old (suc owed) }
        requires own { AllByRecursion (λ n. IsFreeFor txn (write_in (value_at n.name (cells self.old n.db)))) names.now }
        ensures cells { OnOk result (HasChangedAll (cells self.old) (cells self.new) names.now after_commit) }
        ensures grew { OnOk result (grew self.old self.new (Commit txn ∷ [])) }
        ensures left { (owed : ℕ) → has_room self.old (suc owed) → OnOk result (has_room self.new owed) }
        ensures by_fault { IfErr result (λ e. e ≡ Reason.Fault) }
        ensures tried { OnErr result ((front : List Entry) × IsFront front (Commit txn ∷ []) × tried self.old self.new front) }
        ensures trees { (d : ℕ) → has_tree self.new d ≡ has_tree self.old d }
        ensures waits { waits self.new ≡ waits self.old };

    /// Gives the changes of these names up. It takes no memory and logs nothing.
    fn abort(&mut self, names: &[TreeName])
        ensures cells { HasChangedAll (cells self.old) (cells self.new) names.now after_abort }
        ensures grew { grew self.old self.new [] }
        ensures trees { (d : ℕ) → has_tree self.new d ≡ has_tree self.old d }
        ensures waits { waits self.new ≤ waits self.old };

    /// Takes the tree of a database out, with its records. It takes no memory and logs nothing.
    fn drop_db(&mut self, db: u32)
        ensures cells { (d : ℕ) → cells self.new d ≡ (if d == db then [] else cells self.old d) }
        ensures trees { (d : ℕ) → has_tree self.new d ≡ (if d == db then false else has_tree self.old d) }
        ensures grew { grew self.old self.new [] }
        ensures left { (owed : ℕ) → has_room self.old owed → has_room self.new owed }
        ensures waits { waits self.new ≤ waits self.old };

    /// A database without a tree has no records.
    ghost no_cells: { (x : Self) (d : ℕ) → has_tree x d ≡ false → cells x d ≡ [] };

    /// The log gets nothing where nothing happens, and the entries of one step behind those of another.
    ghost grew_none: { (x : Self) → grew x x [] };

    ghost grew_then: { (x y z : Self) (a b : List Entry) → grew x y a → grew y z b → grew x z (a ++ b) };

    ghost tried_then: { (x y z : Self) (a b : List Entry) → grew x y a → tried y z b → tried x z (a ++ b) };
}
