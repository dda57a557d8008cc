// The cells of one database.
ghost use Rattle.std.specs.Prelude.{◌≡◌, ℕ, [], length, Option, None, Some, IsSome, IfSome, IfOk, IfErr, OnOk, OnErr, option_and_then, option_map, option_copied, if◌then◌else◌};
ghost use Rattle.std.specs.Ordering.{is_eq};
ghost use Rattle.std.specs.declared.cmp.Ordering.TheVariants.{Less};
ghost use Rattle.std.specs.Map.{set_value, remove_entry};
ghost use Rattle.std.specs.BTreeMap.{is_at, insert_entry};
ghost use Rattle.je_order.specs.Order.{name_cmp};
ghost use Rattle.je_order.specs.Edges.Edge.{At};
ghost use Rattle.je_order.specs.declared.name.Name.{Name};
ghost use Rattle.record_map.specs.Cells.{value_at, IsRising, first_of, last_of, from_edge, below_edge, between_edges, change_at, count_if, is_as_shown, edge_of, upper_edge, with_version, with_write, committed};

use crate::runs::Runs;
use crate::{Cell, CommittedChange, Data, EdgeRef, SortKey, Write};
use je_lsn::Lsn;
use node_core::Version;
use std::alloc::{AllocError, Global};
use std::collections::BTreeMap;
use std::collections::btree_map::Range;
use std::marker::Model;
use std::ops::Bound;

/// The cells of one database, seen as the list of their names and cells, in which names rise.
#[derive(Drop)]
pub struct Cells {
    cells: BTreeMap<SortKey, Cell>,
    runs: Runs,
}

impl Model for Cells {
    ghost use Rattle.std.specs.Prelude.{List};
    ghost use Rattle.je_order.specs.declared.name.Name.{Name};
    ghost use Rattle.record_map.specs.declared.cell.Cell.{Cell as Held};
    ghost use Rattle.record_map.specs.Cells.{IsRising};
    ghost use Rattle.record_map.specs.Runs.{AreRuns};

    ghost Value = { List (Name × Held) };

    ghost view = { λ a. a.cells.entries };

    ghost invariant = { λ a. IsRising a.cells.entries × AreRuns a.runs.lows.entries a.runs.bounds.items a.cells.entries };
}

// How many cells there are from a name on and below another one, or to the end.
fn count_in(cells: &BTreeMap<SortKey, Cell>, low: &SortKey, high: Option<&SortKey>) -> usize
    requires { IfSome high (λ h. name_cmp low.now h.now ≡ Less) }
    ensures { result ≡ length (between_edges (At low.now) (upper_edge (option_copied high.entry)) cells.now.entries) }
{
    let end = match high {
        Some(name) => Bound::Excluded(name),
        None => Bound::Unbounded,
    };
    cells.range((Bound::Included(low), end)).count()
}

// Gives the name's cell another change, or none.
fn write_in(cells: &mut BTreeMap<SortKey, Cell>, name: &SortKey, write: Option<Box<Write>>)
    requires { IsSome (value_at name.now cells.old.entries) }
    ensures list { (c : _) → value_at name.now cells.old.entries ≡ Some c → cells.new.entries ≡ set_value (is_at (name_cmp name.now)) cells.old.entries (with_write write c) }
    ensures others { (x : Name) → value_at x cells.new.entries ≡ (if is_eq (name_cmp name.now x) then option_map (with_write write) (value_at name.now cells.old.entries) else value_at x cells.old.entries) }
    ensures rising { IsRising cells.new.entries }
{
    match cells.get_mut(name) {
        Some(cell) => cell.write = write,
        None => drop(write),
    }
}

// Commits a version with its data for the name's cell.
fn set_version_in(
    cells: &mut BTreeMap<SortKey, Cell>,
    name: &SortKey,
    version: Version,
    data: Data,
    at: Lsn,
    last: &Option<Lsn>,
)
    requires { IsSome (value_at name.now cells.old.entries) }
    ensures list { (c : _) → value_at name.now cells.old.entries ≡ Some c → cells.new.entries ≡ set_value (is_at (name_cmp name.now)) cells.old.entries (with_version version «data» at last.now c) }
    ensures others { (x : Name) → value_at x cells.new.entries ≡ (if is_eq (name_cmp name.now x) then option_map (with_version version «data» at last.now) (value_at name.now cells.old.entries) else value_at x cells.old.entries) }
    ensures rising { IsRising cells.new.entries }
{
    match cells.get_mut(name) {
        Some(cell) => cell.set_version(version, data, at, last),
        None => drop(data),
    }
}

// Commits a version with its data for the name's cell, and says whether the last image of its BIN says that. It gives the data back where the
// name has no cell.
fn give_version_in(
    cells: &mut BTreeMap<SortKey, Cell>,
    name: &SortKey,
    version: &Version,
    data: Data,
    at: Lsn,
    last: &Option<Lsn>,
) -> Result<bool, Data>
    ensures given { OnOk result (IsSome (value_at name.now cells.old.entries)) }
    ensures list { OnOk result ((c : _) → value_at name.now cells.old.entries ≡ Some c → cells.new.entries ≡ set_value (is_at (name_cmp name.now)) cells.old.entries (with_version version.now «data» at last.now c)) }
    ensures others { OnOk result ((x : Name) → value_at x cells.new.entries ≡ (if is_eq (name_cmp name.now x) then option_map (with_version version.now «data» at last.now) (value_at name.now cells.old.entries) else value_at x cells.old.entries)) }
    ensures shown { IfOk result (λ shown. option_map (is_as_shown last.now) (value_at name.now cells.new.entries) ≡ Some shown) }
    ensures back { IfErr result (λ d. d ≡ «data») }
    ensures absent { OnErr result (value_at name.now cells.old.entries ≡ None) }
    ensures same { OnErr result (cells.new.entries ≡ cells.old.entries) }
    ensures rising { IsRising cells.new.entries }
{
    match cells.get_mut(name) {
        Some(cell) => {
            cell.set_version(*version, data, at, last);
            Ok(cell.is_as_shown(last))
        }
        None => Err(data),
    }
}

// Commits the change of the name's cell, if it has one, and gives where that was logged.
fn commit_change_in(
    cells: &mut BTreeMap<SortKey, Cell>,
    name: &SortKey,
    at: Lsn,
    last: &Option<Lsn>,
) -> Option<CommittedChange>
    ensures from { option_map (λ r. r.from) result ≡ option_and_then change_at (value_at name.now cells.old.entries) }
    ensures given { IfSome result (λ r. IsSome (value_at name.now cells.old.entries)) }
    ensures shown { IfSome result (λ r. option_map (is_as_shown last.now) (value_at name.now cells.new.entries) ≡ Some r.is_shown) }
    ensures list { IfSome result (λ r. (c : _) → value_at name.now cells.old.entries ≡ Some c → cells.new.entries ≡ set_value (is_at (name_cmp name.now)) cells.old.entries (committed at last.now c)) }
    ensures others { IfSome result (λ r. (x : Name) → value_at x cells.new.entries ≡ (if is_eq (name_cmp name.now x) then option_map (committed at last.now) (value_at name.now cells.old.entries) else value_at x cells.old.entries)) }
    ensures same { result ≡ None → cells.new.entries ≡ cells.old.entries }
    ensures rising { IsRising cells.new.entries }
{
    match cells.get_mut(name) {
        Some(cell) => match cell.written() {
            Some(from) => {
                cell.commit(at, last);
                Some(CommittedChange {
                    from,
                    is_shown: cell.is_as_shown(last),
                })
            }
            None => None,
        },
        None => None,
    }
}

impl Cells {
    /// No cells. It takes no memory.
    pub fn new(alloc: Global) -> Cells
        ensures { result ≡ [] }
    {
        Cells {
            cells: BTreeMap::new(alloc),
            runs: Runs::new(alloc),
        }
    }

    pub fn len(&self) -> usize
        ensures value { result ≡ length self.now }
        ensures rising { IsRising self.now }
    {
        self.cells.len()
    }

    /// The cell of the name, and None where it has none.
    pub fn get(&self, name: &SortKey) -> Option<&Cell>
        ensures { option_copied result ≡ value_at name.now self.now }
    {
        self.cells.get(name)
    }

    /// The cell of the name, with the name as it is held, and None where it has none.
    pub fn get_key_value(&self, name: &SortKey) -> Option<(&SortKey, &Cell)>
        ensures name { IfSome result (λ p. p.0.now ≡ name.now) }
        ensures cell { option_map (λ p. p.1.now) result ≡ value_at name.now self.now }
    {
        self.cells.get_key_value(name)
    }

    #[tactic(auto, using(crate::proofs::EdgeLaws::none_from_end))]
    /// The first cell that is not below the edge, with its name.
    pub fn next(&self, from: EdgeRef<'_>) -> Option<(&SortKey, &Cell)>
        ensures found { option_map (λ p. (p.0.now, p.1.now)) result ≡ first_of (from_edge (edge_of from.entry) self.now) }
        ensures rising { IsRising self.now }
    {
        let Cells { cells, runs: _ } = self;
        let start = match from {
            EdgeRef::First => Bound::Unbounded,
            EdgeRef::At(name) => Bound::Included(name),
            EdgeRef::Behind(name) => Bound::Excluded(name),
            EdgeRef::End => return None,
        };
        cells.range((start, Bound::Unbounded)).next()
    }

    #[tactic(auto, using(crate::proofs::EdgeLaws::none_below_first, crate::proofs::EdgeLaws::last_is))]
    /// The last cell that is below the edge, with its name.
    pub fn last_below(&self, upto: EdgeRef<'_>) -> Option<(&SortKey, &Cell)>
        ensures found { option_map (λ p. (p.0.now, p.1.now)) result ≡ last_of (below_edge (edge_of upto.entry) self.now) }
        ensures rising { IsRising self.now }
    {
        let Cells { cells, runs: _ } = self;
        let end = match upto {
            EdgeRef::First => return None,
            EdgeRef::At(name) => Bound::Excluded(name),
            EdgeRef::Behind(name) => Bound::Included(name),
            EdgeRef::End => Bound::Unbounded,
        };
        cells.range((Bound::Unbounded, end)).next_back()
    }

    /// The cells from a name on and below another one, or to the end.
    pub fn between(&self, low: &SortKey, high: Option<&SortKey>) -> Range<'_, SortKey, Cell>
        requires { IfSome high (λ h. name_cmp low.now h.now ≡ Less) }
        ensures cells { result ≡ between_edges (At low.now) (upper_edge (option_copied high.entry)) self.now }
        ensures rising { IsRising self.now }
    {
        let Cells { cells, runs: _ } = self;
        let end = match high {
            Some(name) => Bound::Excluded(name),
            None => Bound::Unbounded,
        };
        cells.range((Bound::Included(low), end))
    }

    #[tactic(auto, using(crate::proofs::EdgeLaws::nothing_from_end))]
    /// The cells from an edge on; None where that is the end.
    pub fn iter_from(&self, from: EdgeRef<'_>) -> Option<Range<'_, SortKey, Cell>>
        ensures cells { IfSome result (λ found. found ≡ from_edge (edge_of from.entry) self.now) }
        ensures none { result ≡ None → from_edge (edge_of from.entry) self.now ≡ [] }
        ensures rising { IsRising self.now }
    {
        let Cells { cells, runs: _ } = self;
        let start = match from {
            EdgeRef::First => Bound::Unbounded,
            EdgeRef::At(low) => Bound::Included(low),
            EdgeRef::Behind(low) => Bound::Excluded(low),
            EdgeRef::End => return None,
        };
        Some(cells.range((start, Bound::Unbounded)))
    }

    #[tactic(auto, using(crate::proofs::EdgeLaws::nothing_below_first))]
    /// The cells below an edge; None where that is the first one.
    pub fn iter_below(&self, upto: EdgeRef<'_>) -> Option<Range<'_, SortKey, Cell>>
        ensures cells { IfSome result (λ found. found ≡ below_edge (edge_of upto.entry) self.now) }
        ensures none { result ≡ None → below_edge (edge_of upto.entry) self.now ≡ [] }
        ensures rising { IsRising self.now }
    {
        let Cells { cells, runs: _ } = self;
        let end = match upto {
            EdgeRef::First => return None,
            EdgeRef::At(high) => Bound::Excluded(high),
            EdgeRef::Behind(high) => Bound::Included(high),
            EdgeRef::End => Bound::Unbounded,
        };
        Some(cells.range((Bound::Unbounded, end)))
    }

    /// How many cells there are from a name on and below another one, or to the end. It goes over these.
    pub fn count_between(&self, low: &SortKey, high: Option<&SortKey>) -> usize
        requires { IfSome high (λ h. name_cmp low.now h.now ≡ Less) }
        ensures { result ≡ length (between_edges (At low.now) (upper_edge (option_copied high.entry)) self.now) }
    {
        let Cells { cells, runs: _ } = self;
        count_in(cells, low, high)
    }

    /// How many cells there are from a name on and below another one, or to the end, where there are at least `least`. It goes over
    /// these cells, unless a run was noted from the first name to the other one and has fewer for sure.
    pub fn count_if(&self, low: &SortKey, high: Option<&SortKey>, least: usize) -> Option<usize>
        requires { IfSome high (λ h. name_cmp low.now h.now ≡ Less) }
        ensures { result ≡ count_if least (length (between_edges (At low.now) (upper_edge (option_copied high.entry)) self.now)) }
    {
        let Cells { cells, runs } = self;
        if runs.is_below(low, high, least) {
            return None;
        }
        let count = count_in(cells, low, high);
        if count < least {
            return None;
        }
        Some(count)
    }

    /// Notes a run of names, from the low on and below the next low that was noted, so that `count_if` need not go over its
    /// cells. Running out of memory notes nothing.
    pub fn note_run(&mut self, low: SortKey)
        ensures { self.new ≡ self.old }
    {
        let Cells { cells, runs } = self;
        let count = count_in(cells, &low, runs.end_of(&low));
        match runs.put(low, count) {
            Ok(()) => {}
            Err(failed) => drop(failed),
        }
    }

    /// Puts the cell under the name, in place of the one that is there. Running out of memory changes
    /// nothing, and does not come where the name has a cell.
    pub fn insert(&mut self, name: SortKey, cell: Cell) -> Result<(), AllocError>
        ensures ok { OnOk result (self.new ≡ insert_entry name_cmp self.old name cell) }
        ensures others { OnOk result ((x : Name) → value_at x self.new ≡ (if is_eq (name_cmp name x) then Some cell else value_at x self.old)) }
        ensures err { OnErr result (self.new ≡ self.old) }
        ensures absent { OnErr result (value_at name self.old ≡ None) }
        ensures rising { IsRising self.new }
    {
        let Cells { cells, runs } = self;
        runs.count_name(&name);
        drop(cells.insert(name, cell)?);
        Ok(())
    }

    /// Takes the cell of the name out, where there is one. It takes no memory.
    pub fn remove(&mut self, name: &SortKey)
        ensures list { self.new ≡ remove_entry (is_at (name_cmp name.now)) self.old }
        ensures others { (x : Name) → value_at x self.new ≡ (if is_eq (name_cmp name.now x) then None else value_at x self.old) }
        ensures rising { IsRising self.new }
    {
        let Cells { cells, runs: _ } = self;
        drop(cells.remove(name));
    }

    /// Gives the name's cell another change, or none. It takes no memory.
    pub fn set_write(&mut self, name: &SortKey, write: Option<Box<Write>>)
        requires { IsSome (value_at name.now self.old) }
        ensures list { (c : _) → value_at name.now self.old ≡ Some c → self.new ≡ set_value (is_at (name_cmp name.now)) self.old (with_write write c) }
        ensures others { (x : Name) → value_at x self.new ≡ (if is_eq (name_cmp name.now x) then option_map (with_write write) (value_at name.now self.old) else value_at x self.old) }
        ensures rising { IsRising self.new }
    {
        let Cells { cells, runs: _ } = self;
        write_in(cells, name, write);
    }

    /// Commits a version with its data for the name's cell, by the Commit at `at`. The last image of the
    /// cell's BIN is at `last`. It takes no memory.
    pub fn set_version(
        &mut self,
        name: &SortKey,
        version: Version,
        data: Data,
        at: Lsn,
        last: &Option<Lsn>,
    )
        requires { IsSome (value_at name.now self.old) }
        ensures list { (c : _) → value_at name.now self.old ≡ Some c → self.new ≡ set_value (is_at (name_cmp name.now)) self.old (with_version version «data» at last.now c) }
        ensures others { (x : Name) → value_at x self.new ≡ (if is_eq (name_cmp name.now x) then option_map (with_version version «data» at last.now) (value_at name.now self.old) else value_at x self.old) }
        ensures rising { IsRising self.new }
    {
        let Cells { cells, runs: _ } = self;
        set_version_in(cells, name, version, data, at, last);
    }

    /// Commits a version with its data for the name's cell, by the Commit at `at`, and says whether the last image of the cell's BIN, which is
    /// at `last`, says that. Where the name has no cell it changes nothing, and gives the data back. It takes no memory.
    pub fn give_version(
        &mut self,
        name: &SortKey,
        version: &Version,
        data: Data,
        at: Lsn,
        last: &Option<Lsn>,
    ) -> Result<bool, Data>
        ensures given { OnOk result (IsSome (value_at name.now self.old)) }
        ensures others { OnOk result ((x : Name) → value_at x self.new ≡ (if is_eq (name_cmp name.now x) then option_map (with_version version.now «data» at last.now) (value_at name.now self.old) else value_at x self.old)) }
        ensures shown { IfOk result (λ shown. option_map (is_as_shown last.now) (value_at name.now self.new) ≡ Some shown) }
        ensures back { IfErr result (λ d. d ≡ «data») }
        ensures absent { OnErr result (value_at name.now self.old ≡ None) }
        ensures same { OnErr result (self.new ≡ self.old) }
        ensures rising { IsRising self.new }
    {
        let Cells { cells, runs: _ } = self;
        give_version_in(cells, name, version, data, at, last)
    }

    /// Commits the change of the name's cell, if it has one, by the Commit at `at`. It gives where the change was logged, and whether the
    /// last image of the cell's BIN, which is at `last`, says what is committed then. It takes no memory.
    pub fn commit_change(
        &mut self,
        name: &SortKey,
        at: Lsn,
        last: &Option<Lsn>,
    ) -> Option<CommittedChange>
        ensures from { option_map (λ r. r.from) result ≡ option_and_then change_at (value_at name.now self.old) }
        ensures given { IfSome result (λ r. IsSome (value_at name.now self.old)) }
        ensures shown { IfSome result (λ r. option_map (is_as_shown last.now) (value_at name.now self.new) ≡ Some r.is_shown) }
        ensures others { IfSome result (λ r. (x : Name) → value_at x self.new ≡ (if is_eq (name_cmp name.now x) then option_map (committed at last.now) (value_at name.now self.old) else value_at x self.old)) }
        ensures same { result ≡ None → self.new ≡ self.old }
        ensures rising { IsRising self.new }
    {
        let Cells { cells, runs: _ } = self;
        commit_change_in(cells, name, at, last)
    }
}
