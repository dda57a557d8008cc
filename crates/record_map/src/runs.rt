// Bounds of how many cells there are in runs of names.
ghost use Rattle.std.specs.Prelude.{◌≡◌, ◌<◌, [], ℕ, true, length, Some, List as Entries, option_copied};
ghost use Rattle.std.specs.BTreeMap.{insert_entry};
ghost use Rattle.je_order.specs.Order.{name_cmp};
ghost use Rattle.je_order.specs.Edges.Edge.{At};
ghost use Rattle.je_order.specs.declared.name.Name.{Name};
ghost use Rattle.record_map.specs.declared.cell.Cell.{Cell};
ghost use Rattle.record_map.specs.Cells.{value_at, between_edges, upper_edge};
ghost use Rattle.record_map.specs.Runs.{AreRuns, FindsRun, IsBound, IsEnd};

use crate::SortKey;
use std::alloc::{AllocError, Global};
use std::collections::BTreeMap;
use std::ops::Bound;

/// Runs of names, each from its low on and below the next run's low, with a bound of how many cells are in it. A low has the
/// place of its run's bound. A run that is noted again gets another place.
#[derive(Drop)]
pub(crate) struct Runs {
    /// The places, by the lows.
    pub lows: BTreeMap<SortKey, usize>,
    /// The bounds, by their places.
    pub bounds: Vec<usize>,
}

// The place of the run that the name lies in, if there is one.
fn place_over(lows: &BTreeMap<SortKey, usize>, name: &SortKey) -> Option<usize>
    ensures { FindsRun lows.now.entries name.now result }
{
    let mut below = lows.range((Bound::Unbounded, Bound::Included(name)));
    match below.next_back() {
        Some((_low, place)) => Some(*place),
        None => None,
    }
}

// The first low above another one, if there is one.
fn low_behind<'a>(lows: &'a BTreeMap<SortKey, usize>, low: &SortKey) -> Option<&'a SortKey>
    ensures { IsEnd lows.entry.now.entries low.now (option_copied result) }
{
    let mut above = lows.range((Bound::Excluded(low), Bound::Unbounded));
    match above.next() {
        Some((high, _place)) => Some(high),
        None => None,
    }
}

// Whether two ends of a run are the same.
fn is_same_end(a: Option<&SortKey>, b: Option<&SortKey>) -> bool
    ensures { result ≡ true → option_copied a.entry ≡ option_copied b.entry }
{
    match (a, b) {
        (Some(a), Some(b)) => a == b,
        (None, None) => true,
        _ => false,
    }
}

impl Runs {
    /// No runs. It takes no memory.
    pub(crate) fn new(alloc: Global) -> Runs
        ensures { result.lows.entries ≡ [] }
    {
        Runs {
            lows: BTreeMap::new(alloc),
            bounds: Vec::new(alloc),
        }
    }

    /// Raises the bound of the run that the name lies in, for a cell that it gets. It takes no memory.
    pub(crate) fn count_name(&mut self, name: &SortKey)
        requires { (low : Name) (place : ℕ) → value_at low self.old.lows.entries ≡ Some place → place < length self.old.bounds.items }
        ensures same { (cells : Entries (Name × Cell)) → AreRuns self.old.lows.entries self.old.bounds.items cells → AreRuns self.new.lows.entries self.new.bounds.items cells }
        ensures more { (cells : Entries (Name × Cell)) (cell : Cell) → AreRuns self.old.lows.entries self.old.bounds.items cells → AreRuns self.new.lows.entries self.new.bounds.items (insert_entry name_cmp cells name.now cell) }
    {
        let Runs { lows, bounds } = self;
        let place = match place_over(lows, name) {
            Some(place) => place,
            None => return,
        };
        match bounds[place].checked_add(1) {
            Some(more) => bounds[place] = more,
            None => lows.clear(),
        }
    }

    /// Where the run with the low ends; None where it has no end.
    pub(crate) fn end_of(&self, low: &SortKey) -> Option<&SortKey>
        ensures { IsEnd self.now.lows.entries low.now (option_copied result) }
    {
        low_behind(&self.lows, low)
    }

    /// Whether there is a run with the low that ends at `high`, and its bound is below the number.
    pub(crate) fn is_below(&self, low: &SortKey, high: Option<&SortKey>, count: usize) -> bool
        requires { (low : Name) (place : ℕ) → value_at low self.now.lows.entries ≡ Some place → place < length self.now.bounds.items }
        ensures { result ≡ true → (cells : Entries (Name × Cell)) → AreRuns self.now.lows.entries self.now.bounds.items cells → length (between_edges (At low.now) (upper_edge (option_copied high.entry)) cells) < count }
    {
        let Runs { lows, bounds } = self;
        let Some(place) = lows.get(low) else {
            return false;
        };
        if bounds[*place] >= count {
            return false;
        }
        is_same_end(low_behind(lows, low), high)
    }

    /// Notes the run with the low, which has at most so many cells. Running out of memory changes no run.
    pub(crate) fn put(&mut self, low: SortKey, bound: usize) -> Result<(), AllocError>
        ensures { (cells : Entries (Name × Cell)) → AreRuns self.old.lows.entries self.old.bounds.items cells → IsBound self.old.lows.entries low bound cells → AreRuns self.new.lows.entries self.new.bounds.items cells }
    {
        let Runs { lows, bounds } = self;
        let place = bounds.as_slice().len();
        bounds.push(bound)?;
        drop(lows.insert(low, place)?);
        Ok(())
    }
}
