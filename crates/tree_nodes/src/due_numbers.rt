// The numbers of the due nodes of a level, by their places.
ghost use Rattle.std.specs.Prelude.{◌≡◌, ◌<◌, ◌≤◌, ◌++◌, ◌∷◌, ℕ, [], None, Option, length, set, slice_index_or, true, vec_len, vec_capacity, OnOk};
ghost use Rattle.tree_nodes.specs.Due.{AreLeast, AreLeastBut, IsLeastOf, count_numbers, least_at, lesser, number_in};

use std::alloc::{AllocError, Global};
use std::marker::Model;

/// The numbers of nodes, each at its node's place, seen as their list: None where a node is not due. Which is the least is known at once,
/// and to set one takes as many steps as the count of places can be halved.
#[derive(Drop)]
pub(crate) struct DueNumbers {
    /// The number of each place.
    numbers: Vec<Option<u64>>,
    /// For each place i the least of its number and of those that stand here at the places 2i + 1 and 2i + 2, with its place.
    least: Vec<Option<(u64, usize)>>,
    /// How many places have a number.
    count: usize,
}

impl Model for DueNumbers {
    ghost use Rattle.std.specs.Prelude.{ℕ, List as Items, Option as Maybe};
    ghost use Rattle.tree_nodes.specs.Due.{AreLeastKept};

    ghost Value = { Items (Maybe ℕ) };

    ghost view = { λ a. a.numbers.items };

    ghost invariant = { λ a. AreLeastKept a.numbers.items a.least.items a.count };
}

// The lesser of two numbers with their places, where there are both.
fn lesser(a: Option<(u64, usize)>, b: Option<(u64, usize)>) -> Option<(u64, usize)>
    ensures { result ≡ lesser a b }
{
    let Some((number, _)) = a else { return b };
    match b {
        Some((other, _)) if other < number => b,
        _ => a,
    }
}

// The number with its place at a place, and None behind the last.
fn at(least: &[Option<(u64, usize)>], place: usize) -> Option<(u64, usize)>
    ensures { result ≡ slice_index_or least.now place None }
{
    if place < least.len() {
        return least[place];
    }
    None
}

// The least of a place's number and of what stands at the two places below it.
fn least_at(
    numbers: &[Option<u64>],
    least: &[Option<(u64, usize)>],
    place: usize,
) -> Option<(u64, usize)>
    requires within { place < length numbers.now }
    requires same { length least.now ≡ length numbers.now }
    ensures { result ≡ least_at numbers.now least.now place }
{
    let below = lesser(at(least, 2 * place + 1), at(least, 2 * place + 2));
    match numbers[place] {
        Some(number) => lesser(Some((number, place)), below),
        None => below,
    }
}

// Sets what stands at a place and at those above it, where all others are right.
fn settle(numbers: &[Option<u64>], least: &mut [Option<(u64, usize)>], place: usize)
    requires within { place < length least.old }
    requires others { AreLeastBut place numbers.now least.old }
    ensures { AreLeast numbers.now least.new }
{
    let found = least_at(numbers, least, place);
    least[place] = found;
    if place > 0 {
        settle(numbers, least, (place - 1) / 2);
    }
}

// Whether two numbers are the same, or none is there.
fn is_same(a: Option<u64>, b: Option<u64>) -> bool
    ensures { result ≡ true → a ≡ b }
{
    match a {
        Some(number) => match b {
            Some(other) => number == other,
            None => false,
        },
        None => b.is_none(),
    }
}

// How many numbers there are once that of a place is set.
fn recount(numbers: &[Option<u64>], count: usize, place: usize, number: Option<u64>) -> usize
    requires within { place < length numbers.now }
    requires count { count ≡ count_numbers numbers.now }
    ensures { result ≡ count_numbers (set numbers.now place number) }
{
    match numbers[place] {
        Some(_) => match number {
            Some(_) => count,
            None => count - 1,
        },
        None => match number {
            Some(_) => count + 1,
            None => count,
        },
    }
}

// Puts a place without a number behind the others, for which there is room.
fn push_none(numbers: &mut Vec<Option<u64>>, least: &mut Vec<Option<(u64, usize)>>)
    requires room { vec_len numbers.old < vec_capacity numbers.old }
    requires room_of_least { vec_len least.old < vec_capacity least.old }
    ensures numbers { numbers.new.items ≡ numbers.old.items ++ None ∷ [] }
    ensures least { least.new.items ≡ least.old.items ++ None ∷ [] }
{
    match numbers.push(None) {
        Ok(()) => {}
        Err(failed) => drop(failed),
    }
    match least.push(None) {
        Ok(()) => {}
        Err(failed) => drop(failed),
    }
}

impl DueNumbers {
    /// No places. It takes no memory.
    pub(crate) fn new(alloc: Global) -> DueNumbers
        ensures { result ≡ [] }
    {
        DueNumbers {
            numbers: Vec::new(alloc),
            least: Vec::new(alloc),
            count: 0,
        }
    }

    /// Has the place among its own, with no number where it is a new one. Running out of memory changes nothing.
    pub(crate) fn cover(&mut self, place: usize) -> Result<(), AllocError>
        requires { place ≤ length self.old }
        ensures same { (i : ℕ) → number_in self.new i ≡ number_in self.old i }
        ensures longer { length self.old ≤ length self.new }
        ensures there { OnOk result (place < length self.new) }
    {
        let DueNumbers {
            numbers,
            least,
            count: _,
        } = self;
        if place < numbers.as_slice().len() {
            return Ok(());
        }
        numbers.reserve(1)?;
        least.reserve(1)?;
        push_none(numbers, least);
        Ok(())
    }

    /// Sets the number of a place. It takes no memory.
    pub(crate) fn set(&mut self, place: usize, number: Option<u64>)
        requires { place < length self.old }
        ensures { self.new ≡ set self.old place number }
    {
        let DueNumbers {
            numbers,
            least,
            count,
        } = self;
        if is_same(numbers[place], number) {
            return;
        }
        *count = recount(numbers.as_slice(), *count, place, number);
        numbers[place] = number;
        settle(numbers.as_slice(), least.as_mut_slice(), place);
    }

    /// The place of the least number; None where there is no number.
    pub(crate) fn least(&self) -> Option<usize>
        ensures { IsLeastOf self.now result }
    {
        let DueNumbers {
            numbers: _,
            least,
            count: _,
        } = self;
        match at(least.as_slice(), 0) {
            Some((_, place)) => Some(place),
            None => None,
        }
    }

    /// How many places have a number.
    pub(crate) fn count(&self) -> usize
        ensures { result ≡ count_numbers self.now }
    {
        self.count
    }
}
