// The environment that records make.
ghost use Rattle.std.specs.Prelude.{◌≡◌, ℕ, List as Items, None, IfOk, IfErr};
ghost use Rattle.record_map.specs.Cells.{IsRising};
ghost use Rattle.log_trees.specs.Placed.{Placed};
ghost use Rattle.log_meaning.specs.Redo.{Redo};
ghost use Rattle.recovery_je.specs.Recovering.{HoldsRedo, IsSettled, IsFoundBy, IsOtherErr, IsWrong};
ghost use Rattle.recovery_je.specs.Checking.{wrong_lsn_in};
ghost use Rattle.recovery_je.specs.Indexing.{IsIndexCheck};

use crate::OpeningStore;
use crate::checking::{catalog_numbers, wrong_lsn};
use crate::finishing::{count_records, finish};
use crate::indexes::wrong_index;
use crate::read_err::ReadErr;
use je_order::Word;
use log_replay::Corruption;
use record_tree::Loads;
use std::alloc::Global;

/// The trees of an environment, its store, how many databases and records it has, and the first index, if there is
/// one, without the pairs of its primary's records.
#[derive(Drop)]
pub(crate) struct Settled<T: Loads> {
    pub(crate) trees: T,
    pub(crate) opening: OpeningStore<T>,
    pub(crate) databases: u64,
    pub(crate) records: u64,
    pub(crate) wrong_index: Option<Word>,
}

// The environment that right records make.
fn settle_right<T: Loads + Drop>(alloc: Global, trees: T) -> Result<Settled<T>, ReadErr>
    requires right { wrong_lsn_in (T.stored trees) ≡ None }
    requires rising { (d : ℕ) → IsRising (T.stored trees d) }
    ensures settled { (redo : Redo) → HoldsRedo redo (T.stored trees) → IfOk result (λ s. IsSettled redo (T.has_tree s.trees) (T.stored s.trees) s.opening s.databases s.records) }
    ensures fits { (es : Items Placed) (base : ℕ) → T.fits trees es base → IfOk result (λ s. T.fits s.trees es base) }
    ensures index { IfOk result (λ s. IsIndexCheck s.opening s.wrong_index) }
    ensures other { IfErr result IsOtherErr }
{
    let wrong_index = wrong_index(alloc, &trees)?;
    let opening = OpeningStore::of(&trees);
    let numbers = catalog_numbers(alloc, &trees)?;
    let databases = numbers.len() as u64;
    let records = count_records(&trees, &numbers)?;
    let mut trees = trees;
    finish(&mut trees, alloc, numbers)?;
    Ok(Settled {
        trees,
        opening,
        databases,
        records,
        wrong_index,
    })
}

/// The environment that the records of a redo make, or the first one that breaks a rule.
pub(crate) fn settle<T: Loads + Drop>(alloc: Global, trees: T) -> Result<Settled<T>, ReadErr>
    ensures settled { (redo : Redo) → HoldsRedo redo (T.stored trees) → IfOk result (λ s. IsSettled redo (T.has_tree s.trees) (T.stored s.trees) s.opening s.databases s.records) }
    ensures fits { (es : Items Placed) (base : ℕ) → T.fits trees es base → IfOk result (λ s. T.fits s.trees es base) }
    ensures index { IfOk result (λ s. IsIndexCheck s.opening s.wrong_index) }
    ensures found { (redo : Redo) → HoldsRedo redo (T.stored trees) → IfErr result (λ e. IsFoundBy e (IsWrong redo)) }
{
    if let Some(lsn) = wrong_lsn(alloc, &trees)? {
        return Err(ReadErr::Found(Corruption::Tree(lsn)));
    }
    settle_right(alloc, trees)
}
