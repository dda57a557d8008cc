// A check of trees.
ghost use Rattle.std.specs.Prelude.{◌≡◌, OnOk};
ghost use Rattle.log_replay.specs.declared.corruption.Corruption.{Corruption as Wrongness};
ghost use Rattle.check_laws.specs.Noting.{noted};
ghost use Rattle.recovery_je.specs.declared.read_err.ReadErr.TheVariants.{Found};
ghost use Rattle.recovery_je.specs.TreeChecks.{ChecksBy};

use crate::read_err::ReadErr;
use crate::walking::Walking;
use check_laws::Finding;
use je_order::List;
use log_replay::Corruption;
use record_tree::Loads;
use std::alloc::AllocError;

/// A check of trees under way: the trees as they are read, without what is wrong in them, and what was found wrong so far.
#[derive(Drop)]
pub(crate) struct TreeCheck<T> {
    pub(crate) walking: Walking<T>,
    pub(crate) findings: List<Finding>,
}

/// Notes what is wrong.
pub(crate) fn note<T: Loads>(
    check: &mut TreeCheck<T>,
    corruption: Corruption,
) -> Result<(), AllocError>
    ensures { OnOk result (ChecksBy T.stored (noted corruption) check.old check.new) }
{
    check.findings.push(Finding::Wrong(corruption))?;
    Ok(())
}

/// Notes what a reading found wrong.
pub(crate) fn note_failure<T: Loads>(
    check: &mut TreeCheck<T>,
    failure: ReadErr,
) -> Result<(), AllocError>
    ensures { OnOk result ((c : Wrongness) × (failure ≡ Found c) × ChecksBy T.stored (noted c) check.old check.new) }
{
    match failure {
        ReadErr::Memory => Err(AllocError),
        ReadErr::Found(corruption) => note(check, corruption),
    }
}
