// Noting the gaps in the files from the redo LSN on.
ghost use Rattle.std.specs.Prelude.{◌≡◌, ◌<◌, ◌==◌, ◌+◌, ◌++◌, ◌∷◌, [], None, Some, OnOk, map, filter, nat_le, if◌then◌else◌};
ghost use Rattle.std.specs.List.Sorted.{IsStrictlyIncreasing};
ghost use Rattle.je_disk.specs.States.{AreRisingNumbers};
ghost use Rattle.check_laws.specs.Parts.{gaps_behind, gaps_in};
ghost use Rattle.check_laws.specs.Check.{gaps_at, gap_finding, redo_findings};

use crate::checkpoint_end::CheckpointEnd;
use crate::images::nowhere;
use check_laws::Finding;
use je_lsn::FileNo;
use je_order::List;
use std::alloc::AllocError;

// Notes the gap between a file and a later one, if there is one.
fn note_between(
    findings: &mut List<Finding>,
    before: FileNo,
    after: FileNo,
) -> Result<(), AllocError>
    requires { before.0 < after.0 }
    ensures { OnOk result (findings.new ≡ findings.old ++ (if after.0 == before.0 + 1 then [] else gap_finding (before.0 + 1, after.0) ∷ [])) }
{
    if after.0 == before.0 + 1 {
        return Ok(());
    }
    findings.push(Finding::Gap {
        first: FileNo(before.0 + 1),
        past: after,
    })?;
    Ok(())
}

// Notes the gaps behind a file, up to the last of these.
fn note_behind(
    findings: &mut List<Finding>,
    file: FileNo,
    rest: &[FileNo],
) -> Result<(), AllocError>
    requires { IsStrictlyIncreasing (file.0 ∷ map (λ f. f.0) rest.now) }
    ensures { OnOk result (findings.new ≡ findings.old ++ map gap_finding (gaps_behind file.0 (map (λ f. f.0) rest.now))) }
{
    let mut last = file;
    for f in rest {
        note_between(findings, last, *f)?;
        last = *f;
    }
    Ok(())
}

// Notes the gaps between these files.
fn note_gaps(findings: &mut List<Finding>, files: &[FileNo]) -> Result<(), AllocError>
    requires { AreRisingNumbers files.now }
    ensures { OnOk result (findings.new ≡ findings.old ++ map gap_finding (gaps_in (map (λ f. f.0) files.now))) }
{
    match files {
        [first, rest @ ..] => note_behind(findings, *first, rest),
        [] => Ok(()),
    }
}

// Notes the gaps from the file of this number on up to the last of these, none of which is lower.
fn note_at(findings: &mut List<Finding>, first: FileNo, files: &[FileNo]) -> Result<(), AllocError>
    requires { AreRisingNumbers files.now }
    ensures { OnOk result (findings.new ≡ findings.old ++ map gap_finding (gaps_at first.0 (map (λ f. f.0) files.now))) }
{
    match files {
        [f, rest @ ..] => {
            if f.0 != first.0 {
                findings.push(Finding::Gap { first, past: *f })?;
            }
            note_behind(findings, *f, rest)
        }
        [] => Ok(()),
    }
}

// Notes the gaps from the file of this number on up to the last of these.
fn note_from(
    findings: &mut List<Finding>,
    first: FileNo,
    files: &[FileNo],
) -> Result<(), AllocError>
    requires { AreRisingNumbers files.now }
    ensures { OnOk result (findings.new ≡ findings.old ++ map gap_finding (gaps_at first.0 (filter (λ n. nat_le first.0 n) (map (λ f. f.0) files.now)))) }
{
    match files {
        [f, rest @ ..] => {
            if f.0 < first.0 {
                note_from(findings, first, rest)
            } else {
                note_at(findings, first, files)
            }
        }
        [] => Ok(()),
    }
}

/// Notes what is wrong with the redo LSN: each gap in the files from its own to the last, or that it is not lower than the end of its
/// checkpoint. Without a checkpoint, each gap between the files.
pub(crate) fn note_redo(
    findings: &mut List<Finding>,
    files: &[FileNo],
    end: &Option<CheckpointEnd>,
) -> Result<(), AllocError>
    requires { AreRisingNumbers files.now }
    ensures { OnOk result (findings.new ≡ findings.old ++ redo_findings (map (λ f. f.0) files.now) end.now) }
{
    let Some(end) = end else {
        return note_gaps(findings, files);
    };
    if end.redo.as_u64() < end.at.as_u64() {
        return note_from(findings, end.redo.file(), files);
    }
    findings.push(Finding::Wrong(nowhere(files, end.redo)))?;
    Ok(())
}
