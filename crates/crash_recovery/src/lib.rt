//! What a crash leaves of an environment whose log has checkpoints: the store that opening an image of its
//! disk finds. It stands on what a crash keeps of a log and on what a log means. Upward it promises that
//! each image of the disk of a log that grows by transactions means the opening store changed by the first
//! of them, at least as many as the entries that a crash keeps commit; and that a log stays one that may be
//! read again, with LSNs that rise, where entries are appended. Its functions have nothing to do: their
//! contracts are the laws.
#![tactic(auto)]

ghost use Rattle.crash_recovery.specs.Appending.{LogsLieBelow, AppendedRise, LongerIsNamed, LongerRecovers};
ghost use Rattle.crash_recovery.specs.Growth.{StandingRecovers, GrowthRecovers, TriedRecovers};
ghost use Rattle.crash_recovery.specs.Opening.{FoundLogsRecover};
ghost use Rattle.crash_recovery.specs.Laws.{ImagesHoldFirst, ImagesRecover, KeptImagesRecover, StatesRecover, ThroughRecovers, WiderIsRecovered, WrittenRecover, KeptAreWithin, CommitsStay, AllAreCommitted};

use je_disk::Disk;

/// Where no file of a log was removed, an image holds the log's first entries, each at its place, in the
/// log's first files, and nothing is wrong with them but a torn end.
pub fn images_hold_first()
    ensures { ImagesHoldFirst }
{}

/// An image of a log that recovers transactions means the opening store changed by the first of them, at
/// least as many as the entries that a crash keeps have commits of; so does what the disk reads, and so
/// do all images at each moment of a call. What the disk reads means at least those that were written.
pub fn images_recover()
    ensures left { ImagesRecover }
    ensures kept { KeptImagesRecover }
    ensures states { StatesRecover }
    ensures written { WrittenRecover }
    ensures through { ThroughRecovers }
    ensures wider { WiderIsRecovered }
{}

/// How many transactions the first entries of a log commit: as many of a longer one, and all of them commit
/// all.
pub fn commits_are_counted()
    ensures within { KeptAreWithin }
    ensures stay { CommitsStay }
    ensures all { AllAreCommitted }
{}

/// The LSNs of entries that are appended rise behind those of the log, which misses no file still, and
/// recovers what its entries recover.
pub fn longer_logs()
    ensures below { LogsLieBelow }
    ensures rise { AppendedRise }
    ensures named { LongerIsNamed }
    ensures recovers { LongerRecovers }
{}

/// A log that was found, or that is begun, recovers the store that its files mean, and stands as its
/// environment begins.
pub fn found_logs_recover()
    ensures { FoundLogsRecover }
{}

/// The disk of a log buffer, before a call, at each moment of a call that appends entries, and of one
/// that meets a fault, whatever entries were to follow.
pub fn growth_recovers<D: Disk>()
    ensures standing { StandingRecovers D.meaning }
    ensures grew { GrowthRecovers D.meaning }
    ensures tried { TriedRecovers D.meaning }
{}
