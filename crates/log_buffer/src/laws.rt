// What holds of all logs that entries are appended to.
ghost use Rattle.log_buffer.specs.Chance.{AppendedAreFound, CutIsFound, CutsKeep, KeptIsLeft, OnceReadIsFound, PastIsHeld, ReadsHaveNoChance};
ghost use Rattle.log_buffer.specs.Growth.{GrewNone, GrewUnchanged, GrewThen, TriedThen, TriedMore};
ghost use Rattle.log_buffer.specs.Laws.{AppendedIsLast, AppendedIsPlaced, AppendedArePlaced, AreBounded, NeverFalls, AppendsJoin};
ghost use Rattle.log_buffer.specs.Written.{AllAreWritten, WrittenAreFirst, WrittenGrow, WrittenStay};
ghost use Rattle.log_buffer.specs.Zeros.{ZerosAreFound, ZerosAreTorn};

use je_disk::Disk;

/// An entry that is appended is the log's last one, and stands where it was placed: of the entries with their
/// LSNs it is the last one. So are several.
pub fn entries_go_last()
    ensures last { AppendedIsLast }
    ensures placed { AppendedIsPlaced }
    ensures all { AppendedArePlaced }
{}

/// Where nothing happens a log gets nothing; it gets the entries of one call and behind them those of the
/// next, also where that one meets a fault, whatever was to follow.
pub fn logs_grow<D: Disk>()
    ensures none { GrewNone D.meaning }
    ensures unchanged { GrewUnchanged D.meaning }
    ensures grew { GrewThen D.meaning }
    ensures tried { TriedThen D.meaning }
    ensures more { TriedMore D.meaning }
{}

/// A file is longer than the greatest size only where it holds one entry behind its header; the last
/// file's number never falls; and appends of some entries and then of others are appends of all.
pub fn files_are_bounded()
    ensures bounded { AreBounded }
    ensures rises { NeverFalls }
    ensures joins { AppendsJoin }
{}

/// What a crash keeps of a log is in each image of the disk where no checksum matches by chance: where each
/// file's valid prefix consists of the first entries of what the disk once read there. An image meets this
/// where each of its files does: one that is as it once was, which may have been removed since; one that was
/// only cut short; and one in which no torn entry reads as a whole one. So what the disk reads meets it,
/// whatever that is. A log whose last file has a torn end is kept whole, before the end is cut off and
/// afterwards.
pub fn kept_is_left()
    ensures left { KeptIsLeft }
    ensures past { PastIsHeld }
    ensures reads { ReadsHaveNoChance }
    ensures once { OnceReadIsFound }
    ensures cuts { CutIsFound }
    ensures appended { AppendedAreFound }
    ensures opening { CutsKeep }
{}

/// Zeros are no entry. So no checksum matches by chance in a file in which they stand behind whole entries, as a disk
/// leaves it that set room aside there.
pub fn zeros_are_torn()
    ensures torn { ZerosAreTorn }
    ensures found { ZerosAreFound }
{}

/// Entries that were written are read from then on, whatever is appended behind them and whatever fault the disk
/// meets: each file that was there stays, and begins with the bytes that it had.
pub fn written_entries_stay()
    ensures all { AllAreWritten }
    ensures stay { WrittenStay }
    ensures grow { WrittenGrow }
    ensures first { WrittenAreFirst }
{}
