// What holds of all files and logs.
ghost use Rattle.log_file.specs.Laws.{AreFoundAgain, AreEncodedBack, AreLongest, GrowByAppend, AreOneList, LogsAreFound};
ghost use Rattle.log_file.specs.Placed.{PlacedAreEntries, PlacedGoLast, PlacedGoOn, FrontsArePlaced, PlacedAreInOrder};

/// A file's bytes that were encoded entry by entry are found again, also before a torn tail that begins
/// with no whole entry; the valid prefix of any file's bytes is encoded as they begin, and no valid
/// prefix is longer; and a file with one entry more has the entry's encoding at its end.
pub fn files_are_found()
    ensures again { AreFoundAgain }
    ensures back { AreEncodedBack }
    ensures longest { AreLongest }
    ensures grows { GrowByAppend }
{}

/// A disk's files are one list, and a log's files hold that log.
pub fn files_are_one_list()
    ensures one { AreOneList }
    ensures log { LogsAreFound }
{}

/// The entries of a log with their LSNs are the log's entries; an entry more is the last one, a front of the
/// log has the first of them, and LSNs rise.
pub fn entries_are_placed()
    ensures entries { PlacedAreEntries }
    ensures last { PlacedGoLast }
    ensures next { PlacedGoOn }
    ensures front { FrontsArePlaced }
    ensures order { PlacedAreInOrder }
{}
