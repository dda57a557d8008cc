// What holds of all logs.
ghost use Rattle.log_replay.specs.Indexed.{IndexesAreJudged};
ghost use Rattle.log_replay.specs.Laws.{AreReadAgain, TransactionsAreKept, StoresAreChanged, NumbersAreChanged, CountsAreChanged, KeptIsRight, KeptForLater, DatabasesByNumber, CatalogsAreOfStores, FoundByNumber, ChangedByAnyTransaction, LoggedAsEntries, RecordsMayBeLogged, RecordsAreLogged, EntriesFollow, SizesOfAnyNumbers};

/// A log whose files are there whole, with no gap between their numbers, is read again.
pub fn logs_are_read()
    ensures { AreReadAgain }
{}

/// A transaction whose changes may be logged leaves what is kept: its records, their store, the
/// databases' numbers and how much the store holds are those that the changes make.
pub fn transactions_are_kept()
    ensures kept { TransactionsAreKept }
    ensures store { StoresAreChanged }
    ensures numbers { NumbersAreChanged }
    ensures counts { CountsAreChanged }
{}

/// What is kept is right, stays kept, and has the store's databases under their numbers.
pub fn kept_is_right()
    ensures right { KeptIsRight }
    ensures later { KeptForLater }
    ensures databases { DatabasesByNumber }
    ensures catalog { CatalogsAreOfStores }
    ensures found { FoundByNumber }
{}

/// No index is wrong exactly where each has the pairs of its primary's records.
pub fn indexes_are_judged()
    ensures { IndexesAreJudged }
{}

/// A change is logged by its changes of records, which do the same by any transaction.
pub fn changes_are_logged()
    ensures any { ChangedByAnyTransaction }
    ensures entries { LoggedAsEntries }
    ensures may { RecordsMayBeLogged }
    ensures records { RecordsAreLogged }
    ensures follow { EntriesFollow }
    ensures sizes { SizesOfAnyNumbers }
{}
