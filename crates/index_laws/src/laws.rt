// What holds of own changes in a primary and in its index.
ghost use Rattle.index_laws.specs.Keeping.{OthersKeepUp, CallsKeepUp, AllKeepUp};

/// Where two transactions that change no record both keep an index up, each still does after the other has
/// committed.
pub fn others_keep_up()
    ensures { OthersKeepUp }
{}

/// A transaction that keeps an index up still does after a call that changes records which it saw as they
/// are for it.
pub fn calls_keep_up()
    ensures { CallsKeepUp }
{}

/// With the own changes of all transactions, which is what read uncommitted sees, an index has the pairs of
/// the records.
pub fn all_keep_up()
    ensures { AllKeepUp }
{}
