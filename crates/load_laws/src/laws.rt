// What a load attempts to commit.
ghost use Rattle.load_laws.specs.Loads.{LoadsAttemptFew};
ghost use Rattle.load_laws.specs.Images.{LoadsComeWhole};
ghost use Rattle.load_laws.specs.Stored.{LoadsStoreTheirPairs};

/// The events of a load attempt no more commits than it has calls that make a database or commit a transaction.
pub fn loads_attempt_few()
    ensures { LoadsAttemptFew }
{}

/// A load attempts one commit for all its pairs, and one before it where it makes its database: so a crash leaves
/// nothing of it, its database without a pair, or all pairs.
pub fn loads_come_whole()
    ensures { LoadsComeWhole }
{}

/// A load of which all lines were given stores the pairs of its dump: its database, which it made or found, has them put
/// among its records, one after another, each as one put does it. Where no call was refused, this is in the store in
/// the end; and what a crash leaves of its one commit is this, or nothing.
pub fn loads_store_their_pairs()
    ensures { LoadsStoreTheirPairs }
{}
