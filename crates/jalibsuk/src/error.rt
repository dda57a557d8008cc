// Why a call was not done.
ghost use Rattle.std.specs.Prelude.{◌≡◌};
ghost use Rattle.jalibsuk.specs.Told.{error_told};

use je_order::TxnId;
use log_replay::Corruption;
use std::alloc::{AllocError, AllocFailed};
use std::fmt::{self, Display, Formatter, Write};
use store_model::{Answer, Fault};

/// Why a call was not done. Of several causes the first in the order of refusals is told (docs/ANSWERS.md). Where nothing else is said the
/// environment and the transaction are as they were, and the transaction goes on.
#[derive(Clone, Copy, Debug, Drop, PartialEq, Eq)]
pub enum Error {
    /// Out of memory.
    Memory,
    /// A name has 1 to 64 characters of `a-z 0-9 _`, and this one does not.
    BadName,
    /// A slice that is the key of an index has 1 to 4,096 bytes, and begins at byte 65,535 or before it.
    BadIndex,
    /// As many transactions are open as there may be: 63.
    TooManyTransactions,
    /// There is no database of that name, or the handle's was removed.
    NoDatabase,
    /// A database of that name is there.
    NameTaken,
    /// The database has an index, which is to be removed before it.
    HasIndex,
    /// There are so many databases, which is the most that there may be.
    TooManyDatabases { count: u32 },
    /// This open transaction has a lock in the database.
    DatabaseInUse { by: TxnId },
    /// This open transaction has a lock that the call needs. The call was withdrawn: end that transaction first, or abort this one.
    Conflict { by: TxnId },
    /// The call was the victim of a cycle of waits: abort the transaction.
    Deadlock,
    /// An earlier call of the transaction waits.
    Busy,
    /// There is no such transaction.
    NoTransaction,
    /// The session is in this transaction.
    InTransaction { txn: TxnId },
    /// The key has a record, or the pair is there.
    KeyExists,
    /// The record at which the cursor stands was deleted.
    KeyEmpty,
    /// The cursor stands at no record.
    NoPosition,
    /// There is no such cursor.
    NoCursor,
    /// As many cursors of the transaction are open as there may be: 8.
    TooManyCursors,
    /// The database is no index, so its records have no key in one.
    NotAnIndex,
    /// The call is none for an index, which changes with its database alone.
    ReadOnlyIndex,
    /// The call is none for a database of sorted duplicates.
    NotOnDuplicates,
    /// The call is for databases of sorted duplicates alone.
    OnlyOnDuplicates,
    /// The key, or else the data, has so many bytes, which is past its limit.
    TooLong { length: u64 },
    /// A checkpoint is under way.
    InCheckpoint,
    /// No checkpoint is under way.
    NoCheckpoint,
    /// The log has no room for the changes.
    LogFull,
    /// A number would be past the last one: of a transaction, a database, a node or a level of a tree.
    IdsEnded,
    /// The disk failed in this call: a commit may or may not be there after opening again. From now on each call is answered `Invalid`.
    DiskFault,
    /// An earlier call met this fault: close the environment, and open it again.
    Invalid { first: Fault },
    /// The files cannot be opened; this is the first corruption in the order of reading.
    Unreadable { first: Corruption },
    /// The files can be read, but the pairs of an index are not those of its database.
    WrongIndex,
    /// An answer that the model does not give this call.
    Unexpected,
}

impl From<AllocError> for Error {
    ghost use Rattle.std.specs.Prelude.{◌≡◌};
    ghost use Rattle.jalibsuk.specs.declared.error.Error.TheVariants.{Memory};

    ghost from_gives = { λ failure error. error ≡ Memory };

    fn from(_failure: AllocError) -> Error {
        Error::Memory
    }
}

impl<T: Drop> From<AllocFailed<T>> for Error {
    ghost use Rattle.std.specs.Prelude.{◌≡◌};
    ghost use Rattle.jalibsuk.specs.declared.error.Error.TheVariants.{Memory};

    ghost from_gives = { λ failure error. error ≡ Memory };

    fn from(failure: AllocFailed<T>) -> Error {
        drop(failure);
        Error::Memory
    }
}

/// The error that an answer is.
pub(crate) fn error_told(answer: &Answer) -> Error
    ensures { result ≡ error_told answer.now }
{
    match answer {
        Answer::KeyExist => Error::KeyExists,
        Answer::KeyEmpty => Error::KeyEmpty,
        Answer::NoPosition => Error::NoPosition,
        Answer::Waiting { at: _, owner } => Error::Conflict { by: *owner },
        Answer::NotAvailable { owner } => Error::Conflict { by: *owner },
        Answer::Deadlock { .. } | Answer::MustAbort { .. } => Error::Deadlock,
        Answer::SessionWaits => Error::Busy,
        Answer::NoTxn => Error::NoTransaction,
        Answer::InTxn { txn } => Error::InTransaction { txn: *txn },
        Answer::NoDatabase => Error::NoDatabase,
        Answer::NoCursor => Error::NoCursor,
        Answer::NameTaken => Error::NameTaken,
        Answer::HasIndex => Error::HasIndex,
        Answer::TooMany { count } => Error::TooManyDatabases { count: *count },
        Answer::DatabaseInUse { txn } => Error::DatabaseInUse { by: *txn },
        Answer::ReadOnlyIndex => Error::ReadOnlyIndex,
        Answer::NotOnDuplicates => Error::NotOnDuplicates,
        Answer::OnlyOnDuplicates => Error::OnlyOnDuplicates,
        Answer::TooLong { length } => Error::TooLong { length: *length },
        Answer::InCheckpoint => Error::InCheckpoint,
        Answer::NoCheckpoint => Error::NoCheckpoint,
        Answer::LogFull => Error::LogFull,
        Answer::IdsEnded => Error::IdsEnded,
        Answer::DiskFault => Error::DiskFault,
        Answer::Invalid { first } => Error::Invalid { first: *first },
        _ => Error::Unexpected,
    }
}

// What the error tells a reader; the numbers stand beside it.
fn text_of(error: &Error) -> &'static str {
    match error {
        Error::Memory => "out of memory",
        Error::BadName => "a name has 1 to 64 characters of a-z 0-9 _",
        Error::BadIndex => "a slice of an index has 1 to 4,096 bytes from byte 65,535 or before it",
        Error::TooManyTransactions => "63 transactions are open",
        Error::NoDatabase => "there is no such database",
        Error::NameTaken => "the name is taken",
        Error::HasIndex => "the database has an index",
        Error::TooManyDatabases { .. } => "there are as many databases as there may be",
        Error::DatabaseInUse { .. } => "another transaction uses the database",
        Error::Conflict { .. } => "another transaction has the lock",
        Error::Deadlock => "a deadlock: abort the transaction",
        Error::Busy => "an earlier call of the transaction waits",
        Error::NoTransaction => "there is no such transaction",
        Error::InTransaction { .. } => "the session is in a transaction",
        Error::KeyExists => "the record is there",
        Error::KeyEmpty => "the record was deleted",
        Error::NoPosition => "the cursor stands at no record",
        Error::NoCursor => "there is no such cursor",
        Error::TooManyCursors => "8 cursors of the transaction are open",
        Error::NotAnIndex => "the database is no index",
        Error::ReadOnlyIndex => "an index changes with its database alone",
        Error::NotOnDuplicates => "the call is none for sorted duplicates",
        Error::OnlyOnDuplicates => "the call is for sorted duplicates alone",
        Error::TooLong { .. } => "the key or the data is too long",
        Error::InCheckpoint => "a checkpoint is under way",
        Error::NoCheckpoint => "no checkpoint is under way",
        Error::LogFull => "the log is full",
        Error::IdsEnded => "no number is left",
        Error::DiskFault => "the disk failed",
        Error::Invalid { .. } => "the disk failed before: open the environment again",
        Error::Unreadable { .. } => "the files cannot be opened",
        Error::WrongIndex => "an index does not have the pairs of its database",
        Error::Unexpected => "an answer that the call does not have",
    }
}

impl Display for Error {
    fn fmt<W: Write>(&self, f: &mut Formatter<W>) -> fmt::Result {
        f.write_str(text_of(self))
    }
}

impl std::error::Error for Error {}
