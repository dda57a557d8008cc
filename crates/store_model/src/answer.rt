// What an event answers.
use crate::LockTarget;
use je_order::{List, Octets, TxnId, Word};

/// Why an environment is invalid.
#[derive(Clone, Copy, Debug, PartialEq, Eq)]
pub enum Fault {
    /// The disk failed.
    Disk,
}

/// An answer. Each comes exactly where its cause holds; the causes are asked in the order of
/// refusals, which docs/ANSWERS.md lists.
#[derive(Drop, PartialEq, Eq)]
pub enum Answer {
    /// Done, and nothing to say.
    Done,
    /// The transaction with this number was begun.
    Txn {
        txn: TxnId,
    },
    /// The commit with this number, counted from 1 since opening, is in the log and waits for its sync
    /// or to be written out.
    Logged {
        commit: u64,
    },
    /// The commits up to this number are durable.
    Durable {
        commit: u64,
    },
    /// The record.
    Rec {
        key: Octets,
        value: Octets,
    },
    /// The record that an index has under a key: that key, the record's own key in its database, and
    /// its data.
    IndexRec {
        key: Octets,
        primary_key: Octets,
        value: Octets,
    },
    /// So many records.
    Count {
        count: u64,
    },
    /// The names of all databases, in byte order.
    Names {
        names: List<Word>,
    },
    /// There is no such record.
    NotFound,
    /// The key has a record already, or the pair is there.
    KeyExist,
    /// The record at which the cursor stands was taken out.
    KeyEmpty,
    /// The cursor stands at no record.
    NoPosition,
    /// The call waits for a lock, and `owner` is the least transaction in its way.
    Waiting {
        at: LockTarget,
        owner: TxnId,
    },
    /// A lock is not available, in a transaction that does not wait.
    NotAvailable {
        owner: TxnId,
    },
    /// The call's wait closed this cycle, or another wait did, and its transaction is the youngest.
    Deadlock {
        cycle: List<TxnId>,
    },
    /// An earlier call of the transaction was answered Deadlock, with this cycle.
    MustAbort {
        cycle: List<TxnId>,
    },
    /// An earlier call of the session waits.
    SessionWaits,
    /// The session has no transaction.
    NoTxn,
    /// The session is in this transaction.
    InTxn {
        txn: TxnId,
    },
    /// There is no database of that name.
    NoDatabase,
    /// The session has no cursor of that number.
    NoCursor,
    /// A database of that name is there, or a cursor of that number is open.
    NameTaken,
    /// The database has an index.
    HasIndex,
    /// The store has `count` databases, which is the most that it may have.
    TooMany {
        count: u32,
    },
    /// This active transaction, the least, has a lock in the database or a cursor on it.
    DatabaseInUse {
        txn: TxnId,
    },
    /// The call is none for an index, which changes with its database alone.
    ReadOnlyIndex,
    /// The call is none for a database of sorted duplicates.
    NotOnDuplicates,
    /// The call is for databases of sorted duplicates only.
    OnlyOnDuplicates,
    /// The key, or else the data, has this many bytes, which is past its limit.
    TooLong {
        length: u64,
    },
    /// The node with this number was logged for the checkpoint.
    Flushed {
        node: u64,
    },
    /// No node is left to be logged for the checkpoint.
    Nothing,
    /// A checkpoint is under way.
    InCheckpoint,
    /// No checkpoint is under way.
    NoCheckpoint,
    /// So many nodes are left to be logged for the checkpoint.
    NodesLeft {
        count: u64,
    },
    /// The log has no room for the changes.
    LogFull,
    /// A number would be past the last one: of a transaction, a database, a node or a level of a tree.
    IdsEnded,
    /// The disk failed in this event: the change may or may not be there after opening again.
    DiskFault,
    /// An earlier event met this fault; the environment answers nothing else until it is opened again.
    Invalid {
        first: Fault,
    },
}
