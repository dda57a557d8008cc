// Opening an environment over a disk.
ghost use Rattle.std.specs.Prelude.{◌≡◌, ◌≤◌, ◌+◌, max, [], true, false, None, Some, ℕ, length, map, nat_lt, if◌then◌else◌, IfSome, IfOk, IfErr, OnOk};
ghost use Rattle.je_disk.specs.Causes.{HasFault};
ghost use Rattle.je_disk.specs.Moments.{History, Passes, now};
ghost use Rattle.je_disk.specs.States.{Files as Reads, IsEither, synced_crash_states};
ghost use Rattle.log_buffer.specs.Buffer.{disk_of as disk_below, end_of, file_max_of, first_of, has_failed};
ghost use Rattle.log_buffer.specs.Crash.{Holds};
ghost use Rattle.log_buffer.specs.Log.{HasLog};
ghost use Rattle.log_file.specs.Log.{Log, entries_of};
ghost use Rattle.engine.specs.Crash.{KeepsEntry};
ghost use Rattle.engine.specs.Untouched.{IsLeftAlone};
ghost use Rattle.store_model.specs.Store.{no_databases};
ghost use Rattle.in_tree.specs.Whole.{waits_within};
ghost use Rattle.engine.specs.Limits.{last_number, numbers_for, waiting_for};
ghost use Rattle.engine.specs.Opening.{HasBegun, HasTornTailCut, IsSettling, StartsLog, StopsBy, WasRead, cut_off, log_start_of};
ghost use Rattle.engine.specs.Whole.{CanGoOn, KeepsIndexes, KeepsNames, IsOpened, IsOpenedSafely, disk_of};
ghost use Rattle.je_lsn.specs.declared.file_no.TheConstants.{LAST_FILE};

use crate::config::Config;
use crate::engine::{Engine, NUMBERS_FOR_CHANGE};
use crate::kept::Kept;
use crate::open_err::OpenErr;
use checkpointer::Checkpointer;
use db_names::DbNames;
use in_tree::{LAST_NODE, LoadedTrees, LogTrees};
use index_map::IndexMap;
use je_disk::{Disk, DiskErr};
use je_lsn::{FileNo, Lsn};
use log_buffer::LogBuffer;
use log_replay::LastFile;
use recovery_je::{OpeningStore, Recovered, recover_disk};
use std::alloc::Global;
use store_model::Totals;

// How many slots a node of no trees would have at most.
const ANY_FANOUT: u32 = 128;

/// The store that an environment held when it was opened. It takes no memory.
pub type Opening = OpeningStore<LoadedTrees>;

/// An open environment, and the store that it held at entry.
pub struct Opened<D> {
    pub engine: Engine<D>,
    pub opening: Opening,
}

/// The store of an environment that was not opened: it has no databases.
pub fn no_opening(alloc: Global) -> Opening
    ensures { result ≡ no_databases }
{
    OpeningStore::of(&LoadedTrees::new(alloc, ANY_FANOUT, 0))
}

/// An environment that was not opened: why, and its disk back.
pub struct Stopped<D> {
    pub error: OpenErr,
    pub disk: D,
}

// How many nodes may wait at most in trees that were made of a log, where so many of its entries count for that.
fn most_waiting(entries: u64) -> u64
    ensures { result ≤ waiting_for entries }
{
    entries
        .saturating_add(1)
        .saturating_mul(NUMBERS_FOR_CHANGE * 2)
}

// Mounts the disk and reads the log that it has. More nodes do not wait than the entries leave that were redone; were it so, this
// would run out of memory.
fn read_disk<D: Disk>(
    alloc: Global,
    disk: &mut D,
    fanout: u32,
) -> Result<Recovered<LoadedTrees>, OpenErr>
    requires least { 4 ≤ fanout }
    requires most { fanout ≤ 128 }
    ensures same { D.meaning.observable ≡ true → now (D.meaning.history disk.new) ≡ now (D.meaning.history disk.old) }
    ensures moments { D.meaning.observable ≡ true → Passes (D.meaning.history disk.old) (D.meaning.history disk.new) (λ s. s ≡ now (D.meaning.history disk.old)) }
    ensures read { IfOk result (WasRead D.meaning.observable (now (D.meaning.history disk.old)).reads) }
    ensures waits { IfOk result (λ read. waits_within read.trees ≤ waiting_for read.redone) }
    ensures none_out { OnOk result (D.meaning.sync_out disk.new ≡ None) }
    ensures stops { IfErr result (λ error. StopsBy D.meaning.observable (now (D.meaning.history disk.old)).reads (D.meaning.faults disk.old) (D.meaning.faults disk.new) error) }
    ensures never_falls { D.meaning.faults disk.old ≤ D.meaning.faults disk.new }
{
    let trees = LoadedTrees::new(alloc, fanout, 0);
    let read = recover_disk(alloc, disk, trees)?;
    if most_waiting(read.redone) < read.trees.waits() {
        return Err(OpenErr::Memory);
    }
    Ok(read)
}

// A number that no node's number is above, once files are opened of which so many entries count for new nodes, and whose
// last node number is this one; None where it would pass the last one.
fn node_bound(last: u64, entries: u64) -> Option<u64>
    ensures { result ≡ (if nat_lt last_number (last + numbers_for (entries + 1)) then None else Some (last + numbers_for (entries + 1))) }
{
    let numbers = entries.checked_add(1)?.checked_mul(NUMBERS_FOR_CHANGE)?;
    let bound = last.checked_add(numbers)?;
    if LAST_NODE < bound {
        return None;
    }
    Some(bound)
}

// Cuts off what follows the valid prefix of the last file.
fn cut_rest<D: Disk>(disk: &mut D, tail: Option<LastFile>) -> Result<(), DiskErr>
    requires { D.meaning.sync_out disk.old ≡ None }
    ensures done { D.meaning.observable ≡ true → OnOk result (now (D.meaning.history disk.new) ≡ cut_off tail (now (D.meaning.history disk.old))) }
    ensures moments { D.meaning.observable ≡ true → Passes (D.meaning.history disk.old) (D.meaning.history disk.new) (IsEither (now (D.meaning.history disk.old)) (cut_off tail (now (D.meaning.history disk.old)))) }
    ensures cause { HasFault (D.meaning.faults disk.old) (D.meaning.faults disk.new) result }
{
    let Some(last) = tail else {
        return Ok(());
    };
    let end = u64::from(last.end);
    if end < last.len {
        disk.cut(last.file, end)
    } else {
        Ok(())
    }
}

// Cuts off what follows the valid prefix of the last file, and syncs.
fn settle<D: Disk>(disk: &mut D, tail: Option<LastFile>) -> Result<(), DiskErr>
    requires { D.meaning.sync_out disk.old ≡ None }
    ensures settled { D.meaning.observable ≡ true → OnOk result (HasTornTailCut (now (D.meaning.history disk.old)).reads (now (D.meaning.history disk.new)).reads tail) }
    ensures stable { D.meaning.observable ≡ true → OnOk result ((now (D.meaning.history disk.new)).crash_states ≡ synced_crash_states (now (D.meaning.history disk.new)).reads) }
    ensures moments { D.meaning.observable ≡ true → Passes (D.meaning.history disk.old) (D.meaning.history disk.new) (IsSettling tail (now (D.meaning.history disk.old))) }
    ensures cause { HasFault (D.meaning.faults disk.old) (D.meaning.faults disk.new) result }
{
    cut_rest(disk, tail)?;
    disk.sync_now()
}

// The log buffer over a log that ends in this file. Where there is none, or it has no header, the header
// goes into the buffer's tail; out of memory for that hands the disk back.
fn begin_log<D: Disk>(
    alloc: Global,
    disk: D,
    tail: Option<LastFile>,
    file_max: u32,
) -> Result<LogBuffer<D>, D>
    requires file { IfSome tail (λ last. last.file.0 ≤ LAST_FILE) }
    requires file_max { file_max ≤ 1073741824 }
    ensures log { (log : Log) → StartsLog D.meaning.observable (now (D.meaning.history disk)).reads tail log → IfOk result (λ buffer. HasLog D.meaning.observable (now (D.meaning.history disk)) buffer log) }
    ensures holds { D.meaning.observable ≡ true → (log : Log) → StartsLog D.meaning.observable (now (D.meaning.history disk)).reads tail log → (now (D.meaning.history disk)).crash_states ≡ synced_crash_states (now (D.meaning.history disk)).reads
        → IfOk result (λ buffer. Holds log [] (length (entries_of log)) None (first_of buffer) (now (D.meaning.history disk))) }
    ensures disk { IfOk result (λ buffer. disk_below buffer ≡ disk) }
    ensures end { IfOk result (λ buffer. end_of buffer ≡ log_start_of tail) }
    ensures file_max { IfOk result (λ buffer. file_max_of buffer ≡ file_max) }
    ensures works { IfOk result (λ buffer. has_failed buffer ≡ false) }
    ensures handed_back { IfErr result (λ given. given ≡ disk) }
{
    let Some(last) = tail else {
        return LogBuffer::create(alloc, disk, FileNo(0), file_max);
    };
    if last.end == 0 {
        return LogBuffer::create(alloc, disk, last.file, file_max);
    }
    let end = Lsn::new(last.file, last.end);
    Ok(LogBuffer::resume(alloc, disk, end, last.last, file_max))
}

// The later of two LSNs.
fn later(a: Lsn, b: Lsn) -> Lsn
    ensures { result ≡ max a b }
{
    Lsn::from_u64(a.as_u64().max(b.as_u64()))
}

// An environment that was just opened, over its log.
fn begin<D: Disk>(
    log: LogBuffer<D>,
    read: Recovered<LoadedTrees>,
    last_node: u64,
    indexes: IndexMap,
    names: DbNames,
) -> Opened<D>
    ensures begun { HasBegun log read last_node result.engine }
    ensures indexes { result.engine.kept.indexes ≡ indexes }
    ensures names { result.engine.kept.names ≡ names }
    ensures opening { result.opening ≡ read.opening }
{
    let Recovered {
        trees,
        opening,
        databases,
        records,
        last_txn,
        last_node: _,
        last_db,
        checkpoint,
        redo,
        redone: _,
        tail: _,
    } = read;
    let kept = Kept {
        totals: Totals { databases, records },
        last_txn,
        last_db,
        last_node,
        commits: 0,
        fault: None,
        since: later(log.end(), redo),
        checkpoints: Checkpointer::new(checkpoint),
        indexes,
        names,
    };
    Opened {
        engine: Engine {
            trees: LogTrees::new(log, trees),
            kept,
        },
        opening,
    }
}

// Opens the environment whose log was read. Where its bound leaves numbers, those of nodes that were made have not ended; were it so,
// this would run out of memory.
fn go_on<D: Disk>(
    alloc: Global,
    disk: D,
    read: Recovered<LoadedTrees>,
    file_max: u32,
) -> Result<Opened<D>, Stopped<D>>
    requires none_out { D.meaning.sync_out disk ≡ None }
    requires small { IfSome read.tail (λ last. last.file.0 ≤ LAST_FILE) }
    requires file_max { file_max ≤ 1073741824 }
    requires waits { waits_within read.trees ≤ waiting_for read.redone }
    ensures opened { (reads : Reads) → WasRead D.meaning.observable reads read → (D.meaning.observable ≡ true → (now (D.meaning.history disk)).reads ≡ reads)
        → IfOk result (λ opened. IsOpened file_max D.meaning.observable reads (now (D.meaning.history (disk_of opened.engine))) opened.engine opened.opening) }
    ensures crash { D.meaning.observable ≡ true → (reads : Reads) → WasRead D.meaning.observable reads read → (now (D.meaning.history disk)).reads ≡ reads
        → IfOk result (λ opened. IsOpenedSafely file_max reads opened.opening (D.meaning.history (disk_of opened.engine)) opened.engine) }
    ensures entry { D.meaning.observable ≡ true → (reads : Reads) → WasRead D.meaning.observable reads read → (now (D.meaning.history disk)).reads ≡ reads
        → IfOk result (λ opened. KeepsEntry (D.meaning.history disk) (D.meaning.history (disk_of opened.engine))) }
    ensures indexes { (reads : Reads) → WasRead D.meaning.observable reads read → (D.meaning.observable ≡ true → (now (D.meaning.history disk)).reads ≡ reads)
        → IfOk result (λ opened. KeepsIndexes opened.engine) }
    ensures names { IfOk result (λ opened. KeepsNames opened.engine) }
    ensures bounds { IfOk result (λ opened. CanGoOn opened.engine) }
    ensures faults { IfOk result (λ opened. D.meaning.faults disk ≤ D.meaning.faults (disk_of opened.engine)) }
    ensures stopped_entry { D.meaning.observable ≡ true → (reads : Reads) → WasRead D.meaning.observable reads read → (now (D.meaning.history disk)).reads ≡ reads
        → IfErr result (λ stopped. KeepsEntry (D.meaning.history disk) (D.meaning.history stopped.disk)) }
    ensures stopped { (reads : Reads) → WasRead D.meaning.observable reads read → IfErr result (λ stopped. StopsBy D.meaning.observable reads (D.meaning.faults disk) (D.meaning.faults stopped.disk) stopped.error) }
    ensures stopped_faults { IfErr result (λ stopped. D.meaning.faults disk ≤ D.meaning.faults stopped.disk) }
    ensures left_alone { IfErr result (λ stopped. (old : History) → Passes old (D.meaning.history disk) (λ s. s ≡ now old) → now (D.meaning.history disk) ≡ now old → IsLeftAlone stopped.error old (D.meaning.history stopped.disk)) }
{
    let Some(last_node) = node_bound(read.last_node, read.redone) else {
        return Err(Stopped {
            error: OpenErr::IdsEnded,
            disk,
        });
    };
    if read.trees.last_node() >= LAST_NODE {
        let error = OpenErr::Memory;
        return Err(Stopped { error, disk });
    }
    let Ok(indexes) = IndexMap::read(alloc, &read.trees) else {
        let error = OpenErr::Memory;
        return Err(Stopped { error, disk });
    };
    let Ok(names) = DbNames::read(alloc, &read.trees) else {
        let error = OpenErr::Memory;
        return Err(Stopped { error, disk });
    };
    let mut disk = disk;
    if settle(&mut disk, read.tail).is_err() {
        return Err(Stopped {
            error: OpenErr::Disk,
            disk,
        });
    }
    match begin_log(alloc, disk, read.tail, file_max) {
        Ok(log) => Ok(begin(log, read, last_node, indexes, names)),
        Err(disk) => Err(Stopped {
            error: OpenErr::Memory,
            disk,
        }),
    }
}

impl<D: Disk> Engine<D> {
    /// Opens the environment that a disk has: reads its log, cuts off what follows the valid prefix of the
    /// last file, and syncs. Where there is no file, or the last one has no header, the header is written
    /// with the first sync. A log that cannot be opened is left as it is.
    pub fn open(alloc: Global, disk: D, config: &Config) -> Result<Opened<D>, Stopped<D>>
        requires file_max { config.now.file_max ≤ 1073741824 }
        requires least { 4 ≤ config.now.fanout }
        requires most { config.now.fanout ≤ 128 }
        ensures opened { IfOk result (λ opened. IsOpened config.now.file_max D.meaning.observable (now (D.meaning.history disk)).reads (now (D.meaning.history (disk_of opened.engine))) opened.engine opened.opening) }
        ensures crash { D.meaning.observable ≡ true → IfOk result (λ opened. IsOpenedSafely config.now.file_max (now (D.meaning.history disk)).reads opened.opening (D.meaning.history (disk_of opened.engine)) opened.engine) }
        ensures entry { D.meaning.observable ≡ true → IfOk result (λ opened. KeepsEntry (D.meaning.history disk) (D.meaning.history (disk_of opened.engine))) }
        ensures indexes { IfOk result (λ opened. KeepsIndexes opened.engine) }
        ensures names { IfOk result (λ opened. KeepsNames opened.engine) }
        ensures bounds { IfOk result (λ opened. CanGoOn opened.engine) }
        ensures faults { IfOk result (λ opened. D.meaning.faults disk ≤ D.meaning.faults (disk_of opened.engine)) }
        ensures stopped_entry { D.meaning.observable ≡ true → IfErr result (λ stopped. KeepsEntry (D.meaning.history disk) (D.meaning.history stopped.disk)) }
        ensures stopped { IfErr result (λ stopped. StopsBy D.meaning.observable (now (D.meaning.history disk)).reads (D.meaning.faults disk) (D.meaning.faults stopped.disk) stopped.error) }
        ensures stopped_faults { IfErr result (λ stopped. D.meaning.faults disk ≤ D.meaning.faults stopped.disk) }
        ensures left_alone { D.meaning.observable ≡ true → IfErr result (λ stopped. IsLeftAlone stopped.error (D.meaning.history disk) (D.meaning.history stopped.disk)) }
    {
        let mut disk = disk;
        match read_disk(alloc, &mut disk, config.fanout) {
            Ok(read) => go_on(alloc, disk, read, config.file_max),
            Err(error) => Err(Stopped { error, disk }),
        }
    }
}
