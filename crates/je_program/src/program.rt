// The top call.
ghost use Rattle.std.specs.Prelude.{◌≡◌, ◌≢◌, ◌≤◌, ◌<◌, ◌++◌, ◌⊎◌, [], ℕ, Bool, List, Some, Err, IfSome, true, false, length, map, string_bytes};
ghost use Rattle.je_order.specs.Counts.{HasRisen, HasRisen as Failing};
ghost use Rattle.je_disk.specs.Moments.{now};
ghost use Rattle.store_model.specs.Journal.{is_disk_fault};
ghost use Rattle.store_model.specs.Store.{no_databases};
ghost use Rattle.je_answers.specs.Standing.{Standing};
ghost use Rattle.je_answers.specs.Journal.{has_answer};
ghost use Rattle.log_replay.specs.declared.corruption.Corruption.{Corruption as Wrong};
ghost use Rattle.log_printer.specs.Reading.{HasNoFile};
ghost use Rattle.script_text.specs.Grammar.{plan_of};
ghost use Rattle.dump_text.specs.Grammar.{dump_of};
ghost use Rattle.engine.specs.Crash.{KeepsEntry};
ghost use Rattle.engine.specs.Untouched.{IsUntouched};
ghost use Rattle.engine.specs.Files.{HasWrongIndex};
ghost use Rattle.engine.specs.Opening.{HasNoNumbers};
ghost use Rattle.command_line.specs.declared.command.RunSettings.{RunSettings};
ghost use Rattle.command_line.specs.declared.command.Command.TheVariants.{Load, Run, Verify};
ghost use Rattle.command_line.specs.Arguments.{command_in, is_taken};
ghost use Rattle.je_program.specs.declared.cause.Cause.{Cause as Why};
ghost use Rattle.je_program.specs.declared.reading.TheConstants.{MOST_INPUT};
ghost use Rattle.je_program.specs.Commands.{AreReady, EndsAsFound, EndsWell, HasDatabase, HasInput, HaveFindings, IsFound, IsGivenTo, EndsAsPlaced, IsStored, IsTextOf, LacksDatabase, ReadsInput, file_max_of, may_end, needs_environment, opens, reads_input};
ghost use Rattle.je_program.specs.Program.{EndsWith, IsOutputWritten, IsRunOf, RunsBy, fault_text, is_before_disk};

use crate::cause::Cause;
use crate::output::write_output;
use crate::run_result::RunResult;
use crate::text::Text;
use crate::unprinted::{Unprinted, run_unprinted};
use environment::{Opening, Records};
use je_disk::Disk;
use je_io::{Sink, Source};
use std::alloc::Global;
use store_model::{Event, Totals};

/// How a program ended: the status for the process; the cause behind it, which a failing output does
/// not change; whether the environment was opened and the script run; the disk; the journal, the store
/// that the files at entry meant, and how much the store holds at the end. Where nothing was opened, the
/// journal and the stores are empty.
/// The records that were kept in memory are handed out too: a process that ends now need not give them
/// back one by one.
pub struct Ended<D> {
    pub status: u8,
    pub cause: Cause,
    pub opened: bool,
    pub disk: D,
    pub journal: Vec<Event>,
    pub opening: Opening,
    pub totals: Totals,
    pub records: Option<Records>,
}

// The records that were kept in memory: those of a dump are in its text.
fn records_left(text: Text, records: Option<Records>) -> Option<Records> {
    match text {
        Text::Dump { records, .. } => Some(records),
        text => {
            drop(text);
            records
        }
    }
}

/// Runs the program: does what the arguments' command asks for. For `run` it reads a script from the input, opens the
/// environment over the disk, gives the script's lines in order, and writes the report; for `soak` it does so with the
/// script of a seed, and writes how that ended; for `dump` it opens the environment and writes a database's pairs; for
/// `load` it reads a dump from the input, opens the environment, puts the pairs into a database, all or none of them, and
/// writes how many; for `printlog` it reads the disk's files and writes a line for each entry of the log; for `verify` it
/// reads them and writes all that is wrong with them; for `stat` it opens the environment, closes it, and writes how much of
/// each file is live. Or it writes the one line that tells why there is none of these.
pub fn run_je<D: Disk, S: Source, K: Sink>(
    alloc: Global,
    args: &[String],
    disk: D,
    input: &mut S,
    output: &mut K,
) -> Ended<D>
    // The arguments are the cause of the end only where they are wrong, and then always, unless memory ran
    // out. A command ends with causes of its own alone.
    ensures usage { result.cause ≡ Why.Usage → is_taken (map string_bytes args.now) ≡ false }
    ensures usage_found { is_taken (map string_bytes args.now) ≡ false → (result.cause ≡ Why.Usage) ⊎ (result.cause ≡ Why.Memory) }
    ensures causes { may_end (command_in (map string_bytes args.now)) result.cause ≡ true }

    // The input failed only where its count of faults rose; it is too long, or has a first bad line.
    ensures input_failed { result.cause ≡ Why.Input → Failing (S.faults input.old) (S.faults input.new) }
    ensures input_too_long { result.cause ≡ Why.InputTooLong → IfSome (S.left input.old) (λ bytes. MOST_INPUT < length bytes) }
    ensures bad_script { (line : ℕ) → result.cause ≡ Why.BadScript line → IfSome (S.left input.old) (λ bytes. (length bytes ≤ MOST_INPUT) × (plan_of bytes ≡ Err line)) }
    ensures bad_dump { (line : ℕ) → result.cause ≡ Why.BadDump line → IfSome (S.left input.old) (λ bytes. (length bytes ≤ MOST_INPUT) × (dump_of bytes ≡ Err line)) }
    ensures too_long_found { (bytes : List ℕ) → reads_input (command_in (map string_bytes args.now)) ≡ true → S.left input.old ≡ Some bytes → MOST_INPUT < length bytes
        → (result.cause ≡ Why.InputTooLong) ⊎ (result.cause ≡ Why.Memory) ⊎ Failing (S.faults input.old) (S.faults input.new) }
    ensures bad_line_found { (settings : RunSettings) (bytes : List ℕ) (line : ℕ) → command_in (map string_bytes args.now) ≡ Some (Run settings) → S.left input.old ≡ Some bytes → length bytes ≤ MOST_INPUT
        → plan_of bytes ≡ Err line → (result.cause ≡ Why.BadScript line) ⊎ (result.cause ≡ Why.Memory) ⊎ Failing (S.faults input.old) (S.faults input.new) }
    ensures bad_dump_found { (db : List ℕ) (no_overwrite : Bool) (bytes : List ℕ) (line : ℕ) → command_in (map string_bytes args.now) ≡ Some (Load db no_overwrite) → S.left input.old ≡ Some bytes → length bytes ≤ MOST_INPUT
        → dump_of bytes ≡ Err line → (result.cause ≡ Why.BadDump line) ⊎ (result.cause ≡ Why.Memory) ⊎ Failing (S.faults input.old) (S.faults input.new) }

    // Before the input was read, no call was made on the disk. Otherwise it was read to its end, if the command reads
    // it; one that does not makes no call on it.
    ensures untouched { is_before_disk result.cause ≡ true → result.disk ≡ disk }
    ensures read_whole { is_before_disk result.cause ≡ false → result.cause ≢ Why.Memory → ReadsInput (command_in (map string_bytes args.now)) (S.left input.old) (S.left input.new) }
    ensures unread { reads_input (command_in (map string_bytes args.now)) ≡ false → input.new ≡ input.old }

    // The disk failed only where its count of faults rose; the files at entry cannot be opened, with this
    // corruption first, or this index the first whose pairs are not those of its primary's records, exactly where
    // that is the cause of the end; a command that only reads files finds what is wrong with them alone. No file is
    // there, and the command needs an environment, exactly where that is the cause. Nor has the store the database
    // that the command names, where that is the cause; and it has it, where all was done. A dump is loaded exactly where
    // the store takes its pairs: into a database that is no index and keeps its records as the dump says, or into a new
    // one; else the cause says which of these it is not.
    ensures disk_failed { result.cause ≡ Why.Disk → HasRisen (D.meaning.faults disk) (D.meaning.faults result.disk) }
    ensures unreadable { (corruption : Wrong) → result.cause ≡ Why.Unreadable corruption → D.meaning.observable ≡ true → IsFound (command_in (map string_bytes args.now)) (now (D.meaning.history disk)).reads corruption }
    ensures wrong_index { (name : List ℕ) → result.cause ≡ Why.WrongIndex name → D.meaning.observable ≡ true → HasWrongIndex (now (D.meaning.history disk)).reads name }
    ensures no_environment { result.cause ≡ Why.NoEnvironment → D.meaning.observable ≡ true → HasNoFile (now (D.meaning.history disk)).reads }
    ensures no_database { result.cause ≡ Why.NoDatabase → LacksDatabase (command_in (map string_bytes args.now)) result.opening }
    ensures has_database { result.cause ≡ Why.Done → HasDatabase (command_in (map string_bytes args.now)) result.opening }
    ensures placed { result.opened ≡ true → EndsAsPlaced (command_in (map string_bytes args.now)) (S.left input.old) (S.left input.new) result.opening result.cause }

    // Where no script was run, no number is left only if those of the files' nodes may pass the last one.
    ensures ids_ended { result.cause ≡ Why.IdsEnded → result.opened ≡ false → D.meaning.observable ≡ true → HasNoNumbers (now (D.meaning.history disk)).reads }

    // A check of the files has findings exactly where that is the cause of its end, and none where all was done.
    ensures findings { command_in (map string_bytes args.now) ≡ Some Verify → D.meaning.observable ≡ true → EndsAsFound result.cause (now (D.meaning.history disk)).reads }
    ensures findings_found { command_in (map string_bytes args.now) ≡ Some Verify → D.meaning.observable ≡ true → HaveFindings (now (D.meaning.history disk)).reads
        → (result.cause ≡ Why.Findings) ⊎ (result.cause ≡ Why.Memory) ⊎ HasRisen (D.meaning.faults disk) (D.meaning.faults result.disk) }

    // Where the files at entry cannot be opened, or none is there and the command needs one, the disk's state is at each
    // moment what it was; so it is, whatever the cause, where a command opens no environment.
    ensures unreadable_untouched { (corruption : Wrong) → result.cause ≡ Why.Unreadable corruption → D.meaning.observable ≡ true → IsUntouched (D.meaning.history disk) (D.meaning.history result.disk) }
    ensures wrong_index_untouched { (name : List ℕ) → result.cause ≡ Why.WrongIndex name → D.meaning.observable ≡ true → IsUntouched (D.meaning.history disk) (D.meaning.history result.disk) }
    ensures no_environment_untouched { result.cause ≡ Why.NoEnvironment → D.meaning.observable ≡ true → IsUntouched (D.meaning.history disk) (D.meaning.history result.disk) }
    ensures reads_only { opens (command_in (map string_bytes args.now)) ≡ false → D.meaning.observable ≡ true → IsUntouched (D.meaning.history disk) (D.meaning.history result.disk) }

    // A run: its journal holds the script's lines, or those of the seed; those of `dump` and `stat` are empty; that of `load` holds the
    // lines that make the database, if it is not there, and put all pairs in one transaction, up to the first that is
    // refused; where all was done the final store has all pairs in the database, put there one after another; and whatever
    // first of its commits a crash leaves, the database is there without a pair, or with all, or nothing of this. Each answer is the model's, from what the files at entry mean on;
    // each commit is followed at once by its sync or its write-out, as its durability asks; the calls that waited go on
    // in the order in which they began to wait, before the next line; a step of maintenance is taken where a line asks
    // for it, and a sync among them has made all commits so far durable; each index has the pairs of its primary's
    // records, and each transaction sees it so; where the script was run through, each commit that waits is
    // acknowledged, and the files mean the opening store changed by the commits in order. Over an observable disk, at
    // each moment from the end of the opening's own sync on, what the disk reads means the opening store changed by the
    // first of the attempted commits, at least the written ones, and each image of the disk in which no checksum matches
    // by chance means it changed by at least the synced ones. Behind a disk fault the disk stands still. Each file stays.
    // Where the script was run through, each image at the end means the final store. There, and at any end if the disk
    // met no fault, each file is as long as its bound lets it be, or one entry behind a header, or no longer than at entry.
    ensures runs { RunsBy (opens (command_in (map string_bytes args.now))) result.cause result.opened }
    ensures given { result.opened ≡ true → IsGivenTo (command_in (map string_bytes args.now)) (S.left input.old) (S.left input.new) result.opening result.journal.items result.cause }
    ensures run { result.opened ≡ true → (file_max : ℕ) × (st : Standing) × (file_max_of (command_in (map string_bytes args.now)) ≡ Some file_max) × IsRunOf file_max D.meaning.observable (D.meaning.history disk) (D.meaning.history result.disk) (D.meaning.faults disk) (D.meaning.faults result.disk) result.opening result.totals result.journal.items result.cause st
        × IsStored (command_in (map string_bytes args.now)) (S.left input.old) (S.left input.new) result.opening st result.journal.items result.cause }
    ensures unopened { result.opened ≡ false → (result.opening ≡ no_databases) × (result.journal.items ≡ []) }
    ensures ends { result.opened ≡ true → result.cause ≢ Why.Memory → EndsWith result.journal.items result.cause }
    ensures faults { has_answer is_disk_fault result.journal.items ≡ true → HasRisen (D.meaning.faults disk) (D.meaning.faults result.disk) }

    // From entry until the run, and at each moment where nothing was opened: each file reads as it did at entry, but
    // for a torn tail of the last one that was cut off. Where the files at entry mean a store, each image means it
    // too, if nothing was pending at entry; and each image at the end does, if nothing is pending then.
    ensures crash_unopened { D.meaning.observable ≡ true → result.opened ≡ false → KeepsEntry (D.meaning.history disk) (D.meaning.history result.disk) }

    // A command that has its input, and the files that it needs, ends well, unless memory ran out or a count rose: `run`
    // and `soak` in a run, with files that mean a store in which each index has the pairs of its primary's records;
    // `dump` as the database is there or not; `load` as its journal says, or for want of a place for the pairs; `printlog`
    // with all files printed, `verify` where it finds nothing, `stat` with its numbers. Where the files are not such, that is
    // the cause.
    ensures complete { HasInput (command_in (map string_bytes args.now)) (S.left input.old) → D.meaning.observable ≡ true → AreReady (command_in (map string_bytes args.now)) (now (D.meaning.history disk)).reads
        → EndsWell (command_in (map string_bytes args.now)) (S.left input.old) result.cause result.opened result.opening result.journal.items ⊎ (result.cause ≡ Why.Memory)
        ⊎ Failing (S.faults input.old) (S.faults input.new) ⊎ HasRisen (D.meaning.faults disk) (D.meaning.faults result.disk) }
    ensures unreadable_found { (corruption : Wrong) → HasInput (command_in (map string_bytes args.now)) (S.left input.old) → D.meaning.observable ≡ true
        → IsFound (command_in (map string_bytes args.now)) (now (D.meaning.history disk)).reads corruption
        → (result.cause ≡ Why.Unreadable corruption) ⊎ (result.cause ≡ Why.Memory)
        ⊎ Failing (S.faults input.old) (S.faults input.new) ⊎ HasRisen (D.meaning.faults disk) (D.meaning.faults result.disk) }
    ensures wrong_index_found { (name : List ℕ) → HasInput (command_in (map string_bytes args.now)) (S.left input.old) → opens (command_in (map string_bytes args.now)) ≡ true → D.meaning.observable ≡ true
        → HasWrongIndex (now (D.meaning.history disk)).reads name
        → (result.cause ≡ Why.WrongIndex name) ⊎ (result.cause ≡ Why.Memory)
        ⊎ Failing (S.faults input.old) (S.faults input.new) ⊎ HasRisen (D.meaning.faults disk) (D.meaning.faults result.disk) }
    ensures no_environment_found { needs_environment (command_in (map string_bytes args.now)) ≡ true → D.meaning.observable ≡ true → HasNoFile (now (D.meaning.history disk)).reads
        → (result.cause ≡ Why.NoEnvironment) ⊎ (result.cause ≡ Why.Memory) ⊎ HasRisen (D.meaning.faults disk) (D.meaning.faults result.disk) }

    // What was written, and the status: the command's text and the fault line, and the cause's status, unless the output
    // failed.
    ensures written { (text : List ℕ) × IsTextOf (command_in (map string_bytes args.now))
        (record { observable = D.meaning.observable; files = (now (D.meaning.history disk)).reads; left = (now (D.meaning.history result.disk)).reads; opened = result.opened; opening = result.opening; journal = result.journal.items; totals = result.totals; cause = result.cause }) text
        × IsOutputWritten (K.written output.old) (K.written output.new) (K.faults output.old) (K.faults output.new) (text ++ fault_text result.cause) result.cause result.status }

    // No count of faults falls.
    ensures disk_faults { D.meaning.faults disk ≤ D.meaning.faults result.disk }
    ensures input_faults { S.faults input.old ≤ S.faults input.new }
    ensures output_faults { K.faults output.old ≤ K.faults output.new }
{
    let Unprinted { run, text } = run_unprinted(alloc, args, disk, input);
    let RunResult {
        cause,
        opened,
        disk,
        journal,
        opening,
        totals,
        records,
    } = run;
    let status = write_output(&cause, &text, opened, &journal, &totals, output);
    let records = records_left(text, records);
    Ended {
        status,
        cause,
        opened,
        disk,
        journal,
        opening,
        totals,
        records,
    }
}
