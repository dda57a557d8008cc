// What a program has to write.
use check_laws::Checked;
use environment::Records;
use file_use::LogUse;
use log_printer::FileLines;
use store_model::Kind;

/// What a program has to write before its fault line.
#[derive(Drop)]
pub enum Text {
    Nothing,
    /// The report of the run, if a script was run.
    Report,
    /// The seed, the number of lines and the report's last line, if the seed's script was run.
    SoakEnd {
        seed: u32,
    },
    /// The database of that number among these records, which is of this kind, as a dump; with `printed`, bytes that can
    /// be printed are shown as themselves.
    Dump {
        records: Records,
        number: u32,
        kind: Kind,
        printed: bool,
    },
    /// How many pairs of a dump were put, and how many were there and stay.
    Loaded,
    /// The lines of a log.
    Log(Vec<FileLines>),
    /// What a check of the files comes to.
    Check(Checked),
    /// How much of each file of the log is live.
    Use(LogUse),
}
