// What the program is told to do.
use je_order::Word;

/// How an environment is opened.
#[derive(Clone, Copy)]
pub struct RunSettings {
    /// How many bytes a log file holds at most: 4,096 to 1,073,741,824.
    pub file_max: u32,
    /// How many slots a node of a tree has at most: 4 to 128.
    pub fanout: u32,
}

/// A command with its options, but for the environment's folder.
#[derive(Drop)]
pub enum Command {
    /// Runs a script, and prints its report.
    Run(RunSettings),
    /// Runs the script of a seed, and prints how it ended.
    Soak { seed: u32, settings: RunSettings },
    /// Prints a database as a dump; with `printed`, the bytes that can be printed are shown as themselves.
    Dump { db: Word, printed: bool },
    /// Reads a dump, and puts its pairs into a database; with `no_overwrite`, records that are there stay.
    Load { db: Word, no_overwrite: bool },
    /// Prints the entries of the log.
    PrintLog,
    /// Checks the log files, and prints all that is wrong with them.
    Verify,
    /// Prints how much of each log file is in use.
    Stat,
}

/// What the arguments say: the folder of the environment, as it was written, which may be empty; and the command.
#[derive(Drop)]
pub struct CommandLine {
    pub home: String,
    pub command: Command,
}
