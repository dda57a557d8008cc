// How an environment is opened.

/// How an environment is opened.
#[derive(Clone, Copy)]
pub struct Config {
    /// The greatest size in bytes of a log file that holds more than one entry behind its header: at most
    /// 2^30.
    pub file_max: u32,
    /// How many slots a node has at most when one is put in: 4 to 128.
    pub fanout: u32,
}
