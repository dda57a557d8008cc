// How an environment is opened.
ghost use Rattle.std.specs.Prelude.{◌≤◌};

/// How an environment is opened: `default`, or that with other sizes.
#[derive(Clone, Copy)]
pub struct Options {
    pub(crate) file_max: u32,
    pub(crate) fanout: u32,
    ghost file_bound: { file_max ≤ 1073741824 },
    ghost least: { 4 ≤ fanout },
    ghost most: { fanout ≤ 128 },
}

impl Default for Options {
    /// Log files of 10,000,000 bytes, and nodes of 128 slots.
    fn default() -> Options {
        Options {
            file_max: 10_000_000,
            fanout: 128,
        }
    }
}

impl Options {
    /// The greatest size in bytes of a log file that holds more than one entry; past 2^30 it is 2^30.
    pub fn with_file_max(self, bytes: u32) -> Options {
        Options {
            file_max: bytes.min(1_073_741_824),
            fanout: self.fanout,
        }
    }

    /// How many slots a node of a tree has at most: 4 to 128, and the nearest of these for any other number.
    pub fn with_fanout(self, slots: u32) -> Options {
        Options {
            file_max: self.file_max,
            fanout: slots.clamp(4, 128),
        }
    }
}
