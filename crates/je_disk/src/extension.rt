// The room that a disk sets aside behind a file's bytes.
ghost use Rattle.std.specs.Prelude.{◌≡◌, ◌≤◌, ◌^◌, IfSome, IsNone};
ghost use Rattle.je_disk.specs.States.{extended as room_end};

/// How many bytes a disk sets aside at a time behind those of a file that grows. A sync is fast where the file's length
/// on the disk stays as it is; with 1 MiB it changes at one in thousands of small appends, and what a crash
/// leaves behind the log's end is read in no time.
pub const EXTENSION: u64 = 1_048_576;

/// How long a file may be on the disk that has so many bytes: up to the next multiple of `EXTENSION`; none
/// where that passes 2^64 - 1.
pub fn extended(len: u64) -> Option<u64>
    ensures some { IfSome result (λ end. end ≡ room_end len) }
    ensures none { IsNone result → 2 ^ 64 ≤ room_end len }
{
    len.div_ceil(EXTENSION).checked_mul(EXTENSION)
}
