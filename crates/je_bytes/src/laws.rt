// What holds of numbers and their bytes.
ghost use Rattle.std.specs.Prelude.{◌^◌};
ghost use Rattle.std.specs.Int.{w16, w32, w64};
ghost use Rattle.je_bytes.specs.Reading.{IsReadAsWritten};

/// A number of 2, 4 or 8 bytes is what its big-endian bytes read as, and so many bytes are the
/// big-endian bytes of the number that they read as.
pub fn numbers_are_their_bytes()
    ensures two { IsReadAsWritten w16 (2 ^ 16) }
    ensures four { IsReadAsWritten w32 (2 ^ 32) }
    ensures eight { IsReadAsWritten w64 (2 ^ 64) }
{}
