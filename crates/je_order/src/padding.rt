// Bytes with zeros behind them.
ghost use Rattle.std.specs.Prelude.{◌≡◌};
ghost use Rattle.je_order.specs.Held.{padded_to};

/// The first bytes, as many as the array has, with zeros behind where there are fewer. It takes no memory.
pub fn padded<const N: usize>(bytes: &[u8]) -> [u8; N]
    ensures { result ≡ padded_to N bytes.now }
{
    let mut array = [0u8; N];
    let count = bytes.len().min(N);
    array[..count].copy_from_slice(&bytes[..count]);
    array
}
