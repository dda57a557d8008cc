// The Adler-32 checksum.
ghost use Rattle.std.specs.Prelude.{◌≡◌, ◌+◌, ◌%◌, ◌<◌, ◌≤◌, length};
ghost use Rattle.je_bytes.specs.Adler.{adler32_of, sum_of, running_sum_of};

/// The modulus of both sums, the greatest prime below 2^16.
const MODULUS: u32 = 65_521;

/// How many bytes are summed between two reductions: few enough that no sum reaches 2^32.
const BLOCK: usize = 2_048;

// Both sums after a block's bytes, reduced.
fn sums_after(first: u32, second: u32, block: &[u8]) -> (u32, u32)
    requires first { first < 65521 }
    requires second { second < 65521 }
    requires short { length block.now ≤ 2048 }
    ensures first { result.0 ≡ (first + sum_of block.now) % 65521 }
    ensures second { result.1 ≡ (second + running_sum_of first block.now) % 65521 }
{
    let mut a = first;
    let mut b = second;
    for byte in block {
        a += *byte as u32;
        b += a;
    }
    (a % MODULUS, b % MODULUS)
}

/// The Adler-32 checksum of RFC 1950: the sum of the bytes plus one, and the sum of that sum after each
/// byte, each modulo 65,521, the second in the upper half. It takes no memory.
pub fn adler32(bytes: &[u8]) -> u32
    ensures { result ≡ adler32_of bytes.now }
{
    let mut a = 1;
    let mut b = 0;
    let mut rest = bytes;
    while rest.len() > BLOCK {
        let (block, after) = rest.split_at(BLOCK);
        (a, b) = sums_after(a, b, block);
        rest = after;
    }
    let (a, b) = sums_after(a, b, rest);
    b * 65_536 + a
}
