// Keys and data that look random and are the same in each run.

/// A number whose digits look random; no two numbers have the same one. It is the last step of the generator splitmix64.
pub fn mix(number: u64) -> u64 {
    let a = number.wrapping_add(0x9e37_79b9_7f4a_7c15);
    let b = (a ^ (a >> 30)).wrapping_mul(0xbf58_476d_1ce4_e5b9);
    let c = (b ^ (b >> 27)).wrapping_mul(0x94d0_49bb_1331_11eb);
    c ^ (c >> 31)
}

/// The key of a number, of 8 bytes.
pub fn key(number: u64) -> [u8; 8] {
    mix(number).to_be_bytes()
}

/// Data for a number, of 32 bytes.
pub fn data(number: u64) -> [u8; 32] {
    let mut bytes = [0u8; 32];
    for (k, part) in bytes.chunks_exact_mut(8).enumerate() {
        part.copy_from_slice(&mix(number ^ ((k as u64 + 1) << 56)).to_be_bytes());
    }
    bytes
}

/// One of the numbers below a bound, as the n-th draw gives it; 0 where the bound is 0.
pub fn draw(n: u64, bound: u64) -> u64 {
    if bound == 0 {
        return 0;
    }
    mix(n ^ (1 << 63)) % bound
}
