// Byte order and name order.
ghost use Rattle.std.specs.Prelude.{◌≡◌, ◌+◌, ◌≤◌, length, take, drop};
ghost use Rattle.je_order.specs.Order.{bytes_cmp, name_cmp};
ghost use Rattle.je_order.specs.Spelled.{IsSpelled};

use crate::Name;
use std::cmp::Ordering;

// The number that the first eight bytes spell, the greatest first.
#[inline]
fn word(bytes: &[u8]) -> u64
    requires { 8 ≤ length bytes.now }
    ensures { IsSpelled (take 8 bytes.now) result }
{
    u64::from_be_bytes([
        bytes[0], bytes[1], bytes[2], bytes[3], bytes[4], bytes[5], bytes[6], bytes[7],
    ])
}

/// The order of the eight bytes from a place on, which are compared as one number. It takes no memory.
#[inline]
pub fn cmp_word(a: &[u8], b: &[u8], at: usize) -> Ordering
    requires { (at + 8 ≤ length a.now) × (at + 8 ≤ length b.now) }
    ensures { result ≡ bytes_cmp (take 8 (drop at a.now)) (take 8 (drop at b.now)) }
{
    let (_, x) = a.split_at(at);
    let (_, y) = b.split_at(at);
    word(x).cmp(&word(y))
}

/// Byte order: unsigned bytes from the left, a proper prefix first. It takes no memory.
pub fn cmp_bytes(a: &[u8], b: &[u8]) -> Ordering
    ensures { result ≡ bytes_cmp a.now b.now }
{
    let both = a.len().min(b.len());
    if both < 8 {
        return a.cmp(&b);
    }
    let mut at = 0;
    while both - at >= 8 {
        let order = cmp_word(a, b, at);
        if order.is_ne() {
            return order;
        }
        at += 8;
    }
    let last = cmp_word(a, b, both - 8);
    if last.is_ne() {
        return last;
    }
    a.len().cmp(&b.len())
}

/// Name order: by key, then by dup. It takes no memory.
pub fn cmp_name(a: &Name, b: &Name) -> Ordering
    ensures { result ≡ name_cmp a.now b.now }
{
    cmp_bytes(a.key.as_slice(), b.key.as_slice()).then(cmp_bytes(
        a.dup.as_slice(),
        b.dup.as_slice(),
    ))
}
