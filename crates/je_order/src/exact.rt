// Types whose clone is equal to its source.
ghost use Rattle.std.specs.Prelude.{◌≡◌, IfOk};
ghost use Rattle.std.proofs.Common.{rules};

use std::alloc::AllocError;

/// A type whose clone is equal to its source. Generic code copies through `copy_of` and knows what it
/// has, where `Clone` alone says only what the type's own `clone` says.
pub trait Exact: Clone {
    ghost exact: { (x y : Self) → Self.is_clone x y → y ≡ x };
}

/// A copy. The only error is out of memory, and nothing is changed by it.
pub fn copy_of<T: Exact>(x: &T) -> Result<T, AllocError>
    ensures { IfOk result (λ copy. copy ≡ x.now) }
{
    x.clone()
}

impl Exact for u8 {
    ghost exact = { λ x y h. Prim.search (rules, h) };
}

impl<A: Exact, B: Exact> Exact for (A, B) {
    ghost exact = { λ x y h. Prim.search (rules, A.exact x.0 y.0 h.0, B.exact x.1 y.1 h.1) };
}
