// Copies of the items of a list that pass a test.
ghost use Rattle.std.specs.Prelude.{◌≡◌, ◌++◌, ◌∷◌, Bool, filter, IfOk, OnOk};

use je_order::{Exact, List, copy_of};
use std::alloc::{AllocError, Global};

/// Puts copies of the items that pass the test at the end, in order.
fn push_where<T: Exact + Drop, F: Fn(&T) -> bool>(
    copies: &mut Vec<T>,
    items: &[T],
    test: F,
) -> Result<(), AllocError>
    requires { F.IsAlwaysCallable test }
    ensures { (p : T → Bool) →
        ((x : _) (b : Bool) → F.post test x b → b ≡ p x.now) →
        OnOk result (copies.new.items ≡ copies.old.items ++ filter p items.now) }
{
    for item in items {
        if test(item) {
            copies.push(copy_of(item)?)?;
        }
    }
    Ok(())
}

/// Copies of the items that pass the test, in order.
pub fn copies_where<T: Exact + Drop, F: Fn(&T) -> bool>(
    alloc: Global,
    items: &[T],
    test: F,
) -> Result<List<T>, AllocError>
    requires { F.IsAlwaysCallable test }
    ensures { (p : T → Bool) →
        ((x : _) (b : Bool) → F.post test x b → b ≡ p x.now) →
        IfOk result (λ list. list ≡ filter p items.now) }
{
    let mut copies = Vec::new(alloc);
    push_where(&mut copies, items, test)?;
    Ok(List::from_vec(copies))
}

/// Copies of the items below, then the new one, then copies of the items above.
pub fn with_item<T: Exact + Drop, F: Fn(&T) -> bool, G: Fn(&T) -> bool>(
    alloc: Global,
    items: &[T],
    below: F,
    new: T,
    above: G,
) -> Result<List<T>, AllocError>
    requires below { F.IsAlwaysCallable below }
    requires above { G.IsAlwaysCallable above }
    ensures { (p q : T → Bool) →
        ((x : _) (b : Bool) → F.post below x b → b ≡ p x.now) →
        ((x : _) (b : Bool) → G.post above x b → b ≡ q x.now) →
        IfOk result (λ list. list ≡ filter p items.now ++ new ∷ filter q items.now) }
{
    let mut copies = Vec::new(alloc);
    push_where(&mut copies, items, below)?;
    copies.push(new)?;
    push_where(&mut copies, items, above)?;
    Ok(List::from_vec(copies))
}
