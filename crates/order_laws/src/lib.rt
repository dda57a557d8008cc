//! Laws of the orders that keys and record names have. It stands on `je_order`. Upward it promises that
//! both are total orders, and that what compares as equal is the same. Its functions have nothing to do:
//! their contracts are the laws.
#![tactic(auto)]

ghost use Rattle.je_order.specs.Order.{bytes_cmp, name_cmp};
ghost use Rattle.order_laws.specs.Equality.{SameWhereEqual};
ghost use Rattle.std.specs.Cmp.{IsTotalOrder};

/// Byte order is a total order: of any two byte strings exactly one is first, or they compare as equal,
/// and what is before a second one is before all behind it.
pub fn byte_order_is_total()
    ensures { IsTotalOrder bytes_cmp }
{}

/// Name order is a total order.
pub fn name_order_is_total()
    ensures { IsTotalOrder name_cmp }
{}

/// Byte strings that compare as equal are the same, and so are names.
pub fn equal_names_are_same()
    ensures { SameWhereEqual }
{}
