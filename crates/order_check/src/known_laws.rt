//! Laws of the known relation, which hold of its definition. The functions do nothing.
ghost use Rattle.order_check.specs.Precedes.{KeepsKnown, CycleLeavesNoOrder};

/// Every order that explains parts keeps the known relation, where each last gone writer is gone, as in good parts.
pub fn every_order_keeps_known()
    ensures { KeepsKnown }
{}

/// Where a transaction is known to come before itself, no order explains the parts.
pub fn cycle_leaves_no_order()
    ensures { CycleLeavesNoOrder }
{}
