//! Laws of orders where sides of choices are taken. The functions do nothing.
ghost use Rattle.order_check.specs.TakenLaws.{KeepsTaken, TakesSides, CycleOfArcsLeavesNone, BadReadLeavesNone, KeepingExplains};

/// An order that explains the parts, and keeps the sides taken, keeps what is known with them.
pub fn orders_keep_taken()
    ensures { KeepsTaken }
{}

/// An order that explains the parts keeps one side of each choice.
pub fn orders_take_sides()
    ensures { TakesSides }
{}

/// Where right arcs lead round in a cycle, no order that keeps the sides taken explains the parts.
pub fn cycle_of_arcs_leaves_none()
    ensures { CycleOfArcsLeavesNone }
{}

/// Where a read is bad, no order explains the parts.
pub fn bad_read_leaves_none()
    ensures { BadReadLeavesNone }
{}

/// Where sides are taken, no choice is open and no read is bad, every order of what remains that keeps what is known explains.
pub fn keeping_explains()
    ensures { KeepingExplains }
{}
