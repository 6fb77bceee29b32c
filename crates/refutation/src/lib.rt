//! Trees that show that no order explains parts, and their checker.
#![tactic(auto)]

mod above;
mod arcs;
mod checking;
mod joining;
mod laws;
mod pruned;
mod pruning;
mod shortening;
mod steps;
mod trees;
mod used;

pub use above::Above;
pub use checking::{check, check_front};
pub use joining::join;
pub use laws::{
    after_both, forced_with_more, joined_depth, joined_trees_refute, refuted_has_no_order,
    refutes_with_more,
};
pub use pruned::Pruned;
pub use shortening::shortened;
pub use trees::{Leaf, Tree};
