//! What the crates of tests share: histories that are written down as tables, histories that are generated, and what is known of them by a
//! plain computation, with which tests compare what the libraries answer. No program stands on it, and it promises nothing of its results.
#![tactic(auto)]

mod closure;
mod generated;
mod plain;
mod tables;

pub use closure::{Pair, Relation};
pub use generated::{Dice, beside_old_reads_by, fenced_by, over, parts_by, stored_by};
pub use plain::{Facts, Node, facts_of, is_open, known_with, look, side_of};
pub use tables::{
    EMPTY, ID_0_0, ID_0_1, ID_0_2, ID_1_0, ID_1_1, ID_2_0, ID_3_0, ID_255_0, Lists, Table, crowd,
};
