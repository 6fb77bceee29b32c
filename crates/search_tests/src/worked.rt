//! Worked histories, with budgets and what is answered.
use crate::tables::{FORCED_AND_SPLIT, REAL_SPLIT, TEN_CHOICES};
use test_histories::{EMPTY, ID_0_0, Table};
use txn::Source::{By, Init};

/// A word for what is answered.
pub(crate) type Said = &'static str;

pub(crate) struct Row {
    pub table: Table,
    pub open: usize,
    pub budget: u64,
    pub depth: u64,
    pub said: Said,
}

static ROWS: [Row; 33] = [
    Row {
        table: EMPTY,
        open: 0,
        budget: 32,
        depth: 0,
        said: "yes",
    },
    // a reader from the initial state comes before the writer
    Row {
        table: Table {
            remain: &[&[(&[], &[5])], &[(&[(5, Init)], &[])]],
            ..EMPTY
        },
        open: 0,
        budget: 1,
        depth: 0,
        said: "yes",
    },
    // its writer hasn't come
    Row {
        table: Table {
            remain: &[&[], &[(&[(5, By(ID_0_0))], &[])]],
            ..EMPTY
        },
        open: 0,
        budget: 32,
        depth: 0,
        said: "yes",
    },
    // write skew
    Row {
        table: Table {
            remain: &[&[(&[(5, Init)], &[6])], &[(&[(6, Init)], &[5])]],
            ..EMPTY
        },
        open: 0,
        budget: 32,
        depth: 0,
        said: "no",
    },
    // a lost update, by forced sides alone
    Row {
        table: Table {
            remain: &[
                &[(&[], &[5]), (&[(5, By(ID_0_0))], &[5])],
                &[(&[(5, By(ID_0_0))], &[5])],
            ],
            ..EMPTY
        },
        open: 0,
        budget: 1,
        depth: 6,
        said: "no",
    },
    // 1.1 reads the initial state behind 1.0, which read 0.0's write
    Row {
        table: Table {
            remain: &[
                &[(&[], &[5])],
                &[(&[(5, By(ID_0_0))], &[]), (&[(5, Init)], &[])],
            ],
            ..EMPTY
        },
        open: 0,
        budget: 32,
        depth: 0,
        said: "no",
    },
    // two writers of a key and a reader of one of them
    Row {
        table: Table {
            marks: &[0; 3],
            remain: &[&[(&[], &[5])], &[(&[], &[5])], &[(&[(5, By(ID_0_0))], &[])]],
            closed: &[false; 3],
            ..EMPTY
        },
        open: 1,
        budget: 2,
        depth: 0,
        said: "yes",
    },
    // the root and both sides of its first open choice are looked at
    Row {
        table: REAL_SPLIT,
        open: 4,
        budget: 1,
        depth: 0,
        said: "spent",
    },
    Row {
        table: REAL_SPLIT,
        open: 4,
        budget: 2,
        depth: 0,
        said: "spent",
    },
    Row {
        table: REAL_SPLIT,
        open: 4,
        budget: 3,
        depth: 0,
        said: "no",
    },
    Row {
        table: REAL_SPLIT,
        open: 4,
        budget: 32,
        depth: 0,
        said: "no",
    },
    // four cubes, and no node for any
    Row {
        table: REAL_SPLIT,
        open: 4,
        budget: 3,
        depth: 2,
        said: "spent",
    },
    Row {
        table: REAL_SPLIT,
        open: 4,
        budget: 32,
        depth: 2,
        said: "no",
    },
    Row {
        table: REAL_SPLIT,
        open: 4,
        budget: 32,
        depth: 6,
        said: "no",
    },
    // a cube is closed at its root: the least budget has a node for each of at most 16 cubes
    Row {
        table: REAL_SPLIT,
        open: 4,
        budget: 1,
        depth: 1,
        said: "spent",
    },
    Row {
        table: REAL_SPLIT,
        open: 4,
        budget: 2,
        depth: 1,
        said: "no",
    },
    Row {
        table: REAL_SPLIT,
        open: 4,
        budget: 4,
        depth: 2,
        said: "no",
    },
    Row {
        table: REAL_SPLIT,
        open: 4,
        budget: 7,
        depth: 3,
        said: "spent",
    },
    Row {
        table: REAL_SPLIT,
        open: 4,
        budget: 8,
        depth: 3,
        said: "no",
    },
    Row {
        table: REAL_SPLIT,
        open: 4,
        budget: 15,
        depth: 4,
        said: "spent",
    },
    Row {
        table: REAL_SPLIT,
        open: 4,
        budget: 16,
        depth: 4,
        said: "no",
    },
    Row {
        table: REAL_SPLIT,
        open: 4,
        budget: 15,
        depth: 5,
        said: "spent",
    },
    Row {
        table: REAL_SPLIT,
        open: 4,
        budget: 16,
        depth: 5,
        said: "no",
    },
    Row {
        table: REAL_SPLIT,
        open: 4,
        budget: 15,
        depth: 6,
        said: "spent",
    },
    Row {
        table: REAL_SPLIT,
        open: 4,
        budget: 16,
        depth: 6,
        said: "no",
    },
    // a cube's tree needs steps of its root and steps beyond it
    Row {
        table: FORCED_AND_SPLIT,
        open: 4,
        budget: 32,
        depth: 0,
        said: "no",
    },
    Row {
        table: FORCED_AND_SPLIT,
        open: 4,
        budget: 32,
        depth: 1,
        said: "no",
    },
    Row {
        table: FORCED_AND_SPLIT,
        open: 4,
        budget: 32,
        depth: 2,
        said: "no",
    },
    Row {
        table: FORCED_AND_SPLIT,
        open: 4,
        budget: 32,
        depth: 6,
        said: "no",
    },
    Row {
        table: TEN_CHOICES,
        open: 10,
        budget: 1,
        depth: 0,
        said: "spent",
    },
    Row {
        table: TEN_CHOICES,
        open: 10,
        budget: 63,
        depth: 6,
        said: "spent",
    },
    Row {
        table: TEN_CHOICES,
        open: 10,
        budget: 2048,
        depth: 0,
        said: "yes",
    },
    Row {
        table: TEN_CHOICES,
        open: 10,
        budget: 2048,
        depth: 6,
        said: "yes",
    },
];

pub(crate) fn rows() -> &'static [Row] {
    &ROWS
}
