//! The larger of the worked histories.
use test_histories::{EMPTY, ID_0_0, ID_1_0, ID_2_0, ID_3_0, Table};
use txn::Source::By;
use txn::TxnId;

const ID_8_0: TxnId = TxnId {
    session: 8,
    number: 0,
};

/// Four writers and four readers: each way to order the writers of key 1 and those of key 2 fails one of the readers.
pub(crate) const REAL_SPLIT: Table = Table {
    marks: &[0; 8],
    remain: &[
        &[(&[], &[1, 3])],
        &[(&[], &[1, 4])],
        &[(&[], &[2, 5])],
        &[(&[], &[2, 6])],
        &[(&[(1, By(ID_0_0)), (5, By(ID_2_0)), (6, By(ID_3_0))], &[])],
        &[(&[(1, By(ID_1_0)), (5, By(ID_2_0)), (6, By(ID_3_0))], &[])],
        &[(&[(2, By(ID_2_0)), (3, By(ID_0_0)), (4, By(ID_1_0))], &[])],
        &[(&[(2, By(ID_3_0)), (3, By(ID_0_0)), (4, By(ID_1_0))], &[])],
    ],
    closed: &[false; 8],
    ..EMPTY
};

/// The same, but 6.0 doesn't read from 0.0. It overwrites key 7 of a ninth transaction, which it comes after; 0.0 has read that, so that it comes
/// before 6.0, whatever else is taken. One side of the first open choice is refuted by this step and those that are forced beyond the choice.
pub(crate) const FORCED_AND_SPLIT: Table = Table {
    marks: &[0; 9],
    remain: &[
        &[(&[(7, By(ID_8_0))], &[1, 3])],
        &[(&[], &[1, 4])],
        &[(&[], &[2, 5])],
        &[(&[], &[2, 6])],
        &[(&[(1, By(ID_0_0)), (5, By(ID_2_0)), (6, By(ID_3_0))], &[])],
        &[(&[(1, By(ID_1_0)), (5, By(ID_2_0)), (6, By(ID_3_0))], &[])],
        &[(&[(2, By(ID_2_0)), (4, By(ID_1_0)), (8, By(ID_8_0))], &[7])],
        &[(&[(2, By(ID_3_0)), (3, By(ID_0_0)), (4, By(ID_1_0))], &[])],
        &[(&[], &[7, 8])],
    ],
    closed: &[false; 9],
    limit: 16,
    ..EMPTY
};

/// Ten keys, each written in two sessions and read in a third from the first one: ten choices that nothing else decides.
pub(crate) const TEN_CHOICES: Table = Table {
    marks: &[0; 3],
    remain: &[
        &[
            (&[], &[10]),
            (&[], &[11]),
            (&[], &[12]),
            (&[], &[13]),
            (&[], &[14]),
            (&[], &[15]),
            (&[], &[16]),
            (&[], &[17]),
            (&[], &[18]),
            (&[], &[19]),
        ],
        &[
            (&[], &[10]),
            (&[], &[11]),
            (&[], &[12]),
            (&[], &[13]),
            (&[], &[14]),
            (&[], &[15]),
            (&[], &[16]),
            (&[], &[17]),
            (&[], &[18]),
            (&[], &[19]),
        ],
        &[
            (
                &[(
                    10,
                    By(TxnId {
                        session: 0,
                        number: 0,
                    }),
                )],
                &[],
            ),
            (
                &[(
                    11,
                    By(TxnId {
                        session: 0,
                        number: 1,
                    }),
                )],
                &[],
            ),
            (
                &[(
                    12,
                    By(TxnId {
                        session: 0,
                        number: 2,
                    }),
                )],
                &[],
            ),
            (
                &[(
                    13,
                    By(TxnId {
                        session: 0,
                        number: 3,
                    }),
                )],
                &[],
            ),
            (
                &[(
                    14,
                    By(TxnId {
                        session: 0,
                        number: 4,
                    }),
                )],
                &[],
            ),
            (
                &[(
                    15,
                    By(TxnId {
                        session: 0,
                        number: 5,
                    }),
                )],
                &[],
            ),
            (
                &[(
                    16,
                    By(TxnId {
                        session: 0,
                        number: 6,
                    }),
                )],
                &[],
            ),
            (
                &[(
                    17,
                    By(TxnId {
                        session: 0,
                        number: 7,
                    }),
                )],
                &[],
            ),
            (
                &[(
                    18,
                    By(TxnId {
                        session: 0,
                        number: 8,
                    }),
                )],
                &[],
            ),
            (
                &[(
                    19,
                    By(TxnId {
                        session: 0,
                        number: 9,
                    }),
                )],
                &[],
            ),
        ],
    ],
    closed: &[false; 3],
    limit: 64,
    ..EMPTY
};
