use crate::sequences::Sequence;

/// The key that only fences read and write.
pub const EPOCH: u64 = 0;

/// A transaction's name: its session, and its place there, counted from 0. Ids are ordered by session, then number.
#[derive(Clone, Copy, Debug, PartialEq, Eq, PartialOrd, Ord)]
pub struct TxnId {
    pub session: u8,
    pub number: u64,
}

/// Where a read's value came from: the initial state, or the transaction that wrote it. The initial state is ordered
/// before every id.
#[derive(Clone, Copy, Debug, PartialEq, Eq, PartialOrd, Ord)]
pub enum Source {
    Init,
    By(TxnId),
}

/// What a transaction read, as keys with their sources, and which keys it wrote. Reads of its own writes are not logged.
#[derive(Clone, Drop, Debug)]
pub struct Txn {
    pub reads: Sequence<(u64, Source)>,
    pub writes: Sequence<u64>,
}

/// Transactions of one session that follow one another, the first at the place `first` of the session.
#[derive(Clone, Drop, Debug)]
pub struct Fragment {
    pub session: u8,
    pub first: u64,
    pub txns: Sequence<Txn>,
}
