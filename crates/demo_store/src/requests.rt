use txn::{Sequence, Txn, TxnId};

/// What a session asks for: the keys that it reads and those that it writes, each list strictly ascending, and whether it
/// aborts in the end.
#[derive(Clone, Drop, Debug)]
pub struct Request {
    pub session: u8,
    pub reads: Sequence<u64>,
    pub writes: Sequence<u64>,
    pub abort: bool,
}

/// A fault that a store can have. It acts once, at the first request to which it applies, and never on key 0.
#[derive(Clone, Copy, Debug, PartialEq, Eq)]
pub enum Fault {
    None,
    /// A read key has a writer: the least such key is read from the writer before the last.
    StaleRead,
    /// A key is read and written, and so it was by its last writer: the least such key is read from where that one
    /// read it.
    LostUpdate,
    /// Two read keys have one last writer, and the greater has no other: the greater is read from the initial state.
    SplitRead,
    /// The session wrote a read key before: the least such key is read from the initial state.
    SessionBack,
    /// A read key was written by a transaction that aborted: the least such key is read from the last of these.
    DirtyRead,
}

/// A transaction that was executed.
#[derive(Clone, Drop, Debug)]
pub struct Executed {
    pub id: TxnId,
    /// What it did: nothing, where it aborted.
    pub txn: Txn,
    /// The keys that it wrote in vain, where it aborted.
    pub lost: Sequence<u64>,
}
