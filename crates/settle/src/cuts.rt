use order_check::LastWriters;
use txn::{Sequence, TxnId};

/// What a cut takes out, and the last writers that it leaves.
#[derive(Clone, Drop, Debug)]
pub struct Cut {
    pub fence: TxnId,
    /// In order of id.
    pub gone: Sequence<TxnId>,
    /// Of the keys that the gone wrote.
    pub last: LastWriters,
}
