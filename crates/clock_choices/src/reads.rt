use txn::TxnId;

/// A read of a key from a writer of it.
#[derive(Clone, Copy, Debug)]
pub(crate) struct Read {
    pub reader: TxnId,
    pub key: u64,
    pub writer: TxnId,
}
