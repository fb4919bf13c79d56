/// Where a transaction stands: the stages of pmemobj_tx_begin(3).
#[derive(Clone, Copy, Debug, PartialEq, Eq)]
pub enum Stage {
    /// No transaction is open, or all of it is dealt with.
    None,
    /// It is open for work.
    Work,
    /// Its innermost level is committed.
    OnCommit,
    /// It is aborted.
    OnAbort,
    /// It is about to end.
    Finally,
}
