use pm_objects::{Refusal, TxErr, Value};

/// What a line of a call came to.
#[derive(Drop)]
pub(crate) enum LineEnd {
    /// The transaction goes on, with what the line gave.
    GoesOn(Option<Value>),
    /// The call is over: the outermost level is committed; or outside of a transaction it is done,
    /// or refused so.
    Over(Option<Refusal>),
    /// The transaction is given up with this error, and its levels are to be ended.
    GivenUp(TxErr),
    /// The lane stopped.
    Stopped,
    /// No generation or no commit number is left for the call: nothing was done.
    Spent,
}
