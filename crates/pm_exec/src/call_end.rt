use crate::answer::Answer;

/// What a call of a lane came to.
#[derive(Drop)]
pub(crate) enum CallEnd<'s> {
    /// It was answered.
    Answered(Answer<'s>),
    /// The lane stopped in it; with its answer so far, if it had its number.
    Stopped(Option<Answer<'s>>),
    /// At this line no generation or no commit number was left for it.
    Spent(u64),
}
