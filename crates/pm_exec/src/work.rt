use crate::answer::Answer;
use pm_calls::{CallRoom, Names};
use pm_text::LaneEnd;

/// The calls of a lane, and their answers as it made them.
#[derive(Drop)]
pub struct LaneWork<'s, G> {
    /// The lane's number.
    pub number: u64,
    /// What the ids of its lines stand for.
    pub names: Names,
    /// What is passed before each line.
    pub gate: &'s G,
    /// The calls that are to be made, until the lane runs.
    pub calls: Option<Vec<CallRoom<'s>>>,
    /// The answers of the calls that were answered, in order.
    pub answers: Vec<Answer<'s>>,
    /// That of the call in which the lane stopped, if it had its number.
    pub unanswered: Option<Answer<'s>>,
    /// How the lane ended.
    pub end: LaneEnd,
}
