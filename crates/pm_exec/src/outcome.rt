use pm_objects::Entry;
use pm_text::LaneEnd;

/// What a run came to.
#[derive(Drop)]
pub struct Outcome {
    /// The words of the image that is left.
    pub image: Vec<u64>,
    /// The calls that have a number, in rising number.
    pub entries: Vec<Entry>,
    /// How each lane ended, from lane 0 on.
    pub lanes: Vec<LaneEnd>,
}
