use pm_objects::{Fate, Value};
use pm_script::ScriptLine;

/// What a call of a lane answered, with its lines.
#[derive(Drop)]
pub struct Answer<'s> {
    /// Its lines, in order, those that an abort passed over among them.
    pub lines: Vec<&'s ScriptLine>,
    /// Its commit number.
    pub number: u64,
    /// The lines that gave a value, each with it, in order.
    pub values: Vec<(u64, Value)>,
    /// The line that aborted the transaction; 0 where none did.
    pub at: u64,
    /// What became of it. A call in which its lane stopped is lost unless the image has its
    /// deciding store.
    pub fate: Fate,
}
