use pm_objects::Stops;

/// How power fails under a script's lanes: where each stops, and what survives then.
#[derive(Drop)]
pub struct PowerFailure {
    /// After how many counted calls each lane stops, if it does: docs/COMMANDS.md, "Stops".
    pub stops: Stops,
    /// What survives of what is undrained then: docs/FORMAT.md, "Keep".
    pub keep: u64,
}
