/// What `create` is asked for.
#[derive(Clone, Copy, Debug)]
pub struct CreateWords<'a> {
    /// The name that the new pool gets.
    pub pool: &'a str,
    pub lanes: u64,
    pub zones: u64,
    pub id: u64,
    pub layout: &'a str,
    /// Bytes of the root; 0 for none.
    pub root: u64,
}

/// What `exec` is asked for.
#[derive(Drop)]
pub struct ExecWords<'a> {
    /// The names of the pool and of the script that are read, and the one that the new pool gets.
    pub pool: &'a str,
    pub script: &'a str,
    pub out: &'a str,
    pub layout: &'a str,
    /// The lanes that stop, each with its number of counted calls.
    pub stops: Vec<(u64, u64)>,
    /// What survives of undrained changes: docs/FORMAT.md, "Keep".
    pub keep: u64,
}

/// What `recover` is asked for.
#[derive(Clone, Copy, Debug)]
pub struct RecoverWords<'a> {
    /// The name of the pool that is read, and the one that the recovered pool gets.
    pub pool: &'a str,
    pub out: &'a str,
    /// After how many counted calls it stops, if it does.
    pub stop: Option<u64>,
    /// What survives of undrained changes: docs/FORMAT.md, "Keep".
    pub keep: u64,
}

/// What `check` is asked for.
#[derive(Clone, Copy, Debug)]
pub struct CheckWords<'a> {
    /// The name of the pool that is read.
    pub pool: &'a str,
    /// The name that a mended pool gets, where it is to be mended.
    pub repair: Option<&'a str>,
}

/// A command and what it is asked for.
#[derive(Drop)]
pub enum Command<'a> {
    /// Makes a pool.
    Create(CreateWords<'a>),
    /// Runs a script on a pool.
    Exec(ExecWords<'a>),
    /// Recovers a pool.
    Recover(RecoverWords<'a>),
    /// Checks a pool.
    Check(CheckWords<'a>),
    /// Shows the facts of the pool with this name.
    Info(&'a str),
    /// Shows what the pool with this name has in it.
    Dump(&'a str),
    /// Shows help or the version: this text.
    Help(String),
}
