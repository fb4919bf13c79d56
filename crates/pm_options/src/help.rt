//! The texts of `--help` and `--version`.

/// What `--version` prints behind the name.
pub const VERSION: &str = "0.1.0";

pub const PROGRAM: &str =
    "Pools of persistent memory: makes, runs, recovers, checks and shows them.";

pub const PROGRAM_END: &str = "\
Statuses: 0 done; 1 the pool has a fault, or a value is refused; 2 the words are no command;
3 a file could not be read; 4 a file or a line could not be written; 5 no memory;
6 the script has a bad line. A file that is there is never overwritten.";

pub const CREATE: &str = "Makes a new pool.";

pub const CREATE_END: &str = "\
Writes POOL, which must not be there, and prints `created BYTES root OFF`, or `root none`.
Status 1 where lanes or zones are not 1 to 32 (BadShape), the id is 0 (BadId), the layout name
is not 1 to 63 printing characters (BadLayout), or the root has more than 262080 bytes (BadSize).
Status 4 where POOL is there or can't be written.";

pub const EXEC: &str = "Runs a script on a pool, up to a power failure where lanes stop.";

pub const EXEC_END: &str = "\
Reads POOL and FILE, writes POOL2, which must not be there, and prints a line for each call and
each lane. POOL is not changed.
Status 1 where POOL has a fault, another layout name, or fewer lanes than the script; 3 where POOL
or FILE can't be read; 4 where POOL2 is there or can't be written; 6 where FILE has a bad line.";

pub const RECOVER: &str = "Recovers a pool, up to a power failure where it stops.";

pub const RECOVER_END: &str = "\
Makes the calls of the memory that the opening of POOL makes, writes POOL2, which must not be there,
and prints `recovered after N calls`, or `stopped after N calls`. POOL is not changed.
Status 1 where POOL has a fault; 3 where it can't be read; 4 where POOL2 is there or can't be
written.";

pub const CHECK: &str = "Tells whether a pool is consistent, or its first fault.";

pub const CHECK_END: &str = "\
Prints `consistent`, or `fault` with the first fault. With --repair, where one copy of the header
is damaged and nothing else is, the mended pool is written to POOL2, which must not be there, and
`mended` is printed as well. POOL is not changed.
Status 0 where POOL is consistent or mended, 1 where it has a fault; 3 where it can't be read;
4 where POOL2 is there or can't be written.";

pub const INFO: &str = "Shows the header of a pool, and counts what it has.";

pub const INFO_END: &str = "\
Prints version, pool id, layout name, lanes, zones, bytes, root, objects, bytes of data, runs,
sealed lanes and valid undo records, a line each. Writes no file.
Status 1 where POOL has a fault, 3 where it can't be read.";

pub const DUMP: &str = "Shows the objects of a pool with their bytes and members.";

pub const DUMP_END: &str = "\
Prints the root's offset, and for each object its type, size, bytes that are not all 0, and members.
Writes no file.
Status 1 where POOL has a fault, 3 where it can't be read.";
