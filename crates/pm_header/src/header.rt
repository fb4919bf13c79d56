use crate::name::Name;

/// What the header page says of a pool.
#[derive(Drop)]
pub struct Header {
    /// The version of the format: 1.
    pub version: u64,
    /// The pool's id, which its object ids carry: 1 or more.
    pub id: u64,
    /// Lanes, 1 to 32.
    pub lanes: u64,
    /// Zones, 1 to 32.
    pub zones: u64,
    /// Bytes of the whole pool.
    pub bytes: u64,
    /// The layout name.
    pub name: Name,
}
