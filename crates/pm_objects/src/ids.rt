ghost use Rattle.std.specs.Prelude.{◌≡◌, ◌↔◌, IsTrue};

/// An object's id, as libpmemobj(7) has it: the pool's id, and the place in bytes of the object's first data byte.
#[derive(Clone, Copy, Debug, PartialEq, Eq, Default)]
pub struct Oid {
    /// The pool's id; 0 in the null id alone.
    pub pool: u64,
    /// The object's offset from the pool's start, in bytes.
    pub off: u64,
}

impl Oid {
    /// The null id: no object of any pool.
    pub const NULL: Oid = Oid { pool: 0, off: 0 };

    /// Whether this is the null id, both of whose fields are 0.
    pub fn is_null(&self) -> bool
        ensures { IsTrue result ↔ ((self.now.pool ≡ 0) × (self.now.off ≡ 0)) }
    {
        self.pool == 0 && self.off == 0
    }
}
