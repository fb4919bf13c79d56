//! Laws of the layout.

ghost use Rattle.std.specs.Prelude.{◌≡◌, ℕ};
ghost use Rattle.pm_layout.specs.declared.kind.PlaceKind.{PlaceKind};
ghost use Rattle.pm_layout.specs.Layout.{IsShape, pool_size};
ghost use Rattle.pm_layout.specs.Kinds.{IsKind};

/// A law: pools of one length have one shape.
pub fn one_shape_per_length()
    ensures { (lanes zones other_lanes other_zones : ℕ)
        → IsShape lanes zones → IsShape other_lanes other_zones
        → pool_size lanes zones ≡ pool_size other_lanes other_zones
        → (lanes ≡ other_lanes) × (zones ≡ other_zones) }
{}

/// A law: a word of a pool has one kind.
pub fn one_kind_per_word()
    ensures { (lanes zones word : ℕ) (one other : PlaceKind)
        → IsKind lanes zones word one → IsKind lanes zones word other
        → one ≡ other }
{}
