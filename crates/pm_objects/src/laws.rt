ghost use Rattle.std.specs.Prelude.{◌≡◌, ◌<◌, ℕ, length, Some, slice_index_or};
ghost use Rattle.std.specs.List.Sorted.{IsStrictlyIncreasing};
ghost use Rattle.pm_objects.specs.Pool.{Objects, offsets, object_at};
ghost use Rattle.pm_objects.specs.declared.pool.Object.{Object};

/// A law: objects in rising offsets are a finite map, each being the one at its offset. No code runs.
pub fn objects_are_a_map()
    ensures { (objects : Objects) (k : ℕ) (d : ℕ × Object) → IsStrictlyIncreasing (offsets objects) → k < length objects
        → object_at objects (slice_index_or objects k d).0 ≡ Some (slice_index_or objects k d).1 }
{}
