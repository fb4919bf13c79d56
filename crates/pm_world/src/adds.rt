ghost use Rattle.std.specs.Prelude.{Option, None};
ghost use Rattle.pm_objects.specs.declared.calls.Operation.{Operation};
ghost use Rattle.pm_objects.specs.declared.calls.Operation.TheVariants.{Publish};
ghost use Rattle.pm_objects.specs.declared.history.Value.{Value};

use std::marker::Brand;

/// What a step adds to its lane's open call. Contracts alone see it, and no value of it is made: a
/// memory whose steps are typed names by it, in its own `tell`, what it was given there.
pub trait Adds {
    /// The operation.
    ghost operation: { Operation };

    /// Its reply: a value, or none where it is just done.
    ghost reply: { Option Value };
}

/// Stands for what a call picks.
impl Adds for Brand {
    ghost operation = { Publish };

    ghost reply = { None };
}
