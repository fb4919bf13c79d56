ghost use Rattle.std.specs.Prelude.{◌≡◌, IfOk};
ghost use Rattle.pm_shared.specs.Bare.{BeginsBare};

use crate::Failure;
use pm_layout::Shape;
use pm_objects::Stops;
use pm_shared::Beginning;
use pm_world::bare_words;
use std::alloc::Global;

/// The pool's id.
pub const POOL: u64 = 7;

/// What lanes begin on in a pool of two lanes and one zone that has no object.
pub fn beginning(alloc: Global) -> Result<Beginning, Failure>
    ensures { IfOk result (λ b. BeginsBare b × (b.lanes ≡ 2) × (b.shape.lanes ≡ 2) × (b.pool ≡ 7)) }
{
    let shape = Shape::new(2, 1)?;
    let words = bare_words(alloc, shape)?;
    Ok(Beginning {
        shape,
        pool: POOL,
        lanes: 2,
        stops: Stops::none(),
        words,
        runs: vec![in alloc; u64::MAX; 70]?,
        zones: vec![in alloc; 0; 1]?,
    })
}
