ghost use Rattle.std.specs.Prelude.{◌≡◌};

use pm_model::Stage;
use pm_objects::TxErr;
use pm_world::Lane;

/// The stage of the lane's transaction, `None` where none is open: pmemobj_tx_stage(3).
pub fn stage<M>(lane: &Lane<M>) -> Stage
    ensures { result ≡ lane.now.stage }
{
    lane.stage
}

/// The level of the lane's transaction, 1 to 64, and 0 where none is open.
pub fn level<M>(lane: &Lane<M>) -> u64
    ensures { result ≡ lane.now.level }
{
    lane.level
}

/// Why the lane's transaction was aborted, `None` where it was not: pmemobj_tx_errno(3).
pub fn errno<M>(lane: &Lane<M>) -> TxErr
    ensures { result ≡ lane.now.error }
{
    lane.error
}
