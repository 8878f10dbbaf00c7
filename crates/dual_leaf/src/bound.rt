//! What the value of a leaf says.
ghost use Rattle.std.specs.Prelude.{◌<◌, ◌^◌, IfOk, unsigned_abs};
ghost use Rattle.exact_sums.specs.Near.{IsNear};
ghost use Rattle.dual_leaf.specs.Leaf.{IsNearPriced, IsAnswerOf};
ghost use Rattle.flow_types.specs.Bounds.{IsNearBound};

use crate::fault::LeafFault;
use flow_types::Bound;
use priced_plans::rounded_up;

/// The value divided by the weight and rounded up; for the weight 0, that there is no plan where
/// the value is above 0.
pub fn answer_of(value: i128, weight: u64) -> Result<Bound, LeafFault>
    requires near { IsNear (2 ^ 123) value }
    ensures answered { IsAnswerOf weight value result }
    ensures near { IfOk result IsNearPriced }
    ensures nearer { unsigned_abs value < 2 ^ 115 → IfOk result IsNearBound }
{
    if weight > 0 {
        Ok(Bound::AtLeast(rounded_up(value, weight)))
    } else if value > 0 {
        Ok(Bound::NoPlan)
    } else {
        Err(LeafFault::Useless(value))
    }
}
