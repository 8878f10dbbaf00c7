//! Why a tableau can't be made or changed.

ghost use Rattle.std.specs.Prelude.{◌≡◌};
ghost use Rattle.scaled_simplex.specs.declared.refused.Refused.TheVariants as refused;

use flow_types::OutOfMemory;
use row_arena::Wide;

/// What there is no room for, or no memory.
#[derive(Clone, Copy, Debug, PartialEq, Eq)]
pub enum Refused {
    Wide(Wide),
    OutOfMemory,
}

impl From<OutOfMemory> for Refused {
    ghost from_gives = { λ _ e. e ≡ refused.OutOfMemory };

    fn from(_: OutOfMemory) -> Self {
        Refused::OutOfMemory
    }
}

impl From<Wide> for Refused {
    ghost from_gives = { λ wide e. e ≡ refused.Wide wide };

    fn from(wide: Wide) -> Self {
        Refused::Wide(wide)
    }
}
