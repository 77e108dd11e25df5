//! Copies of unbounded sides.

ghost use Rattle.std.specs.Prelude.{◌≡◌, IfOk};
ghost use Rattle.outcome.specs.Views.{unbounded_of};

use cert_types::copied_scaled;
use model::Memory;
use outcome::UnboundedSide;
use std::alloc::Global;

/// The same unbounded side.
pub(crate) fn copied_unbounded(
    alloc: Global,
    unbounded: &UnboundedSide,
) -> Result<UnboundedSide, Memory>
    ensures { IfOk result (λ l. unbounded_of l ≡ unbounded_of unbounded.now) }
{
    let ray = Vec::from_slice(alloc, &unbounded.ray)?;
    let kept = copied_scaled(alloc, &unbounded.kept)?;
    Ok(UnboundedSide {
        up: unbounded.up,
        ray,
        kept,
    })
}
