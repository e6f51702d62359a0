//! The next private steps of a unit of an image, up to a number.
ghost use Rattle.std.specs.Prelude.{◌≡◌, ◌≤◌, [], length, IfNone, IfSome};
ghost use Rattle.hep_image.specs.Image.{IsUnitCode};
ghost use Rattle.hep_private.specs.BaseValues.{values_of};
ghost use Rattle.hep_private.specs.BoundedSteps.{HasTaken, start_of};
ghost use Rattle.hep_private.specs.RecordRoom.{most_records};

use crate::progress::{StepProgress, StepSource, advance};
use crate::write_log::BaseValues;
use hep_step::{Image, UnitCode};

/// A unit of an image, if it has that unit.
pub fn unit_of(image: &Image, unit: u32) -> Option<&UnitCode>
    ensures there { IfSome result (λ code. IsUnitCode image.now unit code.now) }
    ensures none { IfNone result (length image.now ≤ unit) }
{
    if (unit as usize) < image.program().as_slice().len() {
        Some(image.unit(unit as usize))
    } else {
        None
    }
}

/// Makes at most `most` of the private steps that come next in a unit, and fewer only where the next one isn't
/// private.
pub fn take_steps(
    image: &Image,
    unit: u32,
    base: BaseValues<'_>,
    most: usize,
    progress: &mut StepProgress,
)
    requires none { progress.old.records ≡ [] }
    requires few { most ≤ most_records }
    ensures { HasTaken image.now (start_of unit (values_of base.entry) progress.old) most progress.new }
{
    let Some(unit) = unit_of(image, unit) else {
        return;
    };
    let source = StepSource {
        code: unit.code.as_slice(),
        private: unit.private.as_slice(),
        base,
    };
    while progress.records.len() < most {
        if !advance(&source, progress) {
            return;
        }
    }
}
