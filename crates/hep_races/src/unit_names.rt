//! The names of the variables of units.
ghost use Rattle.std.specs.Prelude.{◌≡◌, ◌<◌, IfOk, Some, length, true};
ghost use Rattle.hep_image.specs.Names.{variable_number};
ghost use Rattle.hep_machine.specs.Words.{Name as SourceName, is_among, names_of, unit_at};
ghost use Rattle.hep_races.specs.StepEvents.{AreNamesOf};

use hep_base::Sequence;
use hep_image::{FrameVariable, Image};
use hep_names::ProgramSymbols;
use hep_source::Name;
use std::alloc::{AllocError, Global};

/// The names of the variables and constants of each unit, in the order of first appearance.
#[derive(Drop)]
pub struct UnitNames {
    units: Sequence<Sequence<Name>>,
}

impl UnitNames {
    /// The names of an image's program.
    ///
    /// # Errors
    ///
    /// Only where memory was refused.
    pub fn of_image(alloc: Global, image: &Image) -> Result<UnitNames, AllocError>
        ensures { IfOk result (AreNamesOf image.now) }
    {
        let program = ProgramSymbols::new(alloc, image.program().as_slice())?;
        let mut units = Vec::new(alloc);
        for symbols in program.units() {
            let names = symbols.names().as_slice().to_vec(alloc)?;
            units.push(Sequence::from(names))?;
        }
        Ok(UnitNames {
            units: Sequence::from(units),
        })
    }

    /// The name with this number for `Image::name`, which is that of a variable of the unit.
    pub fn name_with(&self, image: &Image, unit: usize, number: u32) -> Option<Name>
        requires names { AreNamesOf image.now self.now }
        requires unit { unit < length image.now }
        ensures { (x : SourceName) → is_among x (names_of (unit_at image.now unit)) ≡ true → number ≡ variable_number image.now unit x
            → result ≡ Some x }
    {
        let names = self.units.as_slice()[unit].as_slice();
        let count = names.len();
        if count == 0 {
            return None;
        }
        let first = image.variable_number(
            unit,
            FrameVariable {
                index: 0,
                first: 0,
                is_array: false,
            },
        );
        match names.get(number.saturating_sub(first) as usize) {
            Some(name) => Some(*name),
            None => None,
        }
    }
}
