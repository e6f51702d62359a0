//! The variables of a unit's names.
ghost use Rattle.std.specs.Prelude.{◌≡◌, ◌≢◌, ◌<◌, ◌≤◌, ◌↔◌, ℕ, Some, IfOk, IsTrue, length, map};
ghost use Rattle.hep_code.specs.Placements.{variable_in};
ghost use Rattle.hep_code.specs.declared.variable.Variable.TheVariants.{Absent};
ghost use Rattle.hep_storage.specs.Starts.{AreStarts};
ghost use Rattle.hep_conditions.specs.Words.{IsAccepted};
ghost use Rattle.hep_image.specs.Names.{variable_number};
ghost use Rattle.hep_image.specs.Places.{variable_of};
ghost use Rattle.hep_machine.specs.Words.{Name as SourceName, Units, common_cells, frame_cells, unit_at};
ghost use Rattle.hep_event.specs.Variables.{AreVariablesOf, IsFirstAmong, variables_of_names};

use hep_base::Sequence;
use hep_code::Variable;
use hep_code::placement::Placement;
use hep_image::{FrameVariable, Image};
use hep_names::{ProgramSymbols, Symbols};
use hep_places::unit_places;
use hep_source::Name;
use hep_storage::{CommonBlocks, CommonStarts};
use std::alloc::{AllocError, Global};

/// The variables of the names of each unit, in the order of the names. The name of a variable is found by a search.
#[derive(Drop)]
pub struct Variables {
    units: Sequence<Sequence<Variable>>,
}

// The variables of names.
fn variables_of(
    alloc: Global,
    names: &[Name],
    places: &Placement,
) -> Result<Vec<Variable>, AllocError>
    ensures { IfOk result (λ variables. variables.items ≡ map (variable_in places.now) names.now) }
{
    let mut variables = Vec::new(alloc);
    for name in names {
        variables.push(places.variable(name))?;
    }
    Ok(variables)
}

// Those of the names of a unit.
fn variables_of_unit(
    alloc: Global,
    symbols: &Symbols,
    common: &CommonStarts,
) -> Result<Sequence<Variable>, AllocError>
    ensures { IfOk result (λ variables. (program : Units) (u : ℕ) → IsAccepted program → u < length program → symbols.now ≡ unit_at program u
        → AreStarts program common.now → common_cells program ≤ 16777216 → frame_cells (unit_at program u) ≤ 16777216
        → variables ≡ variables_of_names program (unit_at program u)) }
{
    let places = unit_places(alloc, symbols, common)?;
    let variables = variables_of(alloc, symbols.names().as_slice(), &places.places)?;
    Ok(Sequence::from(variables))
}

// Those of the names of each unit of an image, where these are its names.
fn variables_of_units(
    alloc: Global,
    image: &Image,
    program: &ProgramSymbols,
    common: &CommonStarts,
) -> Result<Vec<Sequence<Variable>>, AllocError>
    requires program { program.now ≡ image.now }
    requires starts { AreStarts image.now common.now }
    ensures { IfOk result (λ units. units.items ≡ map (variables_of_names image.now) image.now) }
{
    image.is_runnable();
    let _cells = image.common();
    let mut units = Vec::new(alloc);
    for (index, symbols) in program.units().iter().enumerate() {
        let _code = image.unit(index);
        units.push(variables_of_unit(alloc, symbols, common)?)?;
    }
    Ok(units)
}

fn is_same(left: Variable, right: Variable) -> bool
    ensures { IsTrue result ↔ (left ≡ right) }
{
    left == right
}

// The index of the first of these variables that is this one.
fn index_among(variables: &[Variable], variable: Variable) -> Option<usize>
    ensures { IsFirstAmong variables.now variable result }
{
    for index in 0..variables.len() {
        if is_same(variables[index], variable) {
            return Some(index);
        }
    }
    None
}

impl Variables {
    /// The variables of an image's program.
    ///
    /// # Errors
    ///
    /// Only where memory was refused.
    pub fn of_image(alloc: Global, image: &Image) -> Result<Variables, AllocError>
        ensures { IfOk result (AreVariablesOf image.now) }
    {
        let program = ProgramSymbols::new(alloc, image.program().as_slice())?;
        let blocks = CommonBlocks::of_program(alloc, &program)?;
        let common = CommonStarts::of_blocks(alloc, &blocks)?;
        let units = variables_of_units(alloc, image, &program, &common)?;
        Ok(Variables {
            units: Sequence::from(units),
        })
    }

    /// The number of the name of a variable of a unit, for `Image::name`. `None` where no name of the unit is this
    /// variable.
    pub fn number_of(&self, image: &Image, unit: usize, variable: Variable) -> Option<u32>
        requires variables { AreVariablesOf image.now self.now }
        requires unit { unit < length image.now }
        ensures { (x : SourceName) → variable_of image.now (unit_at image.now unit) x ≡ variable → variable ≢ Absent
            → result ≡ Some (variable_number image.now unit x) }
    {
        let index = index_among(self.units.as_slice()[unit].as_slice(), variable)?;
        Some(image.variable_number(
            unit,
            FrameVariable {
                index,
                first: 0,
                is_array: false,
            },
        ))
    }
}
