//! The names in the bounds of adjustable dummy arrays, which CALL, CREATE and references read (X3.9-1978, 5.5.1).
ghost use Rattle.std.specs.Prelude.{◌≡◌, ◌++◌, ◌+◌, ◌<◌, ℕ, IfOk, OnOk, Some, length, slice_get};
ghost use Rattle.std.specs.List.{flat_map};
ghost use Rattle.hep_machine.specs.Words.{cells_before, names_in_block, occurrences_in_dimension};
ghost use Rattle.hep_storage.specs.Starts.{AreBlocks};
ghost use Rattle.hep_views.specs.ListedProcesses.{block_place};
ghost use Rattle.hep_races.specs.NamesInBounds as words;
ghost use Rattle.hep_races.specs.NamesInBounds.{AreBoundsOf, AreTablesOf, IsInUnit};

use hep_base::Sequence;
use hep_image::{BlockStart, Image};
use hep_names::occurrences::add_in_expression;
use hep_names::{ProgramSymbols, Symbols, cells_of};
use hep_source::{Dimension, Name, Occurrence, UpperBound};
use hep_state_text::names_in_block;
use hep_storage::CommonBlocks;
use hep_views::Place;
use std::alloc::{AllocError, Global};

/// Where a name in a bound has its value.
#[derive(Clone, Copy)]
pub(crate) enum BoundSource {
    /// In the storage unit of a dummy argument of the unit, by its index.
    Dummy(usize),
    /// In a storage unit of COMMON.
    Common(Place),
}

/// A name in a bound.
#[derive(Clone, Copy)]
pub(crate) struct BoundName {
    pub(crate) name: Name,
    pub(crate) source: BoundSource,
}

/// The names in the bounds of each unit's adjustable dummy arrays, in the order of the text.
#[derive(Drop)]
pub struct BoundNames {
    units: Sequence<Sequence<BoundName>>,
}

// A unit of a program, whose common blocks are known.
#[derive(Clone, Copy)]
struct UnitTables<'a> {
    image: &'a Image,
    blocks: &'a CommonBlocks,
    symbols: &'a Symbols<'a>,
}

// ---- names

// Adds the occurrences of names in a bound.
fn add_bound(
    symbols: &Symbols,
    found: &mut Vec<Occurrence>,
    dimension: &Dimension,
) -> Result<(), AllocError>
    ensures { OnOk result (found.new.items ≡ found.old.items ++ occurrences_in_dimension symbols.now dimension.now) }
{
    if let Some(lower) = &dimension.lower {
        add_in_expression(symbols, found, lower)?;
    }
    match &dimension.upper {
        UpperBound::Expression(upper) => add_in_expression(symbols, found, upper),
        UpperBound::Open => Ok(()),
    }
}

// Adds the occurrences of names in dimensions.
fn add_dimensions(
    symbols: &Symbols,
    found: &mut Vec<Occurrence>,
    dimensions: &[Dimension],
) -> Result<(), AllocError>
    ensures { OnOk result (found.new.items ≡ found.old.items ++ flat_map (occurrences_in_dimension symbols.now) dimensions.now) }
{
    for dimension in dimensions {
        add_bound(symbols, found, dimension)?;
    }
    Ok(())
}

// The occurrences of names in the dimensions of a unit's dummy arguments.
fn occurrences_in_bounds(alloc: Global, symbols: &Symbols) -> Result<Vec<Occurrence>, AllocError>
    ensures { IfOk result (λ found. found.items ≡ words.occurrences_in_bounds symbols.now) }
{
    let mut found = Vec::new(alloc);
    for dummy in symbols.dummies() {
        add_dimensions(symbols, &mut found, symbols.dimensions(&dummy.name))?;
    }
    Ok(found)
}

// ---- where they have their values

// The number of cells of the names before one in a list.
fn cells_before(
    alloc: Global,
    unit: &UnitTables<'_>,
    name: Name,
    list: &[Name],
) -> Result<u32, AllocError>
    ensures { IfOk result (λ cells. cells ≡ cells_before unit.now.symbols.now name list.now) }
{
    let mut cells: u32 = 0;
    for other in list {
        if name == *other {
            return Ok(cells);
        }
        let more = cells_of(alloc, unit.symbols, other)?;
        cells = cells.checked_add(more).ok_or(AllocError)?;
    }
    Ok(cells)
}

// The place of a name in a common block.
fn common_place(
    alloc: Global,
    unit: &UnitTables<'_>,
    name: Name,
    block: Option<Name>,
) -> Result<Place, AllocError>
    requires { IsInUnit unit.now name block }
    ensures { IfOk result (λ place. place
        ≡ block_place unit.now.image.now block (1 + cells_before unit.now.symbols.now name (names_in_block unit.now.symbols.now block))) }
{
    let list = names_in_block(alloc, unit.symbols.statements(), block)?;
    let before = cells_before(alloc, unit, name, &list)?;
    let element = before.checked_add(1).ok_or(AllocError)?;
    let index = unit.blocks.index(block);
    Ok(Place {
        owner: 0,
        name: unit.image.block_number(BlockStart { index, first: 0 }),
        element,
    })
}

// Where a name has its value; nowhere if it is that of a constant, or neither a dummy argument nor in COMMON.
fn source_of(
    alloc: Global,
    unit: &UnitTables<'_>,
    name: Name,
) -> Result<Option<BoundSource>, AllocError>
    requires { AreTablesOf unit.now }
    ensures { IfOk result (λ source. source ≡ words.source_of unit.now.image.now unit.now.symbols.now name) }
{
    if unit.symbols.constants().get(&name).is_some() {
        return Ok(None);
    }
    if let Some(index) = unit.symbols.dummy_position(&name) {
        return Ok(Some(BoundSource::Dummy(index)));
    }
    match unit.symbols.common_block(&name) {
        Some(block) => Ok(Some(BoundSource::Common(common_place(alloc, unit, name, block)?))),
        None => Ok(None),
    }
}

// Appends a name, if it has a value.
fn append_name(
    alloc: Global,
    names: &mut Vec<BoundName>,
    unit: &UnitTables<'_>,
    name: Name,
) -> Result<(), AllocError>
    requires { AreTablesOf unit.now }
    ensures { OnOk result (names.new.items ≡ names.old.items ++ words.bound_named unit.now.image.now unit.now.symbols.now name) }
{
    if let Some(source) = source_of(alloc, unit, name)? {
        names.push(BoundName { name, source })?;
    }
    Ok(())
}

// ---- tables

// The names in the bounds of a unit of the program.
fn names_of_unit(
    alloc: Global,
    image: &Image,
    blocks: &CommonBlocks,
    symbols: &Symbols,
) -> Result<Vec<BoundName>, AllocError>
    requires blocks { AreBlocks image.now blocks.now }
    requires among { (u : ℕ) × (slice_get image.now u ≡ Some symbols.now) }
    ensures { IfOk result (λ names. names.items ≡ words.bounds_of_unit image.now symbols.now) }
{
    let unit = UnitTables {
        image,
        blocks,
        symbols,
    };
    let found = occurrences_in_bounds(alloc, symbols)?;
    let mut names = Vec::new(alloc);
    for occurrence in &found {
        append_name(alloc, &mut names, &unit, occurrence.name)?;
    }
    Ok(names)
}

impl BoundNames {
    /// The names of an image's program.
    ///
    /// # Errors
    ///
    /// Only where memory was refused.
    pub fn of_image(alloc: Global, image: &Image) -> Result<BoundNames, AllocError>
        ensures { IfOk result (AreBoundsOf image.now) }
    {
        let program = ProgramSymbols::new(alloc, image.program().as_slice())?;
        let blocks = CommonBlocks::of_program(alloc, &program)?;
        let mut units = Vec::new(alloc);
        for symbols in program.units() {
            let names = names_of_unit(alloc, image, &blocks, symbols)?;
            units.push(Sequence::from(names))?;
        }
        Ok(BoundNames {
            units: Sequence::from(units),
        })
    }

    /// Those of a unit, by its index.
    pub(crate) fn of_unit(&self, unit: usize) -> &[BoundName]
        requires { unit < length self.now.units }
        ensures { slice_get self.now.units unit ≡ Some result.now }
    {
        self.units.as_slice()[unit].as_slice()
    }
}
