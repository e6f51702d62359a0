//! The contents of a common block in a unit, as far as they are known (X3.9-1978, 8.3).
ghost use Rattle.std.specs.Prelude.{◌≡◌, ◌+◌, ◌++◌, ◌∷◌, [], List, true, false, not, ◌&&◌, Some, None, IfOk, OnOk, IfSome};
ghost use Rattle.std.specs.Option.{option_and_then};
ghost use Rattle.indexmap.specs.IndexSet.{contains};
ghost use Rattle.hep_machine.specs.Words.{name_eq, same_name, BlockName, same_block, names_declared, elements, Name as PureName};
ghost use Rattle.hep_storage.specs.BlockContents as blocks;
ghost use Rattle.hep_storage.specs.Runs.{positions_in};
ghost use Rattle.hep_types.specs.KnownShapes.{known};

use crate::runs::{KnownRuns, Position, PositionRun};
use hep_names::Symbols;
use hep_source::{Declarator, Name};
use hep_types::{KnownShape, Shapes};
use indexmap::IndexSet;
use std::alloc::{AllocError, Global};

/// The contents of a common block in a unit.
#[derive(Drop)]
pub(crate) struct BlockContents {
    /// The positions of its names, up to the first array of unknown shape.
    pub(crate) known: KnownRuns,
    /// The line of the last statement that names the block.
    pub(crate) line: u32,
}

/// The names in COMMON that were read of a unit, each in the first block that has it.
pub(crate) type NamesInBlocks = IndexSet<Name>;

// The number of elements; none where it isn't known.
fn element_count(shape: KnownShape) -> Option<u32>
    ensures { result ≡ option_and_then elements (known shape.entry) }
{
    match shape {
        KnownShape::Scalar => Some(1),
        KnownShape::Array(shape) => shape.cells(),
        KnownShape::Unknown => None,
    }
}

// The run of the positions of a name; none where its shape isn't known.
fn run_of_name(symbols: &Symbols, shapes: &Shapes, name: &Name) -> Option<PositionRun>
    requires { shapes.now ≡ symbols.now }
    ensures { result ≡ blocks.run_of_name symbols.now name.now }
{
    let count = element_count(shapes.known_shape(name))?;
    Some(PositionRun {
        position: Position {
            asynchronous: name.asynchronous,
            value_type: symbols.type_of(name),
        },
        count: u64::from(count),
    })
}

// The run that two runs form, where both have the same item.
fn joined(first: PositionRun, second: PositionRun) -> Option<PositionRun>
    ensures { IfSome result (λ run. blocks.places_of run ≡ blocks.places_of first ++ blocks.places_of second) }
{
    if !first.position.is_same(second.position) {
        return None;
    }
    match first.count.checked_add(second.count) {
        Some(count) => Some(PositionRun {
            position: first.position,
            count,
        }),
        None => None,
    }
}

fn push(runs: &mut Vec<PositionRun>, run: PositionRun) -> Result<(), AllocError>
    ensures { OnOk result (positions_in runs.new.items ≡ positions_in runs.old.items ++ blocks.places_of run) }
{
    runs.push(run)?;
    Ok(())
}

// Appends two runs, or one run as long as both, where they have the same item.
fn push_both(
    runs: &mut Vec<PositionRun>,
    first: PositionRun,
    second: PositionRun,
) -> Result<(), AllocError>
    ensures { OnOk result (positions_in runs.new.items
        ≡ (positions_in runs.old.items ++ blocks.places_of first) ++ blocks.places_of second) }
{
    match joined(first, second) {
        Some(both) => push(runs, both)?,
        None => {
            push(runs, first)?;
            push(runs, second)?;
        }
    }
    Ok(())
}

// Appends a run. Neighbours with the same item are joined, so that the list is as short as possible.
fn push_run(runs: &mut Vec<PositionRun>, run: PositionRun) -> Result<(), AllocError>
    ensures { OnOk result (positions_in runs.new.items ≡ positions_in runs.old.items ++ blocks.places_of run) }
{
    match runs.pop() {
        Some(last) => push_both(runs, last, run)?,
        None => push(runs, run)?,
    }
    Ok(())
}

// Appends a run, where everything before it is known.
fn add_run(known: &mut KnownRuns, run: Option<PositionRun>) -> Result<(), AllocError>
    ensures { OnOk result (blocks.known known.new ≡ blocks.with_run (blocks.known known.old) run) }
{
    if !known.is_whole {
        return Ok(());
    }
    match run {
        Some(run) => push_run(&mut known.runs, run)?,
        None => known.is_whole = false,
    }
    Ok(())
}

fn is_same(first: Name, second: Name) -> bool
    ensures { result ≡ same_name first second }
{
    first == second
}

fn is_same_block(first: Option<Name>, second: Option<Name>) -> bool
    ensures { result ≡ same_block first second }
{
    match (first, second) {
        (None, None) => true,
        (Some(first), Some(second)) => is_same(first, second),
        _ => false,
    }
}

// Whether this block is the first one that has a name.
fn is_held(symbols: &Symbols, block: Option<Name>, name: &Name) -> bool
    ensures { result ≡ blocks.is_first_block symbols.now block name.now }
{
    match symbols.common_block(name) {
        Some(first) => is_same_block(block, first),
        None => false,
    }
}

// Records a name. The result is whether its first position in COMMON is here.
fn note_name(
    noted: &mut NamesInBlocks,
    symbols: &Symbols,
    block: Option<Name>,
    name: &Name,
) -> Result<bool, AllocError>
    ensures first { IfOk result (λ is_first. is_first
        ≡ (blocks.is_first_block symbols.now block name.now && not (contains name_eq noted.old name.now))) }
    ensures noted { OnOk result ((x : PureName) → contains name_eq noted.new x
        ≡ blocks.with_noted symbols.now block name.now (contains name_eq noted.old) x) }
{
    if !is_held(symbols, block, name) {
        return Ok(false);
    }
    Ok(noted.insert(*name)?)
}

impl BlockContents {
    /// Makes empty contents.
    pub(crate) fn new(alloc: Global, line: u32) -> BlockContents
        ensures known { blocks.known result.known ≡ blocks.no_run }
        ensures line { result.line ≡ line }
    {
        BlockContents {
            known: KnownRuns {
                runs: Vec::new(alloc),
                is_whole: true,
            },
            line,
        }
    }

    /// Removes all names, but keeps the memory for them.
    pub(crate) fn clear(&mut self)
        ensures known { blocks.known self.new.known ≡ blocks.no_run }
        ensures line { self.new.line ≡ self.old.line }
    {
        self.known.runs.clear();
        self.known.is_whole = true;
    }

    // Adds a name. A second position of a name in COMMON doesn't count.
    fn add_name(
        &mut self,
        noted: &mut NamesInBlocks,
        symbols: &Symbols,
        shapes: &Shapes,
        block: Option<Name>,
        name: &Name,
    ) -> Result<(), AllocError>
        requires { shapes.now ≡ symbols.now }
        ensures known { OnOk result ((xs : List PureName) → blocks.AreNoted symbols.now block xs (contains name_eq noted.old)
            → blocks.Holds symbols.now block xs self.old → blocks.Holds symbols.now block (xs ++ name.now ∷ []) self.new) }
        ensures noted { OnOk result ((x : PureName) → contains name_eq noted.new x
            ≡ blocks.with_noted symbols.now block name.now (contains name_eq noted.old) x) }
        ensures line { OnOk result (self.new.line ≡ self.old.line) }
    {
        if note_name(noted, symbols, block, name)? {
            add_run(&mut self.known, run_of_name(symbols, shapes, name))?;
        }
        Ok(())
    }

    /// Adds the names of a list of COMMON.
    ///
    /// # Errors
    ///
    /// Only where memory was refused.
    pub(crate) fn add_names(
        &mut self,
        noted: &mut NamesInBlocks,
        symbols: &Symbols,
        shapes: &Shapes,
        block: Option<Name>,
        entries: &[Declarator],
    ) -> Result<(), AllocError>
        requires { shapes.now ≡ symbols.now }
        ensures known { OnOk result ((xs : List PureName) → blocks.AreNoted symbols.now block xs (contains name_eq noted.old)
            → blocks.Holds symbols.now block xs self.old → blocks.Holds symbols.now block (xs ++ names_declared entries.now) self.new) }
        ensures noted { OnOk result ((b : BlockName) (xs : List PureName) → blocks.AreNoted symbols.now b xs (contains name_eq noted.old)
            → blocks.AreNoted symbols.now b (xs ++ blocks.names_into block b (names_declared entries.now)) (contains name_eq noted.new)) }
        ensures line { OnOk result (self.new.line ≡ self.old.line) }
    {
        for entry in entries {
            self.add_name(noted, symbols, shapes, block, &entry.occurrence.name)?;
        }
        Ok(())
    }
}
