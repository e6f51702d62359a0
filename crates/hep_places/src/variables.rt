//! The variables of a unit (X3.9-1978, 2.5), and its private scalars.
ghost use Rattle.std.specs.Prelude.{◌≡◌, map, IfOk, OnOk};
ghost use Rattle.std.specs.List.{filter};
ghost use Rattle.std.specs.Option.{option_or, unwrap_or};
ghost use Rattle.indexmap.specs.IndexMap.{get};
ghost use Rattle.indexmap.specs.IndexSet.{contains};
ghost use Rattle.hep_machine.specs.Words.{is_among, name_eq, Name as PureName};
ghost use Rattle.hep_names.specs.Tables.{by_name};
ghost use Rattle.hep_image.specs.Places as places;
ghost use Rattle.hep_image.specs.Private as private;
ghost use Rattle.hep_places.specs.StorageStarts as found;

use crate::bare_actuals::bare_actuals;
use crate::cell_numbers::further;
use crate::storage_starts::{StorageStarts, start_of};
use hep_code::Variable;
use hep_image::Start;
use hep_names::{Symbols, note};
use hep_source::Name;
use hep_storage::CommonStarts;
use indexmap::{IndexMap, IndexSet};
use std::alloc::{AllocError, Global};

fn scalar(asynchronous: bool, start: Start) -> Variable
    ensures { result ≡ places.scalar asynchronous start }
{
    match start {
        Start::Local(cell) => Variable::Local { asynchronous, cell },
        Start::Common(cell) => Variable::Common { asynchronous, cell },
        Start::Dummy(cells) => Variable::Dummy {
            asynchronous,
            cells,
        },
    }
}

// The variable of a name, before which there are `arrays` arrays.
fn variable_of(symbols: &Symbols, arrays: u32, name: &Name, start: Option<Start>) -> Variable
    ensures { result ≡ found.variable_found symbols.now arrays name.now start }
{
    let asynchronous = name.asynchronous;
    match start {
        Some(start) => {
            if symbols.is_array(name) {
                Variable::Array {
                    asynchronous,
                    array: arrays,
                }
            } else {
                scalar(asynchronous, start)
            }
        }
        None => Variable::Absent,
    }
}

// The number of arrays up to and including this name.
fn arrays_with(symbols: &Symbols, arrays: u32, name: &Name) -> u32
    ensures { result ≡ found.arrays_with symbols.now arrays name.now }
{
    if symbols.is_array(name) {
        further(arrays, 1)
    } else {
        arrays
    }
}

fn add(
    symbols: &Symbols,
    common: &CommonStarts,
    tables: &StorageStarts,
    table: &mut IndexMap<Name, Variable>,
    arrays: u32,
    name: &Name,
) -> Result<(), AllocError>
    ensures { OnOk result ((x : PureName) → get name_eq table.new x ≡ option_or (get name_eq table.old x)
        (by_name name.now (found.variable_found symbols.now arrays name.now
        (found.start_found symbols.now common.now (get name_eq tables.now.offsets) (get name_eq tables.now.locals) name.now)) x)) }
{
    let start = start_of(symbols, common, tables, name);
    note(table, *name, variable_of(symbols, arrays, name, start))?;
    Ok(())
}

// The variables of these names.
pub(crate) fn variables_among(
    alloc: Global,
    symbols: &Symbols,
    common: &CommonStarts,
    tables: &StorageStarts,
    names: &[Name],
) -> Result<IndexMap<Name, Variable>, AllocError>
    ensures { IfOk result (λ table. (x : PureName) → get name_eq table x
        ≡ found.variable_among symbols.now (found.start_found symbols.now common.now (get name_eq tables.now.offsets)
        (get name_eq tables.now.locals)) 0 names.now x) }
{
    let mut table = IndexMap::with_capacity(alloc, names.len())?;
    let mut arrays = 0;
    for name in names {
        add(symbols, common, tables, &mut table, arrays, name)?;
        arrays = arrays_with(symbols, arrays, name);
    }
    Ok(table)
}

fn is_private(symbols: &Symbols, actuals: &IndexSet<Name>, name: &Name) -> bool
    requires { (x : PureName) → contains name_eq actuals.now x ≡ is_among x (private.bare_actuals symbols.now) }
    ensures { result ≡ private.is_private symbols.now name.now }
{
    !name.asynchronous && !symbols.is_array(name) && !actuals.contains(name)
}

// The cells of the private scalars among these local variables: scalars without `$` that are nowhere an actual
// argument by themselves.
pub(crate) fn private_among(
    alloc: Global,
    symbols: &Symbols,
    tables: &StorageStarts,
    names: &[Name],
) -> Result<Vec<u32>, AllocError>
    ensures { IfOk result (λ cells. cells.items
        ≡ map (λ (x : PureName). unwrap_or (get name_eq tables.now.locals x) 0) (filter (private.is_private symbols.now) names.now)) }
{
    if names.is_empty() {
        return Ok(Vec::new(alloc));
    }
    let actuals = bare_actuals(alloc, symbols)?;
    let mut cells = Vec::new(alloc);
    for name in names {
        if is_private(symbols, &actuals, name) {
            cells.push(tables.locals.get(name).copied().unwrap_or(0))?;
        }
    }
    Ok(cells)
}
