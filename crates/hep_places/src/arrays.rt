//! The arrays of a unit (X3.9-1978, section 5).
ghost use Rattle.std.specs.Prelude.{◌≡◌, true, map, length, None, IfOk};
ghost use Rattle.std.specs.List.{filter};
ghost use Rattle.indexmap.specs.IndexMap.{get};
ghost use Rattle.hep_machine.specs.Words.{name_eq, adjustable_dimensions};
ghost use Rattle.hep_machine.specs.Declarations as declarations;
ghost use Rattle.hep_places.specs.StorageStarts as found;

use crate::bound_code::BoundContext;
use crate::cell_numbers::in_32_bits;
use crate::storage_starts::start_of;
use hep_image::{Array, Extents, Start};
use hep_names::bounds_of;
use hep_shape::Shape;
use hep_source::Name;
use std::alloc::{AllocError, Global};

// The shape of an array with constant bounds. In accepted programs such bounds always are a shape.
pub(crate) fn shape_of(
    alloc: Global,
    known: &BoundContext,
    name: &Name,
) -> Result<Option<Option<Shape>>, AllocError>
    requires { declarations.is_array known.now.symbols.now name.now ≡ true }
    ensures shape { IfOk result (λ shape. shape ≡ found.shape_found known.now.symbols.now name.now) }
    ensures adjustable { IfOk result (λ shape. shape ≡ None
        → length (declarations.dimensions_of known.now.symbols.now name.now) ≡ adjustable_dimensions known.now.symbols.now name.now) }
{
    let dimensions = known.symbols.dimensions(name);
    match bounds_of(alloc, known.symbols, known.symbols.constants(), dimensions)? {
        Some(bounds) => Ok(Some(Shape::new(&bounds))),
        None => Ok(None),
    }
}

fn extents_of(alloc: Global, known: &BoundContext, name: &Name) -> Result<Extents, AllocError>
    requires { declarations.is_array known.now.symbols.now name.now ≡ true }
    ensures { IfOk result (λ extents. extents
        ≡ found.extents_found known.now.symbols.now (get name_eq known.now.tables.now.bounds) name.now) }
{
    match shape_of(alloc, known, name)? {
        Some(Some(shape)) => Ok(Extents::Constant(shape)),
        Some(None) => Ok(Extents::Adjustable {
            cells: 0,
            dimensions: 0,
        }),
        None => Ok(Extents::Adjustable {
            cells: known.tables.bounds.get(name).copied().unwrap_or(0),
            dimensions: in_32_bits(known.symbols.dimensions(name).len()),
        }),
    }
}

fn array_of(alloc: Global, known: &BoundContext, name: &Name) -> Result<Array, AllocError>
    requires { declarations.is_array known.now.symbols.now name.now ≡ true }
    ensures { IfOk result (λ array. array ≡ found.array_in known.now name.now) }
{
    let extents = extents_of(alloc, known, name)?;
    // Each array of an accepted program has a first storage unit.
    let start = start_of(known.symbols, known.common, known.tables, name);
    let start = start.unwrap_or(Start::Local(0));
    Ok(Array { start, extents })
}

// Those of these names that are arrays.
pub(crate) fn arrays_among(
    alloc: Global,
    known: &BoundContext,
    names: &[Name],
) -> Result<Vec<Array>, AllocError>
    ensures { IfOk result (λ arrays. arrays.items
        ≡ map (found.array_in known.now) (filter (declarations.is_array known.now.symbols.now) names.now)) }
{
    let mut arrays = Vec::new(alloc);
    for name in names {
        if known.symbols.is_array(name) {
            arrays.push(array_of(alloc, known, name)?)?;
        }
    }
    Ok(arrays)
}
