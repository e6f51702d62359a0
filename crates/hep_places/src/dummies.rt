//! The dummy arguments of a unit (X3.9-1978, 5.5.1 and 15.9.3).
ghost use Rattle.std.specs.Prelude.{◌≡◌, true, map, IfOk};
ghost use Rattle.hep_machine.specs.Words.{dummies_of, is_array};
ghost use Rattle.hep_places.specs.DummyArguments as dummies;

use crate::arrays::shape_of;
use crate::bound_code::{BoundContext, add_dimensions};
use hep_base::Sequence;
use hep_image::DummyArgument;
use hep_source::{Dimension, Name};
use std::alloc::{AllocError, Global};

// An array whose bounds are fixed at each call.
fn adjustable_array(
    alloc: Global,
    known: &BoundContext,
    dimensions: &[Dimension],
) -> Result<DummyArgument, AllocError>
    ensures { IfOk result (λ argument. argument ≡ dummies.adjustable_array known.now dimensions.now) }
{
    let mut code = Vec::new(alloc);
    add_dimensions(&mut code, known, dimensions)?;
    Ok(DummyArgument::Adjustable(Sequence::from(code)))
}

fn array_argument(
    alloc: Global,
    known: &BoundContext,
    name: &Name,
) -> Result<DummyArgument, AllocError>
    requires { is_array known.now.symbols.now name.now ≡ true }
    ensures { IfOk result (λ argument. argument ≡ dummies.array_found known.now.symbols.now (dummies.source_in known.now) name.now) }
{
    match shape_of(alloc, known, name)? {
        Some(Some(shape)) => Ok(DummyArgument::Array(shape)),
        Some(None) => Ok(DummyArgument::Scalar),
        None => adjustable_array(alloc, known, known.symbols.dimensions(name)),
    }
}

// A dummy argument, as a call of its unit needs it (15.9.3).
fn dummy_argument(
    alloc: Global,
    known: &BoundContext,
    name: &Name,
) -> Result<DummyArgument, AllocError>
    ensures { IfOk result (λ argument. argument ≡ dummies.dummy_found known.now.symbols.now (dummies.source_in known.now) name.now) }
{
    if known.symbols.is_array(name) {
        array_argument(alloc, known, name)
    } else {
        Ok(DummyArgument::Scalar)
    }
}

// The same for all dummy arguments, in order.
pub(crate) fn dummy_arguments(
    alloc: Global,
    known: &BoundContext,
) -> Result<Vec<DummyArgument>, AllocError>
    ensures { IfOk result (λ arguments. arguments.items
        ≡ map (dummies.dummy_found known.now.symbols.now (dummies.source_in known.now)) (dummies_of known.now.symbols.now)) }
{
    let mut arguments = Vec::new(alloc);
    for occurrence in known.symbols.dummies() {
        arguments.push(dummy_argument(alloc, known, &occurrence.name)?)?;
    }
    Ok(arguments)
}
