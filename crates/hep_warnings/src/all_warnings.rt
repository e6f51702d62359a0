//! All warnings of a source and its program.
ghost use Rattle.std.specs.Prelude.{◌≡◌, IfOk};
ghost use Rattle.hep_warnings.specs.Order.{Rise, lines_of_program, lines_of_warnings};
ghost use Rattle.hep_warnings.specs.Warnings as all;

use crate::created_with_loop_variable::create_warnings;
use crate::merge::merged;
use crate::past_column_72::behind_warnings;
use crate::unused_labels::label_warnings;
use crate::unused_names::name_warnings;
use crate::unused_units::unit_warnings;
use crate::warning::Warning;
use hep_source::{Program, Unit};
use std::alloc::{AllocError, Global};

// The warnings of unused units, of CREATE and of names, merged by line.
fn unit_and_name_warnings(alloc: Global, units: &[Unit]) -> Result<Vec<Warning>, AllocError>
    ensures { IfOk result (λ found. found.items ≡ all.unit_and_name_warnings units.now) }
{
    let unused = unit_warnings(alloc, units)?;
    let creates = create_warnings(alloc, units)?;
    let names = name_warnings(alloc, units)?;
    let behind = merged(alloc, &creates, &names)?;
    let found = merged(alloc, &unused, &behind)?;
    Ok(found)
}

/// The warnings of a source and of its program. They are in the order of their lines if the statements of the program are.
///
/// # Errors
///
/// Only where memory was refused.
pub fn warnings(alloc: Global, source: &[u8], program: &Program) -> Result<Vec<Warning>, AllocError>
    ensures exact { IfOk result (λ found. found.items ≡ all.warnings source.now program.now) }
    ensures ordered { IfOk result (λ found. Rise 0 (lines_of_program program.now) → Rise 0 (lines_of_warnings found.items)) }
{
    let units = program.as_slice();
    let behind = behind_warnings(alloc, source)?;
    let labels = label_warnings(alloc, units)?;
    let others = unit_and_name_warnings(alloc, units)?;
    let of_program = merged(alloc, &labels, &others)?;
    let found = merged(alloc, &behind, &of_program)?;
    Ok(found)
}
