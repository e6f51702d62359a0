//! The variables with cells in a unit's frame (docs/MACHINE.md, "Variables and frames").
ghost use Rattle.std.specs.Prelude.{◌≡◌, IfOk};
ghost use Rattle.indexmap.specs.IndexMap.{get};
ghost use Rattle.hep_machine.specs.Words.{name_eq, names_of_occurrences};
ghost use Rattle.hep_image.specs.Names.{variable_index};
ghost use Rattle.hep_places.specs.FrameOwners as owners;

use crate::cell_numbers::behind_pairs;
use crate::storage_starts::StorageStarts;
use hep_image::FrameVariable;
use hep_names::Symbols;
use hep_source::{Name, Occurrence};
use std::alloc::{AllocError, Global};

// The index of a name of the unit among all that it has.
fn index_of(symbols: &Symbols, name: &Name) -> usize
    ensures { result ≡ variable_index symbols.now name.now }
{
    symbols.names().get_index_of(name).unwrap_or(0)
}

// A dummy argument. Its two cells come after the header and the two cells of each dummy argument before it.
fn argument(symbols: &Symbols, name: &Name) -> FrameVariable
    ensures { result ≡ owners.argument_found symbols.now name.now }
{
    let position = symbols.dummy_position(name).unwrap_or(0);
    FrameVariable {
        index: index_of(symbols, name),
        first: behind_pairs(1, position),
        is_array: symbols.is_array(name),
    }
}

fn local(symbols: &Symbols, tables: &StorageStarts, name: &Name) -> FrameVariable
    ensures { result ≡ owners.local_found symbols.now (get name_eq tables.now.locals) name.now }
{
    FrameVariable {
        index: index_of(symbols, name),
        first: tables.locals.get(name).copied().unwrap_or(0),
        is_array: symbols.is_array(name),
    }
}

// The variables for these dummy arguments, and then for these local variables.
pub(crate) fn variables_in_frame(
    alloc: Global,
    symbols: &Symbols,
    tables: &StorageStarts,
    dummies: &[Occurrence],
    locals: &[Name],
) -> Result<Vec<FrameVariable>, AllocError>
    ensures { IfOk result (λ variables. variables.items
        ≡ owners.variables_found symbols.now (get name_eq tables.now.locals) (names_of_occurrences dummies.now) locals.now) }
{
    let mut variables = Vec::new(alloc);
    for dummy in dummies {
        variables.push(argument(symbols, &dummy.name))?;
    }
    for name in locals {
        variables.push(local(symbols, tables, name))?;
    }
    Ok(variables)
}
