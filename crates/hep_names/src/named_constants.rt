//! The constants that a unit gives values (X3.9-1978, 8.6).
ghost use Rattle.std.specs.Prelude.{◌≡◌, IfOk, OnOk};
ghost use Rattle.hep_machine.specs.Declarations as declarations;
ghost use Rattle.hep_machine.specs.Words.{value_among, value_of, with_constant, given_by, constant_value};

use crate::constants::Constants;
use crate::evaluation::value_of;
use crate::list_table::ListTable;
use hep_source::{Form, NamedConstant};
use std::alloc::{AllocError, Global};

/// The constants to which a statement gives values (8.6).
pub fn constants_in(form: &Form) -> &[NamedConstant]
    ensures { result.now ≡ declarations.constants_in form.now }
{
    match form {
        Form::Parameter(constants) => constants.as_slice(),
        _ => &[],
    }
}

// Adds a constant with its value, if its expression has one.
fn give_one(
    alloc: Global,
    table: &ListTable,
    constants: &mut Constants,
    constant: &NamedConstant,
) -> Result<(), AllocError>
    ensures { OnOk result (value_among constants.new
        ≡ value_among (with_constant constants.old constant.now.occurrence.name
        (value_of table.now (value_among constants.old) constant.now.value))) }
{
    match value_of(alloc, table, constants, &constant.value)? {
        Some(value) => constants.add(constant.occurrence.name, value),
        None => Ok(()),
    }
}

/// Adds these constants with their values, each by the constants before it.
///
/// # Errors
///
/// Only where memory was refused.
pub fn give(
    alloc: Global,
    table: &ListTable,
    constants: &mut Constants,
    given: &[NamedConstant],
) -> Result<(), AllocError>
    ensures { OnOk result (value_among constants.new ≡ value_among (given_by table.now constants.old given.now)) }
{
    for constant in given {
        give_one(alloc, table, constants, constant)?;
    }
    Ok(())
}

/// All constants of a unit.
///
/// # Errors
///
/// Only where memory was refused.
pub fn constants(alloc: Global, table: &ListTable) -> Result<Constants, AllocError>
    ensures { IfOk result (λ constants. value_among constants ≡ constant_value table.now) }
{
    let mut constants = Constants::new(alloc);
    for statement in table.statements() {
        give(alloc, table, &mut constants, constants_in(&statement.form))?;
    }
    Ok(constants)
}
