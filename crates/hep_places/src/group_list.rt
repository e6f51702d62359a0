//! The groups of the DATA statements of a unit (X3.9-1978, 9.1).
ghost use Rattle.std.specs.Prelude.{◌≡◌, ◌++◌, [], ◌∷◌, IfOk, OnOk};
ghost use Rattle.hep_machine.specs.Data as machine;
ghost use Rattle.hep_names.specs.Statements.{rest_after};

use hep_names::data::groups_in;
use hep_source::{DataGroup, Statement};
use std::alloc::{AllocError, Global};

type Groups<'a> = Vec<&'a DataGroup>;

fn add_one<'a>(found: &mut Groups<'a>, group: &'a DataGroup) -> Result<(), AllocError>
    ensures { OnOk result (rest_after found.new.items ≡ rest_after found.old.items ++ group.now ∷ []) }
{
    found.push(group)?;
    Ok(())
}

fn add_each<'a>(found: &mut Groups<'a>, groups: &'a [DataGroup]) -> Result<(), AllocError>
    ensures { OnOk result (rest_after found.new.items ≡ rest_after found.old.items ++ groups.now) }
{
    for group in groups {
        add_one(found, group)?;
    }
    Ok(())
}

/// The groups of a unit, in order.
pub(crate) fn data_groups(alloc: Global, unit: &[Statement]) -> Result<Vec<&DataGroup>, AllocError>
    ensures { IfOk result (λ found. rest_after found.items ≡ machine.data_groups unit.now) }
{
    let mut found = Vec::new(alloc);
    for statement in unit {
        add_each(&mut found, groups_in(&statement.form))?;
    }
    Ok(found)
}
