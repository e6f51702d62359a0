//! 311: where DATA stands, and what it gives values (X3.9-1978, section 9).
ghost use Rattle.std.specs.Prelude.{◌≡◌, ◌&&◌, ◌||◌, ℕ, Bool, not, IfOk, OnOk};
ghost use Rattle.std.specs.List.{list_any};
ghost use Rattle.indexmap.specs.IndexMap.{get};
ghost use Rattle.hep_machine.specs.Words.{name_eq, is_nonempty};
ghost use Rattle.hep_source.specs.Units as units;
ghost use Rattle.hep_conditions.specs.Data as conditions;
ghost use Rattle.hep_conditions.specs.declared.violation.Violation.{Violation as PureViolation};
ghost use Rattle.hep_storage.specs.InitializedElements.{Gives};
ghost use Rattle.hep_storage.specs.DataGroups as passes;
ghost use Rattle.hep_storage.specs.ArrayShapes.{IsTable};

use crate::array_shapes::{DataName, ShapeTable};
use crate::data_groups::is_wrong_group;
use crate::initialized_elements::InitializedElements;
use hep_conditions::reported::{add_line, line_when};
use hep_names::data::groups_in;
use hep_names::named_constants::{constants_in, give};
use hep_names::{Constants, Symbols};
use hep_source::{DataGroup, Form, Statement, Target};
use std::alloc::{AllocError, Global};

fn is_main(symbols: &Symbols) -> bool
    ensures { result ≡ units.is_main (units.procedure_name symbols.now) }
{
    match symbols.statements().first() {
        Some(
            Statement {
                form: Form::Subroutine(..) | Form::Function(..),
                ..
            },
        ) => false,
        _ => true,
    }
}

// Whether DATA is outside the main program.
fn is_misplaced(symbols: &Symbols, groups: &[DataGroup]) -> bool
    ensures { result ≡ (is_nonempty groups.now && not (units.is_main (units.procedure_name symbols.now))) }
{
    !groups.is_empty() && !is_main(symbols)
}

fn is_any_wrong(
    alloc: Global,
    symbols: &Symbols,
    shapes: &mut ShapeTable,
    constants: &Constants,
    groups: &[DataGroup],
) -> Result<bool, AllocError>
    requires { IsTable symbols.now (get name_eq shapes.old.shapes) }
    ensures table { OnOk result (IsTable symbols.now (get name_eq shapes.new.shapes)) }
    ensures wrong { IfOk result (λ is_wrong. is_wrong ≡ list_any (conditions.is_wrong_group symbols.now constants.now) groups.now) }
{
    for group in groups {
        if is_wrong_group(alloc, symbols, shapes, constants, group)? {
            return Ok(true);
        }
    }
    Ok(false)
}

fn is_either(first: bool, second: bool) -> bool
    ensures { result ≡ (first || second) }
{
    first || second
}

// Records that the elements of a name get values. The result is whether one of them had a value.
fn give_target(
    alloc: Global,
    symbols: &Symbols,
    shapes: &mut ShapeTable,
    constants: &Constants,
    given: &mut InitializedElements,
    target: &Target,
) -> Result<bool, AllocError>
    requires { IsTable symbols.now (get name_eq shapes.old.shapes) }
    ensures table { OnOk result (IsTable symbols.now (get name_eq shapes.new.shapes)) }
    ensures given { IfOk result (Gives symbols.now given.old given.new (passes.elements_of_target symbols.now constants.now target.now)) }
{
    match shapes.named(alloc, symbols, constants, target)? {
        DataName::Elements(stretch) => given.give(stretch),
        DataName::Open | DataName::Outside => Ok(false),
    }
}

fn give_targets(
    alloc: Global,
    symbols: &Symbols,
    shapes: &mut ShapeTable,
    constants: &Constants,
    given: &mut InitializedElements,
    targets: &[Target],
) -> Result<bool, AllocError>
    requires { IsTable symbols.now (get name_eq shapes.old.shapes) }
    ensures table { OnOk result (IsTable symbols.now (get name_eq shapes.new.shapes)) }
    ensures given { IfOk result (Gives symbols.now given.old given.new (passes.elements_of_targets symbols.now constants.now targets.now)) }
{
    let mut is_twice = false;
    for target in targets {
        let had_value = give_target(alloc, symbols, shapes, constants, given, target)?;
        is_twice = is_either(is_twice, had_value);
    }
    Ok(is_twice)
}

fn give_groups(
    alloc: Global,
    symbols: &Symbols,
    shapes: &mut ShapeTable,
    constants: &Constants,
    given: &mut InitializedElements,
    groups: &[DataGroup],
) -> Result<bool, AllocError>
    requires { IsTable symbols.now (get name_eq shapes.old.shapes) }
    ensures table { OnOk result (IsTable symbols.now (get name_eq shapes.new.shapes)) }
    ensures given { IfOk result (Gives symbols.now given.old given.new (passes.elements_of_groups symbols.now constants.now groups.now)) }
{
    let mut is_twice = false;
    for group in groups {
        let targets = group.targets.as_slice();
        let had_value = give_targets(alloc, symbols, shapes, constants, given, targets)?;
        is_twice = is_either(is_twice, had_value);
    }
    Ok(is_twice)
}

// Records that the elements of a statement get values, by the constants given before it. The result is whether the statement violates 311.
fn give_values(
    alloc: Global,
    symbols: &Symbols,
    shapes: &mut ShapeTable,
    constants: &Constants,
    given: &mut InitializedElements,
    statement: &Statement,
) -> Result<bool, AllocError>
    requires { IsTable symbols.now (get name_eq shapes.old.shapes) }
    ensures table { OnOk result (IsTable symbols.now (get name_eq shapes.new.shapes)) }
    ensures wrong { IfOk result (passes.GivesValues symbols.now constants.now given.old given.new statement.now) }
{
    let groups = groups_in(&statement.form);
    let is_misplaced = is_misplaced(symbols, groups);
    let is_any_wrong = is_any_wrong(alloc, symbols, shapes, constants, groups)?;
    let is_twice = give_groups(alloc, symbols, shapes, constants, given, groups)?;
    Ok(is_misplaced || is_any_wrong || is_twice)
}

/// The lines of all violations of 311 in a unit, in its order.
///
/// # Errors
///
/// Only where memory was refused.
pub fn data_lines(alloc: Global, symbols: &Symbols) -> Result<Vec<u32>, AllocError>
    ensures { IfOk result (λ lines. (test : ℕ → Bool) → list_any test lines.items
        ≡ list_any (λ (v : PureViolation). test v.line) (conditions.data_violations symbols.now)) }
{
    let mut constants = Constants::new(alloc);
    let mut shapes = ShapeTable::new(alloc);
    let mut given = InitializedElements::new(alloc);
    let mut lines = Vec::new(alloc);
    for statement in symbols.statements() {
        let is_wrong = give_values(
            alloc,
            symbols,
            &mut shapes,
            &constants,
            &mut given,
            statement,
        )?;
        add_line(&mut lines, line_when(is_wrong, statement.line))?;
        let behind = constants_in(&statement.form);
        give(alloc, symbols.listed(), &mut constants, behind)?;
    }
    Ok(lines)
}
