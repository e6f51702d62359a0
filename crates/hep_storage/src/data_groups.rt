//! The test of a group of DATA for a violation of 311: its elements and their values (X3.9-1978, section 9).
ghost use Rattle.std.specs.Prelude.{◌≡◌, ◌&&◌, ◌||◌, not, nat_eq, length, map, IfOk, OnOk};
ghost use Rattle.std.specs.List.{list_any};
ghost use Rattle.indexmap.specs.IndexMap.{get};
ghost use Rattle.hep_machine.specs.Words.{name_eq, DataValue as PureValue, Target as PureTarget};
ghost use Rattle.hep_storage.specs.ArrayShapes.{IsTable};
ghost use Rattle.hep_conditions.specs.Data as conditions;
ghost use Rattle.hep_storage.specs.DataGroups as groups;
ghost use Rattle.hep_storage.specs.DataNames as lists;
ghost use Rattle.hep_storage.specs.Runs.{alike, positions_in};
ghost use Rattle.hep_storage.specs.RunItems.{agree_as_far};

use crate::array_shapes::{DataName, ShapeTable};
use crate::initialized_elements::DataElements;
use crate::runs::{KnownRuns, Position, PositionRun, agree};
use hep_names::{Constants, Symbols, repeat_of, value_of_constant};
use hep_source::{DataGroup, DataValue, Name, Target};
use hep_types::{is_dummy, type_of_value};
use std::alloc::{AllocError, Global};

// Whether a value is allowed. A name as value or repeat count must be that of a constant given before.
fn is_value(constants: &Constants, value: &DataValue) -> bool
    ensures { result ≡ conditions.is_value constants.now value.now }
{
    repeat_of(constants, value.repeat).is_some()
        && value_of_constant(constants, value.constant).is_some()
}

fn is_any_no_value(constants: &Constants, values: &[DataValue]) -> bool
    ensures { result ≡ list_any (λ (v : PureValue). not (conditions.is_value constants.now v)) values.now }
{
    for value in values {
        if !is_value(constants, value) {
            return true;
        }
    }
    false
}

// The run of a value: its type, repeated by the repeat count.
fn run_of(constants: &Constants, value: &DataValue) -> Option<PositionRun>
    ensures { result ≡ groups.run_given constants.now value.now }
{
    let count = repeat_of(constants, value.repeat)?;
    let item = value_of_constant(constants, value.constant)?;
    Some(PositionRun {
        position: Position {
            asynchronous: false,
            value_type: Some(type_of_value(item)),
        },
        count,
    })
}

fn runs_given(
    alloc: Global,
    constants: &Constants,
    values: &[DataValue],
) -> Result<Vec<Option<PositionRun>>, AllocError>
    ensures { IfOk result (λ runs. runs.items ≡ map (groups.run_given constants.now) values.now) }
{
    let mut runs = Vec::new(alloc);
    for value in values {
        runs.push(run_of(constants, value))?;
    }
    Ok(runs)
}

// The elements that each name denotes.
fn named_all(
    alloc: Global,
    symbols: &Symbols,
    shapes: &mut ShapeTable,
    constants: &Constants,
    targets: &[Target],
) -> Result<Vec<DataName>, AllocError>
    requires { IsTable symbols.now (get name_eq shapes.old.shapes) }
    ensures table { OnOk result (IsTable symbols.now (get name_eq shapes.new.shapes)) }
    ensures named { IfOk result (λ named. lists.NamedAll symbols.now constants.now targets.now named.items) }
{
    let mut named = Vec::new(alloc);
    for target in targets {
        named.push(shapes.named(alloc, symbols, constants, target)?)?;
    }
    Ok(named)
}

fn is_outside(named: &DataName) -> bool
    ensures { result ≡ lists.is_outside_named named.now }
{
    matches!(named, DataName::Outside)
}

fn is_any_outside(named: &[DataName]) -> bool
    ensures { result ≡ list_any lists.is_outside_named named.now }
{
    for one in named {
        if is_outside(one) {
            return true;
        }
    }
    false
}

fn is_forbidden(symbols: &Symbols, name: &Name) -> bool
    ensures { result ≡ conditions.is_forbidden symbols.now name.now }
{
    name.asynchronous || (is_dummy(symbols, name) || symbols.is_common(name))
}

fn is_any_forbidden(symbols: &Symbols, targets: &[Target]) -> bool
    ensures { result ≡ list_any (λ (t : PureTarget). conditions.is_forbidden symbols.now t.occurrence.name) targets.now }
{
    for target in targets {
        if is_forbidden(symbols, &target.occurrence.name) {
            return true;
        }
    }
    false
}

// The run of the elements of a name: its type, repeated for each element.
fn run_named(symbols: &Symbols, named: &DataName) -> Option<PositionRun>
    ensures { result ≡ lists.run_named symbols.now named.now }
{
    let (name, count) = match named {
        DataName::Elements(DataElements::One(element)) => (&element.name, 1),
        DataName::Elements(DataElements::All(name, count)) => (name, u64::from(*count)),
        _ => return None,
    };
    Some(PositionRun {
        position: Position {
            asynchronous: false,
            value_type: symbols.type_of(name),
        },
        count,
    })
}

fn runs_named(
    alloc: Global,
    symbols: &Symbols,
    named: &[DataName],
) -> Result<Vec<Option<PositionRun>>, AllocError>
    ensures { IfOk result (λ runs. runs.items ≡ map (lists.run_named symbols.now) named.now) }
{
    let mut runs = Vec::new(alloc);
    for one in named {
        runs.push(run_named(symbols, one))?;
    }
    Ok(runs)
}

// The runs before the first one that isn't known.
fn known(alloc: Global, found: &[Option<PositionRun>]) -> Result<KnownRuns, AllocError>
    ensures places { IfOk result (λ list. positions_in list.runs.items ≡ lists.places_of found.now) }
    ensures whole { IfOk result (λ list. list.is_whole ≡ lists.are_known found.now) }
{
    let mut runs = Vec::new(alloc);
    for run in found {
        match run {
            Some(run) => runs.push(*run)?,
            None => {
                return Ok(KnownRuns {
                    runs,
                    is_whole: false,
                });
            }
        }
    }
    Ok(KnownRuns {
        runs,
        is_whole: true,
    })
}

// Whether two lists have the same length and the same types, as far as they are known.
fn fit(elements: &KnownRuns, values: &KnownRuns) -> bool
    ensures { result ≡ ((not (elements.now.is_whole && values.now.is_whole)
        || nat_eq (length (positions_in elements.now.runs.items)) (length (positions_in values.now.runs.items)))
        && agree_as_far alike (positions_in elements.now.runs.items) (positions_in values.now.runs.items)) }
{
    elements.is_same_length(values) && agree(&elements.runs, &values.runs)
}

fn is_any(first: bool, second: bool, third: bool) -> bool
    ensures { result ≡ (first || (second || third)) }
{
    first || second || third
}

fn is_any_refused(symbols: &Symbols, targets: &[Target], named: &[DataName]) -> bool
    ensures { result ≡ (list_any (λ (t : PureTarget). conditions.is_forbidden symbols.now t.occurrence.name) targets.now
        || list_any lists.is_outside_named named.now) }
{
    is_any_forbidden(symbols, targets) || is_any_outside(named)
}

// Whether a group violates 311: an element or a value isn't allowed, or elements and values differ in number or type (9.2).
pub(crate) fn is_wrong_group(
    alloc: Global,
    symbols: &Symbols,
    shapes: &mut ShapeTable,
    constants: &Constants,
    group: &DataGroup,
) -> Result<bool, AllocError>
    requires { IsTable symbols.now (get name_eq shapes.old.shapes) }
    ensures table { OnOk result (IsTable symbols.now (get name_eq shapes.new.shapes)) }
    ensures wrong { IfOk result (λ is_wrong. is_wrong ≡ conditions.is_wrong_group symbols.now constants.now group.now) }
{
    let targets = group.targets.as_slice();
    let values = group.values.as_slice();
    let named = named_all(alloc, symbols, shapes, constants, targets)?;
    let named_runs = runs_named(alloc, symbols, &named)?;
    let elements = known(alloc, &named_runs)?;
    let given_runs = runs_given(alloc, constants, values)?;
    let given = known(alloc, &given_runs)?;
    let is_refused = is_any_refused(symbols, targets, &named);
    let has_none = is_any_no_value(constants, values);
    let is_misfit = !fit(&elements, &given);
    Ok(is_any(is_refused, has_none, is_misfit))
}
