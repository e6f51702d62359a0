//! Names that are no subroutine, array or function: 310.
ghost use Rattle.std.specs.Prelude.{◌≡◌, ◌++◌, map, OnOk};
ghost use Rattle.std.specs.List.{flat_map};
ghost use Rattle.hep_conditions.specs.Names as conditions;
ghost use Rattle.hep_names.specs.Lists.{listed};
ghost use Rattle.hep_names.specs.Parts as passes;
ghost use Rattle.hep_check.specs.AllViolations as words;

use hep_conditions::Violation;
use hep_conditions::reported::violation_by;
use hep_names::{Meaning, NameWithList, ProgramSymbols, Symbols};
use hep_source::{DataGroup, Form, Occurrence, Target};
use std::alloc::AllocError;

// Adds the violation by a name, where it is unknown.
fn add_by(
    found: &mut Vec<Violation>,
    is_unknown: bool,
    line: u32,
    occurrence: &Occurrence,
) -> Result<(), AllocError>
    ensures { OnOk result (found.new.items ≡ found.old.items ++ passes.unknown_by is_unknown line occurrence.now) }
{
    if is_unknown {
        found.push(violation_by(310, line, occurrence))?;
    }
    Ok(())
}

/// Adds the violation by the subroutine that a statement at a line calls or creates.
pub(crate) fn add_unknown_call(
    found: &mut Vec<Violation>,
    program: &ProgramSymbols,
    line: u32,
    form: &Form,
) -> Result<(), AllocError>
    ensures { OnOk result (found.new.items ≡ found.old.items ++ words.unknown_call program.now line form.now) }
{
    match form {
        Form::Call(occurrence, _) | Form::Create(occurrence, _) => {
            let is_unknown = program.subroutine_called(&occurrence.name).is_none();
            add_by(found, is_unknown, line, occurrence)
        }
        _ => Ok(()),
    }
}

// Whether a name with a list is no array and no function.
fn is_unknown(program: &ProgramSymbols, symbols: &Symbols, name: &NameWithList) -> bool
    ensures { result ≡ conditions.is_unknown program.now symbols.now name.now.occurrence.name }
{
    match symbols.listed_meaning(&name.occurrence.name) {
        Meaning::External => program.function_called(&name.occurrence.name).is_none(),
        _ => false,
    }
}

/// Adds the violations by names with lists at a line.
pub(crate) fn add_unknown_listed(
    found: &mut Vec<Violation>,
    program: &ProgramSymbols,
    symbols: &Symbols,
    line: u32,
    names: &[NameWithList],
) -> Result<(), AllocError>
    ensures { OnOk result (found.new.items
        ≡ found.old.items ++ flat_map (passes.unknown_listed program.now symbols.now line) (map listed names.now)) }
{
    for name in names {
        add_by(
            found,
            is_unknown(program, symbols, name),
            line,
            &name.occurrence,
        )?;
    }
    Ok(())
}

fn add_unknown_target(
    found: &mut Vec<Violation>,
    symbols: &Symbols,
    line: u32,
    target: &Target,
) -> Result<(), AllocError>
    ensures { OnOk result (found.new.items ≡ found.old.items ++ passes.unknown_target symbols.now line target.now) }
{
    let is_unknown = !target.subscripts.as_slice().is_empty()
        && !symbols.is_array(&target.occurrence.name);
    add_by(found, is_unknown, line, &target.occurrence)
}

fn add_unknown_targets(
    found: &mut Vec<Violation>,
    symbols: &Symbols,
    line: u32,
    targets: &[Target],
) -> Result<(), AllocError>
    ensures { OnOk result (found.new.items ≡ found.old.items ++ flat_map (passes.unknown_target symbols.now line) targets.now) }
{
    for target in targets {
        add_unknown_target(found, symbols, line, target)?;
    }
    Ok(())
}

fn add_unknown_in_groups(
    found: &mut Vec<Violation>,
    symbols: &Symbols,
    line: u32,
    groups: &[DataGroup],
) -> Result<(), AllocError>
    ensures { OnOk result (found.new.items ≡ found.old.items ++ flat_map (passes.unknown_in_group symbols.now line) groups.now) }
{
    for group in groups {
        add_unknown_targets(found, symbols, line, group.targets.as_slice())?;
    }
    Ok(())
}

/// Adds the violations by the targets that a statement at a line assigns, purges or gives values.
pub(crate) fn add_unknown_in_form(
    found: &mut Vec<Violation>,
    symbols: &Symbols,
    line: u32,
    form: &Form,
) -> Result<(), AllocError>
    ensures { OnOk result (found.new.items ≡ found.old.items ++ passes.unknown_in_form symbols.now line form.now) }
{
    match form {
        Form::Assign(target, _) => add_unknown_target(found, symbols, line, target),
        Form::Data(groups) => add_unknown_in_groups(found, symbols, line, groups.as_slice()),
        Form::Purge(targets) => add_unknown_targets(found, symbols, line, targets.as_slice()),
        _ => Ok(()),
    }
}
