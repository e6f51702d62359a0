//! 310: a name that must be a subroutine, array or function is none (X3.9-1978, 5.3, 15.3 and 15.6.2).
ghost use Rattle.std.specs.Prelude.{◌≡◌, map, IfOk};
ghost use Rattle.std.specs.List.{flat_map};
ghost use Rattle.hep_conditions.specs.Names as conditions;
ghost use Rattle.hep_conditions.specs.Words.{first_of};
ghost use Rattle.hep_names.specs.Lists.{listed};
ghost use Rattle.hep_names.specs.Parts as passes;

use crate::functions::Meaning;
use crate::lists::{NameWithList, names_with_lists};
use crate::program::ProgramSymbols;
use crate::symbols::Symbols;
use hep_conditions::Violation;
use hep_conditions::reported::{first_of_two, violation_by};
use hep_source::{DataGroup, Form, Occurrence, Statement, Target};
use std::alloc::{AllocError, Global};

// The violation by a name, where it is unknown.
fn unknown_by(is_unknown: bool, line: u32, occurrence: &Occurrence) -> Option<Violation>
    ensures { result ≡ first_of (passes.unknown_by is_unknown line occurrence.now) }
{
    if is_unknown {
        Some(violation_by(310, line, occurrence))
    } else {
        None
    }
}

fn unknown_subroutine(program: &ProgramSymbols, statement: &Statement) -> Option<Violation>
    ensures { result ≡ first_of (conditions.unknown_subroutines program.now statement.now) }
{
    match &statement.form {
        Form::Call(occurrence, _) | Form::Create(occurrence, _) => {
            let is_unknown = program.subroutine_called(&occurrence.name).is_none();
            unknown_by(is_unknown, statement.line, occurrence)
        }
        _ => None,
    }
}

fn unknown_listed(
    program: &ProgramSymbols,
    symbols: &Symbols,
    line: u32,
    name: &NameWithList,
) -> Option<Violation>
    ensures { result ≡ first_of (passes.unknown_listed program.now symbols.now line (listed name.now)) }
{
    let is_unknown = match symbols.listed_meaning(&name.occurrence.name) {
        Meaning::External => program.function_called(&name.occurrence.name).is_none(),
        _ => false,
    };
    unknown_by(is_unknown, line, &name.occurrence)
}

fn first_unknown_listed(
    program: &ProgramSymbols,
    symbols: &Symbols,
    line: u32,
    names: &[NameWithList],
) -> Option<Violation>
    ensures { result ≡ first_of (flat_map (passes.unknown_listed program.now symbols.now line) (map listed names.now)) }
{
    let mut first = None;
    for name in names {
        first = first_of_two(first, unknown_listed(program, symbols, line, name));
    }
    first
}

fn unknown_reference(
    alloc: Global,
    program: &ProgramSymbols,
    symbols: &Symbols,
    statement: &Statement,
) -> Result<Option<Violation>, AllocError>
    ensures { IfOk result (λ violation. violation ≡ first_of (conditions.unknown_references program.now symbols.now statement.now)) }
{
    let names = names_with_lists(alloc, statement)?;
    Ok(first_unknown_listed(program, symbols, statement.line, &names))
}

fn unknown_target(symbols: &Symbols, line: u32, target: &Target) -> Option<Violation>
    ensures { result ≡ first_of (passes.unknown_target symbols.now line target.now) }
{
    let is_unknown = !target.subscripts.as_slice().is_empty()
        && !symbols.is_array(&target.occurrence.name);
    unknown_by(is_unknown, line, &target.occurrence)
}

fn first_unknown_target(symbols: &Symbols, line: u32, targets: &[Target]) -> Option<Violation>
    ensures { result ≡ first_of (flat_map (passes.unknown_target symbols.now line) targets.now) }
{
    let mut first = None;
    for target in targets {
        first = first_of_two(first, unknown_target(symbols, line, target));
    }
    first
}

fn unknown_in_groups(symbols: &Symbols, line: u32, groups: &[DataGroup]) -> Option<Violation>
    ensures { result ≡ first_of (flat_map (passes.unknown_in_group symbols.now line) groups.now) }
{
    let mut first = None;
    for group in groups {
        first = first_of_two(
            first,
            first_unknown_target(symbols, line, group.targets.as_slice()),
        );
    }
    first
}

fn unknown_in_form(symbols: &Symbols, line: u32, form: &Form) -> Option<Violation>
    ensures { result ≡ first_of (passes.unknown_in_form symbols.now line form.now) }
{
    match form {
        Form::Assign(target, _) => unknown_target(symbols, line, target),
        Form::Data(groups) => unknown_in_groups(symbols, line, groups.as_slice()),
        Form::Purge(targets) => first_unknown_target(symbols, line, targets.as_slice()),
        _ => None,
    }
}

fn unknown_in(
    alloc: Global,
    program: &ProgramSymbols,
    symbols: &Symbols,
    statement: &Statement,
) -> Result<Option<Violation>, AllocError>
    ensures { IfOk result (λ violation. violation ≡ first_of (passes.unknown_in program.now symbols.now statement.now)) }
{
    let called = unknown_subroutine(program, statement);
    let referenced = unknown_reference(alloc, program, symbols, statement)?;
    let targets = unknown_in_form(symbols, statement.line, &statement.form);
    Ok(first_of_two(called, first_of_two(referenced, targets)))
}

/// The first violation of 310 in a unit of a program: a name that must be a subroutine, array or function is none.
///
/// # Errors
///
/// Only where memory was refused.
pub fn unknown_name_violation(
    alloc: Global,
    program: &ProgramSymbols,
    symbols: &Symbols,
) -> Result<Option<Violation>, AllocError>
    ensures { IfOk result (λ violation. violation ≡ first_of (conditions.unknown_name_violations program.now symbols.now)) }
{
    let mut first = None;
    for statement in symbols.statements() {
        first = first_of_two(first, unknown_in(alloc, program, symbols, statement)?);
    }
    Ok(first)
}
