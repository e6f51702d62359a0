//! What a violation is about.
ghost use Rattle.std.specs.Prelude.{◌≡◌, IfOk, find};
ghost use Rattle.std.specs.Option.{option_copied, option_map};
ghost use Rattle.hep_check.specs.Culprits as words;

use crate::argument_culprits::misfit;
use crate::count_culprits::miscounted;
use crate::form_culprits::mistyped;
use crate::label_culprits::{absent_label, structure_culprit, target_label};
use crate::name_clashes::{NameClashes, ambiguous_name};
use crate::sole_names::{lone_block, lone_target, unit_header};
use hep_conditions::Violation;
use hep_names::{ProgramSymbols, Symbols};
use hep_source::{Name, Occurrence, Statement};
use hep_types::all_ambiguities::is_of_the_language;
use std::alloc::{AllocError, Global};

/// The part of a statement that violates a condition.
#[derive(Clone, Copy)]
pub enum Culprit {
    /// An occurrence of a name.
    Name(Occurrence),
    /// A label.
    Label(u32),
    /// A common block; blank COMMON has no name.
    Block(Option<Name>),
    /// An occurrence of the name of a function where a subroutine or an array is needed.
    Function(Occurrence),
    /// An occurrence of the name of a subroutine where an array or a function is needed.
    Subroutine(Occurrence),
}

fn named(found: Option<Occurrence>) -> Option<Culprit>
    ensures { result ≡ option_map words.a_name found }
{
    match found {
        Some(occurrence) => Some(Culprit::Name(occurrence)),
        None => None,
    }
}

fn labelled(found: Option<u32>) -> Option<Culprit>
    ensures { result ≡ option_map words.a_label found }
{
    match found {
        Some(label) => Some(Culprit::Label(label)),
        None => None,
    }
}

// The part of a statement of a unit that violates the condition with this number, if a single part does.
fn culprit_in(
    alloc: Global,
    faults: &NameClashes,
    symbols: &Symbols,
    statement: &Statement,
    number: u16,
) -> Result<Option<Culprit>, AllocError>
    ensures { IfOk result (λ culprit. culprit ≡ words.culprit_in faults.now symbols.now statement.now number) }
{
    let program = faults.program();
    match number {
        302 => Ok(named(mistyped(program, symbols, statement))),
        303 => Ok(named(miscounted(alloc, program, symbols, statement)?)),
        304 => Ok(named(misfit(alloc, program, symbols, statement)?)),
        305 => Ok(lone_block(&statement.form)),
        306 => Ok(labelled(absent_label(alloc, symbols, statement)?)),
        307 => Ok(structure_culprit(program, symbols, statement)),
        308 => Ok(labelled(target_label(&statement.form))),
        309 => Ok(named(ambiguous_name(alloc, faults, symbols, statement)?)),
        311 => Ok(named(lone_target(&statement.form))),
        312 => Ok(named(unit_header(symbols.statements()))),
        _ => Ok(None),
    }
}

// The statement of a unit that begins on a line, if there is one.
fn statement_at<'a>(symbols: &Symbols<'a>, line: u32) -> Option<&'a Statement>
    ensures { option_copied result ≡ find (words.is_at line) symbols.now }
{
    for statement in symbols.statements() {
        if statement.line == line {
            return Some(statement);
        }
    }
    None
}

// The part of the statement at the line of a violation that violates its condition, if a single part does.
fn culprit_at(
    alloc: Global,
    faults: &NameClashes,
    violation: &Violation,
) -> Result<Option<Culprit>, AllocError>
    ensures { IfOk result (λ culprit. culprit ≡ words.culprit_among faults.now violation.now faults.now) }
{
    for symbols in faults.program().units() {
        if let Some(statement) = statement_at(symbols, violation.line) {
            return culprit_in(alloc, faults, symbols, statement, violation.number);
        }
    }
    Ok(None)
}

// A function of the program or of the language.
fn is_function(program: &ProgramSymbols, name: &Name) -> bool
    ensures { result ≡ words.is_function program.now name.now }
{
    program.function_called(name).is_some() || is_of_the_language(name)
}

// The culprit of a misused name, by what the name is: a function, a subroutine, or neither.
fn misused(program: &ProgramSymbols, occurrence: Occurrence) -> Culprit
    ensures { result ≡ words.misused program.now occurrence }
{
    if is_function(program, &occurrence.name) {
        return Culprit::Function(occurrence);
    }
    if program.subroutine_called(&occurrence.name).is_some() {
        return Culprit::Subroutine(occurrence);
    }
    Culprit::Name(occurrence)
}

// The culprit of a violation that has a name.
fn named_culprit(program: &ProgramSymbols, number: u16, occurrence: Occurrence) -> Culprit
    ensures { result ≡ words.named_culprit program.now number occurrence }
{
    if number == 310 {
        return misused(program, occurrence);
    }
    Culprit::Name(occurrence)
}

/// The part of a statement that a violation of a program is about: an occurrence of a name, a label, or a common block. None where no
/// single part is at fault.
///
/// # Errors
///
/// Only where memory was refused.
pub fn culprit_of(
    alloc: Global,
    faults: &NameClashes,
    violation: &Violation,
) -> Result<Option<Culprit>, AllocError>
    ensures { IfOk result (λ culprit. culprit ≡ words.culprit_of faults.now violation.now) }
{
    match violation.name {
        Some(name) => {
            let occurrence = Occurrence {
                name,
                position: violation.position,
            };
            Ok(Some(named_culprit(faults.program(), violation.number, occurrence)))
        }
        None => culprit_at(alloc, faults, violation),
    }
}
