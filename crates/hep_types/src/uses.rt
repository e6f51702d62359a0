//! The names that statements use, by the way of use (X3.9-1978, 18.1 and 18.2).
ghost use Rattle.std.specs.Prelude.{◌≡◌, ◌++◌, map, option_to_list, IfOk, OnOk};
ghost use Rattle.std.specs.List.{filter, flat_map};
ghost use Rattle.hep_source.specs.Units as units;
ghost use Rattle.hep_machine.specs.Declarations as declarations;
ghost use Rattle.hep_conditions.specs.Names as conditions;
ghost use Rattle.hep_conditions.specs.Statements as statements;
ghost use Rattle.hep_conditions.specs.Words.{function_types, names_of_lists};
ghost use Rattle.hep_machine.specs.Words.{is_referenced, names_listed_by, CommonBlock as PureBlock};
ghost use Rattle.hep_names.specs.Lists.{listed};
ghost use Rattle.hep_types.specs.Uses as rows;
ghost use Rattle.hep_types.specs.Uses.{used_at};

use hep_names::data::groups_in;
use hep_names::named_constants::constants_in;
use hep_names::occurrences::{occurrences, occurrences_in_groups};
use hep_names::specification::{add_declared, block_of, blocks_in};
use hep_names::{NameWithList, ProgramSymbols, Symbols, is_function_in, names_with_lists};
use hep_source::{
    CommonBlock, DataGroup, Declarator, Form, Name, NamedConstant, Occurrence, Statement, Target,
};
use std::alloc::{AllocError, Global};

/// A name, and the line of the statement that uses it.
pub(crate) type Use = (Name, u32);

/// The way in which a statement uses a name.
#[derive(Clone, Copy)]
pub(crate) enum UseKind {
    /// As the name of the unit that begins with the statement.
    Header,
    /// A common block.
    Block,
    /// A dummy argument in a header.
    Dummy,
    /// A name with a type statement.
    Typed,
    /// A name with bounds.
    Bounded,
    /// A name in COMMON.
    Common,
    /// A named constant.
    Constant,
    /// A name to which DATA gives a value.
    Data,
    /// A name that is assigned.
    Assigned,
    /// A subroutine that is called or created.
    Called,
    /// A variable, anywhere except in the values of DATA.
    Variable,
    /// A function, in its own header.
    Result,
    /// A function of the program that is referenced.
    Function,
    /// A function of the program that is named without a list.
    Alone,
}

type Names = Result<Vec<Name>, AllocError>;

fn names_of(alloc: Global, occurrences: &[Occurrence]) -> Names
    ensures { IfOk result (λ names. names.items ≡ units.names_of_occurrences occurrences.now) }
{
    let mut names = Vec::new(alloc);
    for occurrence in occurrences {
        names.push(occurrence.name)?;
    }
    Ok(names)
}

fn declared(alloc: Global, declarators: &[Declarator]) -> Names
    ensures { IfOk result (λ names. names.items ≡ declarations.names_declared declarators.now) }
{
    let mut names = Vec::new(alloc);
    add_declared(&mut names, declarators)?;
    Ok(names)
}

fn has_bounds(declarator: &Declarator) -> bool
    ensures { result ≡ declarations.is_nonempty declarator.now.dimensions }
{
    !declarator.dimensions.as_slice().is_empty()
}

// The names that get bounds.
fn add_bounded(names: &mut Vec<Name>, declarators: &[Declarator]) -> Result<(), AllocError>
    ensures { OnOk result (names.new.items ≡ names.old.items ++ rows.names_bounded declarators.now) }
{
    for declarator in declarators {
        if has_bounds(declarator) {
            names.push(declarator.occurrence.name)?;
        }
    }
    Ok(())
}

fn bounded(alloc: Global, declarators: &[Declarator]) -> Names
    ensures { IfOk result (λ names. names.items ≡ rows.names_bounded declarators.now) }
{
    let mut names = Vec::new(alloc);
    add_bounded(&mut names, declarators)?;
    Ok(names)
}

// Most blocks have one entry. For these no vector is made.
#[tactic(auto, using(crate::proofs::Used::bounded_append))]
fn bounded_in_blocks(alloc: Global, blocks: &[CommonBlock]) -> Names
    ensures { IfOk result (λ names. names.items ≡ rows.names_bounded (declarations.entries_of_blocks blocks.now)) }
{
    let mut names = Vec::new(alloc);
    for block in blocks {
        add_bounded(&mut names, block.entries.as_slice())?;
    }
    Ok(names)
}

fn entries(alloc: Global, blocks: &[CommonBlock]) -> Names
    ensures { IfOk result (λ names. names.items
        ≡ flat_map (λ (b : PureBlock). declarations.names_declared b.entries) blocks.now) }
{
    let mut names = Vec::new(alloc);
    for block in blocks {
        add_declared(&mut names, block.entries.as_slice())?;
    }
    Ok(names)
}

// Adds a name, if there is one.
fn add_if_any(names: &mut Vec<Name>, name: Option<Name>) -> Result<(), AllocError>
    ensures { OnOk result (names.new.items ≡ names.old.items ++ option_to_list name) }
{
    if let Some(name) = name {
        names.push(name)?;
    }
    Ok(())
}

// The names of these blocks. Blank COMMON has none.
fn names_of_blocks(alloc: Global, blocks: &[CommonBlock]) -> Names
    ensures { IfOk result (λ names. names.items
        ≡ flat_map (λ (b : PureBlock). option_to_list (declarations.block_of b)) blocks.now) }
{
    let mut names = Vec::new(alloc);
    for block in blocks {
        add_if_any(&mut names, block_of(block))?;
    }
    Ok(names)
}

fn constants(alloc: Global, constants: &[NamedConstant]) -> Names
    ensures { IfOk result (λ names. names.items ≡ declarations.names_of_constants constants.now) }
{
    let mut names = Vec::new(alloc);
    for constant in constants {
        names.push(constant.occurrence.name)?;
    }
    Ok(names)
}

fn add_targets(names: &mut Vec<Name>, targets: &[Target]) -> Result<(), AllocError>
    ensures { OnOk result (names.new.items ≡ names.old.items ++ conditions.names_of_targets targets.now) }
{
    for target in targets {
        names.push(target.occurrence.name)?;
    }
    Ok(())
}

#[tactic(auto, using(crate::proofs::Used::targets_append))]
fn targets_of_groups(alloc: Global, groups: &[DataGroup]) -> Names
    ensures { IfOk result (λ names. names.items ≡ conditions.names_of_targets (statements.targets_of_groups groups.now)) }
{
    let mut names = Vec::new(alloc);
    for group in groups {
        add_targets(&mut names, group.targets.as_slice())?;
    }
    Ok(names)
}

fn is_variable(program: &ProgramSymbols, symbols: &Symbols, name: &Name) -> bool
    ensures { result ≡ rows.is_variable (function_types program.now) symbols.now name.now }
{
    !symbols.is_constant_name(name) && !is_function_in(Some(program), symbols, name)
}

// Those of these names that are variables.
fn variables_among(
    alloc: Global,
    program: &ProgramSymbols,
    symbols: &Symbols,
    names: &[Name],
) -> Names
    ensures { IfOk result (λ found. found.items ≡ filter (rows.is_variable (function_types program.now) symbols.now) names.now) }
{
    let mut found = Vec::new(alloc);
    for name in names {
        if is_variable(program, symbols, name) {
            found.push(*name)?;
        }
    }
    Ok(found)
}

// Those of these names that the unit references as functions, if the program has them.
fn referenced_among(alloc: Global, symbols: &Symbols, names: &[Name]) -> Names
    ensures { IfOk result (λ found. found.items ≡ filter (is_referenced symbols.now) names.now) }
{
    let mut found = Vec::new(alloc);
    for name in names {
        if symbols.is_referenced(name) {
            found.push(*name)?;
        }
    }
    Ok(found)
}

// Those of these names that are functions of the program which the unit references.
fn functions_among(
    alloc: Global,
    program: &ProgramSymbols,
    symbols: &Symbols,
    names: &[Name],
) -> Names
    ensures { IfOk result (λ found. found.items ≡ rows.functions_among (function_types program.now) symbols.now names.now) }
{
    let mut found = Vec::new(alloc);
    for name in names {
        if is_function_in(Some(program), symbols, name) {
            found.push(*name)?;
        }
    }
    Ok(found)
}

fn names_of_lists(alloc: Global, lists: &[NameWithList]) -> Names
    ensures { IfOk result (λ names. names.items ≡ names_of_lists (map listed lists.now)) }
{
    let mut names = Vec::new(alloc);
    for list in lists {
        names.push(list.occurrence.name)?;
    }
    Ok(names)
}

// The names with lists in a statement.
#[tactic(auto, using(hep_names::proofs::Referenced::names_by_statement))]
fn names_listed(alloc: Global, statement: &Statement) -> Names
    ensures { IfOk result (λ names. names.items ≡ names_listed_by statement.now) }
{
    names_of_lists(alloc, &names_with_lists(alloc, statement)?)
}

fn is_given(groups: &[DataGroup]) -> bool
    ensures { result ≡ declarations.is_nonempty groups.now }
{
    !groups.is_empty()
}

// The occurrences of variables and constants in a statement, without the values of DATA.
fn occurrences_of_variables(
    alloc: Global,
    symbols: &Symbols,
    statement: &Statement,
) -> Result<Vec<Occurrence>, AllocError>
    ensures { IfOk result (λ found. found.items ≡ conditions.occurrences_of_variables symbols.now statement.now) }
{
    let groups = groups_in(&statement.form);
    if is_given(groups) {
        occurrences_in_groups(alloc, symbols, groups)
    } else {
        occurrences(alloc, symbols, statement)
    }
}

// The names in a statement, and the names that it gives a type and the unit references as functions.
fn names_in(alloc: Global, symbols: &Symbols, statement: &Statement) -> Names
    ensures { IfOk result (λ names. names.items ≡ rows.names_in symbols.now statement.now) }
{
    let occurrences = occurrences_of_variables(alloc, symbols, statement)?;
    let typed = typed(alloc, &statement.form)?;
    let mut names = names_of(alloc, &occurrences)?;
    names.extend_from_slice(&referenced_among(alloc, symbols, &typed)?)?;
    Ok(names)
}

fn at_most_one(alloc: Global, name: Option<Name>) -> Names
    ensures { IfOk result (λ names. names.items ≡ option_to_list name) }
{
    let mut names = Vec::new(alloc);
    add_if_any(&mut names, name)?;
    Ok(names)
}

fn header_name(form: &Form) -> Option<Name>
    ensures { option_to_list result ≡ conditions.header_name form.now }
{
    match form {
        Form::Program(occurrence)
        | Form::Subroutine(occurrence, _)
        | Form::Function(_, occurrence, _) => Some(occurrence.name),
        _ => None,
    }
}

fn dummies(form: &Form) -> &[Occurrence]
    ensures { units.names_of_occurrences result.now ≡ units.dummies_by_header form.now }
{
    match form {
        Form::Subroutine(_, dummies) | Form::Function(_, _, dummies) => dummies.as_slice(),
        _ => &[],
    }
}

// The names that a statement gives a type. The header of a function with a type counts as a type statement.
fn typed(alloc: Global, form: &Form) -> Names
    ensures { IfOk result (λ names. names.items ≡ conditions.names_typed form.now) }
{
    match form {
        Form::Declare(_, declarators) => declared(alloc, declarators.as_slice()),
        Form::Function(Some(_), occurrence, _) => at_most_one(alloc, Some(occurrence.name)),
        _ => Ok(Vec::new(alloc)),
    }
}

/// The name of a function in its header.
pub(crate) fn result_name(form: &Form) -> Option<Name>
    ensures { option_to_list result ≡ conditions.names_of_result form.now }
{
    match form {
        Form::Function(_, occurrence, _) => Some(occurrence.name),
        _ => None,
    }
}

fn all_bounded(alloc: Global, form: &Form) -> Names
    ensures { IfOk result (λ names. names.items ≡ rows.names_bounded (declarations.declarators_in form.now)) }
{
    match form {
        Form::Declare(_, declarators) | Form::Dimension(declarators) => {
            bounded(alloc, declarators.as_slice())
        }
        _ => bounded_in_blocks(alloc, blocks_in(form)),
    }
}

fn assigned(form: &Form) -> Option<Name>
    ensures { option_to_list result ≡ conditions.names_of_targets (statements.targets_assigned form.now) }
{
    match form {
        Form::Assign(target, _) => Some(target.occurrence.name),
        _ => None,
    }
}

fn called(form: &Form) -> Option<Name>
    ensures { option_to_list result ≡ rows.names_called form.now }
{
    match form {
        Form::Call(occurrence, _) | Form::Create(occurrence, _) => Some(occurrence.name),
        _ => None,
    }
}

// The names that a statement uses in this way.
fn names_by(
    alloc: Global,
    program: &ProgramSymbols,
    symbols: &Symbols,
    way: UseKind,
    statement: &Statement,
) -> Names
    ensures { IfOk result (λ names. names.items ≡ rows.names_by (function_types program.now) symbols.now way statement.now) }
{
    let form = &statement.form;
    match way {
        UseKind::Header => at_most_one(alloc, header_name(form)),
        UseKind::Block => names_of_blocks(alloc, blocks_in(form)),
        UseKind::Dummy => names_of(alloc, dummies(form)),
        UseKind::Typed => typed(alloc, form),
        UseKind::Bounded => all_bounded(alloc, form),
        UseKind::Common => entries(alloc, blocks_in(form)),
        UseKind::Constant => constants(alloc, constants_in(form)),
        UseKind::Data => targets_of_groups(alloc, groups_in(form)),
        UseKind::Assigned => at_most_one(alloc, assigned(form)),
        UseKind::Called => at_most_one(alloc, called(form)),
        UseKind::Variable => {
            let names = names_in(alloc, symbols, statement)?;
            variables_among(alloc, program, symbols, &names)
        }
        UseKind::Result => at_most_one(alloc, result_name(form)),
        UseKind::Function => {
            let names = names_listed(alloc, statement)?;
            functions_among(alloc, program, symbols, &names)
        }
        UseKind::Alone => {
            let names = names_of(alloc, &occurrences(alloc, symbols, statement)?)?;
            functions_among(alloc, program, symbols, &names)
        }
    }
}

fn add(uses: &mut Vec<Use>, line: u32, names: &[Name]) -> Result<(), AllocError>
    ensures { OnOk result (uses.new.items ≡ uses.old.items ++ used_at line names.now) }
{
    for name in names {
        uses.push((*name, line))?;
    }
    Ok(())
}

fn add_uses(
    alloc: Global,
    program: &ProgramSymbols,
    uses: &mut Vec<Use>,
    symbols: &Symbols,
    way: UseKind,
) -> Result<(), AllocError>
    ensures { OnOk result (uses.new.items ≡ uses.old.items ++ rows.uses_of (function_types program.now) way symbols.now) }
{
    for statement in symbols.statements() {
        let names = names_by(alloc, program, symbols, way, statement)?;
        add(uses, statement.line, &names)?;
    }
    Ok(())
}

/// The names that a unit uses in this way, in the order of its text.
pub(crate) fn uses_of(
    alloc: Global,
    program: &ProgramSymbols,
    symbols: &Symbols,
    way: UseKind,
) -> Result<Vec<Use>, AllocError>
    ensures { IfOk result (λ uses. uses.items ≡ rows.uses_of (function_types program.now) way symbols.now) }
{
    let mut uses = Vec::new(alloc);
    add_uses(alloc, program, &mut uses, symbols, way)?;
    Ok(uses)
}

/// The names that the units of a program use in this way.
pub(crate) fn uses_in_program(
    alloc: Global,
    program: &ProgramSymbols,
    way: UseKind,
) -> Result<Vec<Use>, AllocError>
    ensures { IfOk result (λ uses. uses.items ≡ flat_map (rows.uses_of (function_types program.now) way) program.now) }
{
    let mut uses = Vec::new(alloc);
    for symbols in program.units() {
        add_uses(alloc, program, &mut uses, symbols, way)?;
    }
    Ok(uses)
}
