//! Actual arguments that are names by themselves (X3.9-1978, 15.9.3).
ghost use Rattle.std.specs.Prelude.{◌≡◌, map, IfOk, OnOk};
ghost use Rattle.std.specs.List.{flat_map};
ghost use Rattle.indexmap.specs.IndexSet.{contains};
ghost use Rattle.hep_machine.specs.Words.{is_among, name_eq, Name as PureName};
ghost use Rattle.hep_conditions.specs.Statements as statements;
ghost use Rattle.hep_names.specs.Lists.{listed};
ghost use Rattle.hep_names.specs.Tables.{either};
ghost use Rattle.hep_image.specs.Private as private;

use hep_names::{Meaning, NameWithList, Symbols, names_with_lists};
use hep_source::{Expr, Form, Name, Node, Statement};
use indexmap::IndexSet;
use std::alloc::{AllocError, Global};

fn add_name(names: &mut IndexSet<Name>, actual: &Expr) -> Result<(), AllocError>
    ensures { OnOk result ((x : PureName) → contains name_eq names.new x
        ≡ either (contains name_eq names.old x) (is_among x (statements.bare_name actual.now))) }
{
    if let Node::Occurrence(occurrence) = &actual.node {
        names.insert(occurrence.name)?;
    }
    Ok(())
}

fn add_names(names: &mut IndexSet<Name>, actuals: &[Expr]) -> Result<(), AllocError>
    ensures { OnOk result ((x : PureName) → contains name_eq names.new x
        ≡ either (contains name_eq names.old x) (is_among x (flat_map statements.bare_name actuals.now))) }
{
    for actual in actuals {
        add_name(names, actual)?;
    }
    Ok(())
}

// The actual arguments of a CALL or CREATE.
fn actuals_in(form: &Form) -> &[Expr]
    ensures { flat_map statements.bare_name result.now ≡ statements.bare_actuals_in form.now }
{
    match form {
        Form::Call(_, actuals) | Form::Create(_, actuals) => actuals.as_slice(),
        _ => &[],
    }
}

// Those of a reference of a function of the program.
#[tactic(auto, using(hep_source::proofs::Trees::list_of_trees, crate::proofs::GatheredStarts::either_none))]
fn add_reference(
    names: &mut IndexSet<Name>,
    symbols: &Symbols,
    reference: &NameWithList,
) -> Result<(), AllocError>
    ensures { OnOk result ((x : PureName) → contains name_eq names.new x
        ≡ either (contains name_eq names.old x) (is_among x (private.bare_in_list symbols.now (listed reference.now)))) }
{
    match symbols.listed_meaning(&reference.occurrence.name) {
        Meaning::External => add_names(names, reference.arguments),
        _ => Ok(()),
    }
}

fn add_references(
    names: &mut IndexSet<Name>,
    symbols: &Symbols,
    references: &[NameWithList],
) -> Result<(), AllocError>
    ensures { OnOk result ((x : PureName) → contains name_eq names.new x ≡ either (contains name_eq names.old x)
        (is_among x (flat_map (private.bare_in_list symbols.now) (map listed references.now)))) }
{
    for reference in references {
        add_reference(names, symbols, reference)?;
    }
    Ok(())
}

fn add_statement(
    alloc: Global,
    names: &mut IndexSet<Name>,
    symbols: &Symbols,
    statement: &Statement,
) -> Result<(), AllocError>
    ensures { OnOk result ((x : PureName) → contains name_eq names.new x
        ≡ either (contains name_eq names.old x) (is_among x (private.bare_actuals_of symbols.now statement.now))) }
{
    add_names(names, actuals_in(&statement.form))?;
    let references = names_with_lists(alloc, statement)?;
    add_references(names, symbols, &references)
}

// The names of a unit that are an actual argument by themselves in some statement.
pub(crate) fn bare_actuals(alloc: Global, symbols: &Symbols) -> Result<IndexSet<Name>, AllocError>
    ensures { IfOk result (λ names. (x : PureName) → contains name_eq names x ≡ is_among x (private.bare_actuals symbols.now)) }
{
    let mut names = IndexSet::new(alloc);
    for statement in symbols.statements() {
        add_statement(alloc, &mut names, symbols, statement)?;
    }
    Ok(names)
}
