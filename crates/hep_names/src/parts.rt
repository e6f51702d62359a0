//! The parts of a statement: its expressions, and its names outside expressions, in the order of its text.
ghost use Rattle.std.specs.Prelude.{◌≡◌, ◌++◌, map, option_to_list, IfOk, OnOk};
ghost use Rattle.std.specs.List.{flat_map};
ghost use Rattle.hep_conditions.specs.Words.{targets_of_groups};
ghost use Rattle.hep_names.specs.Parts as rows;

use hep_source::{
    CommonBlock, DataConstant, DataGroup, DataValue, Declarator, Dimension, DoControl, Expr, Form,
    NamedConstant, Occurrence, PrintItem, Repeat, Statement, Target, UpperBound,
};
use std::alloc::{AllocError, Global};

// A part of a statement.
#[derive(Clone, Copy)]
pub(crate) enum Part<'a> {
    // A whole expression.
    Expression(&'a Expr),
    // A name by itself.
    Name(Occurrence),
    // A name with subscripts that is assigned, given a value by DATA, or purged. The subscripts are the parts after it.
    Element(Occurrence),
    // A name without bounds in a type statement: a variable, unless the unit references it as a function.
    Declared(Occurrence),
}

// Types of values that have parts.
pub(crate) trait HasParts {
    ghost use Rattle.std.specs.Prelude.{List};
    ghost use Rattle.hep_names.specs.Parts.{Part as PurePart};

    ghost parts: { Self → List PurePart };

    // Adds its parts, in the order of its text.
    fn add_parts<'a>(&'a self, found: &mut Vec<Part<'a>>) -> Result<(), AllocError>
        ensures { OnOk result (map rows.part found.new.items ≡ map rows.part found.old.items ++ parts self.now) };
}

// Adds the parts of a list of values.
pub(crate) fn add_all<'a, T: HasParts>(
    found: &mut Vec<Part<'a>>,
    things: &'a [T],
) -> Result<(), AllocError>
    ensures { OnOk result (map rows.part found.new.items ≡ map rows.part found.old.items ++ flat_map T.parts things.now) }
{
    for thing in things {
        thing.add_parts(found)?;
    }
    Ok(())
}

impl HasParts for Occurrence {
    ghost parts = { rows.parts_in_name };

    fn add_parts<'a>(&'a self, found: &mut Vec<Part<'a>>) -> Result<(), AllocError> {
        found.push(Part::Name(*self))?;
        Ok(())
    }
}

impl HasParts for Expr {
    ghost parts = { rows.parts_in_expression };

    fn add_parts<'a>(&'a self, found: &mut Vec<Part<'a>>) -> Result<(), AllocError> {
        found.push(Part::Expression(self))?;
        Ok(())
    }
}

impl HasParts for Option<Expr> {
    ghost parts = { λ e. rows.parts_in_expressions (option_to_list e) };

    fn add_parts<'a>(&'a self, found: &mut Vec<Part<'a>>) -> Result<(), AllocError> {
        match self {
            Some(expression) => expression.add_parts(found),
            None => Ok(()),
        }
    }
}

impl HasParts for Dimension {
    ghost parts = { rows.parts_in_dimension };

    fn add_parts<'a>(&'a self, found: &mut Vec<Part<'a>>) -> Result<(), AllocError> {
        self.lower.add_parts(found)?;
        match &self.upper {
            UpperBound::Expression(upper) => upper.add_parts(found),
            UpperBound::Open => Ok(()),
        }
    }
}

impl HasParts for Declarator {
    ghost parts = { rows.parts_in_declarator };

    fn add_parts<'a>(&'a self, found: &mut Vec<Part<'a>>) -> Result<(), AllocError> {
        self.occurrence.add_parts(found)?;
        add_all(found, self.dimensions.as_slice())
    }
}

// Adds the parts of a declarator in a type statement.
fn add_declared<'a>(
    found: &mut Vec<Part<'a>>,
    declarators: &'a [Declarator],
) -> Result<(), AllocError>
    ensures { OnOk result (map rows.part found.new.items ≡ map rows.part found.old.items ++ flat_map rows.parts_in_declared declarators.now) }
{
    for declarator in declarators {
        if declarator.dimensions.as_slice().is_empty() {
            found.push(Part::Declared(declarator.occurrence))?;
        } else {
            declarator.add_parts(found)?;
        }
    }
    Ok(())
}

impl HasParts for CommonBlock {
    ghost parts = { rows.parts_in_block };

    fn add_parts<'a>(&'a self, found: &mut Vec<Part<'a>>) -> Result<(), AllocError> {
        add_all(found, self.entries.as_slice())
    }
}

impl HasParts for NamedConstant {
    ghost parts = { rows.parts_in_constant };

    fn add_parts<'a>(&'a self, found: &mut Vec<Part<'a>>) -> Result<(), AllocError> {
        self.occurrence.add_parts(found)?;
        self.value.add_parts(found)
    }
}

impl HasParts for Target {
    ghost parts = { rows.parts_in_target };

    fn add_parts<'a>(&'a self, found: &mut Vec<Part<'a>>) -> Result<(), AllocError> {
        if self.subscripts.as_slice().is_empty() {
            self.occurrence.add_parts(found)
        } else {
            found.push(Part::Element(self.occurrence))?;
            add_all(found, self.subscripts.as_slice())
        }
    }
}

impl HasParts for DataValue {
    ghost parts = { rows.parts_in_value };

    fn add_parts<'a>(&'a self, found: &mut Vec<Part<'a>>) -> Result<(), AllocError> {
        if let Some(Repeat::Named(occurrence)) = &self.repeat {
            occurrence.add_parts(found)?;
        }
        if let DataConstant::Named(occurrence) = &self.constant {
            occurrence.add_parts(found)?;
        }
        Ok(())
    }
}

impl HasParts for DataGroup {
    ghost parts = { rows.parts_in_group };

    fn add_parts<'a>(&'a self, found: &mut Vec<Part<'a>>) -> Result<(), AllocError> {
        add_all(found, self.targets.as_slice())?;
        add_all(found, self.values.as_slice())
    }
}

impl HasParts for DoControl {
    ghost parts = { rows.parts_in_control };

    fn add_parts<'a>(&'a self, found: &mut Vec<Part<'a>>) -> Result<(), AllocError> {
        self.variable.add_parts(found)?;
        self.initial.add_parts(found)?;
        self.limit.add_parts(found)?;
        self.increment.add_parts(found)
    }
}

impl HasParts for PrintItem {
    ghost parts = { rows.parts_in_item };

    fn add_parts<'a>(&'a self, found: &mut Vec<Part<'a>>) -> Result<(), AllocError> {
        match self {
            PrintItem::Expression(expression) => expression.add_parts(found),
            PrintItem::Characters(_) => Ok(()),
        }
    }
}

impl HasParts for Form {
    ghost parts = { rows.parts_in_form };

    fn add_parts<'a>(&'a self, found: &mut Vec<Part<'a>>) -> Result<(), AllocError> {
        match self {
            Form::Subroutine(_, dummies) => add_all(found, dummies.as_slice()),
            Form::Function(_, occurrence, dummies) => {
                occurrence.add_parts(found)?;
                add_all(found, dummies.as_slice())
            }
            Form::Declare(_, declarators) => add_declared(found, declarators.as_slice()),
            Form::Dimension(declarators) => add_all(found, declarators.as_slice()),
            Form::Common(blocks) => add_all(found, blocks.as_slice()),
            Form::Parameter(constants) => add_all(found, constants.as_slice()),
            Form::Data(groups) => add_all(found, groups.as_slice()),
            Form::Assign(target, value) => {
                target.add_parts(found)?;
                value.add_parts(found)
            }
            Form::ComputedGoTo(_, selector) => selector.add_parts(found),
            Form::ArithmeticIf(tested, _) => tested.add_parts(found),
            Form::IfThen(condition) => condition.add_parts(found),
            Form::ElseIf(condition) => condition.add_parts(found),
            Form::Do(control) => control.add_parts(found),
            Form::Call(_, actuals) => add_all(found, actuals.as_slice()),
            Form::Create(_, actuals) => add_all(found, actuals.as_slice()),
            Form::Purge(targets) => add_all(found, targets.as_slice()),
            Form::Print(items) => add_all(found, items.as_slice()),
            _ => Ok(()),
        }
    }
}

impl HasParts for Statement {
    ghost parts = { rows.parts_of };

    fn add_parts<'a>(&'a self, found: &mut Vec<Part<'a>>) -> Result<(), AllocError> {
        add_all(found, self.conditions.as_slice())?;
        self.form.add_parts(found)
    }
}

// The parts of a statement, in the order of its text.
pub(crate) fn parts_of(alloc: Global, statement: &Statement) -> Result<Vec<Part<'_>>, AllocError>
    ensures { IfOk result (λ parts. map rows.part parts.items ≡ rows.parts_of statement.now) }
{
    let mut found = Vec::new(alloc);
    statement.add_parts(&mut found)?;
    Ok(found)
}

// The parts of the targets of DATA, in the order of the text.
pub(crate) fn parts_of_targets(
    alloc: Global,
    groups: &[DataGroup],
) -> Result<Vec<Part<'_>>, AllocError>
    ensures { IfOk result (λ parts. map rows.part parts.items ≡ flat_map rows.parts_in_target (targets_of_groups groups.now)) }
{
    let mut found = Vec::new(alloc);
    for group in groups {
        add_all(&mut found, group.targets.as_slice())?;
    }
    Ok(found)
}
