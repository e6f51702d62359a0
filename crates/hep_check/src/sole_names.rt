//! The only name or block of a statement, which is then the part at fault.
ghost use Rattle.std.specs.Prelude.{◌≡◌};
ghost use Rattle.hep_check.specs.SoleNames as words;

use crate::culprit::Culprit;
use hep_names::specification::block_of;
use hep_source::{
    CommonBlock, DataGroup, Declarator, Form, NamedConstant, Occurrence, Statement, Target,
};

// The only one of these blocks, if there is a single one.
fn lone_of_blocks(blocks: &[CommonBlock]) -> Option<Culprit>
    ensures { result ≡ words.lone_of_blocks blocks.now }
{
    match blocks {
        [block] => Some(Culprit::Block(block_of(block))),
        _ => None,
    }
}

/// The common block that a statement names, if there is a single one.
pub(crate) fn lone_block(form: &Form) -> Option<Culprit>
    ensures { result ≡ words.lone_block form.now }
{
    match form {
        Form::Common(blocks) => lone_of_blocks(blocks.as_slice()),
        _ => None,
    }
}

// The only one of these names, if there is a single one.
fn lone_of_targets(targets: &[Target]) -> Option<Occurrence>
    ensures { result ≡ words.lone_of_targets targets.now }
{
    match targets {
        [target] => Some(target.occurrence),
        _ => None,
    }
}

// The only name of the only one of these groups, if there is a single one.
fn lone_of_groups(groups: &[DataGroup]) -> Option<Occurrence>
    ensures { result ≡ words.lone_of_groups groups.now }
{
    match groups {
        [group] => lone_of_targets(group.targets.as_slice()),
        _ => None,
    }
}

/// The name to which DATA gives values, if there is a single one.
pub(crate) fn lone_target(form: &Form) -> Option<Occurrence>
    ensures { result ≡ words.lone_target form.now }
{
    match form {
        Form::Data(groups) => lone_of_groups(groups.as_slice()),
        _ => None,
    }
}

// The only one of these constants, if there is a single one.
fn lone_of_constants(constants: &[NamedConstant]) -> Option<Occurrence>
    ensures { result ≡ words.lone_of_constants constants.now }
{
    match constants {
        [constant] => Some(constant.occurrence),
        _ => None,
    }
}

// The only one of these declarators, if there is a single one.
fn lone_of_declarators(declarators: &[Declarator]) -> Option<Occurrence>
    ensures { result ≡ words.lone_of_declarators declarators.now }
{
    match declarators {
        [declarator] => Some(declarator.occurrence),
        _ => None,
    }
}

/// The name in a specification or DATA statement, if there is a single one.
pub(crate) fn lone_declared(form: &Form) -> Option<Occurrence>
    ensures { result ≡ words.lone_declared form.now }
{
    match form {
        Form::Parameter(constants) => lone_of_constants(constants.as_slice()),
        Form::Dimension(declarators) | Form::Declare(_, declarators) => {
            lone_of_declarators(declarators.as_slice())
        }
        Form::Data(groups) => lone_of_groups(groups.as_slice()),
        _ => None,
    }
}

/// The name in the header of a unit.
pub(crate) fn unit_header(statements: &[Statement]) -> Option<Occurrence>
    ensures { result ≡ words.unit_header statements.now }
{
    match statements.first() {
        Some(statement) => header_name(&statement.form),
        None => None,
    }
}

fn header_name(form: &Form) -> Option<Occurrence>
    ensures { result ≡ words.header_name form.now }
{
    match form {
        Form::Program(occurrence)
        | Form::Subroutine(occurrence, _)
        | Form::Function(_, occurrence, _) => Some(Occurrence {
            name: occurrence.name,
            position: 0,
        }),
        _ => None,
    }
}
