//! PRINT (X3.9-1978, 12.8).
ghost use Rattle.std.specs.Prelude.{◌≡◌, ◌≤◌, [], IfOk, OnOk, OnErr, option_map, take, vec_capacity};
ghost use Rattle.hep_machine.specs.Evaluation as evaluation;
ghost use Rattle.hep_code.specs.Words.{items_from};
ghost use Rattle.hep_step.specs.declared.effect.Effect.TheVariants.{Printed as PrintedEffect};
ghost use Rattle.hep_step.specs.Items.{item_ahead as item_read, items_in};

use crate::activation_state::ActivationState;
use crate::control_transfer::go_on;
use crate::effect::Effect;
use hep_code::{Duplicate, Instruction, Printed};
use hep_machine::{Item, Record};
use hep_source::Value;
use std::alloc::{AllocError, Global};

// A value as an item.
fn item_of(value: Value) -> Item
    ensures { result ≡ evaluation.item_of value }
{
    match value {
        Value::Int(integer) => Item::Int(integer),
        Value::Truth(truth) => Item::Truth(truth),
    }
}

// The item of an entry, if it has one, and the operands after its own.
fn item_ahead<'a>(
    alloc: Global,
    entry: &Instruction,
    operands: &'a [Value],
) -> Result<Option<(Item, &'a [Value])>, AllocError>
    ensures { IfOk result (λ ahead. option_map (λ pair. (pair.0, pair.1.now)) ahead ≡ item_read entry.now operands.now) }
{
    match entry {
        Instruction::Show(Printed::Operand) => match operands {
            [value, behind @ ..] => Ok(Some((item_of(*value), behind))),
            [] => Ok(None),
        },
        Instruction::Show(Printed::Characters(text)) => {
            Ok(Some((Item::Text(text.as_text().copy(alloc)?), operands)))
        }
        _ => Ok(None),
    }
}

// The first `count` entries.
fn first_of(entries: &[Instruction], count: u32) -> &[Instruction]
    ensures { result.now ≡ take count entries.now }
{
    &entries[..entries.len().min(count as usize)]
}

// The items of these entries.
fn items_of(
    alloc: Global,
    entries: &[Instruction],
    operands: &[Value],
) -> Result<Record, AllocError>
    ensures { IfOk result (λ items. items ≡ items_in entries.now operands.now) }
{
    let mut items = Vec::new(alloc);
    let mut rest = operands;
    for entry in entries {
        let Some((item, behind)) = item_ahead(alloc, entry, rest)? else {
            break;
        };
        items.push(item)?;
        rest = behind;
    }
    Ok(Record::from(items))
}

/// Makes a PRINT, whose items the `count` entries after it give. The activation goes on at index `next`.
///
/// # Errors
///
/// Only where memory was refused; nothing has changed then.
#[tactic(auto, using(crate::proofs::Items::items_taken))]
pub(crate) fn print(
    alloc: Global,
    count: u32,
    next: u32,
    entries: &[Instruction],
    standing: &mut ActivationState,
) -> Result<Effect, AllocError>
    ensures record_is { IfOk result (λ effect. effect ≡ PrintedEffect (items_from count entries.now standing.old.operands.items)) }
    ensures operands { OnOk result (standing.new.operands.items ≡ []) }
    ensures index { OnOk result (standing.new.index ≡ next) }
    ensures operands_stay { OnErr result (standing.new.operands.items ≡ standing.old.operands.items) }
    ensures index_stays { OnErr result (standing.new.index ≡ standing.old.index) }
    ensures capacity { vec_capacity standing.old.operands ≤ vec_capacity standing.new.operands }
{
    let items = items_of(alloc, first_of(entries, count), &standing.operands)?;
    go_on(standing, next as usize);
    Ok(Effect::Printed(items))
}
