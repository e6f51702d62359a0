//! The unit's own names for what its process waits for.
ghost use Rattle.std.specs.Prelude.{◌≡◌, ◌<◌, IfOk, IsSome, Some, length, option_map};
ghost use Rattle.hep_replay.specs.CoreValues.{state_of};
ghost use Rattle.hep_machine.specs.Words.{Name as SourceName, spelling, unit_at, wanted_by};
ghost use Rattle.hep_why.specs.WaitNames.{called_by};
ghost use Rattle.hep_event.specs.Sites.{IsVariableOf};
ghost use Rattle.hep_event.specs.Variables.{AreVariablesOf};

use hep_base::Text;
use hep_code::Variable;
use hep_event::site_laws::accesses_name_variables;
use hep_event::{Variables, append_reference, coming_of, named};
use hep_image::Image;
use hep_replay::Core;
use std::alloc::{AllocError, Global};

// The name that a unit has for a variable. Each variable of its code has one.
fn name_of<'a>(
    image: &'a Image,
    variables: &Variables,
    unit: u32,
    variable: Variable,
) -> Option<&'a [u8]>
    requires variables { AreVariablesOf image.now variables.now }
    requires unit { unit < length image.now }
    ensures { (x : SourceName) → IsVariableOf image.now (unit_at image.now unit) x variable
        → option_map (λ name. name.now) result ≡ Some (spelling x) }
{
    let Some(number) = variables.number_of(image, unit as usize, variable) else {
        return None;
    };
    image.name(number)
}

/// The name that the unit of process p has for what the process waits for.
///
/// # Errors
///
/// Only where memory was refused.
pub(crate) fn called(
    alloc: Global,
    core: &Core,
    variables: &Variables,
    p: u64,
) -> Result<Text, AllocError>
    requires variables { AreVariablesOf core.now.core.program variables.now }
    requires waits { IsSome (wanted_by core.now.core.program p (state_of core.now.core)) }
    ensures { IfOk result (λ text. text ≡ called_by core.now.core.program (state_of core.now.core) p) }
{
    accesses_name_variables();
    let image = core.image();
    image.is_runnable();
    let mut text = Vec::new(alloc);
    let Some(place) = core.whereabouts(p) else {
        return Ok(Text::from(text));
    };
    let coming = coming_of(alloc, core.machine(), image, p)?;
    let Some((variable, subscripts)) = named(coming.operation, &coming.operands) else {
        return Ok(Text::from(text));
    };
    if let Some(name) = name_of(image, variables, place.unit, variable) {
        append_reference(&mut text, name, subscripts)?;
    }
    Ok(Text::from(text))
}
