//! The places of an activation's variables.
ghost use Rattle.std.specs.Prelude.{◌≡◌, ◌-◌, ℕ, List, drop, length, option_map};
ghost use Rattle.hep_layout.specs.Words.{address as addressing};
ghost use Rattle.hep_machine.specs.Words.{Level, Name as SourceName, Process as SourceProcess, location_of_name, run, scope_of, unit_at, unit_of};
ghost use Rattle.hep_step.specs.Effects.{subscripts_in};
ghost use Rattle.hep_event.specs.NamedVariables.{named_by};
ghost use Rattle.hep_event.specs.Sites.{HasValue, IsSite, IsSomeSite, IsVariableOf, LivesAfter};

use hep_code::{Evaluation, Operation, Variable};
use hep_image::Image;
use hep_source::Value;
use hep_step::address;
use hep_views::lookup::place_at;
use hep_views::{CoreState, Place, state_place as place, tops_are_running};

/// The place of a storage unit: its cell of the arena, and its names.
#[derive(Clone, Copy, PartialEq, Eq)]
pub struct Site {
    pub cell: u32,
    pub place: Place,
}

/// The last so many operands.
pub(crate) fn last(operands: &[Value], count: u32) -> &[Value]
    ensures { result.now ≡ drop (length operands.now - count) operands.now }
{
    &operands[operands.len().saturating_sub(count as usize)..]
}

// The operands after the first one.
fn others(operands: &[Value]) -> &[Value]
    ensures { result.now ≡ subscripts_in operands.now }
{
    match operands {
        [] => operands,
        [_, others @ ..] => others,
    }
}

/// The variable that an operation with these operands names, with the subscripts of its element. None where it names none.
pub fn named(operation: Operation, operands: &[Value]) -> Option<(Variable, &[Value])>
    ensures { option_map (λ named. (named.0, named.1.now)) result ≡ named_by operation operands.now }
{
    match operation {
        Operation::Evaluate(
            Evaluation::Load {
                variable,
                subscripts,
            },
        ) => Some((variable, last(operands, subscripts))),
        Operation::Evaluate(
            Evaluation::Test {
                variable,
                subscripts,
                ..
            },
        ) => Some((variable, last(operands, subscripts))),
        Operation::Store { variable, .. } => Some((variable, others(operands))),
        Operation::EnterLoop { variable, .. } => Some((variable, &[])),
        Operation::EndLoop { variable, .. } => Some((variable, &[])),
        Operation::Answer { variable } => Some((variable, &[])),
        _ => None,
    }
}

/// The site of a variable of the top activation of process p, which lives, or of its element with these subscripts.
/// `None` where there is no such element.
///
/// This costs as much as `place_at` of `hep_views`.
pub fn site_of(
    machine: &CoreState,
    image: &Image,
    p: u64,
    variable: Variable,
    subscripts: &[Value],
) -> Option<Site>
    requires { (cells : ℕ) × (choices : List ℕ) × (top : Level × SourceProcess) × LivesAfter image.now cells choices machine.now p top
        × (x : SourceName) × IsVariableOf image.now (unit_at image.now (unit_of (run image.now choices) top.0.activation)) x variable }
    ensures { (cells : ℕ) (choices : List ℕ) (top : Level × SourceProcess) (lives : LivesAfter image.now cells choices machine.now p top)
        (x : SourceName) → IsVariableOf image.now (unit_at image.now (unit_of (run image.now choices) top.0.activation)) x variable
        → IsSite image.now (run image.now choices) (addressing image.now (run image.now choices) lives.after.after.layout) result
        (location_of_name (scope_of image.now (run image.now choices) top.0.activation) x subscripts.now) }
{
    image.is_runnable();
    tops_are_running();
    let process = &machine.processes[machine.place(p)];
    let (unit, frame, _) = place(process, &machine.frames, image);
    let key = process.top().key;
    let arena = &machine.frames.arena;
    match address(arena, frame, unit.arrays.as_slice(), variable, subscripts) {
        Ok(cell) => Some(Site {
            cell,
            place: place_at(machine, image, key, cell),
        }),
        Err(_) => None,
    }
}

/// The value of a storage unit, if there is one and it has a value.
pub fn value_at(machine: &CoreState, site: Option<Site>) -> Option<Value>
    requires { IsSomeSite machine.now site }
    ensures { HasValue machine.now site result }
{
    match site {
        Some(site) => machine.frames.get(site.cell).value,
        None => None,
    }
}
