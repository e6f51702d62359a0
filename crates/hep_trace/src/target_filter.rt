//! The names of a PURGE's targets.
ghost use Rattle.std.specs.Prelude.{◌≡◌, ℕ, List, drop, length, take};
ghost use Rattle.std.specs.List.{list_any};
ghost use Rattle.hep_machine.specs.Words.{Level, Name as SourceName, Process as SourceProcess, Reference as SourceReference, does, next_of, purging, unit_on_top};
ghost use Rattle.hep_trace.specs.References.{IsAhead, IsEntryOf, top_after};
ghost use Rattle.hep_event.specs.Sites.{IsVariableOf};
ghost use Rattle.hep_event.specs.AccessedNames.{has_name};

use crate::name_filter::goes_by;
use crate::purge_targets::first;
use crate::reference::{LiveProcess, number_of};
use hep_accepted_laws::code::variables_of_the_code_are_placed;
use hep_code::{Argument, Instruction, Variable};
use hep_event::site_of;
use hep_source::Value;
use hep_state::laws::tops_are_running;

/// Whether a variable of the process's unit, or its element with these subscripts, has a name: in the unit, or where
/// it is declared.
pub(crate) fn is_called(
    ahead: &LiveProcess<'_>,
    variable: Variable,
    subscripts: &[Value],
    name: &[u8],
) -> bool
    requires { (cells : ℕ) × (choices : List ℕ) × (top : Level × SourceProcess) × (x : SourceName) × IsAhead cells choices ahead.now top
        × IsVariableOf ahead.now.image.now (unit_on_top ahead.now.image.now (top_after ahead.now.image.now choices ahead.now.process top)) x variable }
    ensures { (cells : ℕ) (choices : List ℕ) (top : Level × SourceProcess) (x : SourceName) → IsAhead cells choices ahead.now top
        → IsVariableOf ahead.now.image.now (unit_on_top ahead.now.image.now (top_after ahead.now.image.now choices ahead.now.process top)) x variable
        → result ≡ has_name ahead.now.image.now (top_after ahead.now.image.now choices ahead.now.process top) name.now (x, subscripts.now) }
{
    ahead.image.is_runnable();
    let Some(number) = number_of(ahead, variable) else {
        return false;
    };
    let site = site_of(
        ahead.machine,
        ahead.image,
        ahead.process,
        variable,
        subscripts,
    );
    goes_by(ahead.image, number, site, name)
}

// The target that an entry of a PURGE passes goes by a name, whose subscripts are the first of these values.
fn is_entry_called(
    ahead: &LiveProcess<'_>,
    entry: &Instruction,
    rest: &[Value],
    name: &[u8],
) -> bool
    requires { (cells : ℕ) × (choices : List ℕ) × (top : Level × SourceProcess) × (x : SourceReference) × IsAhead cells choices ahead.now top
        × IsEntryOf ahead.now choices top entry.now x }
    ensures { (cells : ℕ) (choices : List ℕ) (top : Level × SourceProcess) (x : SourceReference) → IsAhead cells choices ahead.now top
        → IsEntryOf ahead.now choices top entry.now x
        → result ≡ has_name ahead.now.image.now (top_after ahead.now.image.now choices ahead.now.process top) name.now (x.0, take (length x.1) rest.now) }
{
    let Instruction::Pass(argument) = entry else {
        return false;
    };
    let Argument::Referred {
        variable,
        subscripts,
    } = argument
    else {
        return false;
    };
    is_called(ahead, *variable, first(rest, *subscripts), name)
}

// The values after the subscripts of the target that an entry of a PURGE passes.
fn behind<'a>(entry: &Instruction, rest: &'a [Value]) -> &'a [Value]
    ensures { (ahead : LiveProcess) (choices : List ℕ) (top : Level × SourceProcess) (x : SourceReference) → IsEntryOf ahead choices top entry.now x
        → result.now ≡ drop (length x.1) rest.now }
{
    match entry {
        Instruction::Pass(Argument::Referred { subscripts, .. }) => {
            &rest[rest.len().min(*subscripts as usize)..]
        }
        _ => rest,
    }
}

/// Whether one of the `count` targets of a PURGE that comes next of a process has a name.
pub(crate) fn is_target(ahead: &LiveProcess<'_>, count: u32, name: &[u8]) -> bool
    requires { (cells : ℕ) × (choices : List ℕ) × (top : Level × SourceProcess) × (targets : List SourceReference) × IsAhead cells choices ahead.now top
        × (next_of (unit_on_top ahead.now.image.now (top_after ahead.now.image.now choices ahead.now.process top)) top.0.work ≡ does (purging targets))
        × (count ≡ length targets) }
    ensures { (cells : ℕ) (choices : List ℕ) (top : Level × SourceProcess) (targets : List SourceReference) → IsAhead cells choices ahead.now top
        → next_of (unit_on_top ahead.now.image.now (top_after ahead.now.image.now choices ahead.now.process top)) top.0.work ≡ does (purging targets)
        → count ≡ length targets
        → result ≡ list_any (has_name ahead.now.image.now (top_after ahead.now.image.now choices ahead.now.process top) name.now) targets }
{
    ahead.image.is_runnable();
    tops_are_running();
    variables_of_the_code_are_placed();
    let entries = ahead.coming.behind;
    let mut rest: &[Value] = &ahead.coming.operands;
    for entry in &entries[..entries.len().min(count as usize)] {
        if is_entry_called(ahead, entry, rest, name) {
            return true;
        }
        rest = behind(entry, rest);
    }
    false
}
