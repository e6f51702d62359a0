//! The targets of a PURGE, in words.
ghost use Rattle.std.specs.Prelude.{◌≡◌, ◌++◌, ℕ, IfOk, List, OnOk, codes, drop, length, map, take};
ghost use Rattle.hep_machine.specs.Words.{Level, Name as SourceName, Process as SourceProcess, Reference as SourceReference, does, next_of, purging, spelling, unit_on_top};
ghost use Rattle.hep_trace.specs.References.{IsAhead, IsEntryOf, top_after};
ghost use Rattle.hep_event.specs.Sites.{IsVariableOf};
ghost use Rattle.hep_event.specs.StepTexts.{own_reference};
ghost use Rattle.hep_event.specs.LineTexts as lines;

use crate::name_filter::name_with;
use crate::reference::{LiveProcess, number_of};
use hep_accepted_laws::code::variables_of_the_code_are_placed;
use hep_code::{Argument, Instruction, Variable};
use hep_event::append_reference;
use hep_source::Value;
use hep_state::laws::tops_are_running;
use std::alloc::AllocError;

/// The first so many values.
pub(crate) fn first(values: &[Value], count: u32) -> &[Value]
    ensures { result.now ≡ take count values.now }
{
    &values[..values.len().min(count as usize)]
}

// The values after the first `count`.
fn behind(values: &[Value], count: u32) -> &[Value]
    ensures { result.now ≡ drop count values.now }
{
    &values[values.len().min(count as usize)..]
}

// The name that the unit of the top activation has for a variable.
fn name_of<'a>(ahead: &LiveProcess<'a>, variable: Variable) -> &'a [u8]
    requires { (cells : ℕ) × (choices : List ℕ) × (top : Level × SourceProcess) × IsAhead cells choices ahead.now top }
    ensures { (cells : ℕ) (choices : List ℕ) (top : Level × SourceProcess) (x : SourceName) → IsAhead cells choices ahead.now top
        → IsVariableOf ahead.now.image.now (unit_on_top ahead.now.image.now (top_after ahead.now.image.now choices ahead.now.process top)) x variable
        → result.now ≡ spelling x }
{
    ahead.image.is_runnable();
    match number_of(ahead, variable) {
        Some(number) => name_with(ahead.image, number),
        None => b"",
    }
}

// A target after a blank.
fn append_target(text: &mut Vec<u8>, name: &[u8], subscripts: &[Value]) -> Result<(), AllocError>
    ensures { OnOk result (text.new.items ≡ text.old.items ++ (codes " " ++ lines.reference_text name.now subscripts.now)) }
{
    text.extend_from_slice(b" ")?;
    append_reference(text, name, subscripts)?;
    Ok(())
}

// Appends the target that an entry of a PURGE passes. Its subscripts are the first of these values. Returns the
// values after them.
fn append_entry<'a>(
    text: &mut Vec<u8>,
    ahead: &LiveProcess<'_>,
    entry: &Instruction,
    rest: &'a [Value],
) -> Result<&'a [Value], AllocError>
    requires { (cells : ℕ) × (choices : List ℕ) × (top : Level × SourceProcess) × IsAhead cells choices ahead.now top }
    ensures text { OnOk result ((cells : ℕ) (choices : List ℕ) (top : Level × SourceProcess) (x : SourceReference) → IsAhead cells choices ahead.now top
        → IsEntryOf ahead.now choices top entry.now x
        → text.new.items ≡ text.old.items ++ (codes " " ++ lines.reference_text (spelling x.0) (take (length x.1) rest.now))) }
    ensures rest { IfOk result (λ behind. (choices : List ℕ) (top : Level × SourceProcess) (x : SourceReference)
        → IsEntryOf ahead.now choices top entry.now x → behind.now ≡ drop (length x.1) rest.now) }
{
    let Instruction::Pass(argument) = entry else {
        return Ok(rest);
    };
    let Argument::Referred {
        variable,
        subscripts,
    } = argument
    else {
        return Ok(rest);
    };
    append_target(text, name_of(ahead, *variable), first(rest, *subscripts))?;
    Ok(behind(rest, *subscripts))
}

/// Appends the `count` targets of a PURGE that comes next of a process.
///
/// # Errors
///
/// Only where memory was refused.
pub fn append_targets(
    text: &mut Vec<u8>,
    ahead: &LiveProcess<'_>,
    count: u32,
) -> Result<(), AllocError>
    requires { (cells : ℕ) × (choices : List ℕ) × (top : Level × SourceProcess) × (targets : List SourceReference) × IsAhead cells choices ahead.now top
        × (next_of (unit_on_top ahead.now.image.now (top_after ahead.now.image.now choices ahead.now.process top)) top.0.work ≡ does (purging targets))
        × (count ≡ length targets) }
    ensures { OnOk result ((cells : ℕ) (choices : List ℕ) (top : Level × SourceProcess) (targets : List SourceReference) → IsAhead cells choices ahead.now top
        → next_of (unit_on_top ahead.now.image.now (top_after ahead.now.image.now choices ahead.now.process top)) top.0.work ≡ does (purging targets)
        → count ≡ length targets
        → text.new.items ≡ text.old.items ++ lines.references_text (map (own_reference ahead.now.image.now
        (top_after ahead.now.image.now choices ahead.now.process top)) targets)) }
{
    ahead.image.is_runnable();
    tops_are_running();
    variables_of_the_code_are_placed();
    let entries = ahead.coming.behind;
    let mut rest: &[Value] = &ahead.coming.operands;
    for entry in &entries[..entries.len().min(count as usize)] {
        rest = append_entry(text, ahead, entry, rest)?;
    }
    Ok(())
}
