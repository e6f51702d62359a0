//! DO ranges and block IFs that aren't nested (X3.9-1978, 11.10.1).
ghost use Rattle.std.specs.Prelude.{◌≡◌, ◌||◌, ◌++◌, ℕ, Bool, IfOk, OnOk, None, map};
ghost use Rattle.std.specs.List.{flat_map, list_any};
ghost use Rattle.indexmap.specs.IndexMap.{get};
ghost use Rattle.hep_source.specs.declared.name.Name.{Name as PureName};
ghost use Rattle.hep_source.specs.Names as names;
ghost use Rattle.hep_conditions.specs.Nesting as nesting;
ghost use Rattle.hep_conditions.specs.declared.violation.Violation.{Violation as PureViolation};
ghost use Rattle.hep_control.specs.Ranges.{do_range};
ghost use Rattle.hep_control.specs.Nesting as spec;

use crate::blocks::{BlockIf, BlockIfs};
use crate::region::DoRange;
use crate::sweep::{Event, add_met, question, value};
use hep_conditions::reported::{add_line, line_when};
use hep_source::{Name, Statement, line_at};
use indexmap::IndexMap;
use std::alloc::{AllocError, Global};

// Adds the lines of the DOs and block IFs that aren't nested in the ranges and blocks around them.
pub(crate) fn add_crossing(
    lines: &mut Vec<u32>,
    alloc: Global,
    unit: &[Statement],
    ranges: &[DoRange],
    blocks: &BlockIfs,
) -> Result<(), AllocError>
    requires ranges { map do_range ranges.now ≡ nesting.ranges_of unit.now }
    requires blocks { blocks.now ≡ nesting.block_ifs_of unit.now }
    ensures { OnOk result ((test : ℕ → Bool) → list_any test lines.new.items
        ≡ (list_any test lines.old.items || list_any (λ (v : PureViolation). test v.line) (nesting.nesting_violations unit.now))) }
{
    let closed = blocks.closed();
    let crossed = events_of_ranges(alloc, unit, ranges)?;
    add_met(lines, alloc, crossed)?;
    add_shared(lines, alloc, unit, ranges)?;
    let by_block = events_of_blocks(alloc, unit, ranges, closed)?;
    add_met(lines, alloc, by_block)?;
    let by_range = events_in_blocks(alloc, unit, ranges, closed)?;
    add_met(lines, alloc, by_range)?;
    Ok(())
}

// The events of the ranges: each range is a value, and a question whether an earlier range contains its DO and ends before it ends.
fn events_of_ranges(
    alloc: Global,
    unit: &[Statement],
    ranges: &[DoRange],
) -> Result<Vec<Event>, AllocError>
    ensures { IfOk result (λ events. events.items ≡ map spec.value_of_range ranges.now
        ++ map (spec.question_of_range unit.now) ranges.now) }
{
    let mut events = Vec::new(alloc);
    add_ranges(&mut events, ranges)?;
    for range in ranges {
        let (start, terminal) = (range.start, range.terminal);
        events.push(question(start, start, terminal, line_at(unit, start)))?;
    }
    Ok(events)
}

// Adds the values of the ranges: their beginnings and ends.
fn add_ranges(events: &mut Vec<Event>, ranges: &[DoRange]) -> Result<(), AllocError>
    ensures { OnOk result (events.new.items ≡ events.old.items ++ map spec.value_of_range ranges.now) }
{
    for range in ranges {
        events.push(value(range.start, range.terminal))?;
    }
    Ok(())
}

// The events of the ranges and block IFs: each range is a value, and each block IF a question whether a range contains its beginning and
// ends before it ends.
fn events_of_blocks(
    alloc: Global,
    unit: &[Statement],
    ranges: &[DoRange],
    blocks: &[BlockIf],
) -> Result<Vec<Event>, AllocError>
    ensures { IfOk result (λ events. events.items ≡ map spec.value_of_range ranges.now
        ++ map (spec.question_of_block unit.now) blocks.now) }
{
    let mut events = Vec::new(alloc);
    add_ranges(&mut events, ranges)?;
    for block in blocks {
        let (start, end) = (block.start, block.end.unwrap_or(0));
        events.push(question(start, start, end, line_at(unit, start)))?;
    }
    Ok(events)
}

// The events of the blocks and ranges: each end of a block is a value, and each range a question whether a block of an earlier block IF
// ends in it.
fn events_in_blocks(
    alloc: Global,
    unit: &[Statement],
    ranges: &[DoRange],
    blocks: &[BlockIf],
) -> Result<Vec<Event>, AllocError>
    ensures { IfOk result (λ events. events.items ≡ flat_map spec.values_in blocks.now
        ++ map (spec.question_in_range unit.now) ranges.now) }
{
    let mut events = Vec::new(alloc);
    add_all_ends(&mut events, blocks)?;
    for range in ranges {
        let (start, terminal) = (range.start, range.terminal);
        events.push(question(start, start + 1, terminal + 1, line_at(unit, start)))?;
    }
    Ok(events)
}

fn add_all_ends(events: &mut Vec<Event>, blocks: &[BlockIf]) -> Result<(), AllocError>
    ensures { OnOk result (events.new.items ≡ events.old.items ++ flat_map spec.values_in blocks.now) }
{
    for block in blocks {
        add_ends(events, block)?;
    }
    Ok(())
}

// Adds the ends of the blocks of a block IF.
fn add_ends(events: &mut Vec<Event>, block: &BlockIf) -> Result<(), AllocError>
    ensures { OnOk result (events.new.items ≡ events.old.items ++ spec.values_in block.now) }
{
    for division in &block.divisions {
        events.push(value(block.start, *division))?;
    }
    if let Some(end) = block.end {
        events.push(value(block.start, end))?;
    }
    Ok(())
}

// Adds the lines of the DOs in the range of another DO with the same variable.
fn add_shared(
    lines: &mut Vec<u32>,
    alloc: Global,
    unit: &[Statement],
    ranges: &[DoRange],
) -> Result<(), AllocError>
    ensures { OnOk result (lines.new.items ≡ lines.old.items
        ++ spec.lines_shared unit.now (λ x. None) (map do_range ranges.now)) }
{
    let mut last = LastTerminals {
        map: IndexMap::new(alloc),
    };
    for range in ranges {
        let is_reported = is_shared(&mut last.map, range)?;
        add_line(lines, line_when(is_reported, line_at(unit, range.start)))?;
    }
    Ok(())
}

// For each variable, the last terminal statement of its ranges read so far.
struct LastTerminals {
    map: IndexMap<Name, usize>,
}

// This is written out so that the proof of a caller has one call of it at each exit.
impl Drop for LastTerminals {
    fn drop(self) {
        let LastTerminals { map } = self;
    }
}

// Adds a range to those of its variable. The result is whether an earlier range of this variable contains the DO.
fn is_shared(last: &mut IndexMap<Name, usize>, range: &DoRange) -> Result<bool, AllocError>
    ensures shared { IfOk result (λ it. it ≡ spec.reaches (get names.name_eq last.old range.now.variable) range.now.start) }
    ensures met { OnOk result ((x : PureName) → get names.name_eq last.new x
        ≡ spec.with_range (get names.name_eq last.old) (do_range range.now) x) }
{
    let before = last.get(&range.variable).copied();
    last.insert(range.variable, later(before, range.terminal))?;
    Ok(reaches(before, range.start))
}

// The later of two terminal statements, where there is an earlier one.
fn later(before: Option<usize>, terminal: usize) -> usize
    ensures { result ≡ spec.later before terminal }
{
    match before {
        Some(before) => before.max(terminal),
        None => terminal,
    }
}

fn reaches(terminal: Option<usize>, index: usize) -> bool
    ensures { result ≡ spec.reaches terminal index }
{
    match terminal {
        Some(terminal) => index <= terminal,
        None => false,
    }
}
