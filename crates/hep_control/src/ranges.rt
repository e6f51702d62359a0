//! The DO ranges of a unit (X3.9-1978, 11.10.1).
ghost use Rattle.std.specs.Prelude.{◌≡◌, IfOk, OnOk, map, ◌++◌, option_to_list};
ghost use Rattle.std.specs.Option.{option_map};
ghost use Rattle.hep_conditions.specs.Nesting as nesting;
ghost use Rattle.hep_control.specs.Ranges as spec;
ghost use Rattle.hep_control.specs.Ranges.{do_range};

use crate::labels::Labels;
use crate::region::DoRange;
use hep_source::{Form, Statement};
use std::alloc::{AllocError, Global};

/// The ranges of the DOs of a unit whose terminal statements follow them, in order.
pub(crate) fn ranges_of(alloc: Global, labels: &Labels) -> Result<Vec<DoRange>, AllocError>
    ensures { IfOk result (λ ranges. map do_range ranges.items ≡ nesting.ranges_of labels.now) }
{
    let mut ranges = Vec::new(alloc);
    for (index, statement) in labels.unit().iter().enumerate() {
        append(&mut ranges, range_at(labels, index, statement))?;
    }
    Ok(ranges)
}

fn append(ranges: &mut Vec<DoRange>, range: Option<DoRange>) -> Result<(), AllocError>
    ensures { OnOk result (map do_range ranges.new.items ≡ map do_range ranges.old.items ++ option_to_list (option_map do_range range)) }
{
    if let Some(range) = range {
        ranges.push(range)?;
    }
    Ok(())
}

// The range of a statement, if it is a DO with a range. A DO within a logical IF has no range.
fn range_at(labels: &Labels, index: usize, statement: &Statement) -> Option<DoRange>
    ensures { option_to_list (option_map do_range result)
        ≡ spec.range_at labels.now (record { index = index; statement = statement.now }) }
{
    if !statement.conditions.as_slice().is_empty() {
        return None;
    }
    match &statement.form {
        Form::Do(control) => {
            let terminal = labels.index_labelled(control.terminal)?;
            prove!(terminal < labels.unit().len());
            if index < terminal {
                Some(DoRange {
                    start: index,
                    terminal,
                    variable: control.variable.name,
                })
            } else {
                None
            }
        }
        _ => None,
    }
}
