//! The DOs that end at each statement (X3.9-1978, 11.10).
ghost use Rattle.std.specs.Prelude.{◌≡◌, ◌<◌, ◌≤◌, ◌++◌, ◌∷◌, [], ℕ, length, replicate, slice_get, IfOk};
ghost use Rattle.hep_control.specs.Loops as spec;

use crate::labels::Labels;
use hep_source::{Form, Statement};
use std::alloc::{AllocError, Global};

/// DOs by the statements at which they end.
pub(crate) struct Loops {
    // The innermost DO that ends at each statement, and at the index after the last one.
    pub innermost: Vec<Option<usize>>,
    // For each DO, the DO around it that ends at the same statement.
    pub outer: Vec<Option<usize>>,
}

impl Drop for Loops {
    fn drop(self) {
        let Loops { innermost, outer } = self;
    }
}

/// The DOs of a unit.
pub(crate) fn loops_of(alloc: Global, labels: &Labels) -> Result<Loops, AllocError>
    ensures innermost { IfOk result (λ loops. (k : ℕ) → k ≤ length labels.now
        → slice_get loops.innermost.items k ≡ Some (spec.innermost_loop labels.now k)) }
    ensures outer { IfOk result (λ loops. (d : ℕ) → d < length labels.now
        → slice_get loops.outer.items d ≡ Some (spec.outer_loop labels.now d)) }
{
    let unit = labels.unit();
    let mut innermost = no_loops(alloc, unit.len())?;
    let mut outer = Vec::new(alloc);
    for (index, statement) in unit.iter().enumerate() {
        let terminal = terminal_at(labels, statement);
        outer.push(enter(&mut innermost, index, terminal))?;
    }
    Ok(Loops { innermost, outer })
}

// The table without a DO, for each statement and the index after the last one.
fn no_loops(alloc: Global, count: usize) -> Result<Vec<Option<usize>>, AllocError>
    ensures { IfOk result (λ loops. loops.items ≡ replicate count None ++ None ∷ []) }
{
    let mut loops = vec![in alloc; None; count]?;
    loops.push(None)?;
    Ok(loops)
}

// The index of the terminal statement of a statement that is a DO and isn't within a logical IF.
fn terminal_at(labels: &Labels, statement: &Statement) -> Option<usize>
    ensures { result ≡ spec.terminal_at labels.now statement.now }
{
    if !statement.conditions.as_slice().is_empty() {
        return None;
    }
    match &statement.form {
        Form::Do(control) => Some(labels.index_of_label(control.terminal)),
        _ => None,
    }
}

// Records a DO as the innermost one that ends at its terminal statement. The result is the DO that was the innermost there before.
fn enter(innermost: &mut Vec<Option<usize>>, index: usize, terminal: Option<usize>) -> Option<usize>
    ensures met { result ≡ spec.loop_met innermost.old.items index terminal }
    ensures innermost { innermost.new.items ≡ spec.with_loop innermost.old.items index terminal }
{
    let terminal = terminal?;
    if index < terminal && terminal < innermost.len() {
        let outer = innermost[terminal];
        innermost[terminal] = Some(index);
        outer
    } else {
        None
    }
}
