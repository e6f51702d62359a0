//! The lines of violations that are about several statements or units: 305 to 309 and 311.
ghost use Rattle.std.specs.Prelude.{◌≡◌, ◌||◌, ℕ, Some, nat_eq, IfOk, OnOk};
ghost use Rattle.std.specs.List.{list_any};
ghost use Rattle.indexmap.specs.IndexSet.{contains};
ghost use Rattle.hep_conditions.specs.Words.{common_violations, data_violations, function_types, jump_violations, label_violations, least_line_of, name_violations, reported, structure_violations};
ghost use Rattle.hep_types.specs.declared.all_ambiguities.Ambiguity.{Ambiguity as PureAmbiguity};
ghost use Rattle.hep_check.specs.ViolationLines.{is_in};
ghost use Rattle.hep_check.specs.AllViolations.{has_line};

use hep_conditions::Violation;
use hep_conditions::reported::{lesser, reported};
use hep_control::{Labels, jump_lines, label_lines, structure_lines};
use hep_names::{ProgramSymbols, Symbols};
use hep_storage::{common_lines, data_lines};
use hep_types::{Ambiguity, ambiguities, loop_variables};
use indexmap::IndexSet;
use std::alloc::{AllocError, Global};

/// A set of lines.
pub(crate) struct LineSet {
    lines: IndexSet<u32>,
}

impl Drop for LineSet {
    fn drop(self) {
        let LineSet { lines } = self;
    }
}

// Adds a line to a set.
fn add(lines: &mut IndexSet<u32>, line: u32) -> Result<(), AllocError>
    ensures { OnOk result ((k : ℕ) → contains nat_eq lines.new k ≡ (contains nat_eq lines.old k || nat_eq line k)) }
{
    lines.insert(line)?;
    Ok(())
}

impl LineSet {
    // The set of these lines.
    fn new(alloc: Global, found: &[u32]) -> Result<LineSet, AllocError>
        ensures { IfOk result (λ set. (line : ℕ) → is_in set line ≡ list_any (λ k. nat_eq k line) found.now) }
    {
        let mut lines = IndexSet::new(alloc);
        for line in found {
            add(&mut lines, *line)?;
        }
        Ok(LineSet { lines })
    }

    // The set of the lines of these ambiguities.
    fn of_ambiguities(alloc: Global, found: &[Ambiguity]) -> Result<LineSet, AllocError>
        ensures { IfOk result (λ set. (line : ℕ) → is_in set line
            ≡ list_any (λ (a : PureAmbiguity). nat_eq a.line line) found.now) }
    {
        let mut lines = IndexSet::new(alloc);
        for ambiguity in found {
            add(&mut lines, ambiguity.line)?;
        }
        Ok(LineSet { lines })
    }

    /// Whether a line is in the set.
    pub(crate) fn has(&self, line: u32) -> bool
        ensures { result ≡ is_in self.now line }
    {
        self.lines.contains(&line)
    }

    /// The violation of the condition with this number at the least line of the set.
    pub(crate) fn first(&self, number: u16) -> Option<Violation>
        ensures { result ≡ reported number (least_line_of (λ (line : ℕ). Some line) self.now.lines.keys) }
    {
        let mut least = None;
        for line in self.lines.as_slice() {
            least = lesser(least, Some(*line));
        }
        reported(number, least)
    }
}

/// The lines of a program at which 305 and 309 are violated.
pub(crate) struct ProgramLines {
    pub(crate) common: LineSet,
    pub(crate) names: LineSet,
}

impl Drop for ProgramLines {
    fn drop(self) {
        let ProgramLines { common, names } = self;
    }
}

fn lines_of_common(alloc: Global, program: &ProgramSymbols) -> Result<LineSet, AllocError>
    ensures { IfOk result (λ lines. (line : ℕ) → is_in lines line ≡ has_line (common_violations program.now) line) }
{
    let found = common_lines(alloc, program)?;
    let set = LineSet::new(alloc, &found)?;
    Ok(set)
}

fn lines_of_names(alloc: Global, program: &ProgramSymbols) -> Result<LineSet, AllocError>
    ensures { IfOk result (λ lines. (line : ℕ) → is_in lines line ≡ has_line (name_violations program.now) line) }
{
    let found = ambiguities(alloc, program)?;
    let set = LineSet::of_ambiguities(alloc, &found)?;
    Ok(set)
}

impl ProgramLines {
    /// Finds these lines in a program.
    pub(crate) fn new(alloc: Global, program: &ProgramSymbols) -> Result<ProgramLines, AllocError>
        ensures common { IfOk result (λ lines. (line : ℕ) → is_in lines.common line ≡ has_line (common_violations program.now) line) }
        ensures names { IfOk result (λ lines. (line : ℕ) → is_in lines.names line ≡ has_line (name_violations program.now) line) }
    {
        Ok(ProgramLines {
            common: lines_of_common(alloc, program)?,
            names: lines_of_names(alloc, program)?,
        })
    }
}

/// The lines of a unit at which 306, 307, 308 and 311 are violated.
pub(crate) struct UnitLines {
    pub(crate) labels: LineSet,
    pub(crate) structure: LineSet,
    pub(crate) jumps: LineSet,
    pub(crate) values: LineSet,
}

impl Drop for UnitLines {
    fn drop(self) {
        let UnitLines {
            labels,
            structure,
            jumps,
            values,
        } = self;
    }
}

fn lines_of_labels(alloc: Global, labels: &Labels) -> Result<LineSet, AllocError>
    ensures { IfOk result (λ lines. (line : ℕ) → is_in lines line ≡ has_line (label_violations labels.now) line) }
{
    let found = label_lines(alloc, labels)?;
    let set = LineSet::new(alloc, &found)?;
    Ok(set)
}

fn lines_of_structure(
    alloc: Global,
    program: &ProgramSymbols,
    symbols: &Symbols,
    labels: &Labels,
) -> Result<LineSet, AllocError>
    requires { labels.now ≡ symbols.now }
    ensures { IfOk result (λ lines. (line : ℕ) → is_in lines line
        ≡ has_line (structure_violations (function_types program.now) symbols.now) line) }
{
    let variables = loop_variables(alloc, program, symbols)?;
    let found = structure_lines(alloc, labels, &variables)?;
    let set = LineSet::new(alloc, &found)?;
    Ok(set)
}

fn lines_of_jumps(alloc: Global, labels: &Labels) -> Result<LineSet, AllocError>
    ensures { IfOk result (λ lines. (line : ℕ) → is_in lines line ≡ has_line (jump_violations labels.now) line) }
{
    let found = jump_lines(alloc, labels)?;
    let set = LineSet::new(alloc, &found)?;
    Ok(set)
}

fn lines_of_data(alloc: Global, symbols: &Symbols) -> Result<LineSet, AllocError>
    ensures { IfOk result (λ lines. (line : ℕ) → is_in lines line ≡ has_line (data_violations symbols.now) line) }
{
    let found = data_lines(alloc, symbols)?;
    let set = LineSet::new(alloc, &found)?;
    Ok(set)
}

impl UnitLines {
    /// Finds these lines in a unit of a program.
    pub(crate) fn new(
        alloc: Global,
        program: &ProgramSymbols,
        symbols: &Symbols,
    ) -> Result<UnitLines, AllocError>
        ensures labels { IfOk result (λ lines. (line : ℕ) → is_in lines.labels line ≡ has_line (label_violations symbols.now) line) }
        ensures structure { IfOk result (λ lines. (line : ℕ) → is_in lines.structure line
            ≡ has_line (structure_violations (function_types program.now) symbols.now) line) }
        ensures jumps { IfOk result (λ lines. (line : ℕ) → is_in lines.jumps line ≡ has_line (jump_violations symbols.now) line) }
        ensures values { IfOk result (λ lines. (line : ℕ) → is_in lines.values line ≡ has_line (data_violations symbols.now) line) }
    {
        let table = Labels::new(alloc, symbols.statements())?;
        let labels = lines_of_labels(alloc, &table)?;
        let structure = lines_of_structure(alloc, program, symbols, &table)?;
        let jumps = lines_of_jumps(alloc, &table)?;
        let values = lines_of_data(alloc, symbols)?;
        Ok(UnitLines {
            labels,
            structure,
            jumps,
            values,
        })
    }
}
