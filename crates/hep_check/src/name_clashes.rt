//! The names that violate 309, by the lines at which they are reported (X3.9-1978, 18.1 and 18.2).
ghost use Rattle.std.specs.Prelude.{◌≡◌, ℕ, find, nat_eq, IfOk, OnOk};
ghost use Rattle.std.specs.Option.{option_or};
ghost use Rattle.indexmap.specs.IndexMap.{get};
ghost use Rattle.hep_types.specs.Ambiguities.{ambiguities};
ghost use Rattle.hep_check.specs.NameClashes as words;

use hep_names::occurrences::occurrences;
use hep_names::{ProgramSymbols, Symbols};
use hep_source::{Form, Name, Occurrence, Statement};
use hep_types::{Ambiguity, ambiguities};
use indexmap::IndexMap;
use std::alloc::{AllocError, Global};
use std::marker::Model;

/// The names of a program that denote two things or are declared twice, by the lines at which they are reported. Contracts
/// see the program.
pub struct NameClashes<'a> {
    program: &'a ProgramSymbols<'a>,
    names: NamesByLine,
}

// Names by lines.
struct NamesByLine {
    map: IndexMap<u32, Name>,
}

// This is written out so that the proof of a caller has one call of it at each exit.
impl Drop for NamesByLine {
    fn drop(self) {
        let NamesByLine { map } = self;
    }
}

impl<'a> Drop for NameClashes<'a> {
    fn drop(self) {
        let NameClashes { program, names } = self;
    }
}

impl<'a> Model for NameClashes<'a> {
    ghost use Rattle.std.specs.Prelude.{◌≡◌, ℕ, nat_eq, List};
    ghost use Rattle.indexmap.specs.IndexMap.{get};
    ghost use Rattle.hep_source.specs.declared.statement.Statement.{Statement};
    ghost use Rattle.hep_check.specs.NameClashes.{name_at};
    ghost use Rattle.hep_types.specs.Ambiguities.{ambiguities};
    ghost use Rattle.std.specs.Coded.{codes};
    ghost use Rattle.hep_source.specs.contracts.expression.Expr as expression;

    ghost Value = { List (List Statement) };

    ghost coded = { Prim.hlevel (codes, expression.the_row.coded) };

    ghost view = { λ s. s.program.now };

    ghost invariant = { λ s. (line : ℕ) → get nat_eq s.names.map line ≡ name_at line (ambiguities s.program.now) };
}

// Records the name of a line, unless the line has one.
fn note(names: &mut IndexMap<u32, Name>, line: u32, name: Name) -> Result<(), AllocError>
    ensures { OnOk result ((k : ℕ) → get nat_eq names.new k ≡ words.noted (get nat_eq names.old k) (nat_eq line k) name) }
{
    names.entry(line)?.or_insert(name);
    Ok(())
}

fn note_ambiguity(names: &mut IndexMap<u32, Name>, ambiguity: &Ambiguity) -> Result<(), AllocError>
    ensures { OnOk result ((k : ℕ) → get nat_eq names.new k ≡ option_or (get nat_eq names.old k) (words.named_at k ambiguity.now)) }
{
    match ambiguity.name {
        Some(name) => note(names, ambiguity.line, name),
        None => Ok(()),
    }
}

impl<'a> NameClashes<'a> {
    /// Finds the ambiguous names of a program.
    ///
    /// # Errors
    ///
    /// Only where memory was refused.
    pub fn new(
        alloc: Global,
        program: &'a ProgramSymbols<'a>,
    ) -> Result<NameClashes<'a>, AllocError>
        ensures { IfOk result (λ faults. faults ≡ program.now) }
    {
        let found = ambiguities(alloc, program)?;
        let mut names = NamesByLine {
            map: IndexMap::new(alloc),
        };
        for ambiguity in &found {
            note_ambiguity(&mut names.map, ambiguity)?;
        }
        Ok(NameClashes { program, names })
    }

    /// The program.
    pub fn program(&self) -> &'a ProgramSymbols<'a>
        ensures { result.now ≡ self.now }
    {
        self.program
    }

    /// The name of the first ambiguity at a line that has a name.
    pub(crate) fn name_at(&self, line: u32) -> Option<Name>
        ensures { result ≡ words.name_at line (ambiguities self.now) }
    {
        self.names.map.get(&line).copied()
    }
}

// The first of these occurrences with this name.
fn first_named(occurrences: &[Occurrence], name: &Name) -> Option<Occurrence>
    ensures { result ≡ find (words.is_named name.now) occurrences.now }
{
    for occurrence in occurrences {
        if occurrence.name == *name {
            return Some(*occurrence);
        }
    }
    None
}

// The unit that a statement calls, creates or begins, if it has this name.
fn unit_named(form: &Form, name: &Name) -> Option<Occurrence>
    ensures { result ≡ words.unit_named name.now form.now }
{
    match form {
        Form::Call(occurrence, _)
        | Form::Create(occurrence, _)
        | Form::Program(occurrence)
        | Form::Subroutine(occurrence, _)
        | Form::Function(_, occurrence, _) => first_named(&[*occurrence], name),
        _ => None,
    }
}

// The occurrence of a name in a statement: as the name of a unit, or else of a variable or constant, or else at position 0.
fn place_of(
    alloc: Global,
    symbols: &Symbols,
    statement: &Statement,
    name: Name,
) -> Result<Occurrence, AllocError>
    ensures { IfOk result (λ place. place ≡ words.place_of symbols.now statement.now name) }
{
    let found = occurrences(alloc, symbols, statement)?;
    Ok(match unit_named(&statement.form, &name) {
        Some(occurrence) => occurrence,
        None => match first_named(&found, &name) {
            Some(occurrence) => occurrence,
            None => Occurrence { name, position: 0 },
        },
    })
}

/// The name in a statement that denotes two things or is declared twice, if 309 is reported at its line.
///
/// # Errors
///
/// Only where memory was refused.
pub(crate) fn ambiguous_name(
    alloc: Global,
    faults: &NameClashes,
    symbols: &Symbols,
    statement: &Statement,
) -> Result<Option<Occurrence>, AllocError>
    ensures { IfOk result (λ found. found ≡ words.ambiguous_name faults.now symbols.now statement.now) }
{
    match faults.name_at(statement.line) {
        Some(name) => Ok(Some(place_of(alloc, symbols, statement, name)?)),
        None => Ok(None),
    }
}
