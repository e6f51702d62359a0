//! The symbol tables of a program, and its subroutines and functions.
ghost use Rattle.std.specs.Prelude.{◌≡◌, IfOk, OnOk};
ghost use Rattle.std.specs.Option.{option_or, option_map, option_copied};
ghost use Rattle.indexmap.specs.IndexMap.{get};
ghost use Rattle.hep_source.specs.Units as units;
ghost use Rattle.hep_names.specs.Tables as tables;
ghost use Rattle.hep_machine.specs.Words.{name_eq, Name as PureName};

use crate::symbols::Symbols;
use crate::table::{Table, note};
use hep_source::{Form, Name, Statement, Unit, function_name};
use indexmap::IndexMap;
use std::alloc::{AllocError, Global};
use std::marker::Model;

/// The symbol tables of all units of a program, and tables of its subroutines and functions. Contracts see the
/// units.
pub struct ProgramSymbols<'a> {
    units: Vec<Symbols<'a>>,
    subroutines: Table<usize>,
    functions: Table<usize>,
}

impl<'a> Drop for ProgramSymbols<'a> {
    fn drop(self) {
        let ProgramSymbols {
            units,
            subroutines,
            functions,
        } = self;
    }
}

impl<'a> Model for ProgramSymbols<'a> {
    ghost use Rattle.std.specs.Prelude.{List};
    ghost use Rattle.std.specs.Coded.{codes};
    ghost use Rattle.indexmap.specs.IndexMap.{get};
    ghost use Rattle.hep_source.specs.declared.statement.Statement.{Statement as PureStatement};
    ghost use Rattle.hep_source.specs.contracts.expression.Expr as expression;
    ghost use Rattle.hep_source.specs.Names.{name_eq};
    ghost use Rattle.hep_names.specs.Tables.{Numbers};

    ghost Value = { List (List PureStatement) };

    ghost coded = { Prim.hlevel (codes, expression.the_row.coded) };

    ghost view = { λ a. a.units.items };

    ghost invariant = { λ a. Numbers a.units.items (get name_eq a.subroutines.map) (get name_eq a.functions.map) };
}

// The name of a subroutine; none for another unit.
fn subroutine_name(unit: &[Statement]) -> Option<Name>
    ensures { result ≡ units.subroutine_name unit.now }
{
    match unit.first() {
        Some(
            Statement {
                form: Form::Subroutine(occurrence, _),
                ..
            },
        ) => Some(occurrence.name),
        _ => None,
    }
}

fn note_unit(
    numbers: &mut IndexMap<Name, usize>,
    name: Option<Name>,
    number: usize,
) -> Result<(), AllocError>
    ensures { OnOk result ((x : PureName) → get name_eq numbers.new x
        ≡ option_or (get name_eq numbers.old x) (tables.given (units.is_named name x) number)) }
{
    if let Some(name) = name {
        note(numbers, name, number)?;
    }
    Ok(())
}

// The index of the first subroutine with each name.
fn subroutines(alloc: Global, program: &[Symbols]) -> Result<Table<usize>, AllocError>
    ensures { IfOk result (λ table. (x : PureName)
        → get name_eq table.map x ≡ tables.called_from units.subroutine_name 0 x program.now) }
{
    let mut numbers = Table {
        map: IndexMap::with_capacity(alloc, program.len())?,
    };
    for (number, unit) in program.iter().enumerate() {
        note_unit(&mut numbers.map, subroutine_name(unit.statements()), number)?;
    }
    Ok(numbers)
}

// The index of the first function with each name.
fn functions(alloc: Global, program: &[Symbols]) -> Result<Table<usize>, AllocError>
    ensures { IfOk result (λ table. (x : PureName)
        → get name_eq table.map x ≡ tables.called_from units.function_name 0 x program.now) }
{
    let mut numbers = Table {
        map: IndexMap::new(alloc),
    };
    for (number, unit) in program.iter().enumerate() {
        note_unit(&mut numbers.map, function_name(unit.statements()), number)?;
    }
    Ok(numbers)
}

fn tables_of<'a>(alloc: Global, program: &'a [Unit]) -> Result<Vec<Symbols<'a>>, AllocError>
    ensures { IfOk result (λ tables. tables.items ≡ program.now) }
{
    let mut tables = Vec::with_capacity(alloc, program.len())?;
    for unit in program {
        tables.push(Symbols::new(alloc, unit.as_slice())?)?;
    }
    Ok(tables)
}

impl<'a> ProgramSymbols<'a> {
    /// Makes the symbol tables of these units.
    ///
    /// # Errors
    ///
    /// Only where memory was refused.
    pub fn new(alloc: Global, program: &'a [Unit]) -> Result<ProgramSymbols<'a>, AllocError>
        ensures { IfOk result (λ symbols. symbols ≡ program.now) }
    {
        let units = tables_of(alloc, program)?;
        let subroutines = subroutines(alloc, &units)?;
        let functions = functions(alloc, &units)?;
        Ok(ProgramSymbols {
            units,
            subroutines,
            functions,
        })
    }

    /// The tables of the units, in the order of the source.
    pub fn units(&self) -> &[Symbols<'a>]
        ensures { result.now ≡ self.now }
    {
        &self.units
    }

    /// The index of the first subroutine with a name, counted from 0.
    pub fn subroutine_called(&self, name: &Name) -> Option<usize>
        ensures { result ≡ units.subroutine_called self.now name.now }
    {
        self.subroutines.map.get(name).copied()
    }

    /// The symbol table of the first subroutine with a name.
    pub fn called(&self, name: &Name) -> Option<&Symbols<'a>>
        ensures { option_copied result ≡ option_map (units.unit_at self.now) (units.subroutine_called self.now name.now) }
    {
        match self.subroutine_called(name) {
            Some(number) => self.units.get(number),
            None => None,
        }
    }

    /// The index of the first function with a name, counted from 0.
    pub fn function_called(&self, name: &Name) -> Option<usize>
        ensures { result ≡ units.function_called self.now name.now }
    {
        self.functions.map.get(name).copied()
    }

    /// The symbol table of the first function with a name.
    pub fn function(&self, name: &Name) -> Option<&Symbols<'a>>
        ensures { option_copied result ≡ option_map (units.unit_at self.now) (units.function_called self.now name.now) }
    {
        match self.function_called(name) {
            Some(number) => self.units.get(number),
            None => None,
        }
    }
}
