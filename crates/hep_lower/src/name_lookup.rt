//! The names of a unit.
ghost use Rattle.std.specs.Prelude.{◌≡◌};
ghost use Rattle.hep_names.specs.Meanings.{meaning};
ghost use Rattle.hep_lower.specs.Names as spec;
ghost use Rattle.hep_lower.specs.Names.{names_in};

use hep_code::{Placement, Variable};
use hep_names::{Meaning, ProgramSymbols, Symbols};
use hep_source::{Name, Value};

/// The tables of a unit by which its names are looked up.
#[derive(Clone, Copy)]
pub struct NameLookup<'a> {
    pub symbols: &'a Symbols<'a>,
    pub places: &'a Placement,
    /// The units of the program, which the unit may call and refer to.
    pub program: &'a ProgramSymbols<'a>,
}

// A number, or the greatest one of 32 bits where it is greater.
fn narrowed(number: usize) -> u32
    ensures { result ≡ spec.narrowed number }
{
    match u32::try_from(number) {
        Ok(number) => number,
        Err(_) => u32::MAX,
    }
}

impl<'a> NameLookup<'a> {
    /// The value of a named constant (X3.9-1978, 8.6).
    #[tactic(auto, unfolding(crate::specs::Names::names_in))]
    pub fn constant(&self, name: &Name) -> Option<Value>
        ensures { result ≡ (names_in self.now).constants name.now }
    {
        self.symbols.constants().get(name)
    }

    /// The meaning of a name with a list.
    #[tactic(auto, unfolding(crate::specs::Names::names_in))]
    pub fn meaning(&self, name: &Name) -> Meaning
        ensures { meaning result ≡ (names_in self.now).meanings name.now }
    {
        self.symbols.listed_meaning(name)
    }

    /// The place of a variable.
    #[tactic(auto, unfolding(crate::specs::Names::names_in))]
    pub fn variable(&self, name: &Name) -> Variable
        ensures { result ≡ (names_in self.now).variables name.now }
    {
        self.places.variable(name)
    }

    /// The number of the subroutine with a name.
    #[tactic(auto, unfolding(crate::specs::Names::number_called))]
    pub fn subroutine(&self, name: &Name) -> u32
        ensures { result ≡ spec.number_called self.now.program.now name.now }
    {
        match self.program.subroutine_called(name) {
            Some(number) => narrowed(number),
            None => 0,
        }
    }

    /// The number of the function with a name.
    #[tactic(auto, unfolding(crate::specs::Names::names_in, crate::specs::Names::number_referred))]
    pub fn function(&self, name: &Name) -> u32
        ensures { result ≡ (names_in self.now).functions name.now }
    {
        match self.program.function_called(name) {
            Some(number) => narrowed(number),
            None => 0,
        }
    }
}
