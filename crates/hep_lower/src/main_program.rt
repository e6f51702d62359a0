//! The main program of a program.
ghost use Rattle.std.specs.Prelude.{◌≡◌};
ghost use Rattle.hep_source.specs.Units as units;

use hep_source::{Form, Statement, Unit};

fn is_main(unit: &Unit) -> bool
    ensures { result ≡ units.is_main (units.procedure_name unit.now) }
{
    match unit.as_slice().first() {
        Some(
            Statement {
                form: Form::Subroutine(_, _) | Form::Function(_, _, _),
                ..
            },
        ) => false,
        _ => true,
    }
}

/// The index of a program's main program, counted from 0, if it has one.
pub(crate) fn main_index(program: &[Unit]) -> Option<usize>
    ensures { result ≡ units.main_among program.now }
{
    for (index, unit) in program.iter().enumerate() {
        if is_main(unit) {
            return Some(index);
        }
    }
    None
}
