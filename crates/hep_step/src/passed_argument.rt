//! What the entries after a CALL, CREATE or PURGE pass (X3.9-1978, 15.9.2 and 15.9.3).
ghost use Rattle.std.specs.Prelude.{◌≡◌, drop, option_map, take};
ghost use Rattle.hep_step.specs.PassedEntries as entries;
ghost use Rattle.hep_step.specs.PassedEntries.{passed_view};

use hep_code::{Argument, Instruction, Variable};
use hep_source::Value;

/// What an entry passes, with its own operands.
#[derive(Clone, Copy)]
pub enum PassedArgument<'a> {
    /// The value of an expression.
    ByValue(Value),
    /// A variable, a whole array, or the element with these subscripts.
    ByReference {
        variable: Variable,
        subscripts: &'a [Value],
    },
}

// The first `count` entries.
pub(crate) fn first_of(entries: &[Instruction], count: usize) -> &[Instruction]
    ensures { result.now ≡ take count entries.now }
{
    &entries[..entries.len().min(count)]
}

// The first `count` operands, and those after them.
fn parted(operands: &[Value], count: u32) -> (&[Value], &[Value])
    ensures first { result.0.now ≡ take count operands.now }
    ensures behind { result.1.now ≡ drop count operands.now }
{
    operands.split_at(operands.len().min(count as usize))
}

// What an entry passes, if it passes anything, and the operands after its own.
pub(crate) fn passed_ahead<'a>(
    entry: &Instruction,
    operands: &'a [Value],
) -> Option<(PassedArgument<'a>, &'a [Value])>
    ensures { option_map (λ pair. (passed_view pair.0, pair.1.now)) result ≡ entries.passed_ahead entry.now operands.now }
{
    match entry {
        Instruction::Pass(Argument::Evaluated) => match operands {
            [value, behind @ ..] => Some((PassedArgument::ByValue(*value), behind)),
            [] => None,
        },
        Instruction::Pass(
            Argument::Referred {
                variable,
                subscripts,
            },
        ) => {
            let (subscripts, behind) = parted(operands, *subscripts);
            let passed = PassedArgument::ByReference {
                variable: *variable,
                subscripts,
            };
            Some((passed, behind))
        }
        _ => None,
    }
}
