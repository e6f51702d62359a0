//! A unit's code, with its entry and its depth.
ghost use Rattle.std.specs.Prelude.{◌≡◌, ◌≤◌, None, length, IfOk, IfErr};
ghost use Rattle.hep_code.specs.Words.{deepest, line_too_deep, most_instructions, most_operands, entry_index, code_of};
ghost use Rattle.hep_lower.specs.UnitLimits.{IsOverLimit};
ghost use Rattle.hep_lower.specs.Names.{greatest};
ghost use Rattle.hep_lower.specs.Tables.{addressed_by};

use crate::fault::EmitFault;
use crate::name_lookup::NameLookup;
use crate::unit::{EmittedUnit, emit_unit};
use hep_code::{Depth, Instruction, Placement, depth_of};
use hep_control::control::Control;
use hep_control::labels::Labels;
use hep_names::{ProgramSymbols, Symbols};
use std::alloc::Global;

/// The code of a unit, the index at which an activation of it begins, and its deepest stack of operands.
#[derive(Drop)]
pub struct LoweredCode {
    pub code: Vec<Instruction>,
    pub entry: u32,
    pub depth: Depth,
}

/// The code of a unit of a program, with these places of its variables and of the cells of its DOs.
///
/// # Errors
///
/// That there would be more than 1,048,576 instructions, or that memory was refused.
pub fn lower_unit(
    alloc: Global,
    program: &ProgramSymbols,
    symbols: &Symbols,
    places: &Placement,
) -> Result<LoweredCode, EmitFault>
    requires { length program.now ≤ greatest }
    ensures code { IfOk result (λ lowered. lowered.code.items ≡ code_of (addressed_by symbols.now places.now program.now)) }
    ensures entry { IfOk result (λ lowered. lowered.entry ≡ entry_index (addressed_by symbols.now places.now program.now)) }
    ensures short { IfOk result (λ lowered. length lowered.code.items ≤ most_instructions) }
    ensures operands { IfOk result (λ lowered. lowered.depth.operands ≡ deepest lowered.code.items) }
    ensures too_deep { IfOk result (λ lowered. lowered.depth.too_deep ≡ line_too_deep lowered.code.items) }
    ensures few { IfOk result (λ lowered. lowered.depth.too_deep ≡ None → lowered.depth.operands ≤ most_operands) }
    ensures refused { IfErr result (IsOverLimit (length (code_of (addressed_by symbols.now places.now program.now)))) }
{
    let control = Control::new(alloc, Labels::new(alloc, symbols.statements())?)?;
    let names = NameLookup {
        symbols,
        places,
        program,
    };
    let EmittedUnit { code, entry } = emit_unit(alloc, &names, &control)?;
    let depth = depth_of(&code);
    Ok(LoweredCode { code, entry, depth })
}
