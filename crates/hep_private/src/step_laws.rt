//! Laws of private steps.
ghost use Rattle.std.specs.Prelude.{◌≡◌, ◌+◌, ◌<◌, ℕ, [], List, Option, Some, drop, length};
ghost use Rattle.hep_machine.specs.declared.slot.Slot.{Slot as ASlot};
ghost use Rattle.hep_source.specs.declared.value.Value.{Value as AValue};
ghost use Rattle.hep_code.specs.declared.instruction.Instruction.{Instruction as AnInstruction};
ghost use Rattle.hep_image.specs.declared.array.Array.{Array as AnArray};
ghost use Rattle.hep_step.specs.Effects.{effect_at, moves};
ghost use Rattle.hep_private.specs.declared.record.Record.{Record as ARecord};
ghost use Rattle.hep_private.specs.OwnState.{OwnState, Values, begun, contents_after, values_at};
ghost use Rattle.hep_private.specs.StepRecords.{MadeStep, made_ahead, recorded};
ghost use Rattle.hep_private.specs.FirstReads.{HaveRead};

/// A private step is the effect of its operation: it only moves its activation, and changes nothing of the arena but
/// what it stores in the frame.
pub fn private_steps_are_moves()
    ensures { (code : List AnInstruction) (arrays : List AnArray) (cells : List ℕ) (first : ℕ) (contents : List ASlot) (own : OwnState) (m : MadeStep)
        → own.values ≡ values_at contents first → made_ahead cells own (drop own.index code) ≡ Some m
        → effect_at code arrays first contents own.operands own.index ≡ moves (contents_after first contents m.noted) m.operands m.index }
{}

/// Private steps depend on their place, their operands, and the values that they read before they store them. The
/// values at the start have these; and from any other values that have them, the steps are the same and lead to the
/// same place with the same operands.
pub fn private_steps_depend_on_reads()
    ensures read { (cells : List ℕ) (code : List AnInstruction) (n index : ℕ) (operands : List AValue) (values : Values) (records : List ARecord)
        (end : OwnState) → recorded cells code n (begun index operands values) ≡ Some (records, end) → HaveRead values records }
    ensures same { (cells : List ℕ) (code : List AnInstruction) (n index : ℕ) (operands : List AValue) (values others : Values)
        (records : List ARecord) (end : OwnState)
        → recorded cells code n (begun index operands values) ≡ Some (records, end) → HaveRead others records
        → (after : OwnState) × (recorded cells code n (begun index operands others) ≡ Some (records, after))
        × (after.index ≡ end.index) × (after.operands ≡ end.operands) }
{}
