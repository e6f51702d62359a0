//! Laws of the code of accepted programs: the places of its variables, and the units that it calls.
ghost use Rattle.std.specs.Prelude.{◌≡◌, ◌<◌, ℕ, Bool, true, List, Some, slice_get, length};
ghost use Rattle.hep_machine.specs.Words.{StateFunction, Name, Statement, Units, unit_at, adjustable_dimensions, constant_shape, is_array};
ghost use Rattle.hep_machine.specs.Words.{Bounds, is_shape};
ghost use Rattle.hep_conditions.specs.Words.{IsAccepted};
ghost use Rattle.hep_code.specs.declared.instruction.Evaluation.TheVariants.{Test};
ghost use Rattle.hep_code.specs.declared.instruction.Instruction.{Instruction};
ghost use Rattle.hep_code.specs.declared.instruction.Instruction.TheVariants.{Step};
ghost use Rattle.hep_code.specs.declared.instruction.Operation.{Operation};
ghost use Rattle.hep_code.specs.declared.instruction.Operation.TheVariants.{Call, Create, Evaluate, Refer};
ghost use Rattle.hep_code.specs.declared.variable.Variable.{Variable};
ghost use Rattle.hep_code.specs.declared.variable.Variable.TheVariants.{Array};
ghost use Rattle.hep_code.specs.Words.{is_asynchronous};
ghost use Rattle.hep_image.specs.declared.array.Start.{Start};
ghost use Rattle.hep_image.specs.Places.{arrays_of, start_of, variable_of};
ghost use Rattle.hep_accepted_laws.specs.Instructions.{variables_in, variables_in_operation};
ghost use Rattle.hep_accepted_laws.specs.PlacedCode.{ArePlaced, IsArrayAt, IsCalledWith, IsPlaced, IsReferredWith, code_in};

use hep_conditions::laws;

/// Each variable in the code, passed and purged ones too, has storage units, and so its name has a first one.
pub fn variables_of_the_code_are_placed()
    ensures operations { (program : Units) (u i line : ℕ) (o : Operation) → IsAccepted program → u < length program
        → slice_get (code_in program u) i ≡ Some (Step line o) → ArePlaced (variables_in_operation o) }
    ensures all { (program : Units) (u i : ℕ) (x : Instruction) → IsAccepted program → u < length program
        → slice_get (code_in program u) i ≡ Some x → ArePlaced (variables_in x) }
    ensures begun { (program : Units) (unit : List Statement) (x : Name) → IsPlaced (variable_of program unit x) → (at : Start)
        × (start_of program unit x ≡ Some at) }
{
    laws::constants_agree();
}

/// The argument of FULL, EMPTY, VALUE, SETE or WAITF in the code is asynchronous.
pub fn tested_variables_are_asynchronous()
    ensures { (program : Units) (u i line n : ℕ) (f : StateFunction) (x : Variable) → IsAccepted program → u < length program
        → slice_get (code_in program u) i ≡ Some (Step line (Evaluate (Test f x n))) → is_asynchronous x ≡ true }
{
    laws::constants_agree();
}

/// Each array with constant bounds alone has a constant shape; so has a dummy argument, whose last bound may be open.
pub fn constant_shapes()
    ensures { (program : Units) (u : ℕ) (x : Name) → IsAccepted program → u < length program → is_array (unit_at program u) x ≡ true
        → adjustable_dimensions (unit_at program u) x ≡ 0 → (bounds : Bounds) × (constant_shape (unit_at program u) x ≡ Some bounds)
        × (is_shape bounds ≡ true) }
{
    laws::constants_agree();
}

/// Each array of a unit has a first storage unit, and each array in the code is the one of its index among those of
/// the unit.
pub fn arrays_are_there()
    ensures unit { (program : Units) (u i : ℕ) (x : Name) → IsAccepted program → u < length program
        → slice_get (arrays_of (unit_at program u)) i ≡ Some x → (at : Start) × (is_array (unit_at program u) x ≡ true)
        × (start_of program (unit_at program u) x ≡ Some at) }
    ensures code { (program : Units) (u i j n : ℕ) (asynchronous : Bool) (x : Instruction) → IsAccepted program → u < length program
        → slice_get (code_in program u) i ≡ Some x → slice_get (variables_in x) j ≡ Some (Array asynchronous n)
        → IsArrayAt program (unit_at program u) asynchronous n }
{
    laws::constants_agree();
}

/// A CALL or CREATE in the code names a subroutine, and a reference a function; each passes as many actual arguments
/// as there are dummy arguments.
pub fn calls_agree()
    ensures call { (program : Units) (u i line v n next : ℕ) → IsAccepted program → u < length program
        → slice_get (code_in program u) i ≡ Some (Step line (Call v n next)) → IsCalledWith program v n }
    ensures create { (program : Units) (u i line v n next : ℕ) → IsAccepted program → u < length program
        → slice_get (code_in program u) i ≡ Some (Step line (Create v n next)) → IsCalledWith program v n }
    ensures refer { (program : Units) (u i line v n : ℕ) → IsAccepted program → u < length program
        → slice_get (code_in program u) i ≡ Some (Step line (Refer v n)) → IsReferredWith program v n }
{
    laws::constants_agree();
}
