//! Types of names, expressions and statements (X3.9-1978, 4.1 and sections 6, 10 and 11).
ghost use Rattle.std.specs.Prelude.{◌≡◌, ℕ, List, Some, slice_get};
ghost use Rattle.hep_machine.specs.Words.{Tree, ValueType, Logical, Occurrence, Statement, Units, type_of, occurrences_in_statement};
ghost use Rattle.hep_conditions.specs.Words.{IsAccepted, function_types, subexpressions_of, trees_in_statement};
ghost use Rattle.hep_accepted_laws.specs.PartlyEvaluated.{HasOperands, HasType, HasTypes, IsOf};

/// Each variable and named constant is an integer or logical.
pub fn names_have_types()
    ensures { (program : Units) (u k i : ℕ) (unit : List Statement) (s : Statement) (p : Occurrence) → IsAccepted program
        → slice_get program u ≡ Some unit → slice_get unit k ≡ Some s → slice_get (occurrences_in_statement unit s) i ≡ Some p
        → (t : ValueType) × (type_of unit p.name ≡ Some t) }
{}

/// Each expression in a statement, and each of its parts, is an integer or logical, and has operands, subscripts and
/// arguments of the required types.
pub fn expressions_have_types()
    ensures value { (program : Units) (u k i j : ℕ) (unit : List Statement) (s : Statement) (e t : Tree) → IsAccepted program
        → slice_get program u ≡ Some unit → slice_get unit k ≡ Some s → slice_get (trees_in_statement s) i ≡ Some e
        → slice_get (subexpressions_of e) j ≡ Some t → HasType (function_types program) unit t }
    ensures operands { (program : Units) (u k i j : ℕ) (unit : List Statement) (s : Statement) (e t : Tree) → IsAccepted program
        → slice_get program u ≡ Some unit → slice_get unit k ≡ Some s → slice_get (trees_in_statement s) i ≡ Some e
        → slice_get (subexpressions_of e) j ≡ Some t → HasOperands (function_types program) unit t }
{}

/// The conditions of a logical IF are logical.
pub fn conditions_are_logical()
    ensures { (program : Units) (u k i : ℕ) (unit : List Statement) (s : Statement) (t : Tree) → IsAccepted program
        → slice_get program u ≡ Some unit → slice_get unit k ≡ Some s → slice_get s.conditions i ≡ Some t → IsOf (function_types program) unit Logical t }
{}

/// An assignment is of one type on both sides, to a scalar or an element; a computed GO TO, an
/// arithmetic IF and the parameters of a DO are of integers; IF THEN and ELSE IF are of logical values.
pub fn statements_have_types()
    ensures { (program : Units) (u k : ℕ) (unit : List Statement) (s : Statement) → IsAccepted program → slice_get program u ≡ Some unit
        → slice_get unit k ≡ Some s → HasTypes (function_types program) unit s.form }
{}
