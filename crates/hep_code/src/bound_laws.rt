//! Laws of the code of bounds.
ghost use Rattle.std.specs.Prelude.{◌≡◌, ◌++◌, ◌∷◌, [], ℕ, if◌then◌else◌, List, Option, Some, None, Ok};
ghost use Rattle.hep_machine.specs.Words.{Name, Statement, Value, Tree, bound_values, dummy_with_shape, with_shape, Values, shape_by};
ghost use Rattle.hep_machine.specs.Words.{value_of, dimensions_of, is_array, Scope, Dummy, Store};
ghost use Rattle.hep_code.specs.BoundCode.{AreSources, Sources, after_code, code_of_bound, coded_value};
ghost use Rattle.hep_code.specs.declared.bound.BoundOperation.{BoundOperation};
ghost use Rattle.hep_code.specs.DimensionCode.{code_of_dimensions, coded_shape};
ghost use Rattle.hep_code.specs.Sources.{AreStored, adjustable_code, source_of};

/// The code of an expression computes its value, where each name's source has the name's value. The value is pushed,
/// and the code that follows goes on with it. The code computes nothing where the expression has no value (X3.9-1978,
/// 5.5.1).
pub fn bounds_are_coded()
    ensures none { (unit : List Statement) (source : Sources) (values : Values) (common dummies : ℕ → Option Value)
        → AreSources common dummies values source → (t : Tree) (more : List BoundOperation) (stack : List Value)
        → value_of unit values t ≡ None → after_code common dummies (code_of_bound source unit t ++ more) stack ≡ None }
    ensures some { (unit : List Statement) (source : Sources) (values : Values) (common dummies : ℕ → Option Value)
        → AreSources common dummies values source → (t : Tree) (more : List BoundOperation) (stack : List Value) (v : Value)
        → value_of unit values t ≡ Some v → after_code common dummies (code_of_bound source unit t ++ more) stack
        ≡ after_code common dummies more (stack ++ v ∷ []) }
    ensures value { (unit : List Statement) (source : Sources) (values : Values) (common dummies : ℕ → Option Value)
        → AreSources common dummies values source → (t : Tree)
        → coded_value common dummies (code_of_bound source unit t) ≡ value_of unit values t }
{}

/// The code of an array's dimensions computes the shape that the array has by the values of the names, and none where
/// it has none: a bound has no value, or the bounds are no shape (X3.9-1978, 5.5.1).
pub fn shapes_are_coded()
    ensures { (unit : List Statement) (source : Sources) (values : Values) (common dummies : ℕ → Option Value)
        → AreSources common dummies values source → (x : Name)
        → coded_shape common dummies (code_of_dimensions source unit (dimensions_of unit x)) ≡ shape_by unit values x }
{}

/// The sources of a unit's names have the values of its bounds when it is called. So a dummy argument has the shape
/// that the code of its dimensions computes, or the fault is SHAPE (X3.9-1978, 5.5.1 and 15.9.3.3).
pub fn adjustable_shapes_are_coded()
    ensures sources { (scope : Scope) (store : Store) (cell : Name → ℕ) (common dummies : ℕ → Option Value)
        → AreStored scope store cell common dummies → AreSources common dummies (bound_values scope store) (source_of scope.unit cell) }
    ensures shape { (scope : Scope) (store : Store) (cell : Name → ℕ) (common dummies : ℕ → Option Value)
        → AreStored scope store cell common dummies → (x : Name) (d : Dummy)
        → with_shape scope store x d ≡ (if is_array scope.unit x
        then dummy_with_shape d (coded_shape common dummies (adjustable_code scope.unit cell x)) else Ok d) }
{}
