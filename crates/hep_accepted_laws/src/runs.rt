//! Laws of runs: the rest of a statement is a rest of that statement, and so the static conditions of a program hold
//! of what its processes do.
ghost use Rattle.std.specs.Prelude.{◌≡◌, ◌<◌, ◌≤◌, ℕ, true, false, List, [], None, Some, is_some, length, slice_get};
ghost use Rattle.hep_machine.specs.Words.{Name, Statement, Units, dummies_of, is_main, main_among, main_unit, subroutine_name, unit_at};
ghost use Rattle.hep_machine.specs.Words.{Actual, calling, creating, does, next_of, living, numbered, unit_of, run, Level, Process, Work};
ghost use Rattle.hep_machine.specs.Words.{function_name, function_unit, referring, wants};
ghost use Rattle.hep_machine.specs.Words.{unit_called};
ghost use Rattle.hep_conditions.specs.Words.{IsAccepted};
ghost use Rattle.hep_image.specs.Places.{variable_of};
ghost use Rattle.hep_accepted_laws.specs.PlacedCode.{IsPlaced};
ghost use Rattle.hep_image.specs.BoundActivations.{AreClosed, CallsAgree, IsBound};
ghost use Rattle.hep_accepted_laws.specs.Actuals.{FitsDummy, IsVariableOf};
ghost use Rattle.hep_accepted_laws.specs.WorkOrigins.{ComesFrom, IsCalledBy, IsReferredBy};

use crate::values::arrays_have_shapes;
use hep_conditions::laws::constants_agree;
use hep_image::frame_laws::activations_are_bound;

/// In a run the rest of the statement that an activation is at is a rest of that statement, on each level of each
/// process.
pub fn works_come_from_statements()
    ensures level { (program : Units) (processes : List ℕ) (p i : ℕ) (q : Process) (level : Level)
        → numbered (run program processes).processes p ≡ Some q → slice_get q i ≡ Some level
        → ComesFrom (unit_at program (unit_of (run program processes) level.activation)) level.statement level.work }
    ensures top { (program : Units) (processes : List ℕ) (p : ℕ) (top : Level × Process) → living (run program processes) p ≡ Some top
        → ComesFrom (unit_at program (unit_of (run program processes) top.0.activation)) top.0.statement top.0.work }
{}

/// A unit that is called or created next is called by the statement, with its actual arguments.
pub fn calls_come_from_statements()
    ensures called { (unit : List Statement) (k : ℕ) (work : Work) (x : Name) (actuals : List Actual) → ComesFrom unit k work
        → next_of unit work ≡ does (calling x actuals) → IsCalledBy unit k x actuals }
    ensures created { (unit : List Statement) (k : ℕ) (work : Work) (x : Name) (actuals : List Actual) → ComesFrom unit k work
        → next_of unit work ≡ does (creating x actuals) → IsCalledBy unit k x actuals }
{}

/// A function that is referred to next is referred to by the statement, with its actual arguments.
pub fn references_come_from_statements()
    ensures { (unit : List Statement) (k : ℕ) (work : Work) (x : Name) (actuals : List Actual) → ComesFrom unit k work
        → next_of unit work ≡ wants (referring x actuals) → IsReferredBy unit k x actuals }
{}

/// In a run of an accepted program each CALL, CREATE and reference of a function has as many actual arguments as there are dummy
/// arguments.
pub fn calls_agree_in_runs()
    ensures { (program : Units) → IsAccepted program → CallsAgree program }
{}

/// In a run of an accepted program with a main program each activation runs a unit of the program.
pub fn units_are_there()
    ensures { (program : Units) (processes : List ℕ) (a : ℕ) → IsAccepted program → is_some (main_among program) ≡ true → 1 ≤ a
        → a ≤ length (run program processes).activations
        → slice_get program (unit_of (run program processes) a) ≡ Some (unit_at program (unit_of (run program processes) a)) }
{}

/// Each array of an accepted program that is no dummy argument has a number of elements, and its main program has no
/// dummy arguments.
pub fn programs_are_closed()
    ensures closed { (program : Units) → IsAccepted program → AreClosed program }
    ensures main { (program : Units) → is_some (main_among program) ≡ true → dummies_of (unit_at program (main_unit program)) ≡ [] }
{
    arrays_have_shapes();
}

/// In a run of an accepted program with a main program the dummy arguments of each activation are bound.
pub fn activations_are_bound_in_runs()
    ensures { (program : Units) (processes : List ℕ) (a : ℕ) → IsAccepted program → is_some (main_among program) ≡ true → 1 ≤ a
        → a ≤ length (run program processes).activations → IsBound program (run program processes) a }
{
    programs_are_closed();
    calls_agree_in_runs();
    activations_are_bound();
}

/// A statement of an accepted program calls a subroutine of the program, with as many dummy arguments as there are
/// actual arguments.
pub fn subroutines_are_called()
    ensures there { (program : Units) (u k : ℕ) (x : Name) (actuals : List Actual) → IsAccepted program
        → IsCalledBy (unit_at program u) k x actuals → unit_called program x < length program }
    ensures subroutine { (program : Units) (u k : ℕ) (x : Name) (actuals : List Actual) → IsAccepted program
        → IsCalledBy (unit_at program u) k x actuals → is_main (subroutine_name (unit_at program (unit_called program x))) ≡ false }
    ensures result { (program : Units) (u k : ℕ) (x : Name) (actuals : List Actual) → IsAccepted program
        → IsCalledBy (unit_at program u) k x actuals → function_name (unit_at program (unit_called program x)) ≡ None }
    ensures arguments { (program : Units) (u k : ℕ) (x : Name) (actuals : List Actual) → IsAccepted program
        → IsCalledBy (unit_at program u) k x actuals → length actuals ≡ length (dummies_of (unit_at program (unit_called program x))) }
{}

/// A statement of an accepted program refers to a function of the program, with as many dummy arguments as there are
/// actual arguments.
pub fn functions_are_referred_to()
    ensures there { (program : Units) (u k : ℕ) (x : Name) (actuals : List Actual) → IsAccepted program
        → IsReferredBy (unit_at program u) k x actuals → function_unit program x < length program }
    ensures result { (program : Units) (u k : ℕ) (x : Name) (actuals : List Actual) → IsAccepted program
        → IsReferredBy (unit_at program u) k x actuals → (y : Name) × (function_name (unit_at program (function_unit program x)) ≡ Some y) }
    ensures arguments { (program : Units) (u k : ℕ) (x : Name) (actuals : List Actual) → IsAccepted program
        → IsReferredBy (unit_at program u) k x actuals → length actuals ≡ length (dummies_of (unit_at program (function_unit program x))) }
{}

/// Each actual argument that a statement of an accepted program passes fits the dummy argument in its place.
pub fn actual_arguments_fit()
    ensures called { (program : Units) (u k j : ℕ) (x y : Name) (actuals : List Actual) (a : Actual) → IsAccepted program
        → IsCalledBy (unit_at program u) k x actuals → slice_get (dummies_of (unit_at program (unit_called program x))) j ≡ Some y
        → slice_get actuals j ≡ Some a → FitsDummy (unit_at program u) (unit_at program (unit_called program x)) y a }
    ensures referred { (program : Units) (u k j : ℕ) (x y : Name) (actuals : List Actual) (a : Actual) → IsAccepted program
        → IsReferredBy (unit_at program u) k x actuals → slice_get (dummies_of (unit_at program (function_unit program x))) j ≡ Some y
        → slice_get actuals j ≡ Some a → FitsDummy (unit_at program u) (unit_at program (function_unit program x)) y a }
{
    constants_agree();
}

/// Each variable of a unit has storage units.
pub fn variables_are_placed()
    ensures { (program : Units) (unit : List Statement) (x : Name) → IsVariableOf unit x → IsPlaced (variable_of program unit x) }
{}
