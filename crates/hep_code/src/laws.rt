//! Laws of the code: the next operation of an activation, the number of its operands, and the places of levels in the
//! code as activations begin and end.
ghost use Rattle.std.specs.Prelude.{None, Some, ◌≡◌, ◌≤◌, ◌∷◌, ◌++◌, ◌+◌, ℕ, Bool, true, List, Result, drop, length, map, []};
ghost use Rattle.std.specs.List.{flat_map};
ghost use Rattle.hep_machine.specs.Words.{Name, Statement, Value, Units, function_name, line_at, statement_at, unit_at, Binding, level_after_statement};
ghost use Rattle.hep_machine.specs.Words.{Actual, Redex, Reference, does, entering_loop, ending_loop, next_of, plug_work, Scope};
ghost use Rattle.hep_machine.specs.Words.{location_of_name, Activation, Level, Location, Process, State, Store, Work, Top, answer_of};
ghost use Rattle.hep_machine.specs.Words.{entry_level, next_activation, result_after_assignment, result_after_write, stack_after_return, stack_after_value};
ghost use Rattle.hep_machine.specs.Words.{unit_on_top, with_activation, is_do};
ghost use Rattle.hep_machine.specs.declared.event.Kind.{Kind};
ghost use Rattle.hep_machine.specs.declared.record.Item.{Item};
ghost use Rattle.hep_machine.specs.declared.slot.Slot.{Slot};
ghost use Rattle.hep_code.specs.declared.instruction.Instruction.{Instruction};
ghost use Rattle.hep_code.specs.declared.instruction.Instruction.TheVariants.{Pass, Show, Step};
ghost use Rattle.hep_code.specs.declared.instruction.Operation.{Operation};
ghost use Rattle.hep_code.specs.declared.variable.Variable.{Variable};
ghost use Rattle.hep_code.specs.Words.{argument_of_actual, evaluation_of, operands_of_actual, operands_of_item, operands_of_redex};
ghost use Rattle.hep_code.specs.Words.{printed_item, referred_argument, IsNext, IsPastPushes, IsRedex, values_ahead, deepest, Moves};
ghost use Rattle.hep_code.specs.Words.{items_from, passed_actual, passed_from, passed_reference, Addressing, Answers, Finds, IsAddressed};
ghost use Rattle.hep_code.specs.Words.{IsAddressedIn, answer_to_store, reply_of, reply_to_store, Addresses, AreBelow, AreLevels, CodeLevel};
ghost use Rattle.hep_code.specs.Words.{NoLoops, addressed_unit, Awaits, entered, Counts, Fits, Stands, AddressedUnit, code_of};

/// After its leading constants an activation has an operation, with the line of the statement. It is the operation of
/// what comes next of the statement, a redex or an action, with its operands and its entries; and a value in the
/// place of the redex leads to the next index.
pub fn operations_stand_ahead()
    ensures step { (addressed : AddressedUnit) (k : ℕ) (work : Work) (operands : List Value) (index : ℕ)
        → Stands addressed k work operands index → IsPastPushes (code_of addressed) index → (operation : Operation)
        × (behind : List Instruction) × (drop index (code_of addressed) ≡ Step (line_at addressed.unit k) operation ∷ behind) }
    ensures next { (addressed : AddressedUnit) (k : ℕ) (work : Work) (operands : List Value)
        (index line : ℕ) (operation : Operation) (behind : List Instruction) → Stands addressed k work operands index
        → drop index (code_of addressed) ≡ Step line operation ∷ behind → (line_at addressed.unit k ≡ line)
        × IsNext addressed k work operands index (next_of addressed.unit work) operation behind }
{}

/// Where a DO is entered or an iteration of it ended, the statement is that DO.
pub fn loops_are_there()
    ensures entered { (unit : List Statement) (k : ℕ) (work : Work) (x : Name) (m n i : Value) → Fits unit k work
        → next_of unit work ≡ does (entering_loop x m n i) → is_do (statement_at unit k).form ≡ true }
    ensures ended { (unit : List Statement) (k : ℕ) (work : Work) (d : ℕ) → Fits unit k work → next_of unit work ≡ does (ending_loop d)
        → is_do (statement_at unit d).form ≡ true }
{}

/// The reply of an operation that gives a value is the machine's answer to its redex, and the reply of one that
/// stores a value is what the machine does with the assignment, where the cells have what the machine has stored.
pub fn operations_reply_as_the_machine_answers()
    ensures redex { (addressing : Addressing) (store : Store) (cells : ℕ → Slot) (scope : Scope) (address : Variable → List Value
        → Result ℕ Kind) (variables : Name → Variable) (r : Redex) → Finds addressing cells store
        → IsAddressedIn addressing scope address variables r
        → Answers addressing store (reply_of cells address (evaluation_of variables r) (operands_of_redex r)) (answer_of scope store r) }
    ensures stored { (addressing : Addressing) (store : Store) (cells : ℕ → Slot) (scope : Scope) (address : Variable → List Value
        → Result ℕ Kind) (variables : Name → Variable) (x : Name) (v : Value) (subscripts : List Value) → Finds addressing cells store
        → IsAddressed addressing scope address variables x subscripts
        → Answers addressing store (reply_to_store cells address (variables x) v subscripts)
        (answer_to_store store x.asynchronous v (location_of_name scope x subscripts)) }
    ensures assigned { (program : Units) (top : Top) (asynchronous : Bool) (location : Result Location Kind) (v : Value)
        → result_after_assignment program top asynchronous location v
        ≡ result_after_write program top (level_after_statement (unit_on_top program top) top.level)
        (answer_to_store top.state.store asynchronous v location) }
{}

/// The entries after the operation of a CALL, CREATE, PURGE or PRINT, with the operands, are what is passed, purged
/// or printed, in order.
pub fn entries_stand_for_lists()
    ensures actuals { (variables : Name → Variable) (actuals : List Actual) (more : List Instruction)
        → passed_from (length actuals) (map (λ a. Pass (argument_of_actual variables a)) actuals
        ++ more) (flat_map operands_of_actual actuals) ≡ map (passed_actual variables) actuals }
    ensures purged { (variables : Name → Variable) (references : List Reference) (more : List Instruction)
        → passed_from (length references) (map (λ r. Pass (referred_argument variables r)) references
        ++ more) (flat_map (λ (r : Reference). r.1) references) ≡ map (passed_reference variables) references }
    ensures printed { (items : List Item) (more : List Instruction)
        → items_from (length items) (map (λ i. Show (printed_item i)) items ++ more) (flat_map operands_of_item items) ≡ items }
{}

/// The levels of a process keep their places in the code as its top level moves, or gets a value in the place of a
/// redex, and as activations are added. After its subroutine has returned, a caller goes on at the index after its
/// CALL. A new activation begins at its unit's first statement, on top of its caller or in a process of its own.
pub fn levels_stay_in_the_code()
    ensures moved { (program : Units) (addresses : Addresses) (s : State) (f : CodeLevel) (fs : List CodeLevel)
        (level after : Level) (levels : Process) (counts : Counts) (index : ℕ) → AreLevels program addresses s (f ∷ fs) (level ∷ levels)
        → Moves (addressed_unit program addresses f.unit) level after counts index
        → AreLevels program addresses s (record f { index = index; operands = []; counts = counts } ∷ fs) (after ∷ levels) }
    ensures filled { (program : Units) (addresses : Addresses) (s : State) (f : CodeLevel) (fs : List CodeLevel) (level : Level)
        (levels : Process) (operation : Operation) (r : Redex) (v : Value) → AreLevels program addresses s (f ∷ fs) (level ∷ levels)
        → (is : IsRedex (addressed_unit program addresses f.unit) level.statement level.work f.operands f.index r operation)
        → AreLevels program addresses s (record f { index = f.index + 1; operands = is.before ++ v ∷ [] } ∷ fs)
        (record level { work = plug_work (unit_at program f.unit) level.work v } ∷ levels) }
    ensures added { (program : Units) (addresses : Addresses)
        (s t : State) (added : List Activation) (fs : List CodeLevel) (levels : Process) → t.activations ≡ s.activations ++ added
        → AreLevels program addresses s fs levels → AreLevels program addresses t fs levels }
    ensures returned { (program : Units) (addresses : Addresses) (s : State) (u : ℕ) (fs : List CodeLevel) (levels : Process)
        → function_name (unit_at program u) ≡ None → AreBelow program addresses s u fs levels
        → AreLevels program addresses s fs (stack_after_return program s levels) }
    ensures answered { (program : Units) (addresses : Addresses) (s : State) (u : ℕ) (x : Name) (v : Value) (f : CodeLevel)
        (fs : List CodeLevel) (level : Level) (levels : Process) → function_name (unit_at program u) ≡ Some x
        → AreBelow program addresses s u (f ∷ fs) (level ∷ levels)
        → AreLevels program addresses s (record f { operands = f.operands ++ v ∷ [] } ∷ fs) (stack_after_value program s v (level ∷ levels)) }
    ensures called { (program : Units) (addresses : Addresses) (top : Top) (u : ℕ) (b : Binding) (counts : Counts) (f : CodeLevel)
        (fs : List CodeLevel) (operands : List Value) (index : ℕ) → NoLoops (unit_at program u) counts
        → Awaits (function_name (unit_at program u)) (addressed_unit program addresses f.unit) top.level operands index
        → AreLevels program addresses top.state (f ∷ fs) (top.level ∷ top.below)
        → AreLevels program addresses (with_activation top u b) (entered program addresses (next_activation top.state) u counts
        ∷ (record f { index = index; operands = operands } ∷ fs)) (entry_level (unit_at program u) (next_activation top.state)
        ∷ (top.level ∷ top.below)) }
    ensures resumed { (program : Units) (addresses : Addresses) (s : State) (f : CodeLevel) (fs : List CodeLevel) (level after : Level)
        (levels : Process) (counts : Counts) (index : ℕ) → function_name (unit_at program f.unit) ≡ None
        → AreLevels program addresses s (f ∷ fs) (level ∷ levels)
        → Moves (addressed_unit program addresses f.unit) level after counts index
        → AreLevels program addresses s fs (stack_after_return program s levels)
        × AreLevels program addresses s (record f { index = index; operands = []; counts = counts } ∷ []) (after ∷ []) }
    ensures created { (program : Units) (addresses : Addresses) (top : Top) (u : ℕ) (b : Binding) (counts : Counts)
        → NoLoops (unit_at program u) counts
        → AreLevels program addresses (with_activation top u b) (entered program addresses (next_activation top.state) u counts ∷ [])
        (entry_level (unit_at program u) (next_activation top.state) ∷ []) }
{}

/// At any place in the code of a unit an activation has no more operands, with the leading constants, than the
/// deepest stack of that code. So a vector of that capacity has room for them.
pub fn operands_have_room()
    ensures operands { (addressed : AddressedUnit) (k : ℕ) (work : Work) (operands : List Value) (index : ℕ)
        → Stands addressed k work operands index → length operands ≤ deepest (code_of addressed) }
    ensures ahead { (addressed : AddressedUnit) (k : ℕ) (work : Work) (operands : List Value) (index : ℕ)
        → Stands addressed k work operands index → length operands + values_ahead (drop index (code_of addressed))
        ≤ deepest (code_of addressed) }
{}
