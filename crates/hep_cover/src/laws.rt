//! Laws of the operations left of a statement.
ghost use Rattle.std.specs.Prelude.{◌≡◌, ◌<◌, ◌∷◌, ℕ, suc, List};
ghost use Rattle.hep_cover.specs.OperationCounts.{in_statement, left_of};
ghost use Rattle.hep_machine.specs.Words.{Form, Level as ALevel, RedexOrReference as ARedexOrReference, Statement as AStatement, Tree, Value as AValue, Work, after_condition, doing, level_at_statement, next_of, plug_work, statement_at, wants};

/// Each value that a statement gets takes one of its operations away, and so does each tested condition. So a
/// statement that has begun has fewer operations left than one that a process has just reached, and no later step of
/// it begins it again.
pub fn operations_are_taken_away()
    ensures arrived { (unit : List AStatement) (level : ALevel) (k : ℕ) → left_of unit (level_at_statement unit level k).work
        ≡ in_statement unit (statement_at unit k).conditions (statement_at unit k).form }
    ensures filled { (unit : List AStatement) (work : Work) (r : ARedexOrReference) (v : AValue) → next_of unit work ≡ wants r
        → suc (left_of unit (plug_work unit work v)) ≡ left_of unit work }
    ensures tested { (unit : List AStatement) (t : Tree) (ts : List Tree) (f : Form)
        → left_of unit (after_condition (doing (t ∷ ts) f)) < left_of unit (doing (t ∷ ts) f) }
{}
