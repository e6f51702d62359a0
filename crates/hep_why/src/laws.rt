//! Laws of names and of cycles.
ghost use Rattle.std.specs.Prelude.{◌≡◌, ℕ, List, Option, Some, slice_get};
ghost use Rattle.hep_machine.specs.Words.{State, Units, Wanted, wanted_by};
ghost use Rattle.hep_machine.specs.declared.event.Entry.{Entry};
ghost use Rattle.hep_why.specs.WaitNames.{IsNameOf, called_by};
ghost use Rattle.hep_why.specs.WaitCycles.{circle_from, circles_among, next_at, nexts_of};
ghost use Rattle.hep_why.specs.Reasons.{reasons_of};
ghost use Rattle.hep_why.specs.CycleLaws.{BeginsWithLeast, IsAmong, IsCircle, LeadBack, LeadsTo};
ghost use Rattle.hep_why.specs.declared.reason.Change.{Change};
ghost use Rattle.hep_why.specs.declared.reason.Reason.{Reason};

/// What a process waits for has a name in its unit, which is associated with just that storage unit in the process's
/// top activation.
pub fn waits_have_names()
    ensures { (program : Units) (s : State) (p : ℕ) (w : Wanted) → wanted_by program p s ≡ Some w
        → IsNameOf program s p w.at (called_by program s p) }
{}

/// A cycle that is found begins with the index that the search started from. Each index leads to the next one, and
/// the last to the first.
pub fn circles_lead_back()
    ensures { (nexts : List (Option ℕ)) (first most : ℕ) (indexes : List ℕ) → circle_from nexts first most first ≡ Some indexes
        → (slice_get indexes 0 ≡ Some first) × LeadBack (LeadsTo nexts) first indexes }
{}

/// A waiting process leads to another one only if that one's process made the latest change of what the first one
/// waits for.
pub fn next_ones_changed_it()
    ensures { (reasons : List Reason) (i j : ℕ) → next_at (nexts_of reasons) i ≡ Some j
        → (r : Reason) × (c : Change) × (s : Reason) × (slice_get reasons i ≡ Some r) × (r.latest ≡ Some c) × (slice_get reasons j ≡ Some s)
        × (s.listed.process ≡ c.place.process) }
{}

/// Each cycle that is shown is one: each process waits for what the next one changed last, the last one waits for
/// what the first one changed last, and all are distinct. It begins with the least one.
pub fn told_circles_are_circles()
    ensures circle { (program : Units) (history : List Entry) (place : ℕ) (ps : List ℕ)
        → slice_get (circles_among (reasons_of program history)) place ≡ Some ps → IsCircle (reasons_of program history) ps }
    ensures least { (program : Units) (history : List Entry) (place : ℕ) (ps : List ℕ)
        → slice_get (circles_among (reasons_of program history)) place ≡ Some ps → BeginsWithLeast ps }
{}

/// Each cycle is shown, and once.
pub fn circles_are_told()
    ensures { (program : Units) (history : List Entry) (ps : List ℕ) → IsCircle (reasons_of program history) ps
        → IsAmong (circles_among (reasons_of program history)) ps }
{}
