//! The law of runs under other names. It has no work to do: what is proved is its contract. Storage units and sites are numbers here,
//! since a clause can't speak of all types; what answers the law, in `proofs/Renamed`, is of any type.
ghost use Rattle.std.specs.Prelude.{ℕ, Bool, List};
ghost use Rattle.std.specs.List.{AllZip};
ghost use Rattle.hep_accesses.specs.Detector.{rows_by_clocks};
ghost use Rattle.hep_accesses.specs.Events.{Event};
ghost use Rattle.hep_races.specs.Renamings.{AreTestsKept, IsRenamedEvent, IsRenamedRow, renaming_by};

/// Where the storage units and sites of a run have other names, and the tests take the same of them for one, the rows are the same
/// under the other names.
pub fn rows_go_along_with_names()
    ensures { (needed unit site same same_there alike alike_there : ℕ → ℕ → Bool) (ds es : List (Event ℕ ℕ))
        → AreTestsKept (renaming_by needed unit site) same same_there alike alike_there
        → AllZip (IsRenamedEvent (renaming_by needed unit site)) ds es
        → AllZip (IsRenamedRow (renaming_by needed unit site)) (rows_by_clocks same alike ds) (rows_by_clocks same_there alike_there es) }
{}
