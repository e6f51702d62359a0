//! The races of one access with earlier ones.
ghost use Rattle.std.specs.Prelude.{◌≡◌, ℕ, ◌+◌, ◌<◌, ◌&&◌, not, ◌∷◌, List, length, OnOk, map, nat_eq, take};
ghost use Rattle.std.specs.List.{filter};
ghost use Rattle.hep_accesses.specs.Detector.{is_repeated};
ghost use Rattle.hep_accesses.specs.Races.{Row as ARow, conflicts};
ghost use Rattle.hep_races.specs.declared.storage_unit.StorageUnit.{StorageUnit as PureUnit};
ghost use Rattle.hep_races.specs.LatestRaces.{has_race_from, is_latest_race, is_race, rows_with_races, share_site};
ghost use Rattle.hep_races.specs.Observed.{access_in, row_in, step_access_in, unit_eq};
ghost use Rattle.hep_races.specs.Vectors.{clock_in};

use crate::clock::knows;
use crate::event::{Access, StepAccess};
use crate::rows::RowTable;
use std::alloc::AllocError;

// To the same storage unit, and one of them a store.
fn is_conflict(d: &Access, y: &Access) -> bool
    ensures { result ≡ conflicts unit_eq (access_in d.now) (access_in y.now) }
{
    d.at == y.at && (d.stores || y.stores)
}

// Both store or both read, from the same site.
fn are_from_same_site(d: &StepAccess, y: &StepAccess) -> bool
    ensures { result ≡ share_site d.now y.now }
{
    d.access.site == y.access.site && d.access.stores == y.access.stores
}

// An earlier access races with y, by the clock before the step of y.
fn is_racing(clock: &[u64], y: &StepAccess, d: &StepAccess) -> bool
    ensures { result ≡ is_race (clock_in clock.now) y.now d.now }
{
    d.process != y.process && is_conflict(&d.access, &y.access) && !knows(clock, d.process, d.step)
}

// An access from the site of d races with y.
fn is_racing_from(d: &StepAccess, clock: &[u64], y: &StepAccess, w: &StepAccess) -> bool
    ensures { result ≡ (is_race (clock_in clock.now) y.now w.now && share_site w.now d.now) }
{
    is_racing(clock, y, w) && are_from_same_site(w, d)
}

// One of these accesses is from the site of d and races with y.
fn has_race_from(later: &[StepAccess], d: &StepAccess, clock: &[u64], y: &StepAccess) -> bool
    ensures { result ≡ has_race_from (clock_in clock.now) y.now d.now later.now }
{
    later.iter().any(|w| is_racing_from(d, clock, y, w))
}

// An earlier access races with y, and none of these later ones that do is from its site.
fn is_latest_race(later: &[StepAccess], clock: &[u64], y: &StepAccess, d: &StepAccess) -> bool
    ensures { result ≡ is_latest_race (clock_in clock.now) y.now later.now d.now }
{
    is_racing(clock, y, d) && !has_race_from(later, d, clock, y)
}

// Notes the race with y of an access in the list, where it is the latest one from its site.
fn note_race(
    rows: &mut RowTable,
    list: &[StepAccess],
    index: usize,
    clock: &[u64],
    y: &StepAccess,
) -> Result<(), AllocError>
    requires { index < length list.now }
    ensures { OnOk result ((before : List (ARow PureUnit ℕ)) → let after = rows_with_races (clock_in clock.now) y.now in
        map row_in rows.old ≡ after (take index list.now) before → map row_in rows.new ≡ after (take (index + 1) list.now) before) }
{
    let d = &list[index];
    if is_latest_race(&list[..index], clock, y, d) {
        rows.add(d, y)?;
    }
    Ok(())
}

/// Notes the races of y with the latest accesses at its storage unit, of which the latest one comes first.
///
/// # Errors
///
/// Where memory was refused, and where a count would pass 2^64 - 1.
pub(crate) fn note_races(
    rows: &mut RowTable,
    list: &[StepAccess],
    clock: &[u64],
    y: &StepAccess,
) -> Result<(), AllocError>
    ensures { OnOk result (map row_in rows.new ≡ rows_with_races (clock_in clock.now) y.now list.now (map row_in rows.old)) }
{
    for index in 0..list.len() {
        note_race(rows, list, index, clock, y)?;
    }
    Ok(())
}

// Of the process of y, from its site.
fn is_repeat(y: &StepAccess, d: &StepAccess) -> bool
    ensures { result ≡ is_repeated unit_eq nat_eq (step_access_in y.now) (step_access_in d.now) }
{
    y.process == d.process && are_from_same_site(y, d)
}

/// Puts y in front of the latest accesses at its storage unit, without the one that it repeats.
///
/// # Errors
///
/// Where memory was refused.
pub(crate) fn put_first(list: &mut Vec<StepAccess>, y: &StepAccess) -> Result<(), AllocError>
    ensures { OnOk result (map step_access_in list.new.items
        ≡ step_access_in y.now ∷ filter (λ d. not (is_repeated unit_eq nat_eq (step_access_in y.now) d)) (
        map step_access_in list.old.items)) }
{
    list.retain(|d| !is_repeat(y, d));
    list.insert(0, *y)?;
    Ok(())
}
