//! The event of a step, read from a machine before the step and after it.
ghost use Rattle.std.specs.Prelude.{◌≡◌, ◌≢◌, ◌++◌, ◌∷◌, [], ℕ, IfOk, List, None, Some, map};
ghost use Rattle.std.specs.Option.{option_to_list};
ghost use Rattle.hep_machine.specs.Words.{Level, Process as SourceProcess, Units, living, run, step};
ghost use Rattle.hep_event.specs.Sites.{IsSomeSite};
ghost use Rattle.hep_state.specs.Words.{IsMachineAfter};
ghost use Rattle.hep_trace.specs.References.{IsAhead, top_after};
ghost use Rattle.hep_views.specs.ListedProcesses.{place_of};
ghost use Rattle.hep_races.specs.NamesInBounds.{AreBoundsOf};
ghost use Rattle.hep_races.specs.StepChanges.{changes_on_top};
ghost use Rattle.hep_races.specs.StepEvents as events;
ghost use Rattle.hep_races.specs.StepEvents.{AreNamesOf, HasState, IsLookedAt, IsNamedAhead, IsObserved};

use crate::bound_names::BoundNames;
use crate::bound_reads::bounds_ahead;
use crate::purged_places::{append_purged, purged_units_are_there};
use crate::step_access::{NamedUnit, SitedAccess, access_by, change_by, fault_access, need_by};
use crate::unit_names::UnitNames;
use hep_code::Operation;
use hep_event::site_laws::operations_name_variables;
use hep_event::{Site, named, site_of};
use hep_state::CoreState;
use hep_trace::turn_laws::operations_come_next;
use hep_trace::{LiveProcess, number_of};
use hep_views::Place;
use hep_views::lookup::{top_level, whereabouts};
use std::alloc::{AllocError, Global};

/// A step of a process, observed before it and after it: the process, the one that it makes, the full/empty storage unit
/// whose state it needs, those whose state it changes, its plain access, and what it reads of the names in bounds of
/// adjustable dummy arrays.
pub struct ObservedStep {
    pub process: u64,
    pub makes: Option<u64>,
    pub needs: Option<Place>,
    pub changes: Vec<Place>,
    pub access: Option<SitedAccess>,
    pub bounds: Vec<SitedAccess>,
    /// The access where the step is a fault.
    pub(crate) fault_access: Option<SitedAccess>,
    /// The numbers of processes that were made before the step, and of faults.
    pub(crate) made: u64,
    pub(crate) faults: usize,
}

// Written out, so that a caller's proof has one call of it at each exit.
impl Drop for ObservedStep {
    fn drop(self) {
        let ObservedStep {
            process,
            makes,
            needs,
            changes,
            access,
            bounds,
            fault_access,
            made,
            faults,
        } = self;
    }
}

// The variable or element that the next operation of a process names.
fn named_ahead(ahead: &LiveProcess<'_>, names: &UnitNames) -> Option<NamedUnit>
    requires names { AreNamesOf ahead.now.image.now names.now }
    requires ahead { (cells : ℕ) × (choices : List ℕ) × (top : Level × SourceProcess) × IsAhead cells choices ahead.now top }
    ensures named { (cells : ℕ) (choices : List ℕ) (top : Level × SourceProcess) → IsAhead cells choices ahead.now top
        → IsNamedAhead cells choices ahead.now (top_after ahead.now.image.now choices ahead.now.process top) result }
    ensures some { events.IsSomeNamed ahead.now.machine.now result }
{
    operations_name_variables();
    ahead.image.is_runnable();
    let Some((variable, subscripts)) = named(ahead.coming.operation, &ahead.coming.operands) else {
        return None;
    };
    let Some(number) = number_of(ahead, variable) else {
        return None;
    };
    let unit = top_level(ahead.machine, ahead.process).unit as usize;
    let Some(name) = names.name_with(ahead.image, unit, number) else {
        return None;
    };
    let site = site_of(
        ahead.machine,
        ahead.image,
        ahead.process,
        variable,
        subscripts,
    );
    Some(NamedUnit { name, unit: site })
}

// The process that a step made, by the numbers of processes before and after it.
fn made_since(before: u64, after: u64) -> Option<u64>
    ensures { result ≡ events.made_since before after }
{
    if before < after {
        Some(before + 1)
    } else {
        None
    }
}

// A list of one place, or of none.
fn listed(alloc: Global, place: Option<Place>) -> Result<Vec<Place>, AllocError>
    ensures { IfOk result (λ places. places.items ≡ option_to_list place) }
{
    let mut places = Vec::new(alloc);
    if let Some(place) = place {
        places.push(place)?;
    }
    Ok(places)
}

// Whether a storage unit is full; false where there is none.
fn is_full(machine: &CoreState, site: Option<Site>) -> bool
    requires { IsSomeSite machine.now site }
    ensures { HasState machine.now site result }
{
    match site {
        Some(site) => machine.frames.get(site.cell).full,
        None => false,
    }
}

// Whether the named storage unit is full; false where there is none.
fn is_named_full(machine: &CoreState, named: Option<NamedUnit>) -> bool
    requires { events.IsSomeNamed machine.now named }
    ensures { events.HasNamedState machine.now named result }
{
    match named {
        Some(named) => is_full(machine, named.unit),
        None => false,
    }
}

// The places of the full/empty storage units that the next step of a process makes full or empty, unless it is a fault.
// `named` is what its operation names, which is full or not.
fn changed_ahead(
    alloc: Global,
    ahead: &LiveProcess<'_>,
    named: Option<NamedUnit>,
    full: bool,
) -> Result<Vec<Place>, AllocError>
    requires { (cells : ℕ) × (choices : List ℕ) × (top : Level × SourceProcess) × IsAhead cells choices ahead.now top }
    ensures { IfOk result (λ places. (cells : ℕ) (choices : List ℕ) (top : Level × SourceProcess) → IsAhead cells choices ahead.now top
        → IsNamedAhead cells choices ahead.now (top_after ahead.now.image.now choices ahead.now.process top) named
        → events.HasNamedState ahead.now.machine.now named full
        → places.items ≡ map (place_of ahead.now.image.now (run ahead.now.image.now choices))
        (changes_on_top ahead.now.image.now (top_after ahead.now.image.now choices ahead.now.process top))) }
{
    ahead.image.is_runnable();
    operations_come_next();
    let mut places = listed(alloc, change_by(ahead.coming.operation, named, full))?;
    if let Operation::Purge { count, .. } = ahead.coming.operation {
        append_purged(&mut places, ahead, count)?;
    }
    Ok(places)
}

/// The next step of a process, observed before it.
///
/// # Errors
///
/// Only where memory was refused.
pub fn look_ahead(
    alloc: Global,
    ahead: &LiveProcess<'_>,
    names: &UnitNames,
    bounds: &BoundNames,
) -> Result<ObservedStep, AllocError>
    requires names { AreNamesOf ahead.now.image.now names.now }
    requires bounds { AreBoundsOf ahead.now.image.now bounds.now }
    requires ahead { (cells : ℕ) × (choices : List ℕ) × (top : Level × SourceProcess) × IsAhead cells choices ahead.now top }
    ensures { IfOk result (λ observed. (cells : ℕ) (choices : List ℕ) (top : Level × SourceProcess) → IsAhead cells choices ahead.now top
        → IsLookedAt ahead.now.image.now (top_after ahead.now.image.now choices ahead.now.process top) observed) }
{
    ahead.image.is_runnable();
    operations_come_next();
    purged_units_are_there(ahead);
    let machine = ahead.machine;
    let operation = ahead.coming.operation;
    let place = whereabouts(machine, ahead.image, ahead.process);
    let named = named_ahead(ahead, names);
    let full = is_named_full(machine, named);
    let changes = changed_ahead(alloc, ahead, named, full)?;
    let bounds = bounds_ahead(alloc, ahead, bounds)?;
    let access = access_by(operation, named, place.unit, place.line);
    Ok(ObservedStep {
        process: ahead.process,
        makes: None,
        needs: need_by(operation, named),
        changes,
        access,
        bounds,
        fault_access: fault_access(operation, access),
        made: machine.made,
        faults: machine.faults.as_slice().len(),
    })
}

impl ObservedStep {
    /// Observes it after it, in the machine that it led to.
    pub fn end(&mut self, machine: &CoreState)
        ensures { (program : Units) (cells : ℕ) (choices : List ℕ) (p : ℕ) (top : Level × SourceProcess)
            → living (run program choices) p ≡ Some top → step program p (run program choices) ≢ None
            → IsLookedAt program (top_after program choices p top) self.old → IsMachineAfter program cells (choices ++ p ∷ []) machine.now
            → IsObserved program (top_after program choices p top) (run program (choices ++ p ∷ [])) self.new }
    {
        self.makes = made_since(self.made, machine.made);
        let faults = machine.faults.as_slice().len();
        if self.faults < faults {
            self.changes.clear();
            self.access = self.fault_access;
        }
    }
}
