//! An observer of a history's turns that finds the races.
ghost use Rattle.std.specs.Prelude.{◌≡◌, ◌++◌, ◌∷◌, [], ℕ, IfOk, List, OnOk, map, nat_le};
ghost use Rattle.std.specs.Option.{option_map, option_to_list};
ghost use Rattle.hep_fold.specs.Observers.{Replay};
ghost use Rattle.hep_races.specs.ObservedRuns.{AreNumbered, AreObserved};
ghost use Rattle.hep_races.specs.RunNames.{unit_of_place};
ghost use Rattle.hep_races.specs.declared.step_access.AccessSite.{AccessSite as Site};
ghost use Rattle.hep_races.specs.declared.step_access.SitedAccess.{SitedAccess as Accessed};

use crate::bound_names::BoundNames;
use crate::detector::Detector;
use crate::event::{Access, StepEvent};
use crate::site_table::SiteTable;
use crate::step_access::SitedAccess;
use crate::step_event::{ObservedStep, look_ahead};
use crate::storage_unit::StorageUnit;
use crate::unit_names::UnitNames;
use crate::watched_code::watches_for;
use hep_advance::{Breakpoints, pass_on};
use hep_event::{Variables, coming_of};
use hep_fold::{DecodedImage, Observer, TurnRow, go_on};
use hep_image::Image;
use hep_machine::laws::numbers_rise;
use hep_state::CoreState;
use hep_trace::LiveProcess;
use hep_views::Place;
use std::alloc::{AllocError, Global};

/// Finds the races of a history while its turns are made.
pub struct RaceObserver {
    alloc: Global,
    variables: Variables,
    names: UnitNames,
    bounds: BoundNames,
    // The indexes of the code from which a step is observed.
    watches: Vec<Breakpoints>,
    // The accesses of the step that was observed last. Its room is used again for the next one.
    accesses: Vec<Access>,
    pub(crate) sites: SiteTable,
    pub(crate) detector: Detector,
}

// Written out, so that a caller's proof has one call of it at each exit.
impl Drop for RaceObserver {
    fn drop(self) {
        let RaceObserver {
            alloc,
            variables,
            names,
            bounds,
            watches,
            accesses,
            sites,
            detector,
        } = self;
    }
}

// The storage unit of a place.
fn unit_of(place: Place) -> StorageUnit
    ensures { result ≡ unit_of_place place }
{
    StorageUnit {
        owner: place.owner,
        name: place.name,
        element: place.element,
    }
}

// The storage unit of a place, if there is one.
fn unit_needed(place: Option<Place>) -> Option<StorageUnit>
    ensures { result ≡ option_map unit_of_place place }
{
    match place {
        Some(place) => Some(unit_of(place)),
        None => None,
    }
}

// The storage units of places.
fn units_of(alloc: Global, places: &[Place]) -> Result<Vec<StorageUnit>, AllocError>
    ensures { IfOk result (λ units. units.items ≡ map unit_of_place places.now) }
{
    let mut units = Vec::new(alloc);
    for place in places {
        units.push(unit_of(*place))?;
    }
    Ok(units)
}

// Appends an access with the number of its site.
fn append_access(
    sites: &mut SiteTable,
    numbered: &mut Vec<Access>,
    access: &SitedAccess,
) -> Result<(), AllocError>
    ensures numbered { OnOk result ((xs : List Accessed) → AreNumbered sites.old xs numbered.old.items
        → AreNumbered sites.new (xs ++ access.now ∷ []) numbered.new.items) }
    ensures kept { OnOk result ((more : List Site) × (sites.new ≡ sites.old ++ more)) }
{
    let site = sites.number(access.site)?;
    numbered.push(Access {
        at: unit_of(access.at),
        stores: access.stores,
        site,
    })?;
    Ok(())
}

// Appends an access with the number of its site, if there is one.
fn append_named(
    sites: &mut SiteTable,
    numbered: &mut Vec<Access>,
    access: Option<SitedAccess>,
) -> Result<(), AllocError>
    ensures numbered { OnOk result ((xs : List Accessed) → AreNumbered sites.old xs numbered.old.items
        → AreNumbered sites.new (xs ++ option_to_list access) numbered.new.items) }
    ensures kept { OnOk result ((more : List Site) × (sites.new ≡ sites.old ++ more)) }
{
    match access {
        Some(access) => append_access(sites, numbered, &access),
        None => Ok(()),
    }
}

// Appends accesses with the numbers of their sites.
fn append_accesses(
    sites: &mut SiteTable,
    numbered: &mut Vec<Access>,
    accesses: &[SitedAccess],
) -> Result<(), AllocError>
    ensures numbered { OnOk result ((xs : List Accessed) → AreNumbered sites.old xs numbered.old.items
        → AreNumbered sites.new (xs ++ accesses.now) numbered.new.items) }
    ensures kept { OnOk result ((more : List Site) × (sites.new ≡ sites.old ++ more)) }
{
    for access in accesses {
        append_access(sites, numbered, access)?;
    }
    Ok(())
}

// Puts the accesses of a step, with the numbers of their sites, in the place of others.
fn number_accesses(
    sites: &mut SiteTable,
    numbered: &mut Vec<Access>,
    step: &ObservedStep,
) -> Result<(), AllocError>
    ensures numbered { OnOk result (AreNumbered sites.new (option_to_list step.now.access ++ step.now.bounds.items) numbered.new.items) }
    ensures kept { OnOk result ((more : List Site) × (sites.new ≡ sites.old ++ more)) }
{
    numbered.clear();
    append_named(sites, numbered, step.access)?;
    append_accesses(sites, numbered, &step.bounds)?;
    Ok(())
}

// Whether there was one process alone so far. Its steps race with nothing, since it makes each other process after them.
fn is_alone(machine: &CoreState) -> bool
    ensures { result ≡ nat_le machine.now.made 1 }
{
    machine.made <= 1
}

impl RaceObserver {
    /// An observer that has observed no turn of an image's program.
    ///
    /// # Errors
    ///
    /// Only where memory was refused.
    pub fn new(alloc: Global, image: &Image) -> Result<RaceObserver, AllocError>
        ensures { IfOk result (λ observer. (replay : Replay)
            → AreObserved image.now replay [] observer (record { alone = 0; events = [] })) }
    {
        let variables = Variables::of_image(alloc, image)?;
        let names = UnitNames::of_image(alloc, image)?;
        let bounds = BoundNames::of_image(alloc, image)?;
        let watches = watches_for(alloc, image)?;
        Ok(RaceObserver {
            alloc,
            variables,
            names,
            bounds,
            watches,
            accesses: Vec::new(alloc),
            sites: SiteTable::new(alloc),
            detector: Detector::new(alloc),
        })
    }
}

impl Observer for RaceObserver {
    ghost use Rattle.hep_races.specs.ObservedRuns.{AreObserved, IsNoted, RunSteps, with_step};

    ghost Seen = { RunSteps };

    ghost knows = { AreObserved };

    ghost see = { λ program entry. with_step program };

    type Look = ObservedStep;

    ghost notes = { λ program replay made entry p o look. IsNoted program made p look };

    fn look(
        &self,
        machine: &CoreState,
        image: &Image,
        entry: u64,
        p: u64,
    ) -> Result<ObservedStep, AllocError> {
        let coming = coming_of(self.alloc, machine, image, p)?;
        let ahead = LiveProcess {
            machine,
            image,
            variables: &self.variables,
            process: p,
            coming: &coming,
        };
        let observed = look_ahead(self.alloc, &ahead, &self.names, &self.bounds)?;
        Ok(observed)
    }

    fn tell(
        &mut self,
        machine: &CoreState,
        image: &Image,
        entry: u64,
        p: u64,
        look: ObservedStep,
    ) -> Result<(), AllocError> {
        numbers_rise();
        if is_alone(machine) {
            self.detector.pass(1);
            return Ok(());
        }
        let mut step = look;
        step.end(machine);
        let changes = units_of(self.alloc, &step.changes)?;
        number_accesses(&mut self.sites, &mut self.accesses, &step)?;
        let event = StepEvent {
            process: step.process,
            makes: step.makes,
            needs: unit_needed(step.needs),
            changes: &changes,
            accesses: &self.accesses,
        };
        self.detector.observe(&event)?;
        Ok(())
    }

    fn go_on(&mut self, machine: &mut CoreState, tabled: &DecodedImage<'_>, row: TurnRow) -> u64 {
        if !is_alone(machine) {
            let watches = self.watches.as_slice();
            let passed = pass_on(machine, tabled, watches, row.process, row.count);
            self.detector.pass(passed);
            return passed;
        }
        let made = go_on(machine, tabled, row.process, row.count);
        self.detector.pass(made);
        made
    }
}
