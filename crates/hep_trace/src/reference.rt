//! The variable that the next operation of a process names, in the words of its turn's line.
ghost use Rattle.std.specs.Prelude.{◌≡◌, ◌&&◌, ℕ, List, IfOk, Some, nat_eq, option_map};
ghost use Rattle.hep_image.specs.Names.{names_in_order, variable_number};
ghost use Rattle.hep_machine.specs.Words.{Level, Name as SourceName, Process as SourceProcess, run, unit_of, unit_on_top};
ghost use Rattle.hep_event.specs.Sites.{IsVariableOf};
ghost use Rattle.hep_trace.specs.References.{IsAhead, IsReferenceAhead, shown_by, top_after};

use hep_code::Variable;
use hep_event::site_laws::operations_name_variables;
use hep_event::{NextOperation, Site, Variables, named, site_of};
use hep_image::Image;
use hep_state::CoreState;
use hep_state_text::{Place, place_text};
use hep_views::lookup::top_level;
use std::alloc::{AllocError, Global};

/// A living process of a machine, with its next operation, and the variables of its program.
#[derive(Clone, Copy)]
pub struct LiveProcess<'a> {
    pub machine: &'a CoreState,
    pub image: &'a Image,
    pub variables: &'a Variables,
    pub process: u64,
    pub coming: &'a NextOperation<'a>,
}

/// A variable or an element: the number of its name in the unit, for `Image::name`; its site; and words for its
/// owner, unless that is the activation itself.
#[derive(Drop)]
pub struct Reference {
    pub name: u32,
    pub site: Option<Site>,
    pub place: Option<Vec<u8>>,
}

// Whether a place is that of a name of the activation itself.
fn is_own(place: Place, activation: u64, name: u32) -> bool
    ensures { result ≡ (nat_eq place.owner activation && nat_eq place.name name) }
{
    place.owner == activation && place.name == name
}

// Words for the owner of a storage unit, unless it is that of a name of the activation itself.
fn place_shown(
    alloc: Global,
    image: &Image,
    site: Option<Site>,
    activation: u64,
    name: u32,
) -> Result<Option<Vec<u8>>, AllocError>
    ensures { IfOk result (λ place. option_map (λ text. text.items) place
        ≡ shown_by (names_in_order image.now) activation name site) }
{
    let Some(site) = site else {
        return Ok(None);
    };
    if is_own(site.place, activation, name) {
        return Ok(None);
    }
    Ok(Some(place_text(alloc, image, site.place)?))
}

/// The number of the name that the unit of a process's top activation has for a variable. `None` where it has no name
/// for it.
pub fn number_of(ahead: &LiveProcess<'_>, variable: Variable) -> Option<u32>
    requires { (cells : ℕ) × (choices : List ℕ) × (top : Level × SourceProcess) × IsAhead cells choices ahead.now top }
    ensures { (cells : ℕ) (choices : List ℕ) (top : Level × SourceProcess) (x : SourceName) → IsAhead cells choices ahead.now top
        → IsVariableOf ahead.now.image.now (unit_on_top ahead.now.image.now (top_after ahead.now.image.now choices ahead.now.process top)) x variable
        → result ≡ Some (variable_number ahead.now.image.now (unit_of (run ahead.now.image.now choices) top.0.activation) x) }
{
    let level = top_level(ahead.machine, ahead.process);
    ahead
        .variables
        .number_of(ahead.image, level.unit as usize, variable)
}

// Words for the owner of a storage unit, unless it is that of this name of the process's top activation.
fn place_ahead(
    alloc: Global,
    ahead: &LiveProcess<'_>,
    site: Option<Site>,
    name: u32,
) -> Result<Option<Vec<u8>>, AllocError>
    requires { (cells : ℕ) × (choices : List ℕ) × (top : Level × SourceProcess) × IsAhead cells choices ahead.now top }
    ensures { IfOk result (λ place. (cells : ℕ) (choices : List ℕ) (top : Level × SourceProcess) → IsAhead cells choices ahead.now top
        → option_map (λ text. text.items) place ≡ shown_by (names_in_order ahead.now.image.now) top.0.activation name site) }
{
    let level = top_level(ahead.machine, ahead.process);
    let activation = ahead.machine.frames.activation(level.key);
    place_shown(alloc, ahead.image, site, activation, name)
}

/// The variable that the next operation of a process names. `None` where it names none.
///
/// # Errors
///
/// Only where memory was refused.
pub fn reference_ahead(
    alloc: Global,
    ahead: &LiveProcess<'_>,
) -> Result<Option<Reference>, AllocError>
    requires { (cells : ℕ) × (choices : List ℕ) × (top : Level × SourceProcess) × IsAhead cells choices ahead.now top }
    ensures { IfOk result (λ found. (cells : ℕ) (choices : List ℕ) (top : Level × SourceProcess) → IsAhead cells choices ahead.now top
        → IsReferenceAhead cells choices ahead.now (top_after ahead.now.image.now choices ahead.now.process top) found) }
{
    operations_name_variables();
    ahead.image.is_runnable();
    let Some((variable, subscripts)) = named(ahead.coming.operation, &ahead.coming.operands) else {
        return Ok(None);
    };
    let Some(name) = number_of(ahead, variable) else {
        return Ok(None);
    };
    let site = site_of(
        ahead.machine,
        ahead.image,
        ahead.process,
        variable,
        subscripts,
    );
    let place = place_ahead(alloc, ahead, site, name)?;
    Ok(Some(Reference { name, site, place }))
}
