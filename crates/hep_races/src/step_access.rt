//! What one step accesses, needs and changes, by its operation and the variable that this names.
ghost use Rattle.std.specs.Prelude.{◌≡◌};
ghost use Rattle.hep_races.specs.StepEvents as events;

use hep_code::{Evaluation, Operation};
use hep_event::Site;
use hep_source::{Name, StateFunction};
use hep_views::Place;

/// From where in a program an access is made: the unit and the line of the statement, and the name.
#[derive(Clone, Copy, Debug, PartialEq, Eq, Hash)]
pub struct AccessSite {
    pub unit: u32,
    pub line: u32,
    pub name: Name,
}

/// An access of a step to a plain storage unit.
#[derive(Clone, Copy)]
pub struct SitedAccess {
    pub at: Place,
    pub stores: bool,
    pub site: AccessSite,
}

/// A variable or an element that an operation names: its name, and its storage unit. `None` where there is no such
/// element.
#[derive(Clone, Copy)]
pub(crate) struct NamedUnit {
    pub(crate) name: Name,
    pub(crate) unit: Option<Site>,
}

/// Whether an operation accesses a plain storage unit, and then whether it stores, unless it is a fault.
pub(crate) fn plain_access_of(operation: Operation) -> Option<bool>
    ensures { result ≡ events.plain_access_of operation }
{
    match operation {
        Operation::Evaluate(Evaluation::Load { variable, .. }) => {
            if variable.is_asynchronous() {
                None
            } else {
                Some(false)
            }
        }
        Operation::Store { variable, .. } => {
            if variable.is_asynchronous() {
                None
            } else {
                Some(true)
            }
        }
        Operation::EnterLoop { .. } | Operation::EndLoop { .. } => Some(true),
        Operation::Answer { .. } => Some(false),
        _ => None,
    }
}

/// Whether an operation needs the state of the full/empty storage unit that it names.
pub(crate) fn needs_state(operation: Operation) -> bool
    ensures { result ≡ events.needs_state operation }
{
    match operation {
        Operation::Evaluate(Evaluation::Load { variable, .. }) => variable.is_asynchronous(),
        Operation::Evaluate(Evaluation::Test { function, .. }) => {
            matches!(function, StateFunction::WaitFull)
        }
        Operation::Store { variable, .. } => variable.is_asynchronous(),
        _ => false,
    }
}

/// Whether an operation changes the state of the full/empty storage unit that it names, which is full or not, unless
/// it is a fault.
pub(crate) fn changes_state(operation: Operation, full: bool) -> bool
    ensures { result ≡ events.changes_state operation full }
{
    match operation {
        Operation::Evaluate(Evaluation::Load { variable, .. }) => variable.is_asynchronous(),
        Operation::Evaluate(Evaluation::Test { function, .. }) => {
            matches!(function, StateFunction::SetEmpty) && full
        }
        Operation::Store { variable, .. } => variable.is_asynchronous(),
        _ => false,
    }
}

/// The storage unit that is named, if there is one.
pub(crate) fn place_named(named: Option<NamedUnit>) -> Option<Place>
    ensures { result ≡ events.place_named named }
{
    match named {
        Some(named) => match named.unit {
            Some(site) => Some(site.place),
            None => None,
        },
        None => None,
    }
}

/// The plain access of an operation of a unit and a line, unless it is a fault.
pub(crate) fn access_by(
    operation: Operation,
    named: Option<NamedUnit>,
    unit: u32,
    line: u32,
) -> Option<SitedAccess>
    ensures { result ≡ events.access_by operation named unit line }
{
    let stores = plain_access_of(operation)?;
    let named = named?;
    let site = named.unit?;
    Some(SitedAccess {
        at: site.place,
        stores,
        site: AccessSite {
            unit,
            line,
            name: named.name,
        },
    })
}

/// The full/empty storage unit whose state an operation needs.
pub(crate) fn need_by(operation: Operation, named: Option<NamedUnit>) -> Option<Place>
    ensures { result ≡ events.need_by operation named }
{
    if needs_state(operation) {
        place_named(named)
    } else {
        None
    }
}

/// The full/empty storage unit that an operation other than PURGE makes full or empty, unless it is a fault, where the
/// one that it names is full or not.
pub(crate) fn change_by(operation: Operation, named: Option<NamedUnit>, full: bool) -> Option<Place>
    ensures { result ≡ events.change_by operation named full }
{
    if changes_state(operation, full) {
        place_named(named)
    } else {
        None
    }
}

/// The access of an operation where its step is a fault, by that where it is none.
pub(crate) fn fault_access(operation: Operation, access: Option<SitedAccess>) -> Option<SitedAccess>
    ensures { result ≡ events.fault_access operation access }
{
    match operation {
        Operation::EnterLoop { .. } => None,
        Operation::EndLoop { .. } => match access {
            Some(access) => Some(SitedAccess {
                at: access.at,
                stores: false,
                site: access.site,
            }),
            None => None,
        },
        _ => access,
    }
}
