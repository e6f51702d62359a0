//! The lines of faults.
ghost use Rattle.std.specs.Prelude.{◌≡◌, ◌++◌, IfOk, OnOk, slice_get};
ghost use Rattle.hep_image.specs.Names.{names_in_order};
ghost use Rattle.hep_core.specs.CoreValues.{state_of};
ghost use Rattle.hep_dump.specs.Faults as words;
ghost use Rattle.hep_dump.specs.Names.{name_found};

use hep_core::Core;
use hep_image::Image;
use hep_machine::{Fault, Kind};
use hep_output::append_number;
use hep_source::MAIN_NAME;
use std::alloc::{AllocError, Global};

/// The word for a kind of fault.
pub fn kind_text(kind: Kind) -> &'static [u8]
    ensures { result.now ≡ words.kind_text kind }
{
    match kind {
        Kind::Overflow => b"OVERFLOW",
        Kind::Divide => b"DIVIDE",
        Kind::Range => b"RANGE",
        Kind::Undefined => b"UNDEFINED",
        Kind::Shape => b"SHAPE",
        Kind::Step => b"STEP",
    }
}

// The place and the reason: ` LINE n fault`.
fn append_cause(text: &mut Vec<u8>, fault: &Fault) -> Result<(), AllocError>
    ensures { OnOk result (text.new.items ≡ text.old.items ++ words.cause_text fault.now) }
{
    text.extend_from_slice(b" LINE ")?;
    append_number(text, fault.line)?;
    text.extend_from_slice(b" ")?;
    text.extend_from_slice(kind_text(fault.kind))?;
    text.extend_from_slice(b"\n")?;
    Ok(())
}

/// Appends the line of a fault in a unit of this name: `FAULT p unit LINE n fault`.
///
/// # Errors
///
/// Only where memory was refused.
pub fn append_fault(text: &mut Vec<u8>, unit: &[u8], fault: &Fault) -> Result<(), AllocError>
    ensures { OnOk result (text.new.items
        ≡ text.old.items ++ words.fault_text unit.now fault.now) }
{
    text.extend_from_slice(b"FAULT ")?;
    append_number(text, fault.process)?;
    text.extend_from_slice(b" ")?;
    text.extend_from_slice(unit)?;
    append_cause(text, fault)?;
    Ok(())
}

/// The name with this number.
pub fn name_of(image: &Image, number: u32) -> &[u8]
    ensures { result.now ≡ name_found (slice_get (names_in_order image.now) number) }
{
    match image.name(number) {
        Some(name) => name,
        None => MAIN_NAME,
    }
}

/// Appends the lines of faults, in order.
///
/// # Errors
///
/// Only where memory was refused.
pub fn append_faults(text: &mut Vec<u8>, image: &Image, faults: &[Fault]) -> Result<(), AllocError>
    ensures { OnOk result (text.new.items
        ≡ text.old.items ++ words.faults_text (names_in_order image.now) faults.now) }
{
    for fault in faults {
        append_fault(text, name_of(image, fault.unit), fault)?;
    }
    Ok(())
}

/// The lines of a core's faults, in order.
///
/// # Errors
///
/// Only where memory was refused.
pub fn fault_text(alloc: Global, core: &Core) -> Result<Vec<u8>, AllocError>
    ensures { IfOk result (λ text. text.items
        ≡ words.faults_text (names_in_order core.now.core.program) (state_of core.now.core).faults) }
{
    let mut text = Vec::new(alloc);
    append_faults(&mut text, core.image(), core.faults())?;
    Ok(text)
}
