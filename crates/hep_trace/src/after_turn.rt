//! What is observed of a turn after it.
ghost use Rattle.std.specs.Prelude.{◌≡◌, ◌++◌, ◌∷◌, [], IfOk, List, OnOk, Some, false, length, true};
ghost use Rattle.hep_core.specs.CoreValues.{state_of};
ghost use Rattle.hep_machine.specs.Words.{Top, Wanted, is_number_among, living, progress_after, wanted_by};
ghost use Rattle.hep_machine.specs.declared.event.Fault.{Fault as SourceFault};
ghost use Rattle.hep_machine.specs.declared.record.Item.{Item as SourceItem};
ghost use Rattle.hep_output.specs.Records.{items_text};
ghost use Rattle.hep_state_text.specs.States.{place_text};
ghost use Rattle.hep_event.specs.StepTexts.{fault_added, line_by};
ghost use Rattle.hep_event.specs.LineTexts as lines;

use hep_event::{Core, Kind, append_waits};
use hep_output::record_text;
use hep_state_text::{listed, place_listed};
use std::alloc::{AllocError, Global};

/// The fault that was added after the first `count`, if there is one more.
pub fn fault_since(core: &Core, count: usize) -> Option<Kind>
    ensures { (before : List SourceFault) → count ≡ length before → result ≡ fault_added before (state_of core.now.core).faults }
{
    match core.faults().get(count) {
        Some(fault) => Some(fault.kind),
        None => None,
    }
}

/// The line of process p, and 0 where it was never made or has ended.
pub fn line_of(core: &Core, p: u64) -> u32
    ensures { (t : Top) → result ≡ line_by core.now.core.program t (state_of core.now.core) (living (state_of core.now.core) p) }
{
    match core.whereabouts(p) {
        Some(place) => place.line,
        None => 0,
    }
}

/// The items of the last record, as they are printed; nothing where there is no record.
///
/// # Errors
///
/// Only where memory was refused.
pub fn printed(alloc: Global, core: &Core) -> Result<Vec<u8>, AllocError>
    ensures { IfOk result (λ text. (before : List (List SourceItem)) (items : List SourceItem) → (state_of core.now.core).records ≡ before ++ items ∷ []
        → text.items ≡ items_text false items) }
{
    let Some(record) = core.output().last() else {
        return Ok(Vec::new(alloc));
    };
    // The record's text has a blank before the items, and an end of line after them.
    let text = record_text(alloc, record)?;
    text[1..text.len() - 1].to_vec(alloc)
}

/// Appends that process p waits, which was found waiting and still waits, and what it waits for.
///
/// # Errors
///
/// Only where memory was refused.
pub fn append_wait(alloc: Global, text: &mut Vec<u8>, core: &Core, p: u64) -> Result<(), AllocError>
    requires { is_number_among p (progress_after core.now.core.program core.now.core.history).listed ≡ true }
    ensures { OnOk result ((w : Wanted) → wanted_by core.now.core.program p (state_of core.now.core) ≡ Some w
        → text.new.items ≡ text.old.items ++ lines.waits_text w.full (place_text core.now.core.program (state_of core.now.core) w.at)) }
{
    let Some(want) = core.want(p) else {
        unreachable!()
    };
    let image = core.image();
    image.is_runnable();
    let listed = listed(core.machine(), image, p, want);
    let place = hep_state_text::place_text(alloc, image, place_listed(&listed))?;
    append_waits(text, listed.full, &place)
}
