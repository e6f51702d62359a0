//! The notes after a stop.
ghost use Rattle.std.specs.Prelude.{◌≡◌, ◌+◌, ◌<◌, ◌^◌, ◌++◌, IfOk, OnOk};
ghost use Rattle.hep_image.specs.Names.{names_in_order};
ghost use Rattle.hep_text.specs.LineDisplay.{words_text};
ghost use Rattle.hep_dump.specs.StopNotes as stops;

use crate::faults::name_of;
use hep_base::Text;
use hep_core::{Core, Whereabouts};
use hep_image::Image;
use hep_output::append_number;
use hep_text::append_words;
use std::alloc::{AllocError, Global};

/// The greatest number of cells of an arena.
const MOST_CELLS: u32 = 16_777_216;

// Appends an arena of `cells` cells, if a run may have it.
fn append_arena(words: &mut Vec<u8>, cells: u32) -> Result<(), AllocError>
    ensures { OnOk result (words.new.items ≡ words.old.items ++ stops.arena_words cells) }
{
    if MOST_CELLS < cells {
        words.extend_from_slice(b"no arena has as many")?;
    } else {
        words.extend_from_slice(b"--arena ")?;
        append_number(words, cells)?;
        words.extend_from_slice(b" is enough to begin")?;
    }
    Ok(())
}

// Appends the cells of a main program of this name and of COMMON, and those of the arena.
fn append_opening(
    words: &mut Vec<u8>,
    name: &[u8],
    frame: u32,
    common: u32,
    cells: u32,
) -> Result<(), AllocError>
    requires few { frame + common < 2 ^ 32 }
    ensures { OnOk result (words.new.items ≡ words.old.items ++ stops.opening_words name.now frame common cells) }
{
    words.extend_from_slice(name)?;
    words.extend_from_slice(b" takes ")?;
    append_number(words, frame)?;
    words.extend_from_slice(b" cells and COMMON ")?;
    append_number(words, common)?;
    words.extend_from_slice(b", but there are ")?;
    append_number(words, cells)?;
    words.extend_from_slice(b": ")?;
    append_arena(words, frame + common)?;
    Ok(())
}

// A line of these words.
fn notes_of(alloc: Global, words: &[u8]) -> Result<Text, AllocError>
    ensures { IfOk result (λ notes. notes ≡ words_text words.now) }
{
    let mut notes = Vec::new(alloc);
    append_words(&mut notes, words)?;
    Ok(Text::from(notes))
}

/// The notes where COMMON and the frame of the main program don't fit an arena of `cells` cells: the cells of each,
/// and the smallest arena in which the run can begin.
///
/// # Errors
///
/// Only where memory was refused.
pub fn opening_notes(alloc: Global, image: &Image, cells: u32) -> Result<Text, AllocError>
    ensures { IfOk result (λ notes. notes ≡ stops.opening_notes image.now cells) }
{
    let main = image.main();
    let frame = image.unit(main as usize).cells;
    let mut words = Vec::new(alloc);
    append_opening(
        &mut words,
        name_of(image, main),
        frame,
        image.common(),
        cells,
    )?;
    notes_of(alloc, &words)
}

/// The notes where `used` of `cells` cells are taken, and a frame has no gap.
///
/// # Errors
///
/// Only where memory was refused.
pub fn used_notes(alloc: Global, used: u32, cells: u32) -> Result<Text, AllocError>
    ensures { IfOk result (λ notes. notes ≡ stops.used_notes used cells) }
{
    let mut words = Vec::new(alloc);
    append_number(&mut words, used)?;
    words.extend_from_slice(b" of ")?;
    append_number(&mut words, cells)?;
    words.extend_from_slice(
        b" cells are in use; hepf list tells what the frame of each unit takes",
    )?;
    notes_of(alloc, &words)
}

// Appends the place of a process, in words.
pub(crate) fn append_place_words(
    words: &mut Vec<u8>,
    image: &Image,
    place: &Whereabouts,
) -> Result<(), AllocError>
    ensures { OnOk result (words.new.items ≡ words.old.items ++ stops.place_words (names_in_order image.now) place.now) }
{
    words.extend_from_slice(b"process ")?;
    append_number(words, place.process)?;
    words.extend_from_slice(b" is at ")?;
    words.extend_from_slice(name_of(image, place.unit))?;
    words.extend_from_slice(b" LINE ")?;
    append_number(words, place.line)?;
    Ok(())
}

// Appends the place of a process, if it lives.
fn append_place(
    alloc: Global,
    text: &mut Vec<u8>,
    image: &Image,
    place: Option<Whereabouts>,
) -> Result<(), AllocError>
    ensures { OnOk result (text.new.items ≡ text.old.items ++ stops.place_notes (names_in_order image.now) place) }
{
    let Some(place) = place else {
        return Ok(());
    };
    let mut words = Vec::new(alloc);
    append_place_words(&mut words, image, &place)?;
    append_words(text, &words)
}

/// Appends the places of all living processes.
///
/// # Errors
///
/// Only where memory was refused.
pub fn append_places(alloc: Global, text: &mut Vec<u8>, core: &Core) -> Result<(), AllocError>
    ensures { OnOk result (text.new.items ≡ text.old.items ++ stops.all_places_notes core.now.core.program core.now.core.history) }
{
    for before in 0..core.made() {
        append_place(alloc, text, core.image(), core.whereabouts(before + 1))?;
    }
    Ok(())
}
