//! The units of which processes have to make activations, where the arena is full.
ghost use Rattle.std.specs.Prelude.{◌≡◌, ◌++◌, IfOk, OnOk};
ghost use Rattle.std.specs.List.{flat_map};
ghost use Rattle.hep_machine.specs.Words as machine;
ghost use Rattle.hep_names.specs.Lists.{listed};
ghost use Rattle.hep_dump.specs.PendingCalls as words;

use crate::stop_notes::append_place_words;
use hep_core::{Core, Whereabouts};
use hep_names::{Meaning, NameWithList, ProgramSymbols, Symbols, names_with_lists};
use hep_output::append_number;
use hep_source::{Form, Name, Statement};
use hep_text::append_words;
use std::alloc::{AllocError, Global};

/// The greatest number of cells of an arena.
const MOST_CELLS: u64 = 16_777_216;

/// A subroutine or function of which a statement makes an activation: its name, and the index of its unit, if there
/// is one.
#[derive(Clone, Copy)]
pub(crate) struct PendingCall {
    pub(crate) name: Name,
    pub(crate) unit: Option<usize>,
}

// Adds the subroutine that a statement calls or creates.
fn add_called(
    wants: &mut Vec<PendingCall>,
    program: &ProgramSymbols,
    form: &Form,
) -> Result<(), AllocError>
    ensures { OnOk result (wants.new.items ≡ wants.old.items ++ words.wants_called program.now form.now) }
{
    match form {
        Form::Call(occurrence, _) | Form::Create(occurrence, _) => {
            let name = occurrence.name;
            let unit = program.subroutine_called(&name);
            wants.push(PendingCall { name, unit })?;
            Ok(())
        }
        _ => Ok(()),
    }
}

// Adds the function that a name with a list refers to, if it is one of the program.
fn add_listed(
    wants: &mut Vec<PendingCall>,
    program: &ProgramSymbols,
    symbols: &Symbols,
    reference: &NameWithList,
) -> Result<(), AllocError>
    ensures { OnOk result (wants.new.items ≡ wants.old.items ++ words.wants_listed program.now symbols.now (listed reference.now)) }
{
    let name = reference.occurrence.name;
    match symbols.listed_meaning(&name) {
        Meaning::External => {
            let unit = program.function_called(&name);
            wants.push(PendingCall { name, unit })?;
            Ok(())
        }
        _ => Ok(()),
    }
}

// The units of which a statement makes activations.
fn wants_of(
    alloc: Global,
    program: &ProgramSymbols,
    symbols: &Symbols,
    statement: &Statement,
) -> Result<Vec<PendingCall>, AllocError>
    ensures { IfOk result (λ wants. wants.items ≡ words.wants_of program.now symbols.now statement.now) }
{
    let references = names_with_lists(alloc, statement)?;
    let mut wants = Vec::new(alloc);
    add_called(&mut wants, program, &statement.form)?;
    for reference in &references {
        add_listed(&mut wants, program, symbols, reference)?;
    }
    Ok(wants)
}

// The units of which the statement of a unit at a line makes activations.
fn wants_at(
    alloc: Global,
    program: &ProgramSymbols,
    symbols: &Symbols,
    line: u32,
) -> Result<Vec<PendingCall>, AllocError>
    ensures { IfOk result (λ wants. wants.items ≡ words.wants_at program.now symbols.now line) }
{
    for statement in symbols.statements() {
        if statement.line == line {
            return wants_of(alloc, program, symbols, statement);
        }
    }
    Ok(Vec::new(alloc))
}

// The units of which the statement of a process makes activations.
fn wants_of_place(
    alloc: Global,
    program: &ProgramSymbols,
    place: &Whereabouts,
) -> Result<Vec<PendingCall>, AllocError>
    ensures { IfOk result (λ wants. wants.items
        ≡ words.wants_at program.now (machine.unit_at program.now place.now.unit) place.now.line) }
{
    match program.units().get(place.unit as usize) {
        Some(symbols) => wants_at(alloc, program, symbols, place.line),
        None => Ok(Vec::new(alloc)),
    }
}

// Appends an arena of `cells` cells, if a run may have it.
fn append_enough(line: &mut Vec<u8>, cells: u64) -> Result<(), AllocError>
    ensures { OnOk result (line.new.items ≡ line.old.items ++ words.enough_words cells) }
{
    if cells <= MOST_CELLS {
        line.extend_from_slice(b"; --arena ")?;
        append_number(line, cells)?;
        line.extend_from_slice(b" is enough for them")?;
    }
    Ok(())
}

// Appends the cells of the frame of a unit of this name, and an arena that is enough for it.
fn append_frame(line: &mut Vec<u8>, name: &[u8], frame: u32, cells: u32) -> Result<(), AllocError>
    ensures { OnOk result (line.new.items ≡ line.old.items ++ words.frame_words name.now frame cells) }
{
    line.extend_from_slice(b": ")?;
    line.extend_from_slice(name)?;
    line.extend_from_slice(b" takes ")?;
    append_number(line, frame)?;
    line.extend_from_slice(b" cells")?;
    append_enough(line, u64::from(cells) + u64::from(frame))
}

// Appends the cells of the frame that a process at a place has to make.
fn append_want(
    alloc: Global,
    text: &mut Vec<u8>,
    core: &Core,
    place: &Whereabouts,
    want: &PendingCall,
) -> Result<(), AllocError>
    ensures { OnOk result (text.new.items ≡ text.old.items ++ words.want_notes core.now.core.program core.now.core.cells place.now want.now) }
{
    let image = core.image();
    let Some(unit) = want.unit else {
        return Ok(());
    };
    if image.program().as_slice().len() <= unit {
        return Ok(());
    }
    let name = want.name.spelling(alloc)?;
    let mut line = Vec::new(alloc);
    append_place_words(&mut line, image, place)?;
    append_frame(
        &mut line,
        name.as_slice(),
        image.unit(unit).cells,
        core.cells(),
    )?;
    append_words(text, &line)
}

// Appends the cells of the frames that a process at a place has to make.
fn append_wants(
    alloc: Global,
    text: &mut Vec<u8>,
    core: &Core,
    place: &Whereabouts,
    wants: &[PendingCall],
) -> Result<(), AllocError>
    ensures { OnOk result (text.new.items
        ≡ text.old.items ++ flat_map (words.want_notes core.now.core.program core.now.core.cells place.now) wants.now) }
{
    for want in wants {
        append_want(alloc, text, core, place, want)?;
    }
    Ok(())
}

// Appends the cells of the frames that the statement of a process makes.
fn append_wants_of(
    alloc: Global,
    text: &mut Vec<u8>,
    core: &Core,
    program: &ProgramSymbols,
    place: Option<Whereabouts>,
) -> Result<(), AllocError>
    requires { program.now ≡ core.now.core.program }
    ensures { OnOk result (text.new.items ≡ text.old.items ++ words.wants_notes core.now.core.program core.now.core.cells place) }
{
    let Some(place) = place else {
        return Ok(());
    };
    let wants = wants_of_place(alloc, program, &place)?;
    append_wants(alloc, text, core, &place, &wants)
}

/// Appends, for each living process at a statement that calls or creates subroutines or refers to functions of the
/// program, the cells of their frames, and an arena that is enough for each.
///
/// # Errors
///
/// Only where memory was refused.
pub fn append_all_wants(alloc: Global, text: &mut Vec<u8>, core: &Core) -> Result<(), AllocError>
    ensures { OnOk result (text.new.items
        ≡ text.old.items ++ words.all_wants_notes core.now.core.program core.now.core.cells core.now.core.history) }
{
    let program = ProgramSymbols::new(alloc, core.image().program().as_slice())?;
    for before in 0..core.made() {
        append_wants_of(alloc, text, core, &program, core.whereabouts(before + 1))?;
    }
    Ok(())
}
