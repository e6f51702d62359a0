//! What everything holds after the history of a core.
ghost use Rattle.std.specs.Prelude.{◌≡◌, ◌++◌, ◌≤◌, ◌<◌, ℕ, Some, IfOk, OnOk};
ghost use Rattle.hep_page.specs.Changes.{parts_of, parts_text, texts_of};
ghost use Rattle.hep_state_text.specs.LineDisplay.{line_shown};
ghost use Rattle.hep_core.specs.CoreValues.{state_of};
ghost use Rattle.hep_machine.specs.Words.{Process, is_number_among, numbered, progress_after};
ghost use Rattle.hep_state_text.specs.Lines.{head_text};
ghost use Rattle.hep_state_text.specs.States as words;

use hep_core::Core;
use hep_names::ProgramSymbols;
use hep_state_text::{
    Listing, SourceImage, StateStorage, append_activations, append_common, append_head,
    append_process, waiting_text,
};
use std::alloc::{AllocError, Global};

// Words for what process p waits for, if it was found waiting and still waits.
fn wait_of(alloc: Global, core: &Core, p: u64) -> Result<Vec<u8>, AllocError>
    ensures { IfOk result (λ text. text.items
        ≡ words.wait_text core.now.core.program (state_of core.now.core) p
        (is_number_among p (progress_after core.now.core.program core.now.core.history).listed)) }
{
    match core.want(p) {
        None => Ok(Vec::new(alloc)),
        Some(want) => waiting_text(alloc, core.machine(), core.image(), p, want),
    }
}

// The lines of process p, if it lives.
fn append_one(
    alloc: Global,
    text: &mut Vec<u8>,
    core: &Core,
    lines: &Listing<'_>,
    p: u64,
) -> Result<(), AllocError>
    ensures { OnOk result ((q : Process) → numbered (state_of core.now.core).processes p ≡ Some q
        → text.new.items ≡ text.old.items ++ words.process_text core.now.core.program (state_of core.now.core) (line_shown lines.now) p
        (is_number_among p (progress_after core.now.core.program core.now.core.history).listed) q) }
{
    if !core.lives(p) {
        return Ok(());
    }
    let waiting = wait_of(alloc, core, p)?;
    let source = SourceImage {
        image: core.image(),
        lines,
    };
    append_process(text, core.machine(), &source, p, &waiting)?;
    Ok(())
}

// The lines of all processes that live, by their numbers.
fn append_processes(
    alloc: Global,
    text: &mut Vec<u8>,
    core: &Core,
    lines: &Listing<'_>,
) -> Result<(), AllocError>
    ensures { OnOk result (text.new.items
        ≡ text.old.items ++ words.processes_text core.now.core.program (state_of core.now.core) (line_shown lines.now) (progress_after core.now.core.program core.now.core.history).listed 1
        (state_of core.now.core).processes) }
{
    for index in 0..core.made() {
        append_one(alloc, text, core, lines, index + 1)?;
    }
    Ok(())
}

/// The names of a program's units, and the lines of its source.
#[derive(Clone, Copy)]
pub struct SourceNames<'a> {
    pub symbols: &'a ProgramSymbols<'a>,
    pub lines: &'a Listing<'a>,
}

/// The parts of the text of what everything holds: the lines of processes, of common blocks and of activations.
pub struct Parts {
    pub processes: Vec<u8>,
    pub common: Vec<u8>,
    pub activations: Vec<u8>,
}

// Written out, so that a caller's proof has one call of it at each exit.
impl Drop for Parts {
    fn drop(self) {
        let Parts {
            processes,
            common,
            activations,
        } = self;
    }
}

/// What everything holds after the history of a core, part by part.
///
/// # Errors
///
/// Only where memory was refused.
pub fn survey(alloc: Global, core: &Core, known: &SourceNames<'_>) -> Result<Parts, AllocError>
    requires { known.now.symbols.now ≡ core.now.core.program }
    ensures { IfOk result (λ parts. texts_of parts
        ≡ parts_of core.now.core.program (line_shown known.now.lines.now) (progress_after core.now.core.program core.now.core.history)) }
{
    let machine = core.machine();
    let storage = StateStorage {
        frames: &machine.frames,
        image: core.image(),
        symbols: known.symbols,
    };
    let mut processes = Vec::new(alloc);
    append_processes(alloc, &mut processes, core, known.lines)?;
    let mut common = Vec::new(alloc);
    append_common(alloc, &mut common, machine, &storage)?;
    let mut activations = Vec::new(alloc);
    append_activations(alloc, &mut activations, machine, &storage)?;
    Ok(Parts {
        processes,
        common,
        activations,
    })
}

/// Appends a number of entries, and what everything holds after them, of which these are the parts.
///
/// # Errors
///
/// Only where memory was refused.
pub fn append_state(text: &mut Vec<u8>, entries: u64, parts: &Parts) -> Result<(), AllocError>
    ensures { OnOk result (text.new.items ≡ text.old.items ++ head_text entries ++ parts_text (texts_of parts.now)) }
{
    append_head(text, entries)?;
    text.extend_from_slice(&parts.processes)?;
    text.extend_from_slice(&parts.common)?;
    text.extend_from_slice(&parts.activations)?;
    Ok(())
}

/// The state after a core's history, as a text. Its first line has the number `entries`. After the place of a process
/// comes the line of the source.
///
/// # Errors
///
/// Only where memory was refused.
pub fn state_text(
    alloc: Global,
    core: &Core,
    lines: &Listing<'_>,
    entries: u64,
) -> Result<Vec<u8>, AllocError>
    ensures { IfOk result (λ text. text.items ≡ words.state_text (line_shown lines.now) core.now.core.program entries core.now.core.history) }
{
    let symbols = ProgramSymbols::new(alloc, core.image().program().as_slice())?;
    let known = SourceNames {
        symbols: &symbols,
        lines,
    };
    let parts = survey(alloc, core, &known)?;
    let mut text = Vec::new(alloc);
    append_state(&mut text, entries, &parts)?;
    Ok(text)
}
