//! The places of processes.
ghost use Rattle.std.specs.Prelude.{◌≡◌, ◌<◌, ◌++◌, ℕ, List, OnOk, Some, codes, length, reverse};
ghost use Rattle.hep_machine.specs.Words.{Process, numbered, run};
ghost use Rattle.hep_proc.specs.Nodes.{nodes_of};
ghost use Rattle.hep_state.specs.Words.{AreThere, IsThere, IsMachineAfter, HasLevels, snapshot_of};
ghost use Rattle.hep_state_text.specs.Lines as lines;
ghost use Rattle.hep_state_text.specs.States as words;
ghost use Rattle.hep_state_text.specs.ProcessLines.{backs_seen, level_seen, line_seen, place_seen, top_seen};
ghost use Rattle.hep_text.specs.LineDisplay.{line_shown};

use crate::lines::append_level;
use hep_image::Image;
use hep_output::append_number;
use hep_proc::{Frames, Local};
use hep_text::Listing;
use hep_views::CoreState;
use hep_views::lookup::line_from;
use std::alloc::AllocError;

/// An image, and the lines of its source.
#[derive(Clone, Copy)]
pub struct SourceImage<'a> {
    pub image: &'a Image,
    pub lines: &'a Listing<'a>,
}

// The line on which the statement of a level begins.
fn line_of(image: &Image, level: Local) -> u32
    requires { level.unit < length image.now }
    ensures { result ≡ line_seen image.now level }
{
    let unit = image.unit(level.unit as usize);
    line_from(unit.code.as_slice(), level.index)
}

// The place where a level goes on.
fn append_place(
    text: &mut Vec<u8>,
    frames: &Frames,
    image: &Image,
    level: Local,
) -> Result<(), AllocError>
    requires { IsThere image.now (nodes_of frames.now.nodes) level }
    ensures { OnOk result (text.new.items ≡ text.old.items ++ place_seen image.now (nodes_of frames.now.nodes) level) }
{
    let name = image.name(level.unit).unwrap();
    append_level(
        text,
        name,
        line_of(image, level),
        frames.activation(level.key),
    )
}

// The lines of a level below the top one.
fn append_back(
    text: &mut Vec<u8>,
    frames: &Frames,
    source: &SourceImage<'_>,
    level: Local,
) -> Result<(), AllocError>
    requires { IsThere source.now.image.now (nodes_of frames.now.nodes) level }
    ensures { OnOk result (text.new.items
        ≡ text.old.items ++ lines.back_text (level_seen source.now.image.now (nodes_of frames.now.nodes) (line_shown source.now.lines.now) level)) }
{
    text.extend_from_slice(b"  BACK TO ")?;
    append_place(text, frames, source.image, level)?;
    text.extend_from_slice(b"\n")?;
    source.lines.append(text, line_of(source.image, level))?;
    Ok(())
}

// The lines of levels below the top one. The uppermost is the last of these.
fn append_backs(
    text: &mut Vec<u8>,
    frames: &Frames,
    source: &SourceImage<'_>,
    levels: &[Local],
) -> Result<(), AllocError>
    requires { AreThere source.now.image.now (nodes_of frames.now.nodes) (reverse levels.now) }
    ensures { OnOk result (text.new.items
        ≡ text.old.items ++ backs_seen source.now.image.now (nodes_of frames.now.nodes) (line_shown source.now.lines.now) (reverse levels.now)) }
{
    for index in 0..levels.len() {
        append_back(text, frames, source, levels[levels.len() - 1 - index])?;
    }
    Ok(())
}

// The front of the first line of process p, which is at a level.
fn append_top(
    text: &mut Vec<u8>,
    frames: &Frames,
    image: &Image,
    p: u64,
    level: Local,
) -> Result<(), AllocError>
    requires { IsThere image.now (nodes_of frames.now.nodes) level }
    ensures { OnOk result (text.new.items ≡ text.old.items ++ top_seen image.now (nodes_of frames.now.nodes) p level) }
{
    text.extend_from_slice(b"PROCESS ")?;
    append_number(text, p)?;
    text.extend_from_slice(b" ")?;
    append_place(text, frames, image, level)?;
    Ok(())
}

// The end of the line: words for what the process waits for, or none.
fn append_waiting(text: &mut Vec<u8>, waiting: &[u8]) -> Result<(), AllocError>
    ensures { OnOk result (text.new.items ≡ text.old.items ++ (waiting.now ++ codes "\n")) }
{
    text.extend_from_slice(waiting)?;
    text.extend_from_slice(b"\n")?;
    Ok(())
}

/// Appends the lines of process p, which lives: its place, with words for what it waits for, or none, and the places
/// to which it returns. After each place comes the line of the source on which the statement begins.
///
/// # Errors
///
/// Only where memory was refused.
pub fn append_process(
    text: &mut Vec<u8>,
    machine: &CoreState,
    source: &SourceImage<'_>,
    p: u64,
    waiting: &[u8],
) -> Result<(), AllocError>
    requires levels { HasLevels (snapshot_of machine.now) p }
    requires after { (cells : ℕ) × (choices : List ℕ) × IsMachineAfter source.now.image.now cells choices machine.now }
    ensures { OnOk result ((cells : ℕ) (choices : List ℕ) (q : Process) → IsMachineAfter source.now.image.now cells choices machine.now
        → numbered (run source.now.image.now choices).processes p ≡ Some q
        → text.new.items
        ≡ text.old.items ++ words.stack_text source.now.image.now (run source.now.image.now choices) (line_shown source.now.lines.now) p waiting.now q) }
{
    let at = machine.place(p);
    let levels = machine.processes[at].levels.as_slice();
    let below = levels.len() - 1;
    let top = levels[below];
    append_top(text, &machine.frames, source.image, p, top)?;
    append_waiting(text, waiting)?;
    source.lines.append(text, line_of(source.image, top))?;
    append_backs(text, &machine.frames, source, &levels[..below])?;
    Ok(())
}
