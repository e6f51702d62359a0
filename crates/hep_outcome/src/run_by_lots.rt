//! The run of a program by lots.
ghost use Rattle.std.specs.Prelude.{◌≡◌, [], List, ℕ, IfOk, OnErr, OnOk};
ghost use Rattle.hep_replay.specs.CoreValues.{opening_of};
ghost use Rattle.hep_outcome.specs.RunsByLots.{IsDrawing, IsDrawnOut, IsDrawnOutcome};
ghost use Rattle.hep_outcome.specs.Memory.{MayOpen};
ghost use Rattle.hep_outcome.specs.Transcripts.{outcome_of};

use crate::options::LotOptions;
use crate::random::Lots;
use crate::transcript::{Transcript, ended_transcript, full_transcript, opening_notes_when};
use hep_image::Image;
use hep_replay::{ChooseFault, Core, NewFault};
use std::alloc::{AllocError, Global};

// Chooses the drawn process, until none is ready or the run stops.
fn draw_on(core: &mut Core, options: &LotOptions) -> Result<(), AllocError>
    requires opening { core.old.core.history ≡ [] }
    requires drawing { IsDrawing options.now core.old.core }
    requires out { core.old.core.out ≡ [] }
    ensures program { core.new.core.program ≡ core.old.core.program }
    ensures drawn { OnOk result ((choices : List ℕ) × IsDrawnOut options.now core.new.core choices) }
{
    let mut lots = Lots::new(options.seed);
    while let Some(process) = lots.next(core) {
        match core.choose(process) {
            Ok(_) => {}
            Err(ChooseFault::Stopped(_)) => return Ok(()),
            Err(ChooseFault::NoMemory) => return Err(AllocError),
            Err(ChooseFault::NoSuchProcess) => unreachable!(),
            Err(ChooseFault::IsOut | ChooseFault::NoTicket) => unreachable!(),
        }
    }
    Ok(())
}

// The transcript of a run by lots from a program's opening on, with notes where `long` is true.
fn drawn_transcript(
    alloc: Global,
    core: Core,
    options: &LotOptions,
    long: bool,
) -> Result<Transcript, AllocError>
    requires { core.core ≡ opening_of core.core.program options.now.arena options.now.steps }
    ensures { IfOk result (λ r. IsDrawnOutcome long core.core.program options.now (outcome_of r)) }
{
    let mut core = core;
    draw_on(&mut core, options)?;
    core.headline();
    ended_transcript(alloc, core, long)
}

/// The transcript of a run of an accepted program by lots, with notes where `long` is true.
///
/// # Errors
///
/// Only where memory was refused, which without notes is asked for only where COMMON and the main program's frame fit the arena.
pub fn image_transcript(
    alloc: Global,
    image: Image,
    options: &LotOptions,
    long: bool,
) -> Result<Transcript, AllocError>
    ensures made { IfOk result (λ r. IsDrawnOutcome long image options.now (outcome_of r)) }
    ensures unmade { OnErr result (MayOpen long image options.now.arena) }
{
    let notes = opening_notes_when(alloc, &image, options.arena, long)?;
    match Core::new(alloc, image, options.arena, options.steps) {
        Ok(core) => drawn_transcript(alloc, core, options, long),
        Err(NewFault::ArenaFull) => full_transcript(alloc, &notes),
        Err(NewFault::NoMemory) => Err(AllocError),
    }
}
