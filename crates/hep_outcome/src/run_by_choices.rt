//! The run of a program by choices.
ghost use Rattle.std.specs.Prelude.{◌≡◌, ◌≤◌, ◌<◌, ℕ, [], None, Some, IfOk, IfErr, OnErr, OnOk, length, slice_get};
ghost use Rattle.hep_machine.specs.Words.{last_process};
ghost use Rattle.hep_replay.specs.CoreValues.{opening_of};
ghost use Rattle.hep_outcome.specs.Outcome.{IsProgramOutcome, IsRunOutcome, next_process};
ghost use Rattle.hep_outcome.specs.Memory.{MayOpen};
ghost use Rattle.hep_outcome.specs.Transcripts.{outcome_of};
ghost use Rattle.hep_outcome.specs.RunProgress.{IsRunning, IsHaltedBy};

use crate::halt::Halt;
use crate::options::Options;
use crate::transcript::{
    Transcript, choice_transcript, ended_transcript, full_transcript, opening_notes_when,
};
use hep_image::Image;
use hep_replay::{ChooseFault, Core, NewFault};
use std::alloc::{AllocError, Global};

// The greatest number of choices of one process that are asked for at once. Their entries get room together.
const MOST_AT_ONCE: u64 = 4_096;

// The index after the choices from this one on that name the same process.
fn end_of_alike(choices: &[u64], first: usize) -> usize
    requires { first < length choices.now }
    ensures more { first < result }
    ensures within { result ≤ length choices.now }
    ensures alike { (k : ℕ) → first ≤ k → k < result → slice_get choices.now k ≡ slice_get choices.now first }
{
    let mut end = first + 1;
    while end < choices.len() && choices[end] == choices[first] {
        end += 1;
    }
    end
}

// Makes the choices from one index to another, which all name this process, until a stop.
fn make_alike(
    core: &mut Core,
    options: &Options,
    process: u64,
    first: usize,
    end: usize,
) -> Result<(), Halt>
    requires running { IsRunning options.now core.old.core }
    requires behind { core.old.core.stop ≡ None → length core.old.core.history ≡ first }
    requires before { first ≤ end }
    requires alike { (k : ℕ) → first ≤ k → k < end → slice_get options.now.choices k ≡ Some process }
    ensures program { core.new.core.program ≡ core.old.core.program }
    ensures running { OnOk result (IsRunning options.now core.new.core) }
    ensures made { OnOk result (core.new.core.stop ≡ None → length core.new.core.history ≡ end) }
    ensures halted { IfErr result (IsHaltedBy options.now core.new.core) }
{
    let mut index = first;
    while index < end {
        match core.go_on(process, MOST_AT_ONCE.min((end - index) as u64)) {
            Ok(turns) => index += turns.made as usize,
            Err(ChooseFault::Stopped(_)) => return Ok(()),
            Err(ChooseFault::NoSuchProcess) => return Err(Halt::NoSuchProcess(index + 1)),
            Err(ChooseFault::IsOut | ChooseFault::NoTicket) => unreachable!(),
            Err(ChooseFault::NoMemory) => return Err(Halt::NoMemory),
        }
    }
    Ok(())
}

// Makes the choices in order, until a stop.
fn make_choices(core: &mut Core, options: &Options) -> Result<(), Halt>
    requires opening { core.old.core.history ≡ [] }
    requires running { IsRunning options.now core.old.core }
    ensures program { core.new.core.program ≡ core.old.core.program }
    ensures running { OnOk result (IsRunning options.now core.new.core) }
    ensures made { OnOk result (core.new.core.stop ≡ None
        → length options.now.choices ≤ length core.new.core.history) }
    ensures halted { IfErr result (IsHaltedBy options.now core.new.core) }
{
    let choices = options.choices.as_slice();
    let mut first = 0;
    while first < choices.len() {
        let end = end_of_alike(choices, first);
        make_alike(core, options, choices[first], first, end)?;
        first = end;
    }
    Ok(())
}

// The number of choices of a process that comes next that are asked for at once. The process that came last comes
// next only if no other is ready.
fn most_at_once(core: &Core, process: u64) -> u64
    ensures some { 1 ≤ result }
    ensures alone { 2 ≤ result → last_process core.now.core.history ≡ process }
{
    if process == core.last_process() {
        MOST_AT_ONCE
    } else {
        1
    }
}

// Chooses in rounds, where several processes are ready.
fn go_round(core: &mut Core, options: &Options, most: u64)
    requires running { IsRunning options.now core.old.core }
    requires made { core.old.core.stop ≡ None
        → length options.now.choices ≤ length core.old.core.history }
    ensures program { core.new.core.program ≡ core.old.core.program }
    ensures running { IsRunning options.now core.new.core }
    ensures made { core.new.core.stop ≡ None
        → length options.now.choices ≤ length core.new.core.history }
    ensures more { (core.new.core.limit ≡ core.old.core.limit) × (length core.old.core.history ≤ length core.new.core.history) }
{
    if most == 1 {
        core.go_round(u64::MAX);
    }
}

// Chooses the ready processes, until none is ready or the run stops.
fn run_on(core: &mut Core, options: &Options) -> Result<(), AllocError>
    requires running { IsRunning options.now core.old.core }
    requires made { core.old.core.stop ≡ None
        → length options.now.choices ≤ length core.old.core.history }
    ensures program { core.new.core.program ≡ core.old.core.program }
    ensures running { OnOk result (IsRunning options.now core.new.core) }
    ensures over { OnOk result (core.new.core.stop ≡ None
        → next_process core.new.core.program options.now.choices core.new.core.history ≡ None) }
{
    while let Some(process) = core.next_ready() {
        let most = most_at_once(core, process);
        match core.go_on(process, most) {
            Ok(_) => go_round(core, options, most),
            Err(ChooseFault::Stopped(_)) => return Ok(()),
            Err(ChooseFault::NoMemory) => return Err(AllocError),
            Err(ChooseFault::NoSuchProcess) => unreachable!(),
            Err(ChooseFault::IsOut | ChooseFault::NoTicket) => unreachable!(),
        }
    }
    Ok(())
}

// The transcript of a run from a program's opening on, with notes where `long` is true.
fn run_transcript(
    alloc: Global,
    core: Core,
    options: &Options,
    long: bool,
) -> Result<Transcript, AllocError>
    requires { core.core ≡ opening_of core.core.program options.now.arena options.now.steps }
    ensures { IfOk result (λ r. IsRunOutcome long core.core.program options.now (outcome_of r)) }
{
    let mut core = core;
    match make_choices(&mut core, options) {
        Ok(()) => {}
        Err(Halt::NoMemory) => return Err(AllocError),
        Err(Halt::NoSuchProcess(choice)) => {
            core.headline();
            return choice_transcript(alloc, core, choice);
        }
    }
    run_on(&mut core, options)?;
    core.headline();
    ended_transcript(alloc, core, long)
}

/// The transcript of a run of an accepted program, with notes where `long` is true.
///
/// # Errors
///
/// Only where memory was refused, which without notes is asked for only where COMMON and the main program's frame fit the arena.
pub fn image_transcript(
    alloc: Global,
    image: Image,
    options: &Options,
    long: bool,
) -> Result<Transcript, AllocError>
    ensures made { IfOk result (λ r. IsProgramOutcome long image options.now (outcome_of r)) }
    ensures unmade { OnErr result (MayOpen long image options.now.arena) }
{
    let notes = opening_notes_when(alloc, &image, options.arena, long)?;
    match Core::new(alloc, image, options.arena, options.steps) {
        Ok(core) => run_transcript(alloc, core, options, long),
        Err(NewFault::ArenaFull) => full_transcript(alloc, &notes),
        Err(NewFault::NoMemory) => Err(AllocError),
    }
}
