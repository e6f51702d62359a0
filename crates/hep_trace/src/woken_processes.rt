//! Processes that wait before a turn, and those of them that a turn wakes.
ghost use Rattle.std.specs.Prelude.{◌≡◌, ◌++◌, ◌∷◌, ◌&&◌, [], IfOk, OnOk, nat_eq, not};
ghost use Rattle.std.specs.List.{filter};
ghost use Rattle.hep_core.specs.CoreValues.{CoreValue};
ghost use Rattle.hep_machine.specs.Words.{is_number_among, progress_after};
ghost use Rattle.hep_trace.specs.WokenProcesses.{listed_numbers};
ghost use Rattle.hep_event.specs.LineTexts as lines;
ghost use Rattle.hep_event.specs.Traces.{woken};

use hep_event::{Core, append_woken};
use std::alloc::{AllocError, Global};

// Whether process p was found waiting and still waits.
fn waits(core: &Core, p: u64) -> bool
    ensures { result ≡ is_number_among p (progress_after core.now.core.program core.now.core.history).listed }
{
    core.want(p).is_some()
}

/// The processes that were found waiting and still wait, by rising numbers.
///
/// This goes over these alone.
///
/// # Errors
///
/// Only where memory was refused.
pub fn waiting_numbers(alloc: Global, core: &Core) -> Result<Vec<u64>, AllocError>
    ensures { IfOk result (λ numbers. numbers.items ≡ listed_numbers core.now.core) }
{
    core.headline();
    let mut numbers = Vec::new(alloc);
    let mut last = 0;
    while let Some(listed) = core.waiting_after(last) {
        numbers.push(listed.process)?;
        last = listed.process;
    }
    Ok(numbers)
}

// Adds process q, unless it waits or is p.
fn add_awake(awake: &mut Vec<u64>, core: &Core, q: u64, p: u64) -> Result<(), AllocError>
    ensures { OnOk result (awake.new.items ≡ awake.old.items
        ++ filter (λ q. not (is_number_among q (progress_after core.now.core.program core.now.core.history).listed) && not (nat_eq p q)) (q ∷ [])) }
{
    if !waits(core, q) && p != q {
        awake.push(q)?;
    }
    Ok(())
}

// The processes of a list that don't wait, without p.
fn awake(alloc: Global, core: &Core, numbers: &[u64], p: u64) -> Result<Vec<u64>, AllocError>
    ensures { IfOk result (λ awake. awake.items ≡ filter (λ q. not (is_number_among q (progress_after core.now.core.program core.now.core.history).listed)
        && not (nat_eq p q)) numbers.now) }
{
    let mut awake = Vec::new(alloc);
    for number in numbers {
        add_awake(&mut awake, core, *number, p)?;
    }
    Ok(awake)
}

/// Appends the processes that a turn of p has woken: those of `waiting`, which waited before it, that don't wait any
/// more.
///
/// # Errors
///
/// Only where memory was refused.
pub fn append_woken_of(
    alloc: Global,
    text: &mut Vec<u8>,
    core: &Core,
    waiting: &[u64],
    p: u64,
) -> Result<(), AllocError>
    ensures { OnOk result ((old : CoreValue) → waiting.now ≡ listed_numbers old
        → text.new.items ≡ text.old.items ++ lines.woken_text (woken p (progress_after old.program old.history)
        (progress_after core.now.core.program core.now.core.history))) }
{
    let awake = awake(alloc, core, waiting, p)?;
    append_woken(text, &awake)
}
