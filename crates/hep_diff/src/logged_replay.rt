//! The steps of each process in a history, noted while it is made again.
ghost use Rattle.std.specs.Prelude.{◌≡◌, ◌≤◌, IfOk, ℕ, length};
ghost use Rattle.hep_diff.specs.ProcessSteps as words;
ghost use Rattle.hep_diff.specs.StepLogs.{kept_of};
ghost use Rattle.hep_why.specs.Watches.{IsReplayed};

use crate::next_process_step::deed_by;
use crate::process_step::ProcessStep;
use crate::step_logs::note;
use hep_fold::{DecodedImage, HistoryRange, Observer, TurnRow, fold_history};
use hep_image::Image;
use hep_state::CoreState;
use hep_why::{Core, History};
use std::alloc::{AllocError, Global};

/// The steps of each process so far.
#[derive(Drop)]
pub(crate) struct StepLog {
    alloc: Global,
    logs: Vec<Vec<ProcessStep>>,
}

impl Observer for StepLog {
    ghost use Rattle.std.specs.Prelude.{◌≡◌, ℕ, List, Some};
    ghost use Rattle.hep_diff.specs.ProcessSteps.{deed_by as step_by};
    ghost use Rattle.hep_diff.specs.StepLogs.{kept_of, steps_after};
    ghost use Rattle.hep_diff.specs.declared.process_step.ProcessStep.{ProcessStep as AProcessStep};
    ghost use Rattle.hep_machine.specs.Words.{run};

    ghost Seen = { ℕ → List AProcessStep };

    ghost knows = { λ program replay made log steps. (q : ℕ) → kept_of log.logs.items q ≡ steps q };

    ghost see = { steps_after };

    type Look = ProcessStep;

    ghost notes = { λ program replay made entry p log look. step_by program (run program made) entry p ≡ Some look };

    fn look(
        &self,
        machine: &CoreState,
        image: &Image,
        entry: u64,
        p: u64,
    ) -> Result<ProcessStep, AllocError> {
        let deed = deed_by(self.alloc, machine, image, p, entry)?;
        Ok(deed)
    }

    fn tell(
        &mut self,
        machine: &CoreState,
        image: &Image,
        entry: u64,
        p: u64,
        look: ProcessStep,
    ) -> Result<(), AllocError> {
        note(self.alloc, &mut self.logs, p, look)?;
        Ok(())
    }

    fn go_on(&mut self, machine: &mut CoreState, tabled: &DecodedImage<'_>, row: TurnRow) -> u64 {
        0
    }
}

/// The steps of each process in the entries of a history after the first `front`. `core` has made all of them. They
/// are made again for it.
///
/// # Errors
///
/// Only where memory was refused.
pub(crate) fn deeds_behind(
    alloc: Global,
    core: &Core,
    entries: &History,
    front: u64,
) -> Result<Vec<Vec<ProcessStep>>, AllocError>
    requires replayed { IsReplayed core.now.core entries.now.items }
    requires few { front ≤ length entries.now.items }
    ensures { IfOk result (λ logs. (q : ℕ) → kept_of logs.items q ≡ words.deeds_behind core.now.core.program front entries.now.items q) }
{
    core.headline();
    let image = core.image();
    let cells = core.cells();
    let end = entries.len();
    let range = HistoryRange {
        history: entries,
        start: front,
        end,
    };
    let logs = Vec::new(alloc);
    let mut log = StepLog { alloc, logs };
    fold_history(alloc, image, cells, &range, &mut log)?;
    Ok(log.logs)
}
