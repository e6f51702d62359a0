//! How often the statement of each line began, counted while a history is made again.
ghost use Rattle.std.specs.Prelude.{◌≡◌, OnOk};
ghost use Rattle.hep_cover.specs.Coverage.{counted_in};
ghost use Rattle.hep_why.specs.Watches.{IsReplayed};

use crate::counted_turns::{begun, count_on};
use crate::line_counts::count;
use crate::statement_starts::{MarkedImage, StatementStarts, marks_of};
use hep_fold::{CoreState, DecodedImage, HistoryRange, Observer, TurnRow, fold_history};
use hep_image::Image;
use hep_why::{Core, History};
use std::alloc::{AllocError, Global};
use std::mem::replace;

/// How often the statement of each line began so far, with the number of its operations, and the marks of each unit's
/// code.
#[derive(Drop)]
pub(crate) struct LineCoverage<'a> {
    operations: &'a [usize],
    marks: &'a [StatementStarts],
    counts: Vec<Option<u64>>,
}

impl Observer for LineCoverage<'_> {
    ghost use Rattle.std.specs.Prelude.{◌≡◌, ℕ, List, Option};
    ghost use Rattle.hep_cover.specs.Counts.{counts_after};
    ghost use Rattle.hep_cover.specs.StartMarks.{AreMarks};
    ghost use Rattle.hep_cover.specs.StatementStarts.{begun as statement_begun};
    ghost use Rattle.hep_machine.specs.Words.{run};

    // The number of operations of each line's statement, and how often that began.
    ghost Seen = { List ℕ × List (Option ℕ) };

    ghost knows = { λ program replay made o seen.
        AreMarks program seen.0 o.marks.now × (o.operations.now ≡ seen.0) × (o.counts.items ≡ seen.1) };

    ghost see = { counts_after };

    type Look = Option<u32>;

    ghost notes = { λ program replay made entry p o look. look ≡ statement_begun program o.operations.now p (run program made) };

    fn look(
        &self,
        machine: &CoreState,
        image: &Image,
        entry: u64,
        p: u64,
    ) -> Result<Option<u32>, AllocError> {
        Ok(begun(machine, image, self.marks, p))
    }

    fn tell(
        &mut self,
        machine: &CoreState,
        image: &Image,
        entry: u64,
        p: u64,
        look: Option<u32>,
    ) -> Result<(), AllocError> {
        count(&mut self.counts, look);
        Ok(())
    }

    fn go_on(&mut self, machine: &mut CoreState, tabled: &DecodedImage<'_>, row: TurnRow) -> u64 {
        let marked = MarkedImage {
            tabled: *tabled,
            operations: self.operations,
            marks: self.marks,
        };
        count_on(machine, &marked, &mut self.counts, row.process, row.count)
    }
}

/// Counts the statements that the steps of a history begin. `core` has made its entries, and `operations` has the
/// number of operations of each line's statement. The entries are made again for it.
///
/// # Errors
///
/// Only where memory was refused.
pub fn count_history(
    alloc: Global,
    core: &Core,
    operations: &[usize],
    entries: &History,
    counts: &mut Vec<Option<u64>>,
) -> Result<(), AllocError>
    requires { IsReplayed core.now.core entries.now.items }
    ensures { OnOk result (counts.new.items ≡ counted_in core.now.core.program operations.now entries.now.items counts.old.items) }
{
    core.headline();
    let image = core.image();
    let cells = core.cells();
    let end = entries.len();
    let range = HistoryRange {
        history: entries,
        start: 0,
        end,
    };
    let marks = marks_of(alloc, image, operations)?;
    let before = replace(counts, Vec::new(alloc));
    let mut coverage = LineCoverage {
        operations,
        marks: &marks,
        counts: before,
    };
    fold_history(alloc, image, cells, &range, &mut coverage)?;
    *counts = coverage.counts;
    Ok(())
}
