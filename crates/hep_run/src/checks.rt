//! The commands `check`, `check --warn` and `list`.
ghost use Rattle.std.specs.Prelude.{◌≡◌, IfOk};
ghost use Rattle.hep_warnings.specs.Warnings as all;
ghost use Rattle.hep_outcome.specs.Transcripts.{outcome_of};
ghost use Rattle.hep_run.specs.Checks.{outcome_of_warnings};

use crate::command::{Command, CommandRequest};
use crate::transcript::{Transcript, text_transcript};
use hep_check::{Checked, list_text};
use hep_history::History;
use hep_image::Image;
use hep_outcome::{Lines, Status};
use hep_source::Program;
use hep_warnings::{warning_text, warnings};
use std::alloc::{AllocError, Global};

/// `check`: nothing is written of a source that a run wouldn't refuse.
#[derive(Clone, Copy)]
pub struct Check;

/// `check --warn`: a line for each warning.
#[derive(Clone, Copy)]
pub struct Warn;

/// `list`: the lines of the units and common blocks of a source, also where it passes a limit.
#[derive(Clone, Copy)]
pub struct List;

// The transcript of the warnings of a source and its program.
fn warned_transcript(
    alloc: Global,
    source: &[u8],
    program: &Program,
) -> Result<Transcript, AllocError>
    ensures { IfOk result (λ r. outcome_of r ≡ outcome_of_warnings (all.warnings source.now program.now)) }
{
    let found = warnings(alloc, source, program)?;
    let text = warning_text(alloc, &found)?;
    Ok(Transcript {
        output: Vec::new(alloc),
        messages: Lines::Made(text.into_vec()),
        status: Status::Done,
        history: History::new(alloc),
    })
}

impl Command for Check {
    ghost use Rattle.std.specs.Prelude.{◌≡◌, []};
    ghost use Rattle.hep_run.specs.Checks.{outcome_of_text};

    type Front = Image;

    ghost gives = { λ check long source program o. o ≡ outcome_of_text [] };

    fn transcript(
        alloc: Global,
        _source: &[u8],
        _image: Image,
        _asked: &CommandRequest<'_, Self>,
    ) -> Result<Transcript, AllocError> {
        Ok(text_transcript(alloc, Vec::new(alloc)))
    }
}

impl Command for Warn {
    ghost use Rattle.std.specs.Prelude.{◌≡◌};
    ghost use Rattle.hep_warnings.specs.Warnings.{warnings};
    ghost use Rattle.hep_run.specs.Checks.{outcome_of_warnings};

    type Front = Image;

    ghost gives = { λ warn long source program o. o ≡ outcome_of_warnings (warnings source program) };

    fn transcript(
        alloc: Global,
        source: &[u8],
        image: Image,
        _asked: &CommandRequest<'_, Self>,
    ) -> Result<Transcript, AllocError> {
        warned_transcript(alloc, source, image.program())
    }
}

impl Command for List {
    ghost use Rattle.std.specs.Prelude.{◌≡◌};
    ghost use Rattle.hep_check.specs.Listing.{listing};
    ghost use Rattle.hep_run.specs.Checks.{outcome_of_text};

    type Front = Checked;

    ghost gives = { λ list long source program o. o ≡ outcome_of_text (listing program) };

    fn transcript(
        alloc: Global,
        _source: &[u8],
        checked: Checked,
        _asked: &CommandRequest<'_, Self>,
    ) -> Result<Transcript, AllocError> {
        let text = list_text(alloc, &checked)?;
        Ok(text_transcript(alloc, text.into_vec()))
    }
}
