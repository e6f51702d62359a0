//! The commands that run a source in one thread: by choices, by lots, or by a history.

use crate::command::{Command, CommandRequest};
use crate::transcript::Transcript;
use hep_image::Image;
use hep_outcome::{
    LotOptions, Options, ReplayOptions, lots_transcript, replay_transcript, run_by_choices,
};
use std::alloc::{AllocError, Global};

impl Command for Options {
    ghost use Rattle.hep_outcome.specs.Outcome.{IsProgramOutcome};

    type Front = Image;

    ghost gives = { λ options long source program. IsProgramOutcome long program options };

    fn transcript(
        alloc: Global,
        _source: &[u8],
        image: Image,
        asked: &CommandRequest<'_, Self>,
    ) -> Result<Transcript, AllocError> {
        run_by_choices::image_transcript(alloc, image, asked.options, asked.long)
    }
}

impl Command for LotOptions {
    ghost use Rattle.hep_outcome.specs.RunsByLots.{IsDrawnOutcome};

    type Front = Image;

    ghost gives = { λ options long source program. IsDrawnOutcome long program options };

    fn transcript(
        alloc: Global,
        _source: &[u8],
        image: Image,
        asked: &CommandRequest<'_, Self>,
    ) -> Result<Transcript, AllocError> {
        lots_transcript(alloc, image, asked.options, asked.long)
    }
}

impl Command for ReplayOptions<'_> {
    ghost use Rattle.hep_outcome.specs.Replay.{IsTextOutcome};

    type Front = Image;

    ghost gives = { λ options long source program. IsTextOutcome long options.history.now options.arena program };

    fn transcript(
        alloc: Global,
        _source: &[u8],
        image: Image,
        asked: &CommandRequest<'_, Self>,
    ) -> Result<Transcript, AllocError> {
        replay_transcript(alloc, image, asked.options, asked.long)
    }
}
