//! The arena and the image that lines are made from.

use hep_image::Image;
use hep_names::ProgramSymbols;
use hep_proc::Frames;

/// The arena with its frames, the image that runs, and the names of its units.
#[derive(Clone, Copy)]
pub struct StateStorage<'a> {
    pub frames: &'a Frames,
    pub image: &'a Image,
    pub symbols: &'a ProgramSymbols<'a>,
}
