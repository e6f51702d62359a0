//! What a picture shows.
ghost use Rattle.std.specs.Prelude.{◌^◌, ◌<◌};

use crate::lane_lines::LaneLines;
use crate::lane_spot::LaneSpot;
use crate::picture_frame::PictureFrame;
use crate::picture_scale::PictureScale;
use hep_formats::TurnMark;

/// What a picture shows.
pub struct PictureParts<'a> {
    pub scale: PictureScale,
    pub frame: PictureFrame,
    pub marks: Vec<TurnMark>,
    pub spots: Vec<LaneSpot>,
    pub lanes: Vec<LaneLines<'a>>,
    pub title: Vec<u8>,
    ghost rows: { frame.rows < 2 ^ 63 },
    ghost columns: { frame.columns < 2 ^ 63 },
}

// Written out, so that a caller's proof has one call of it at each exit.
impl Drop for PictureParts<'_> {
    fn drop(self) {
        let PictureParts {
            scale,
            frame,
            marks,
            spots,
            lanes,
            title,
        } = self;
    }
}
